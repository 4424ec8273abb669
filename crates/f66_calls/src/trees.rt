// Copies of trees, and the value of a constant.
ghost use Rattle.std.specs.Prelude.{◌≡◌, IfOk};
ghost use Rattle.f66_tree.specs.Constants.{constant_value};
ghost use Rattle.f66_tree.specs.Views.{formula_of, line_of};

use f66_tree::{Expr, Stmt, copy_expr, copy_statement, eval_const};
use std::alloc::{AllocError, Global};

/// The value of an integer constant with one sign or none.
pub fn constant_of(e: &Expr) -> Option<i64>
    ensures { result ≡ constant_value (formula_of e.now) }
{
    eval_const(e)
}

/// The same expression once more.
pub fn copied_expression(alloc: Global, e: &Expr) -> Result<Expr, AllocError>
    ensures { IfOk result (λ r. formula_of r ≡ formula_of e.now) }
{
    copy_expr(alloc, e)
}

/// The same statement once more.
pub fn copied(alloc: Global, statement: &Stmt) -> Result<Stmt, AllocError>
    ensures { IfOk result (λ r. line_of r ≡ line_of statement.now) }
{
    copy_statement(alloc, statement)
}
