// The statements of FORTRAN that a body of EFL becomes.
ghost use Rattle.std.specs.Prelude.{◌≡◌, ◌++◌, [], IfOk, List};
ghost use Rattle.efl_typed_tree.specs.Views.{stmts_of};
ghost use Rattle.efl_routes.specs.Statements.{all_route};
ghost use Rattle.f66_tree.specs.Syntax.{Line};
ghost use Rattle.f66_tree.specs.Views.{lines_of};
ghost use Rattle.routes.specs.Code.{all_code};
ghost use Rattle.efl_emit.specs.Names.{callee_of, home_of, label_of, made_of, own_of, temp_of};

use crate::{Emitter, Naming, Rings, emit_list};
use efl_typed_tree::TypedStmt;
use f66_tree::Stmt;
use ground::List;
use std::alloc::{AllocError, Global};

/// The statements of FORTRAN that a body becomes: those of its routes, whatever comes next.
pub fn emit_body(
    alloc: Global,
    body: &[TypedStmt],
    naming: &Naming,
) -> Result<List<Stmt>, AllocError>
    ensures { IfOk result (λ code. (next : List Line) →
        all_code (made_of naming.now) (all_route (home_of naming.now) temp_of (callee_of naming.now) (label_of naming.now) (own_of naming.now) (stmts_of body.now) [] 0) 0 [] next
        ≡ lines_of code.items ++ next) }
{
    let mut out = Emitter::new(alloc);
    emit_list(&mut out, naming, body, &Rings::Outside, 0)?;
    Ok(out.into_code())
}
