// The arguments of a call.
ghost use Rattle.std.specs.Prelude.{◌≡◌, IfOk};
ghost use Rattle.f66_tree.specs.Views.{formulas_of};
ghost use Rattle.efl_routes.specs.Expressions.{or_one};

use f66_tree::Expr;
use ground::List;
use std::alloc::AllocError;

/// The arguments of a call, and the number of the next temporary.
#[derive(Drop)]
pub struct Arguments {
    pub list: List<Expr>,
    pub next: usize,
}

/// A function of FORTRAN has an argument or more.
pub fn or_one(mut list: List<Expr>) -> Result<List<Expr>, AllocError>
    ensures { IfOk result (λ all. formulas_of all.items ≡ or_one (formulas_of list.items)) }
{
    if !list.is_empty() {
        return Ok(list);
    }
    list.push(Expr::Int(0))?;
    Ok(list)
}
