// The plans of the formats of a program, in the order of their numbers.
ghost use Rattle.std.specs.Prelude.{◌≡◌, ◌≤◌, ◌++◌, [], All, IfOk, OnOk, map};
ghost use Rattle.f66_tree.specs.Views.{act_of};
ghost use Rattle.format_io.specs.Places.{depth};
ghost use Rattle.code_gen.specs.Layout.{Layout};
ghost use Rattle.code_emit.specs.Plans.{all_formats, format_then, formats_in};

use crate::coded_unit::NamedUnit;
use f66_tree::{Stmt, StmtKind};
use format_io::{Plan, plan};
use ground::Memory;
use std::alloc::Global;

fn put_plan(alloc: Global, plans: &mut Vec<Plan>, statement: &Stmt) -> Result<(), Memory>
    requires { All (λ f. depth f ≤ 2) (format_then (act_of statement.now.kind) []) }
    ensures { OnOk result (plans.new.items ≡ plans.old.items ++ format_then (act_of statement.now.kind) []) }
{
    let StmtKind::Format(fields) = &statement.kind else {
        return Ok(());
    };
    let made = plan(alloc, fields)?;
    match plans.push(made) {
        Ok(()) => Ok(()),
        Err(_) => Err(Memory),
    }
}

/// Puts the plans of a unit's formats.
fn put_plans<N: NamedUnit>(alloc: Global, plans: &mut Vec<Plan>, named: &N) -> Result<(), Memory>
    requires { All (λ f. depth f ≤ 2) (formats_in ((N.layout named.now).lines (N.number named.now))) }
    ensures { OnOk result (plans.new.items ≡ plans.old.items ++ formats_in ((N.layout named.now).lines (N.number named.now))) }
{
    let statements = named.statements();
    for statement in statements {
        put_plan(alloc, plans, statement)?;
    }
    Ok(())
}

/// The plans of the formats of units whose groups nest at most two deep.
pub fn program_plans<N: NamedUnit>(alloc: Global, units: &[N]) -> Result<Vec<Plan>, Memory>
    requires { All (λ v. All (λ f. depth f ≤ 2) (formats_in ((N.layout v).lines (N.number v)))) units.now }
    ensures { IfOk result (λ plans. (y : Layout) → All (λ v. N.layout v ≡ y) units.now → plans.items ≡ all_formats y.lines (map N.number units.now)) }
{
    let mut plans = Vec::new(alloc);
    for named in units {
        put_plans(alloc, &mut plans, named)?;
    }
    Ok(plans)
}
