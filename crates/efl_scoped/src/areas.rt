// The lists of areas of a program's procedures.
ghost use Rattle.std.specs.Prelude.{◌≡◌, map, IfOk};
ghost use Rattle.efl_tree.specs.Views.{procedure_of};
ghost use Rattle.efl_scope.specs.AreaViews.{AreAgreements};

use crate::lists::{add_firsts, no_lists, own_lists};
use crate::numbers::Pairs;
use efl_scope::AreaLists;
use efl_tree::EflProcedure;
use std::alloc::{AllocError, Global};

/// The lists of each procedure, and of each area that of the first procedure that has it.
#[derive(Drop)]
pub struct ProgramAreas<'a> {
    pub firsts: AreaLists<'a>,
    pub lists: Vec<AreaLists<'a>>,
}

/// The lists of areas of procedures.
pub fn areas_of<'a>(
    alloc: Global,
    procedures: &'a [EflProcedure],
) -> Result<ProgramAreas<'a>, AllocError>
    ensures { IfOk result (λ areas. AreAgreements areas.firsts (map procedure_of procedures.now) areas.lists.items (map procedure_of procedures.now)) }
{
    let mut numbers = Pairs::new(alloc);
    let mut areas = ProgramAreas {
        firsts: no_lists(alloc),
        lists: Vec::new(alloc),
    };
    for procedure in procedures {
        let own = own_lists(alloc, &procedure.declarations, &mut numbers)?;
        add_firsts(alloc, &procedure.declarations, &own, &mut areas.firsts)?;
        areas.lists.push(own)?;
    }
    Ok(areas)
}
