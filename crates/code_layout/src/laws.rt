// The laws of the layout of linked programs. The functions do nothing: their contracts are the laws.
ghost use Rattle.code_layout.specs.Compiled.{CompiledBehaves};
ghost use Rattle.code_layout.specs.Laws.{TablesLayOut};
ghost use Rattle.code_layout.specs.Ranked.{LinkedIsRanked};

use code_gen::{code_behaves, ranked_is_program};

/// A whole program of sound units has a layout by any ranks that fall along each call (X3.9-1966, sections 7.2, 8 and 10.2).
pub fn linked_is_ranked()
    ensures { LinkedIsRanked }
{}

/// The tables of a linked program have that layout, where their numbers are its.
pub fn tables_lay_out()
    ensures { TablesLayOut }
{}

/// A run of what `compile` makes shows what the units show, unless that goes wrong.
pub fn compiled_behaves()
    ensures { CompiledBehaves }
{
    ranked_is_program();
    code_behaves();
}
