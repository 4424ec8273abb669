//! Stack code of units of FORTRAN.
#![tactic(auto)]

ghost use Rattle.code_gen.specs.Behaves.{ProgramBehaves};
ghost use Rattle.code_gen.specs.LayingOut.{LayoutFits};
ghost use Rattle.code_gen.specs.Linked.{RankedIsProgram};
ghost use Rattle.code_gen.specs.SoundUnits.{SoundIsCoded};

/// The code of a program does what its units do. The function does nothing: its contract is the law.
pub fn code_behaves()
    ensures { ProgramBehaves }
{}

/// The statements of a sound unit are coded, where the units that it calls lie below it.
pub fn sound_is_coded()
    ensures { SoundIsCoded }
{}

/// The layout of distinct units has each entry where the unit before it ends, and keeps what a unit needs below its callers.
pub fn layout_fits()
    ensures { LayoutFits }
{}

/// Sound units that are linked, with ranks that fall along each call, are a program as `code_behaves` asks.
pub fn ranked_is_program()
    ensures { RankedIsProgram }
{}
