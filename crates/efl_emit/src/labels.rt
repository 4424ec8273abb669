// The labels of the source before a statement.
ghost use Rattle.std.specs.Prelude.{OnOk, map};
ghost use Rattle.efl_emit.specs.Names.{emission_of};
ghost use Rattle.efl_emit.specs.Marks.{Marks};

use crate::{Emitter, Naming};
use ground::{Place, Text};
use std::alloc::AllocError;

/// A CONTINUE for each label.
pub fn put_marks(
    out: &mut Emitter,
    naming: &Naming,
    place: Place,
    labels: &[Text],
) -> Result<(), AllocError>
    ensures { OnOk result (Marks naming.now place labels.now (emission_of out.old) (emission_of out.new)) }
{
    for label in labels {
        out.put_here(place, naming.label(label))?;
    }
    Ok(())
}
