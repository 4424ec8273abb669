// A format, ready for statements that read and write by it.
ghost use Rattle.std.specs.Prelude.{◌≡◌, map};
ghost use Rattle.format_io.specs.Places.{code as code_of, plan_code};

use crate::code::{Laid, Op};
use std::marker::Model;

/// A format, which contracts see as its fields.
#[derive(Drop)]
pub struct Plan {
    pub(crate) laid: Laid,
}

impl Model for Plan {
    ghost use Rattle.f66_tree.specs.Fields.{Fields};
    ghost use Rattle.format_io.specs.Places.{format, IsPlan};
    ghost use Rattle.format_io.specs.Coding.{coded_fields};

    ghost Value = { Fields };

    ghost coded = { coded_fields };

    ghost view = { λ p. format p.laid };

    ghost invariant = { λ p. IsPlan p.laid };
}

impl Plan {
    /// The flat code of the format's fields.
    pub fn code(&self) -> &[Op]
        ensures { map plan_code result.now ≡ code_of 0 self.now }
    {
        &self.laid.ops
    }
}
