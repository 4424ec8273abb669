// The storage units of a run in memory.
ghost use Rattle.std.specs.Prelude.{◌≡◌, ◌<◌, ◌^◌, pos};
ghost use Rattle.runner.specs.declared.words.Cell.TheVariants.{Whole};

use crate::words::Cell;
use std::marker::Model;

const INTEGER: u32 = 0;

const NOTHING: u32 = 1;

const FALSE: u32 = 2;

const TRUE: u32 = 3;

/// A storage unit, which contracts see as what it holds: a kind of content, and an integer that is zero where the content is none.
/// Integers have the kind zero, so that characters are stored and told in many units at once.
#[derive(Clone, Copy)]
pub struct Slot {
    value: i32,
    kind: u32,
}

impl Model for Slot {
    ghost use Rattle.std.proofs.Common.{ap₂};
    ghost use Rattle.runner.specs.declared.words.Cell.{Cell};
    ghost use Rattle.runner.specs.Slots.{cell_of, value_of, kind_of, IsSlot, same_value, same_kind};

    ghost Value = { Cell };

    ghost view = { λ s. cell_of s.value s.kind };

    ghost invariant = { λ s. IsSlot s.value s.kind };

    ghost inverse = { λ c. record { value = value_of c; kind = kind_of c } };

    ghost inverse_ok = { λ s is. ap₂ (λ z k. record { value = z; kind = k }) (same_value s.value s.kind is) (same_kind s.value s.kind is) };
}

impl Slot {
    /// The unit that holds this.
    #[inline(always)]
    pub(crate) fn new(cell: Cell) -> Self
        ensures { result ≡ cell }
    {
        match cell {
            Cell::Whole(value) => Slot {
                value,
                kind: INTEGER,
            },
            Cell::Nothing => Slot {
                value: 0,
                kind: NOTHING,
            },
            Cell::Truth(false) => Slot {
                value: 0,
                kind: FALSE,
            },
            Cell::Truth(true) => Slot {
                value: 0,
                kind: TRUE,
            },
        }
    }

    /// What it holds.
    #[inline(always)]
    pub(crate) fn cell(self) -> Cell
        ensures { result ≡ self }
    {
        if self.kind == INTEGER {
            Cell::Whole(self.value)
        } else if self.kind == NOTHING {
            Cell::Nothing
        } else {
            Cell::Truth(self.kind == TRUE)
        }
    }

    /// The bits of its integer, and its kind: they tell an integer that is not below zero.
    #[inline(always)]
    pub(crate) fn bits(self) -> (u32, u32)
        ensures { result.1 ≡ 0 → result.0 < 2 ^ 31 → self ≡ Whole (pos result.0) }
    {
        (self.value.cast_unsigned(), self.kind)
    }
}
