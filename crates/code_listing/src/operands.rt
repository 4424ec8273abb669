// The operands of an instruction.
ghost use Rattle.std.specs.Prelude.{◌≡◌, ◌++◌, ◌∷◌, [], map, OnOk, decimal};
ghost use Rattle.std.specs.Fmt.{signed_decimal};
ghost use Rattle.code_listing.specs.Listing.{kind_word as word_of_kind, operands, spaced};

use crate::words::{kind_word, operator_word, truth_word};
use crate::writer::{push_number, push_three, push_two, push_word};
use ground::Kind;
use itoa::Buffer;
use stack_code::Op;
use std::alloc::AllocError;

/// Adds the operands of an instruction.
pub fn push_operands(out: &mut Vec<u8>, op: &Op) -> Result<(), AllocError>
    ensures { OnOk result (out.new.items ≡ out.old.items ++ spaced (operands op.now)) }
{
    match op {
        Op::Begin(place) => push_two(out, u32::from(place.file), place.line),
        Op::PushInt(z) => push_integer(out, *z),
        Op::PushLog(b) => push_word(out, truth_word(*b)),
        Op::Spot(first, size) => push_two(out, *first, *size),
        Op::Dummy(number) => push_number(out, *number),
        Op::Element(dimensions) => push_number(out, u32::from(*dimensions)),
        Op::Lend(unit) => push_number(out, *unit),
        Op::Compare(operator) => push_word(out, operator_word(*operator)),
        Op::Known(function, arguments) => push_two(out, u32::from(*function), *arguments),
        Op::Jump(to) => push_number(out, *to),
        Op::JumpFalse(to) => push_number(out, *to),
        Op::JumpSign(below, zero, above) => push_three(out, *below, *zero, *above),
        Op::JumpTable(targets) => push_targets(out, targets),
        Op::LoopStart(limit, step) => push_two(out, *limit, *step),
        Op::LoopTurn(limit, step, to) => push_three(out, *limit, *step, *to),
        Op::Call(entry, dummies) => push_two(out, *entry, *dummies),
        Op::WriteStart(plan) => push_number(out, *plan),
        Op::ReadStart(plan) => push_number(out, *plan),
        Op::PutItem(kind) => push_word(out, kind_word(*kind)),
        Op::TakeItem(kind) => push_word(out, kind_word(*kind)),
        Op::PutRow(kind, dimensions) => push_row(out, *kind, *dimensions),
        Op::TakeRow(kind, dimensions) => push_row(out, *kind, *dimensions),
        Op::HaltWith(number) => push_number(out, u32::from(*number)),
        _ => Ok(()),
    }
}

fn push_integer(out: &mut Vec<u8>, z: i64) -> Result<(), AllocError>
    ensures { OnOk result (out.new.items ≡ out.old.items ++ spaced (signed_decimal z ∷ [])) }
{
    let mut buffer = Buffer::new();
    push_word(out, buffer.format(z).as_bytes())
}

fn push_row(out: &mut Vec<u8>, kind: Kind, dimensions: u8) -> Result<(), AllocError>
    ensures { OnOk result (out.new.items ≡ out.old.items ++ spaced (word_of_kind kind ∷ decimal dimensions ∷ [])) }
{
    push_word(out, kind_word(kind))?;
    push_number(out, u32::from(dimensions))
}

fn push_targets(out: &mut Vec<u8>, targets: &[u32]) -> Result<(), AllocError>
    ensures { OnOk result (out.new.items ≡ out.old.items ++ spaced (map decimal targets.now)) }
{
    for to in targets {
        push_number(out, *to)?;
    }
    Ok(())
}
