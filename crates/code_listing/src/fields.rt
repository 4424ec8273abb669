// The FORMAT of a plan.
ghost use Rattle.std.specs.Prelude.{◌≡◌, ◌++◌, ◌∷◌, true, OnOk, decimal, map, if◌then◌else◌};
ghost use Rattle.f66_tree.specs.Syntax.{Format};
ghost use Rattle.format_io.specs.Places.{plan_code, step_of};
ghost use Rattle.stmt_text.specs.Characters.{comma};
ghost use Rattle.stmt_text.specs.Texts.{count_text, edit_letter as letter_of_edit, is_slash as is_slash_step, statement_text, step_of_format};
ghost use Rattle.code_listing.specs.FlatText.{Adds, flat_one, flat_text, free_behind};

use f66_tree::EditKind;
use format_io::{Op, Piece, Plan};
use itoa::Buffer;
use std::alloc::AllocError;

/// Adds the FORMAT of a plan.
pub fn push_format(out: &mut Vec<u8>, plan: &Plan) -> Result<(), AllocError>
    ensures { OnOk result (out.new.items ≡ out.old.items ++ statement_text (Format plan.now)) }
{
    push_all(out, b"FORMAT(")?;
    push_codes(out, plan.code())?;
    push(out, b')')
}

fn push_codes(out: &mut Vec<u8>, ops: &[Op]) -> Result<(), AllocError>
    ensures { OnOk result (Adds out.old.items out.new.items (flat_text true (map plan_code ops.now))) }
{
    let mut free = true;
    for op in ops {
        push_code(out, free, op)?;
        free = is_free_behind(op);
    }
    Ok(())
}

/// Whether a field behind an instruction needs no comma.
fn is_free_behind(op: &Op) -> bool
    ensures { result ≡ free_behind (plan_code op.now) }
{
    match op {
        Op::Once(_, piece) => is_slash(piece),
        Op::Enter(_, _, _) => true,
        Op::Leave(_, _) => false,
    }
}

fn is_slash(piece: &Piece) -> bool
    ensures { result ≡ is_slash_step (step_of piece.now) }
{
    match piece {
        Piece::Slash => true,
        _ => false,
    }
}

fn push_code(out: &mut Vec<u8>, free: bool, op: &Op) -> Result<(), AllocError>
    ensures { OnOk result (Adds out.old.items out.new.items (flat_one free (plan_code op.now))) }
{
    match op {
        Op::Once(count, piece) => {
            push_comma(out, free || is_slash(piece))?;
            push_piece(out, *count, piece)
        }
        Op::Enter(_, count, _) => {
            push_comma(out, free)?;
            push_count(out, *count)?;
            push(out, b'(')
        }
        Op::Leave(_, _) => push(out, b')'),
    }
}

/// An edit with its count.
fn push_piece(out: &mut Vec<u8>, count: u16, piece: &Piece) -> Result<(), AllocError>
    ensures { OnOk result (Adds out.old.items out.new.items (step_of_format count (step_of piece.now))) }
{
    match piece {
        Piece::Takes(kind, width) => {
            push_count(out, count)?;
            push(out, edit_letter(*kind))?;
            push_digits(out, u64::from(*width))
        }
        Piece::Blanks(many) => {
            push_digits(out, u64::from(*many))?;
            push(out, b'X')
        }
        Piece::Chars(text) => {
            push_digits(out, text.as_bytes().len() as u64)?;
            push(out, b'H')?;
            push_all(out, text.as_bytes())
        }
        Piece::Slash => push(out, b'/'),
    }
}

fn edit_letter(kind: EditKind) -> u8
    ensures { result ≡ letter_of_edit kind }
{
    match kind {
        EditKind::Whole => b'I',
        EditKind::Truth => b'L',
        EditKind::Letter => b'A',
    }
}

fn push_comma(out: &mut Vec<u8>, free: bool) -> Result<(), AllocError>
    ensures { OnOk result (Adds out.old.items out.new.items (λ k. if free then k else comma ∷ k)) }
{
    if free {
        return Ok(());
    }
    push(out, b',')
}

/// A count, which is left out where it is 1.
fn push_count(out: &mut Vec<u8>, count: u16) -> Result<(), AllocError>
    ensures { OnOk result (Adds out.old.items out.new.items (count_text count)) }
{
    if count == 1 {
        return Ok(());
    }
    push_digits(out, u64::from(count))
}

fn push(out: &mut Vec<u8>, c: u8) -> Result<(), AllocError>
    ensures { OnOk result (Adds out.old.items out.new.items (λ k. c ∷ k)) }
{
    out.push(c)?;
    Ok(())
}

fn push_all(out: &mut Vec<u8>, text: &[u8]) -> Result<(), AllocError>
    ensures { OnOk result (Adds out.old.items out.new.items (λ k. text.now ++ k)) }
{
    out.extend_from_slice(text)
}

fn push_digits(out: &mut Vec<u8>, n: u64) -> Result<(), AllocError>
    ensures { OnOk result (Adds out.old.items out.new.items (λ k. decimal n ++ k)) }
{
    let mut buffer = Buffer::new();
    push_all(out, buffer.format(n).as_bytes())
}
