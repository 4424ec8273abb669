// The statement or header that a line of a deck says, or its fault.
ghost use Rattle.std.specs.Prelude.{◌≡◌, ◌^◌, ◌<◌, Some, IfOk, IfErr, length};
ghost use Rattle.card_reader.specs.Told.{card_line_of};
ghost use Rattle.f66_tree.specs.Views.{act_of, header_of, line_of};
ghost use Rattle.stmt_reader.specs.Acts.{header_if};
ghost use Rattle.stmt_reader.specs.Faults.{Read, Refused, HeaderRefused, answer_of, format_is_large, header_answer, header_answer_of, text_answer};
ghost use Rattle.stmt_reader.specs.Statements.{statement_of};
ghost use Rattle.stmt_lines.specs.Answers.{IsHeaderRefusal, IsRead, IsRefusal, answered, has_label, header_answered, header_read, tokens_answer};

use crate::acts::read_act;
use card_reader::Line;
use f66_tree::{Header, Stmt, StmtKind};
use ground::{Fault, FaultKind, Place, Refusal};
use std::alloc::Global;
use stmt_faults::{Asked, act_has, has_large, header_has_long_name, is_too_deep};
use stmt_reader::{Token, read_header_tokens, read_tokens};

/// The number of the limit on open parentheses.
const NESTING_LIMIT: u64 = 3;

/// The statement that a line says, or the line's fault: too many open parentheses, else Syntax, else a number that is
/// too large, else a name that is too long.
pub fn read_statement(alloc: Global, line: &Line) -> Result<Stmt, Refusal>
    ensures read { IfOk result (λ s. IsRead (card_line_of line.now) (line_of s)) }
    ensures refused { IfErr result (IsRefusal (text_answer line.now.text) line.now.place) }
{
    let tokens = read_tokens(alloc, line.text.as_bytes())?;
    let kind = read_kind(alloc, line.place, &tokens)?;
    Ok(Stmt {
        label: line.label,
        place: line.place,
        kind,
    })
}

fn read_kind(alloc: Global, place: Place, tokens: &[Token]) -> Result<StmtKind, Refusal>
    requires { length tokens.now < 2 ^ 63 }
    ensures read { IfOk result (λ k. tokens_answer tokens.now ≡ Read (act_of k)) }
    ensures refused { IfErr result (IsRefusal (tokens_answer tokens.now) place) }
{
    if is_too_deep(tokens) {
        return Err(Refusal::Fault(Fault::limit(place, NESTING_LIMIT)));
    }
    read_shallow(alloc, place, tokens)
}

/// The statement of tokens among which not too many parentheses are open.
fn read_shallow(alloc: Global, place: Place, tokens: &[Token]) -> Result<StmtKind, Refusal>
    requires { length tokens.now < 2 ^ 63 }
    ensures read { IfOk result (λ k. answer_of tokens.now (statement_of tokens.now) ≡ Read (act_of k)) }
    ensures refused { IfErr result (IsRefusal (answer_of tokens.now (statement_of tokens.now)) place) }
{
    let Some(kind) = read_act(alloc, tokens)? else {
        return Err(fault(place, FaultKind::Syntax));
    };
    match fault_of(tokens, &kind) {
        None => Ok(kind),
        Some(found) => Err(fault(place, found)),
    }
}

/// The fault of a statement that these tokens say.
fn fault_of(tokens: &[Token], kind: &StmtKind) -> Option<FaultKind>
    ensures { answer_of tokens.now (Some (act_of kind.now)) ≡ answered result (act_of kind.now) }
{
    if act_has(Asked::TooLarge, kind) || is_large_format(kind, tokens) {
        Some(FaultKind::NumberTooLarge)
    } else if act_has(Asked::TooLong, kind) {
        Some(FaultKind::NameTooLong)
    } else {
        None
    }
}

/// Whether a statement is a FORMAT with a number or width that is too large.
fn is_large_format(kind: &StmtKind, tokens: &[Token]) -> bool
    ensures { result ≡ format_is_large (act_of kind.now) tokens.now }
{
    match kind {
        StmtKind::Format(_) => has_large(tokens),
        _ => false,
    }
}

fn fault(place: Place, kind: FaultKind) -> Refusal
    ensures statement { IsRefusal (Refused kind 0) place result }
    ensures header { IsHeaderRefusal (HeaderRefused kind) place result }
{
    Refusal::Fault(Fault::new(place, kind))
}

/// The header that a line says, None where it says none, or its fault: Syntax where it has a label, else a name that is
/// too long.
pub fn read_header(alloc: Global, line: &Line) -> Result<Option<Header>, Refusal>
    ensures read { IfOk result (λ h. header_answer (has_label line.now.label) line.now.text ≡ header_read (header_if h)) }
    ensures refused { IfErr result (IsHeaderRefusal (header_answer (has_label line.now.label) line.now.text) line.now.place) }
{
    let tokens = read_tokens(alloc, line.text.as_bytes())?;
    let Some(header) = read_header_tokens(alloc, &tokens)? else {
        return Ok(None);
    };
    match header_fault(line.label, &header) {
        None => Ok(Some(header)),
        Some(found) => Err(fault(line.place, found)),
    }
}

/// The fault of a header that stands behind this label.
fn header_fault(label: Option<u32>, header: &Header) -> Option<FaultKind>
    ensures { header_answer_of (has_label label) (Some (header_of header.now)) ≡ header_answered result (header_of header.now) }
{
    if label.is_some() {
        Some(FaultKind::Syntax)
    } else if header_has_long_name(header) {
        Some(FaultKind::NameTooLong)
    } else {
        None
    }
}
