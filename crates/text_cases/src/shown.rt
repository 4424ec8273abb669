// Tokens, texts and faults as the tests write them.

use ground::{Fault, Text, TokenKind};
use std::alloc::{AllocError, Global};

pub fn push_text(shown: &mut String, text: &Text) -> Result<(), AllocError> {
    for byte in text.as_bytes() {
        shown.push(*byte as char)?;
    }
    Ok(())
}

pub fn push_kind(shown: &mut String, kind: &TokenKind) -> Result<(), AllocError> {
    match kind {
        TokenKind::Word(text) => push_text(shown, text),
        TokenKind::Number(value) => write!(shown, "{value}"),
        TokenKind::Quoted(text) => {
            shown.push('\'')?;
            push_text(shown, text)?;
            shown.push('\'')
        }
        TokenKind::Sign(sign) => write!(shown, "{sign:?}"),
        TokenKind::LineEnd => shown.push_str("/"),
        TokenKind::Semicolon => shown.push_str(";"),
        TokenKind::TextEnd => shown.push_str("end"),
    }
}

/// A fault without its place: its name, and the number of a limit.
pub fn push_fault(shown: &mut String, fault: &Fault) -> Result<(), AllocError> {
    let kind = fault.kind.word();
    let number = fault.number;
    write!(shown, "{kind} {number} at ")
}

/// A byte many times between two texts.
pub fn repeated(
    alloc: Global,
    before: &[u8],
    byte: u8,
    count: usize,
    after: &[u8],
) -> Result<Vec<u8>, AllocError> {
    let mut text = before.to_vec(alloc)?;
    for _ in 0..count {
        text.push(byte)?;
    }
    text.extend_from_slice(after)?;
    Ok(text)
}
