// Outlines read, and the first fault of those that are none: the places are worked out by hand.

ghost use Rattle.std.specs.Prelude.{IfOk};
ghost use Rattle.grammar.specs.Grammar.{EndsWith};
ghost use Rattle.grammar_example.specs.Outline.{grammar as outlines, certificate};

use crate::read;
use ground::{Fault, FaultKind, Place, Refusal, Sign, Text, Token, TokenKind};
use std::alloc::{AllocError, Global};
use std::test::Fail;

/// The token of a character, on the line of its number: a letter is a name, and `/` ends a line.
fn token_of(alloc: Global, character: u8, line: u32) -> Result<Token, AllocError> {
    let kind = match character {
        b'>' => TokenKind::Sign(Sign::Gt),
        b':' => TokenKind::Sign(Sign::Colon),
        b'{' => TokenKind::Sign(Sign::OpenBrace),
        b'}' => TokenKind::Sign(Sign::CloseBrace),
        b'+' => TokenKind::Sign(Sign::Plus),
        b';' => TokenKind::Semicolon,
        b'/' => TokenKind::LineEnd,
        _ => TokenKind::Word(Text::from_slice(alloc, &[character])?),
    };
    let place = Place { file: 0, line };
    Ok(Token { kind, place })
}

/// The tokens of a text, each on a line of its own, counted from 1, and the end of the text.
fn tokens_of(alloc: Global, text: &[u8]) -> Result<Vec<Token>, AllocError>
    ensures { IfOk result (λ ts. EndsWith outlines certificate.end ts.items) }
{
    let mut tokens = Vec::new(alloc);
    let mut line = 1u32;
    for character in text {
        tokens.push(token_of(alloc, *character, line)?)?;
        line = line.saturating_add(1);
    }
    let place = Place { file: 0, line };
    tokens.push(Token {
        kind: TokenKind::TextEnd,
        place,
    })?;
    Ok(tokens)
}

/// The names of an outline, a choice in parentheses; or the fault's kind, line and limit.
fn reading(alloc: Global, text: &[u8]) -> Result<Result<Text, Fault>, AllocError> {
    let tokens = tokens_of(alloc, text)?;
    match read(alloc, &tokens) {
        Ok(names) => Ok(Ok(names)),
        Err(Refusal::Fault(fault)) => Ok(Err(fault)),
        Err(Refusal::Memory) => Err(AllocError),
    }
}

#[test]
fn outlines(rt: HostRuntime) -> Result<(), Fail> {
    let rows: [(&[u8], &[u8]); 8] = [
        (b"", b""),
        (b"a", b"a"),
        (b"a;b/c", b"abc"),
        (b"//a//", b"a"),
        (b"{a;{b}c}", b"abc"),
        (b">a;:b;", b"(ab)"),
        (b">>a;:b;", b"((ab))"),
        (b"{{{}}}>>>a", b"(((a)))"),
    ];
    for (text, names) in rows {
        let outcome = reading(rt.alloc(), text)?;
        let read = outcome.ok().ok_or("a fault")?;
        assert_eq!(rt; read.as_bytes(), names);
    }
    Ok(())
}

#[test]
fn faults(rt: HostRuntime) -> Result<(), Fail> {
    let rows: [(&[u8], FaultKind, u32, u64); 14] = [
        (b"ab", FaultKind::Syntax, 2, 0),
        (b":a;", FaultKind::Syntax, 1, 0),
        (b"}", FaultKind::Syntax, 1, 0),
        (b"{a", FaultKind::Syntax, 3, 0),
        (b">", FaultKind::Syntax, 2, 0),
        (b"a;+b", FaultKind::Syntax, 3, 0),
        (b">a;:b;:c;", FaultKind::Syntax, 7, 0),
        (b"{{{{", FaultKind::Limit, 4, 3),
        (b"{{{}{}}}{{{{}}}}", FaultKind::Limit, 12, 3),
        (b">>>>a", FaultKind::Limit, 4, 3),
        (b"{{{:", FaultKind::Syntax, 4, 0),
        (b"{{{{:", FaultKind::Limit, 4, 3),
        (b"a;b;c;d;e;f;", FaultKind::Limit, 11, 5),
        (b"a;b;c;d;ef", FaultKind::Syntax, 10, 0),
    ];
    for (text, kind, line, number) in rows {
        let outcome = reading(rt.alloc(), text)?;
        let fault = outcome.err().ok_or("no fault")?;
        let place = Place { file: 0, line };
        assert_eq!(rt;
            fault,
            Fault {
                kind,
                place,
                number
            }
        );
    }
    Ok(())
}
