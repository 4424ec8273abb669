// Texts and their tokens, worked out by hand from the rules.

use crate::shown::{push_fault, push_kind, repeated};
use free_scan::{Scanned, scan};
use ground::{Dialect, FaultKind, TokenKind};
use std::alloc::{AllocError, Global};
use std::process::Abort;
use std::test::Fail;

/// The tokens with blanks between them, each change of line as its number, and the fault.
fn shown(alloc: Global, all: &Scanned) -> Result<String, AllocError> {
    let mut shown = String::new(alloc);
    let mut line = 0;
    for token in &all.tokens {
        if token.place.line != line {
            line = token.place.line;
            write!(shown, "{line}: ")?;
        }
        push_kind(&mut shown, &token.kind)?;
        shown.push(' ')?;
    }
    if let Some(fault) = &all.fault {
        push_fault(&mut shown, fault)?;
        let line = fault.place.line;
        write!(shown, "{line}")?;
    }
    Ok(shown)
}

fn check(
    rt: &impl Abort,
    alloc: Global,
    dialect: Dialect,
    rows: &[(&[u8], &str)],
) -> Result<(), Fail> {
    for (text, expected) in rows {
        assert!(rt; text.len() < 1_000_000);
        let all = scan(alloc, dialect, text, 7)?;
        for token in &all.tokens {
            assert_eq!(rt; token.place.file, 7);
        }
        let shown = shown(alloc, &all)?;
        assert_eq!(rt; shown.as_str(), *expected);
    }
    Ok(())
}

/// Texts of Ratfor, and what they are shown as.
const RATFOR_TEXTS: [(&[u8], &str); 34] = [
    (b"", "1: end "),
    (b"\n", "1: / 2: end "),
    (
        b"k = 2 + 3 # five\nEnd\n",
        "1: k Assign 2 Plus 3 / 2: End / 3: end ",
    ),
    (b"80a1;a", "1: 80 a1 ; a end "),
    (b"a_b_1 = 1__0\n", "1: ab1 Assign 10 / 2: end "),
    (b"ab_ # on\n\tcd\n", "1: ab 2: cd / 3: end "),
    (
        b"x == y ~= z ^= u != v\n",
        "1: x Eq y Ne z Ne u Ne v / 2: end ",
    ),
    (b"a<b<=c>d>=e\r\n", "1: a Lt b Le c Gt d Ge e / 2: end "),
    (
        b"~^!a&b&&c|d||e\n",
        "1: Not Not Not a And b And c Or d Or e / 2: end ",
    ),
    (b"1.Eq.2.or..TRUE.\n", "1: 1 Eq 2 Or True / 2: end "),
    (
        b". eq . .eqx. .e_q.\n",
        "1: Point eq Point Point eqx Point Eq / 2: end ",
    ),
    (
        b"[ ] $( $) { }\n",
        "1: OpenBrace CloseBrace OpenBrace CloseBrace OpenBrace CloseBrace / 2: end ",
    ),
    (
        b"a**b*c/d+=e\n",
        "1: a Power b Star c Slash d Plus Assign e / 2: end ",
    ),
    (b"a$b\n", "1: a BadByte 0 at 1"),
    (b"'it\\'s' \"a'b\" ''\n", "1: 'it's' 'a'b' '' / 2: end "),
    (b"'a\\\\' 'b'\n", "1: 'a\\' 'b' / 2: end "),
    (b"'# _' #'\n", "1: '# _' / 2: end "),
    (b"a = 'bc\r\nd\n", "1: a Assign UnclosedQuote 0 at 1"),
    (b"a = 'b\tc\n", "1: a Assign BadByte 0 at 1"),
    (b"a = 'b\\'\n", "1: a Assign UnclosedQuote 0 at 1"),
    (
        b"f(a,\n\n# on\nb)\n% c\n",
        "1: f Open a Comma 4: b Close / PercentLine 0 at 5",
    ),
    (b")(\na)\n", "1: Close Open 2: a Close / 3: end "),
    (
        b"k = 1 +\n# c\n2\n",
        "1: k Assign 1 Plus 2: / 3: 2 / 4: end ",
    ),
    (b"k = (1 +\n", "1: k Assign Open 1 Plus 2: end "),
    (b"a &\nb |\nc _\nd", "1: a And 2: b Or 3: c 4: d end "),
    (b"a $(\nb\n", "1: a OpenBrace 2: b / 3: end "),
    (
        b"include a_b.r # c\nx\n",
        "1: include 'a_b.r' / 2: x / 3: end ",
    ),
    (b" Include ( \"q#\" )\n", "1: Include ' \"q#\" ' / 2: end "),
    (b"include 'a#b' # 'c'", "1: include 'a#b' / end "),
    (b"include a\tb\n", "1: include BadByte 0 at 1"),
    (
        b"; include q\n10 include q\nx +\ninclude q\n",
        "1: ; include q / 2: 10 include q / 3: x Plus 4: include q / 5: end ",
    ),
    (b"a\rb\n", "1: a BadByte 0 at 1"),
    (b"_\ninclude q\n", "2: include 'q' / 3: end "),
    (b"x +\n_\ninclude q\n", "1: x Plus 3: include q / 4: end "),
];

#[test]
fn ratfor_texts(rt: HostRuntime) -> Result<(), Fail> {
    check(&rt, rt.alloc(), Dialect::Ratfor, &RATFOR_TEXTS)
}

/// Texts of EFL.
const EFL_TEXTS: [(&[u8], &str); 19] = [
    (
        b"a != b == c ^= d\n",
        "1: a Ne b Eq c CaretEqual d / 2: end ",
    ),
    (
        b"!a ~b ^c && d || e\n",
        "1: Not a Not b Caret c AndThen d OrElse e / 2: end ",
    ),
    (
        b"a += b -= c *= d /= e **= f\n",
        "1: a AddAssign b SubAssign c MulAssign d DivAssign e PowerAssign f / 2: end ",
    ),
    (
        b"a &= b |= c &&= d ||= e\n",
        "1: a AndAssign b OrAssign c AndThenAssign d OrElseAssign e / 2: end ",
    ),
    (
        b"++a.b->c 2 $ 0 --d\n",
        "1: Increment a Point b Arrow c 2 Dollar 0 Decrement d / 2: end ",
    ),
    (
        b"+++=---\n",
        "1: Increment AddAssign Decrement Minus 2: end ",
    ),
    (b".eq. 'a\\'\n", "1: Point eq Point 'a\\' / 2: end "),
    (
        b"aver_age _ # c\n  value 1\n",
        "1: average 2: value 1 / 3: end ",
    ),
    (
        b"aver_age_ # c\n  value 1\n",
        "1: averagevalue 2: 1 / 3: end ",
    ),
    (b"a_\n_\nb = 1_\r\n\t2\n", "1: ab 3: Assign 12 4: / 5: end "),
    (b"a +_\n= b\n", "1: a AddAssign 2: b / 3: end "),
    (b"a_\n%b\n", "1: a PercentLine 0 at 2"),
    (b"a_", "1: a end "),
    (
        b"f(a,\n\nb) {\nc }\n",
        "1: f Open a Comma 2: / 3: b Close OpenBrace 4: c CloseBrace / 5: end ",
    ),
    (
        b"a ->\nb ~\nc [\nd\n",
        "1: a Arrow 2: b Not 3: c OpenBrace 4: d / 5: end ",
    ),
    (
        b"a $\nb :\nc .\n;\n",
        "1: a Dollar / 2: b Colon / 3: c Point / 4: ; / 5: end ",
    ),
    (
        b"incl_\nude 'q_\nr_s\n",
        "1: include 2: ''q_' / 3: rs / 4: end ",
    ),
    (
        b"include (a'b) _\nc\n",
        "1: include '(a'b) _' / 2: c / 3: end ",
    ),
    (b"'a_\nb\n", "UnclosedQuote 0 at 1"),
];

#[test]
fn efl_texts(rt: HostRuntime) -> Result<(), Fail> {
    check(&rt, rt.alloc(), Dialect::Efl, &EFL_TEXTS)
}

/// The fault of a text, or "none".
fn fault_of(alloc: Global, text: &[u8]) -> Result<String, Fail> {
    let mut shown = String::new(alloc);
    if text.len() > 1_000_000 {
        return Ok(shown);
    }
    match scan(alloc, Dialect::Ratfor, text, 7)?.fault {
        Some(fault) => {
            push_fault(&mut shown, &fault)?;
            let line = fault.place.line;
            write!(shown, "{line}")?;
        }
        None => shown.push_str("none")?,
    }
    Ok(shown)
}

/// A byte many times between two texts, and the fault of that.
const SIZES: [(&[u8], u8, usize, &[u8], &str); 10] = [
    (b"\n", b'a', 255, b"\n", "none"),
    (b"\n", b'a', 256, b"\n", "Limit 11 at 2"),
    (b"a_", b'a', 254, b"_\n", "none"),
    (b"'", b'a', 255, b"'\n", "none"),
    (b"'", b'a', 256, b"'\n", "Limit 11 at 1"),
    (b"'\\", b'a', 255, b"'\n", "none"),
    (b"include ", b'a', 300, b"\n", "none"),
    (b"214748364", b'7', 1, b"\n", "none"),
    (b"214748364", b'8', 1, b"\n", "NumberTooLarge 0 at 1"),
    (b"", b'9', 200_000, b"\n", "NumberTooLarge 0 at 1"),
];

#[test]
fn sizes(rt: HostRuntime) -> Result<(), Fail> {
    for (before, byte, count, after, expected) in &SIZES {
        let text = repeated(rt.alloc(), before, *byte, *count, after)?;
        let fault = fault_of(rt.alloc(), &text)?;
        assert_eq!(rt; fault.as_str(), *expected);
    }
    Ok(())
}

/// What a byte gives that is a line of its own: e an end of the line, w a word, n a number, s a sign, q an open quote,
/// p a line with `%`, c a continued line, b a bad byte.
fn class(all: &Scanned) -> u8 {
    match (&all.fault, all.tokens.first()) {
        (Some(fault), _) => match fault.kind {
            FaultKind::UnclosedQuote => b'q',
            FaultKind::PercentLine => b'p',
            FaultKind::BadByte => b'b',
            _ => b'?',
        },
        (None, Some(token)) => match token.kind {
            TokenKind::LineEnd => b'e',
            TokenKind::Word(_) => b'w',
            TokenKind::Number(_) => b'n',
            TokenKind::Sign(_) | TokenKind::Semicolon => b's',
            TokenKind::TextEnd => b'c',
            TokenKind::Quoted(_) => b'?',
        },
        (None, None) => b'?',
    }
}

const CONTROL_BYTES: &[u8] = b"bbbbbbbbbeebbebbbbbbbbbbbbbbbbbb";

const RATFOR_BYTES: &[u8] =
    b"esqebpsqssssssssnnnnnnnnnnsssssbbwwwwwwwwwwwwwwwwwwwwwwwwwwsbsscbwwwwwwwwwwwwwwwwwwwwwwwwwwssssb";

const EFL_BYTES: &[u8] =
    b"esqespsqssssssssnnnnnnnnnnsssssbbwwwwwwwwwwwwwwwwwwwwwwwwwwsbsscbwwwwwwwwwwwwwwwwwwwwwwwwwwssssb";

/// The class of each byte, by those of the bytes from 32 on.
fn wanted(byte: u8, printable: &[u8]) -> u8 {
    let index = byte as usize;
    if index < 32 {
        CONTROL_BYTES.get(index).copied().unwrap_or(b'b')
    } else {
        printable.get(index - 32).copied().unwrap_or(b'b')
    }
}

#[test]
fn first_bytes(rt: HostRuntime) -> Result<(), Fail> {
    for byte in 0..=255u8 {
        let text = [byte, b'\n'];
        let in_ratfor = class(&scan(rt.alloc(), Dialect::Ratfor, &text, 7)?);
        assert_eq!(rt; in_ratfor, wanted(byte, RATFOR_BYTES));
        let in_efl = class(&scan(rt.alloc(), Dialect::Efl, &text, 7)?);
        assert_eq!(rt; in_efl, wanted(byte, EFL_BYTES));
    }
    Ok(())
}

/// What a byte in quotes gives.
fn class_in_quotes(byte: u8) -> Option<FaultKind> {
    match byte {
        b'\n' | b'"' => Some(FaultKind::UnclosedQuote),
        32..=126 => None,
        _ => Some(FaultKind::BadByte),
    }
}

#[test]
fn bytes_in_quotes(rt: HostRuntime) -> Result<(), Fail> {
    for byte in 0..=255u8 {
        let text = [b'"', byte, b'"'];
        let fault = scan(rt.alloc(), Dialect::Efl, &text, 7)?.fault;
        assert_eq!(rt; fault.map(|fault| fault.kind), class_in_quotes(byte));
    }
    Ok(())
}
