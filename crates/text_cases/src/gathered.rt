// Texts with macros and includes, worked out by hand from the rules.

use crate::shown::{push_fault, push_kind, push_text, repeated};
use ground::Dialect;
use macro_define::{Gathered, TextRefusal, gather};
use ports::{Library, MemLibrary};
use std::alloc::{AllocError, Global};
use std::process::Abort;
use std::test::Fail;

/// The tokens with blanks between them, each change of place as the number of the file and the line; and then the names
/// of the files.
fn push_whole(shown: &mut String, all: &Gathered) -> Result<(), AllocError> {
    let mut at = (0, 0);
    for token in &all.tokens {
        let place = token.place;
        if (place.file, place.line) != at {
            at = (place.file, place.line);
            let file = place.file;
            let line = place.line;
            write!(shown, "{file}.{line}: ")?;
        }
        push_kind(shown, &token.kind)?;
        shown.push(' ')?;
    }
    for name in &all.files {
        push_text(shown, name)?;
        shown.push(' ')?;
    }
    Ok(())
}

fn shown(alloc: Global, answer: &Result<Gathered, TextRefusal>) -> Result<String, AllocError> {
    let mut shown = String::new(alloc);
    match answer {
        Ok(all) => push_whole(&mut shown, all)?,
        Err(TextRefusal::Fault(fault, name)) => {
            push_fault(&mut shown, fault)?;
            push_text(&mut shown, name)?;
            let line = fault.place.line;
            write!(shown, ":{line}")?;
        }
        Err(TextRefusal::Library) => shown.push_str("library fault")?,
        Err(TextRefusal::Memory) => shown.push_str("out of memory")?,
    }
    Ok(shown)
}

/// A library that holds the text p and further files; the n-th fetch fails where n is not 0.
fn library(
    alloc: Global,
    text: &[u8],
    files: &[(&str, &[u8])],
    failing: u64,
) -> Result<MemLibrary, Fail> {
    let mut names = Vec::new(alloc);
    names.push((String::from_str(alloc, "p")?, text.to_vec(alloc)?))?;
    for (name, file) in files {
        names.push((String::from_str(alloc, name)?, file.to_vec(alloc)?))?;
    }
    let mut calls = Vec::new(alloc);
    if failing != 0 {
        calls.push(failing)?;
    }
    Ok(MemLibrary::new(names, calls))
}

/// What the text p is shown as beside further files.
fn shown_of(
    alloc: Global,
    dialect: Dialect,
    text: &[u8],
    files: &[(&str, &[u8])],
) -> Result<String, Fail> {
    let mut library = library(alloc, text, files, 0)?;
    let answer = gather(alloc, dialect, "p", &mut library);
    Ok(shown(alloc, &answer)?)
}

fn check(
    rt: &impl Abort,
    alloc: Global,
    dialect: Dialect,
    files: &[(&str, &[u8])],
    rows: &[(&[u8], &str)],
) -> Result<(), Fail> {
    for (text, expected) in rows {
        let shown = shown_of(alloc, dialect, text, files)?;
        assert_eq!(rt; shown.as_str(), *expected);
    }
    Ok(())
}

/// Texts of Ratfor, and what they are shown as.
const RATFOR_MACROS: [(&[u8], &str); 21] = [
    (b"", "0.1: end p "),
    (
        b"define n 7\nk = n\n",
        "0.1: / 0.2: k Assign 7 / 0.3: end p ",
    ),
    (
        b"define n 7\ndefine n 8\nN n\n",
        "0.1: / 0.2: / 0.3: N 8 / 0.4: end p ",
    ),
    (
        b"define a 1\ndefine b a\ndefine a 2\nb\n",
        "0.1: / 0.2: / 0.3: / 0.4: 2 / 0.5: end p ",
    ),
    (
        b"DEFINE(f, g(1, (2)), x) k\nf\n",
        "0.1: k / 0.2: g Open 1 Comma Open 2 Close Close Comma x / 0.3: end p ",
    ),
    (
        b"define a define b\n a 1\n k b\n",
        "0.1: / 0.2: define b 1 / 0.3: k b / 0.4: end p ",
    ),
    (b"define a include q\nk a", "0.1: / 0.2: k include q end p "),
    (b"define a b\ndefine b a\n\nk = a\n", "MacroLoop 0 at p:4"),
    (b"define a b\ndefine b a\nk = a\n", "MacroLoop 0 at p:3"),
    (b"define a a\nk", "0.1: / 0.2: k end p "),
    (b"define(one, 1", "BadDefine 0 at p:1"),
    (b"define(one, 1\n\n2)\nk one", "0.3: / 0.4: k 1 2 end p "),
    (b"\ndefine(one 1)", "BadDefine 0 at p:2"),
    (b"define 7 x\n", "BadDefine 0 at p:1"),
    (b"define\n", "BadDefine 0 at p:1"),
    (b"define Define x\n", "BadDefine 0 at p:1"),
    (b"define a 1 $\n", "BadByte 0 at p:1"),
    (b"define 2147483648 x\n", "NumberTooLarge 0 at p:1"),
    (b"define a", "0.1: end p "),
    (b"k\ndefine a b", "0.1: k / 0.2: end p "),
    (
        b"k define a b; define c d\n a",
        "0.1: k define a b ; define c d / 0.2: a end p ",
    ),
];

#[test]
fn ratfor_macros(rt: HostRuntime) -> Result<(), Fail> {
    check(&rt, rt.alloc(), Dialect::Ratfor, &[], &RATFOR_MACROS)
}

/// Texts of EFL.
const EFL_MACROS: [(&[u8], &str); 3] = [
    (
        b"define N 7\nk = n\n",
        "0.1: / 0.2: k Assign 7 / 0.3: end p ",
    ),
    (b"define(one,\n1)\n", "0.2: / 0.3: end p "),
    (b"define(one, 1\n)\n", "BadDefine 0 at p:1"),
];

#[test]
fn efl_macros(rt: HostRuntime) -> Result<(), Fail> {
    check(&rt, rt.alloc(), Dialect::Efl, &[], &EFL_MACROS)
}

const FILES: [(&str, &[u8]); 6] = [
    ("q", b"define n 7\nm n"),
    ("r", b"include q\ninclude q\n"),
    ("self", b"include self\n"),
    ("bad", b"k\n% k\n"),
    ("empty", b""),
    ("define", b"define n 7"),
];

/// Texts that include those files.
const INCLUDES: [(&[u8], &str); 13] = [
    (
        b"include q\nn\n",
        "1.1: / 1.2: m 7 0.1: / 0.2: 7 / 0.3: end p q ",
    ),
    (
        b"Include 'q'\ninclude r\nk",
        "1.1: / 1.2: m 7 0.1: / 1.1: / 1.2: m 7 2.1: / 1.1: / 1.2: m 7 2.2: / 0.2: / 0.3: k end p q r ",
    ),
    (b"include empty # none", "0.1: / end p empty "),
    (b"k\ninclude none\n", "IncludeMissing 0 at p:2"),
    (b"include define\nn", "0.1: / 0.2: 7 end p define "),
    (b"k\ninclude\n", "IncludeMissing 0 at p:2"),
    (b"include ''\n", "IncludeMissing 0 at p:1"),
    (b"include ( )\n", "IncludeMissing 0 at p:1"),
    (b"include self\n", "IncludeDepth 0 at self:1"),
    (b"include bad\n", "PercentLine 0 at bad:2"),
    (b"; include none\n", "0.1: ; include none / 0.2: end p "),
    (b"define include x\n", "BadDefine 0 at p:1"),
    (b"include none 'x\n$", "IncludeMissing 0 at p:1"),
];

#[test]
fn includes(rt: HostRuntime) -> Result<(), Fail> {
    check(&rt, rt.alloc(), Dialect::Ratfor, &FILES, &INCLUDES)
}

/// How many files a text fetches: each as often as it is included, and none past the first fault.
const FETCHES: [(&[u8], u64); 7] = [
    (b"k\n", 1),
    (b"include q\ninclude r\nk", 5),
    (b"include\n", 1),
    (b"include none\ninclude q\n", 2),
    (b"include q\n$\ninclude q\n", 2),
    (b"define a a\na\ninclude q\n", 1),
    (b"include self\n", 12),
];

#[test]
fn fetches(rt: HostRuntime) -> Result<(), Fail> {
    for (text, expected) in &FETCHES {
        let mut library = library(rt.alloc(), text, &FILES, 0)?;
        drop(gather(rt.alloc(), Dialect::Ratfor, "p", &mut library));
        assert_eq!(rt; library.calls(), *expected);
    }
    Ok(())
}

/// The chain of eleven files p, a to j.
const CHAIN: [(&str, &[u8]); 10] = [
    ("a", b"include b\n"),
    ("b", b"include c\n"),
    ("c", b"include d\n"),
    ("d", b"include e\n"),
    ("e", b"include f\n"),
    ("f", b"include g\n"),
    ("g", b"include h\n"),
    ("h", b"include i\n"),
    ("i", b"include j\n"),
    ("j", b"k\n"),
];

#[test]
fn each_fetch_fails(rt: HostRuntime) -> Result<(), Fail> {
    let alloc = rt.alloc();
    for failing in 0..12u64 {
        let mut library = library(alloc, b"include a\n", &CHAIN, failing)?;
        let answer = gather(alloc, Dialect::Ratfor, "p", &mut library);
        let shown = shown(alloc, &answer)?;
        if failing == 0 {
            assert_eq!(rt;
                shown.as_str(),
                "10.1: k / 9.1: / 8.1: / 7.1: / 6.1: / 5.1: / 4.1: / 3.1: / 2.1: / 1.1: / 0.1: / 0.2: end p a b c d e f g h i j "
            );
            assert_eq!(rt; library.faults(), 0);
        } else {
            assert_eq!(rt; shown.as_str(), "library fault");
            assert_eq!(rt; library.faults(), 1);
        }
    }
    Ok(())
}

/// The chain with another file j, and with a file q.
fn chain_with(alloc: Global, last: &[u8]) -> Result<String, Fail> {
    let mut files = Vec::new(alloc);
    files.push(("j", last))?;
    files.push(("q", b"m\n".as_slice()))?;
    for file in CHAIN {
        files.push(file)?;
    }
    shown_of(alloc, Dialect::Ratfor, b"include a\n", &files)
}

/// What stands in the last of the ten files of the chain: a file that is held is nested too deep.
const DEEPEST_FILES: [(&[u8], &str); 3] = [
    (b"include q\n", "IncludeDepth 0 at j:1"),
    (b"k\ninclude none\n", "IncludeMissing 0 at j:2"),
    (b"include\n", "IncludeMissing 0 at j:1"),
];

#[test]
fn the_deepest_file(rt: HostRuntime) -> Result<(), Fail> {
    for (last, expected) in &DEEPEST_FILES {
        let shown = chain_with(rt.alloc(), last)?;
        assert_eq!(rt; shown.as_str(), *expected);
    }
    Ok(())
}

#[test]
fn a_text_that_is_missing(rt: HostRuntime) -> Result<(), Fail> {
    let alloc = rt.alloc();
    let mut library = library(alloc, b"", &[], 0)?;
    let answer = gather(alloc, Dialect::Efl, "none", &mut library);
    let shown = shown(alloc, &answer)?;
    assert_eq!(rt; shown.as_str(), "IncludeMissing 0 at none:0");
    Ok(())
}

/// Macros of which each but the first stands for two uses of the one before.
#[test]
fn a_chain_that_doubles(rt: HostRuntime) -> Result<(), Fail> {
    let mut text = String::new(rt.alloc());
    text.push_str("define a0 k\n")?;
    for number in 1..40u32 {
        let before = number - 1;
        write!(text, "define a{number} a{before} a{before}\n")?;
    }
    text.push_str("a39\n")?;
    let shown = shown_of(rt.alloc(), Dialect::Ratfor, text.as_bytes(), &[])?;
    assert_eq!(rt; shown.as_str(), "Limit 2 at p:41");
    Ok(())
}

/// Limit 1: bytes of the text p and of the file q, both with a comment of so many bytes at the end.
const BYTES: [(&[u8], usize, &[u8], usize, &str); 6] = [
    (b"", 4_194_304, b"", 0, "0.1: end p "),
    (b"", 4_194_305, b"", 0, "Limit 1 at p:0"),
    (
        b"include q\ninclude q\n",
        0,
        b"",
        2_097_142,
        "0.1: / 0.2: / 0.3: end p q ",
    ),
    (
        b"include q\ninclude q\n",
        1,
        b"",
        2_097_142,
        "Limit 1 at p:2",
    ),
    (b"include q\n", 0, b"", 4_194_295, "Limit 1 at p:1"),
    (
        b"include q\n",
        0,
        b"include q\n",
        400_000,
        "IncludeDepth 0 at q:1",
    ),
];

#[test]
fn bytes(rt: HostRuntime) -> Result<(), Fail> {
    let alloc = rt.alloc();
    for (text, comment, file, more, expected) in &BYTES {
        let text = repeated(alloc, text, b'#', *comment, b"")?;
        let file = repeated(alloc, file, b'#', *more, b"")?;
        let shown = shown_of(alloc, Dialect::Ratfor, &text, &[("q", &file)])?;
        assert_eq!(rt; shown.as_str(), *expected);
    }
    Ok(())
}

/// Limit 2: tokens, many `;` between two texts. The replaced name counts, and so does the end of the text.
const TOKENS: [(&[u8], usize, &[u8], &str); 6] = [
    (b"", 199_999, b"", "; end p "),
    (b"", 200_000, b"", "Limit 2 at p:1"),
    (b"define a k\n", 199_996, b"a", "; k end p "),
    (b"define a k\n", 199_997, b"a", "Limit 2 at p:2"),
    (b"define a a\n", 199_998, b"a", "MacroLoop 0 at p:2"),
    (b"define a a\n", 199_999, b"a", "Limit 2 at p:2"),
];

#[test]
fn tokens(rt: HostRuntime) -> Result<(), Fail> {
    let alloc = rt.alloc();
    for (before, count, after, expected) in &TOKENS {
        let text = repeated(alloc, before, b';', *count, after)?;
        let shown = shown_of(alloc, Dialect::Ratfor, &text, &[])?;
        assert!(rt; shown.ends_with(*expected));
    }
    Ok(())
}

/// So many defines, and a text behind them.
fn defines(alloc: Global, count: u32, after: &str) -> Result<String, AllocError> {
    let mut text = String::new(alloc);
    for number in 0..count {
        write!(text, "define a{number} k\n")?;
    }
    text.push_str(after)?;
    Ok(text)
}

/// Limit 4: macros, behind so many defines.
const MACROS: [(u32, &str, &str); 6] = [
    (4095, "define b m\nb\n", "0.4097: m / 0.4098: end p "),
    (4096, "define b m\n", "Limit 4 at p:4097"),
    (4096, "define(b m)\n", "Limit 4 at p:4097"),
    (4096, "define a7 m\na7\n", "0.4098: m / 0.4099: end p "),
    (4096, "define define m\n", "BadDefine 0 at p:4097"),
    (4096, "define 7 m\n", "BadDefine 0 at p:4097"),
];

#[test]
fn macros(rt: HostRuntime) -> Result<(), Fail> {
    let alloc = rt.alloc();
    for (count, after, expected) in &MACROS {
        let text = defines(alloc, *count, after)?;
        let shown = shown_of(alloc, Dialect::Ratfor, text.as_bytes(), &[])?;
        assert!(rt; shown.ends_with(*expected));
    }
    Ok(())
}

/// Limit 11: a file's name of so many bytes in an include, and of one that is held.
const NAMES: [(usize, usize, &str); 4] = [
    (255, 255, "1.1: m / 0.1: / 0.2: end p f"),
    (256, 256, "Limit 11 at p:1"),
    (256, 255, "IncludeMissing 0 at p:1"),
    (300, 300, "Limit 11 at p:1"),
];

#[test]
fn names(rt: HostRuntime) -> Result<(), Fail> {
    let alloc = rt.alloc();
    for (length, held, expected) in &NAMES {
        let mut name = String::new(alloc);
        for _ in 0..*held {
            name.push('f')?;
        }
        let text = repeated(alloc, b"include ", b'f', *length, b"\n")?;
        let shown = shown_of(alloc, Dialect::Ratfor, &text, &[(name.as_str(), b"m\n")])?;
        assert!(rt; shown.starts_with(*expected));
    }
    Ok(())
}
