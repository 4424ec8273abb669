// What files and streams give, and the records of an input.

use crate::shown::repeated;
use ports::{FetchFault, FileLibrary, Library, Sink, Source, StreamSink, StreamSource, Whole};
use std::fs;
use std::io::{self, ErrorKind, Read, Write};
use std::test::Fail;

// A stream whose reads fail, and which takes nothing.
#[derive(Drop)]
struct Broken;

impl Read for Broken {
    fn read(&mut self, _buf: &mut [u8]) -> io::Result<usize> {
        Err(io::Error::from(ErrorKind::BrokenPipe))
    }
}

impl Write for Broken {
    fn write(&mut self, _buf: &[u8]) -> io::Result<usize> {
        Ok(0)
    }

    fn flush(&mut self) -> io::Result<()> {
        Ok(())
    }
}

// A file that is there gives its bytes, and a folder is a fault.
#[test]
fn files(rt: HostRuntime) -> Result<(), Fail> {
    fs::write(&rt, "p.r", b"stop\nend\n")?;
    fs::create_dir(&rt, "folder")?;
    let mut library = FileLibrary::new(&rt);
    let held = library.fetch(rt.alloc(), "p.r")?;
    assert!(rt; held.is_some_and(|bytes| bytes.as_slice() == b"stop\nend\n".as_slice()));
    assert_eq!(rt; library.faults(), 0);
    assert_eq!(rt;
        library.fetch(rt.alloc(), "folder").err(),
        Some(FetchFault::Failed)
    );
    assert_eq!(rt; library.faults(), 1);
    Ok(())
}

// A file that is missing is None, and so is one that no file can be named as.
#[test]
fn missing_files(rt: HostRuntime) -> Result<(), Fail> {
    fs::write(&rt, "p.r", b"stop\nend\n")?;
    let mut library = FileLibrary::new(&rt);
    let long = repeated(rt.alloc(), b"", b'f', 256, b"")?;
    let long = String::from_utf8(long)?;
    for name in ["q.r", "p.r/q", "folder/q", long.as_str()] {
        assert!(rt; library.fetch(rt.alloc(), name)?.is_none());
    }
    assert_eq!(rt; library.faults(), 0);
    Ok(())
}

// A read that fails is counted.
#[test]
fn reads(rt: HostRuntime) -> Result<(), Fail> {
    let mut buffer = [0u8; 4];
    let mut good = StreamSource::new(b"ab".as_slice());
    assert_eq!(rt; good.read(&mut buffer).ok(), Some(2));
    assert!(rt; buffer.starts_with(b"ab"));
    assert_eq!(rt; good.read(&mut buffer).ok(), Some(0));
    assert_eq!(rt; good.faults(), 0);
    let mut bad = StreamSource::new(Broken);
    assert!(rt; bad.read(&mut buffer).is_err());
    assert_eq!(rt; bad.faults(), 1);
    Ok(())
}

// A stream that takes nothing has failed, unless nothing was to be put.
#[test]
fn puts(rt: HostRuntime) -> Result<(), Fail> {
    let mut bad = StreamSink::new(Broken);
    assert!(rt; bad.put(b"").is_ok());
    assert!(rt; bad.put(b"a").is_err());
    assert_eq!(rt; bad.faults(), 1);
    let mut bytes = Vec::new(rt.alloc());
    let mut good = StreamSink::new(&mut bytes);
    assert!(rt; good.put(b"ab").is_ok());
    assert_eq!(rt; good.faults(), 0);
    drop(good);
    assert!(rt; bytes.as_slice() == b"ab".as_slice());
    Ok(())
}

// Whether the records of this input are these, each with a `;` behind it.
fn has_records(rt: &HostRuntime, input: &str, wanted: &str) -> Result<bool, Fail> {
    let mut bytes = Vec::new(rt.alloc());
    bytes.extend_from_slice(input.as_bytes())?;
    let mut whole = Whole::new(bytes);
    let mut got = Vec::new(rt.alloc());
    for _ in 0..input.len() {
        if let Some(line) = whole.take() {
            got.extend_from_slice(line)?;
            got.push(b';')?;
        }
    }
    Ok(got.as_slice() == wanted.as_bytes() && whole.take().is_none())
}

/// Inputs, and their records with a `;` behind each.
const LINES: [(&str, &str); 11] = [
    ("", ""),
    ("\n", ";"),
    ("\n\n", ";;"),
    ("ab\ncd\n", "ab;cd;"),
    ("ab\r\ncd\r\n", "ab;cd;"),
    ("\r\n", ";"),
    ("\r\r\n", "\r;"),
    ("a\rb\n", "a\rb;"),
    ("ab\ncd", "ab;cd;"),
    ("ab\ncd\r", "ab;cd\r;"),
    ("\r", "\r;"),
];

// A line ends with a byte 10, and its byte 13 before that is no part of it.
#[test]
fn lines(rt: HostRuntime) -> Result<(), Fail> {
    for (input, wanted) in &LINES {
        assert!(rt; has_records(&rt, input, wanted)?);
    }
    Ok(())
}

// A line that a failed read has cut is no record, unless it is too long already.
#[test]
fn cut_lines(rt: HostRuntime) -> Result<(), Fail> {
    for (size, records) in [(0, 1), (1, 1), (65_536, 1), (65_537, 2)] {
        let mut whole = Whole::cut(repeated(rt.alloc(), b"ab\r\n", b'x', size, b"")?);
        assert_eq!(rt; whole.take().map(|line| line.len()), Some(2));
        if records == 2 {
            assert_eq!(rt; whole.take().map(|line| line.len()), Some(size));
        }
        assert!(rt; whole.take().is_none());
    }
    Ok(())
}

// A record of any length passes through whole.
#[test]
fn long_lines(rt: HostRuntime) -> Result<(), Fail> {
    for size in [65_535, 65_536] {
        let mut whole = Whole::new(repeated(rt.alloc(), b"", b'x', size, b"\r\ny")?);
        assert_eq!(rt; whole.take().map(|line| line.len()), Some(size));
        assert_eq!(rt; whole.take().map(|line| line.len()), Some(1));
        assert!(rt; whole.take().is_none());
    }
    Ok(())
}
