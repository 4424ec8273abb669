// Inputs in pieces, and reads that fail.

use crate::calling::{Pieces, Texts, expect, expect_all};
use std::test::Fail;

const TWO: Texts<'static> = &[(
    "p.r",
    b"read(5,9) k\nwrite(6,9) k\nread(5,9) l\nwrite(6,9) l\n9 format(i4)\nstop\nend\n",
)];

const ONE: Texts<'static> = &[("p.r", b"k = 1\nwrite(6,9) k\n9 format(i2)\nstop\nend\n")];

const ECHO: Texts<'static> = &[(
    "p.r",
    b"10 read(5,9) k\n9 format(i3)\nwrite(6,9) k\ngoto 10\nend\n",
)];

const THREE: Pieces<'static> = &[b"  1\n", b"  2\n", b"  3\n"];

const ALL: &str = "  1\n  2\n  3\n";

const BOTH: &str = "   1\n   2\n";

const FAULT: &str = "input fault\n";

// A text that reads nothing leaves its input alone: its reads may all fail.
#[test]
fn unwanted(rt: HostRuntime) -> Result<(), Fail> {
    expect_all(
        &rt,
        rt.alloc(),
        ONE,
        &[
            (&[b"  1\n", b"  2\n"], (0, 0, 0, 0), (0, " 1\n", "")),
            (&[b"  1\n", b"  2\n"], (0, 0, 0, 1), (0, " 1\n", "")),
            (&[b"  1\n", b"  2\n"], (0, 0, 0, 2), (0, " 1\n", "")),
        ],
    )
}

// A read fails where a record is wanted, and a line that it cuts is no record. No read follows the last record that is wanted.
#[test]
fn failing(rt: HostRuntime) -> Result<(), Fail> {
    expect_all(
        &rt,
        rt.alloc(),
        TWO,
        &[
            (&[b"   1\n", b"   2\n"], (0, 0, 0, 0), (0, BOTH, "")),
            (&[b"   1\n", b"   2\n"], (0, 0, 0, 1), (5, "", FAULT)),
            (&[b"   1\n", b"   2\n"], (0, 0, 0, 2), (5, "   1\n", FAULT)),
            (&[b"   1\n", b"   2\n"], (0, 0, 0, 3), (0, BOTH, "")),
            (&[b"   1\n   2", b"\n"], (0, 0, 0, 2), (5, "   1\n", FAULT)),
            (&[b"   1", b"\n   2\n"], (0, 0, 0, 2), (5, "", FAULT)),
            (&[b"   1\n", b"   2"], (0, 0, 0, 3), (5, "   1\n", FAULT)),
        ],
    )
}

// An input that is cut anywhere has the same records.
#[test]
fn pieces(rt: HostRuntime) -> Result<(), Fail> {
    let input: &[u8] = b"   1\r\n   2\r\n";
    for end in 0..=input.len() {
        let (front, rest) = input.split_at_checked(end).ok_or("no such cut")?;
        expect(
            &rt,
            rt.alloc(),
            TWO,
            &[front, rest],
            (0, 0, 0, 0),
            4096,
            (0, BOTH, ""),
        )?;
    }
    Ok(())
}

// A line that was cut counts as a record that is too long where 65,537 bytes of it have come.
#[test]
fn long_records(rt: HostRuntime) -> Result<(), Fail> {
    let long = (24, "", "trap 14 LongRecord at p.r:1\n");
    let line = vec![in rt.alloc(); b' '; 65_537]?;
    let whole = line.as_slice();
    let (cut, more) = whole.split_at_checked(65_536).ok_or("no such cut")?;
    expect_all(
        &rt,
        rt.alloc(),
        TWO,
        &[
            (&[cut], (0, 0, 0, 2), (5, "", FAULT)),
            (&[whole], (0, 0, 0, 3), long),
            (&[cut, more], (0, 0, 0, 3), long),
            (&[cut, more, b"\n"], (0, 0, 0, 4), long),
        ],
    )
}

// A program that reads without end, over three records: each read fails in turn, and then each put.
#[test]
fn endless(rt: HostRuntime) -> Result<(), Fail> {
    let ended = "trap 6 EndOfInput at p.r:1\n";
    let broken = "output fault\n";
    expect_all(
        &rt,
        rt.alloc(),
        ECHO,
        &[
            (THREE, (0, 0, 0, 1), (5, "", FAULT)),
            (THREE, (0, 0, 0, 2), (5, "  1\n", FAULT)),
            (THREE, (0, 0, 0, 3), (5, "  1\n  2\n", FAULT)),
            (THREE, (0, 0, 0, 4), (5, ALL, FAULT)),
            (THREE, (0, 0, 0, 5), (16, ALL, ended)),
            (THREE, (0, 1, 0, 0), (6, "", broken)),
            (THREE, (0, 2, 0, 0), (6, "  1\n", broken)),
            (THREE, (0, 3, 0, 0), (6, "  1\n  2\n", broken)),
            (THREE, (0, 4, 0, 0), (16, ALL, ended)),
            (
                &[b"  ", b"1", b"\n", b"  2\n"],
                (0, 0, 0, 0),
                (16, "  1\n  2\n", ended),
            ),
        ],
    )
}
