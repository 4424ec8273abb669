// Fetches and puts that fail.

use crate::calling::{Texts, expect, expect_all};
use std::test::Fail;

const INCLUDING: Texts<'static> = &[
    ("p.r", b"include q\n"),
    (
        "q",
        b"k = 1\nwrite(6,9) k\nwrite(6,9) k\n9 format(i11)\nk = k + n\nend\n",
    ),
];

const RECORDS: &str = "          1\n          1\n";

const TRAP: &str = "trap 5 Undefined at q:5\n";

// The input is not wanted, so that its first read may fail.
#[test]
fn of_one_call(rt: HostRuntime) -> Result<(), Fail> {
    expect_all(
        &rt,
        rt.alloc(),
        INCLUDING,
        &[
            (&[], (0, 0, 0, 0), (15, RECORDS, TRAP)),
            (&[], (1, 0, 0, 0), (4, "", "library fault\n")),
            (&[], (2, 0, 0, 0), (4, "", "library fault\n")),
            (&[], (3, 0, 0, 1), (15, RECORDS, TRAP)),
            (&[], (0, 1, 0, 0), (6, "", "output fault\n")),
            (&[], (0, 2, 0, 0), (6, "          1\n", "output fault\n")),
            (&[], (0, 3, 0, 0), (15, RECORDS, TRAP)),
            (&[], (0, 1, 1, 0), (6, "", "")),
            (&[], (0, 0, 1, 0), (6, RECORDS, "")),
            (&[], (1, 0, 1, 0), (6, "", "")),
        ],
    )
}

// A run that writes nothing and ends puts nothing, so no put can fail.
#[test]
fn of_no_put(rt: HostRuntime) -> Result<(), Fail> {
    let texts: Texts<'static> = &[("p.r", b"end\n")];
    expect_all(
        &rt,
        rt.alloc(),
        texts,
        &[
            (&[], (0, 1, 1, 0), (0, "", "")),
            (&[], (0, 0, 0, 0), (0, "", "")),
        ],
    )
}

// A sink has as much room as the records take, or one byte less: a record goes whole or not at all.
#[test]
fn of_room(rt: HostRuntime) -> Result<(), Fail> {
    let alloc = rt.alloc();
    let none = (0, 0, 0, 0);
    expect(&rt, alloc, INCLUDING, &[], none, 24, (15, RECORDS, TRAP))?;
    expect(
        &rt,
        alloc,
        INCLUDING,
        &[],
        none,
        23,
        (6, "          1\n", "output fault\n"),
    )
}
