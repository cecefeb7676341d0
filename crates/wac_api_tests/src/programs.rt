//! The command lines of `wac-vectors`, over writers in memory and over writers that fail.

use super::endings::is_whole;
use std::alloc::{AllocError, Global};
use std::process::Abort;
use std::test::Fail;
use wac_test_tools::Expecting;
use wac_vectors_program::run;

const USAGE: &str = "usage: wac-vectors rows | track NAME | compatible A B\n";

const ROWS: &str = "1 yes
2 no: expected s8, found u8
3 yes
4 no: mismatched type for stream payload
5 no: expected function parameter 0 to be named `b`, found name `a`
6 no: expected function without a result, found function with a result
7 no: expected resource `dir`, found resource `file`
8 yes
9 yes
10 no: instance is missing expected function export `g`
11 no: component is missing expected function import `x`
12 yes
13 no: mismatched type for export `m`
14 no: expected function, found value
15 yes
16 no: mismatched type for map value
17 no: expected list, found map
";

// The words of a command line, what it prints, what it prints on the error output, and its status.
type Line = (&'static [&'static str], &'static str, &'static str, u8);

static LINES: [Line; 12] = [
    (&["rows"], ROWS, "", 0),
    (&["track", "x:y/z"], "none\n", "", 0),
    (&["track", "x:y/z@0.2.3+abc"], "x:y/z@0.2\n", "", 0),
    (
        &["compatible", "a:b/c@0.2.0", "a:b/c@0.2.3"],
        "yes\n",
        "",
        0,
    ),
    (&["compatible", "a:b/c@0.2.0", "a:b/c@0.3.0"], "no\n", "", 0),
    (&[], "", USAGE, 2),
    (&[""], "", USAGE, 2),
    (&["row"], "", USAGE, 2),
    (&["rows", "1"], "", USAGE, 2),
    (&["track"], "", USAGE, 2),
    (&["track", "x:y/z", "x:y/z"], "", USAGE, 2),
    (&["compatible", "a:b/c@0.2.0"], "", USAGE, 2),
];

// Runs a command line over writers whose writes of this number fail; whether one did. Then the
// status is 1, nothing more is written, and what was written is the front of what the line prints.
fn fails<R: Abort>(rt: &R, alloc: Global, line: &Line, number: u32) -> Result<bool, AllocError> {
    let (words, text, error, status) = line;
    let mut out = Expecting::failing_at(text, number);
    let mut err = Expecting::failing_at(error, number);
    let answer = run(alloc, words, &mut out, &mut err);
    if !out.has_failed() && !err.has_failed() {
        assert!(rt; is_whole(answer, *status, &out, &err)?, "{number}");
        return Ok(false);
    }
    assert!(rt;
        answer == 1 && out.has_front() && err.has_front(),
        "{number}"
    );
    Ok(true)
}

// How many writes a command line makes.
fn writes<R: Abort>(rt: &R, alloc: Global, line: &Line) -> Result<usize, AllocError> {
    let mut failed = 0usize;
    for number in 1..200 {
        if !fails(rt, alloc, line, number)? {
            return Ok(failed);
        }
        failed = failed.saturating_add(1);
    }
    Ok(failed)
}

#[test]
fn each_command_line_has_its_output_and_each_failed_write_ends_it(
    rt: HostRuntime,
) -> Result<(), Fail> {
    for line in &LINES {
        let failed = writes(&rt, rt.alloc(), line)?;
        // each line that is printed is one write at least
        assert!(&rt; failed >= line.1.lines().count() && failed >= 1);
    }
    Ok(())
}
