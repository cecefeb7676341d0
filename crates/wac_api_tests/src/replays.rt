//! The command lines of `wac-replay`, scripts that are checked, and the numbers of questions.

use super::endings::is_whole;
use std::alloc::{AllocError, Global};
use std::test::Fail;
use wac_script_program::{check_script, run};
use wac_script_session::Session;
use wac_script_syntax::{ScriptError, read_line};
use wac_test_tools::Expecting;

// Scripts, what they print, what they print on the error output, and their statuses.
static REPLAYS: [(&str, &str, &str, u8); 3] = [
    ("", "", "", 0),
    (
        "# one\nscript a\ncoll 1\ncount 1\n",
        "script a\n1 0 0 0 0 0 0\n",
        "",
        0,
    ),
    (
        "track x:y/z@1.0.0\nkind\nkinds\n",
        "1 x:y/z@1\n",
        "line 2: expected a command, found `kind`\n",
        2,
    ),
];

#[test]
fn scripts_are_answered_up_to_a_line_that_is_malformed(rt: HostRuntime) -> Result<(), Fail> {
    for (script, text, error, status) in &REPLAYS {
        let mut out = Expecting::of(text);
        let mut err = Expecting::of(error);
        let answer = run(&rt, &[], script.as_bytes(), &mut out, &mut err);
        assert!(&rt; is_whole(answer, *status, &out, &err)?, "{script}");
    }
    Ok(())
}

// Scripts that are checked to their ends, what they print, and their statuses.
static CHECKED: [(&str, &str, u8); 4] = [
    ("coll 1\ncount 1\n= 0 0 0 0 0 0\n", "a: 1 questions\n", 0),
    (
        "coll 1\ncount 1\n= 1 0 0 0 0 0\nkinds\n= none\n= at all\n",
        "a:2: count 1\nexpected: 1 0 0 0 0 0\nfound: 0 0 0 0 0 0\na:4: kinds\nexpected: none\nat all\nfound: function | method | static method | constructor | import | export\na: 2 questions, 2 differ\n",
        3,
    ),
    // lines that are refused as is said beside them
    (
        "count\n! expected `count COLL`\ncoll 1\nres r r0 -\n! there is no entry r0\n# one\ncount 1\n= 0 0 0 0 0 0\n",
        "a: 3 questions\n",
        0,
    ),
    // one that is refused otherwise, and lines that aren't refused
    (
        "count 1\n! there is no collection 2\ncoll 1\n! there\ncount 1\n! is no\ncount 1\n= 0 0 0 0 0 0\n",
        "a:1: count 1\nexpected: ! there is no collection 2\nfound: ! there is no collection 1\na:3: coll 1\nexpected: ! there\nfound: no refusal\na:5: count 1\nexpected: ! is no\nfound: = 0 0 0 0 0 0\na: 4 questions, 3 differ\n",
        3,
    ),
];

#[test]
fn answers_and_refusals_are_compared_with_those_beside_the_lines(
    rt: HostRuntime,
) -> Result<(), Fail> {
    for (script, text, status) in &CHECKED {
        let mut out = Expecting::of(text);
        let mut err = Expecting::of("");
        let answer = check_script(rt.alloc(), "a", script, &mut out, &mut err);
        assert!(&rt; is_whole(answer, *status, &out, &err)?, "{script}");
    }
    Ok(())
}

const NO_ANSWER: &str = "a:1: expected an answer after the question\n";

const NO_QUESTION: &str = "a:2: expected a question before an answer\n";

const NO_COMMAND: &str = "a:3: expected a command before a refusal\n";

// Scripts whose check is ended by a line, and what is said of it.
static ENDED: [(&str, &str); 8] = [
    ("kinds\nkinds\n", NO_ANSWER),
    ("coll 1\n= 1\n", NO_QUESTION),
    // lines that are refused with no refusal beside them
    ("count\n", "a:1: expected `count COLL`\n"),
    ("coll 1\ncount 2\n= 1\n", "a:2: there is no collection 2\n"),
    (
        "kind\n# one\n! no\n",
        "a:1: expected a command, found `kind`\n",
    ),
    // refusals with nothing before them: at the start, after another, and after an answer
    ("# one\n\n! no\n", NO_COMMAND),
    ("count\n! expected `count COLL`\n! no\n", NO_COMMAND),
    ("kinds\n= none\n! no\n", NO_COMMAND),
];

#[test]
fn a_line_that_is_neither_answered_nor_expected_to_be_refused_ends_a_check(
    rt: HostRuntime,
) -> Result<(), Fail> {
    for (script, error) in &ENDED {
        let mut out = Expecting::of("");
        let mut err = Expecting::of(error);
        let answer = check_script(rt.alloc(), "a", script, &mut out, &mut err);
        assert!(&rt; is_whole(answer, 2, &out, &err)?, "{script}");
    }
    Ok(())
}

#[test]
fn a_benchmark_that_is_not_there_is_refused(rt: HostRuntime) {
    let mut out = Expecting::of("");
    let mut err = Expecting::of("there is no benchmark `2-tuple`\n");
    let answer = run(
        &rt,
        &["bench", "2-tuple", "1"],
        "".as_bytes(),
        &mut out,
        &mut err,
    );
    assert!(&rt; answer == 2 && out.has_all() && err.has_all());
}

#[test]
fn a_benchmark_of_no_size_is_refused(rt: HostRuntime) {
    let mut out = Expecting::of("");
    let mut err = Expecting::of(
        "usage: wac-replay < SCRIPT | wac-replay check FILE.. | wac-replay bench NAME N\nstatus: 0 done, 1 a failed allocation, read or write, 2 refused, 3 an answer that differs\n",
    );
    let answer = run(
        &rt,
        &["bench", "2-tuple-chain", "0"],
        "".as_bytes(),
        &mut out,
        &mut err,
    );
    assert!(&rt; answer == 2 && out.has_all() && err.has_all());
}

// Benchmarks, and how many operations each has at size 3.
static BENCHMARKS: [(&str, u32); 13] = [
    ("1-subtype-instances", 3),
    ("1b-asked-again", 1),
    ("2-tuple-chain", 1),
    ("2b-instance-chain", 1),
    ("3-aggregate-two-versions", 6),
    ("4a-validate-plain", 6),
    ("4b-validate-versions", 6),
    ("5a-namemap-insert", 3),
    ("5b-namemap-get-exact", 3),
    ("5c-namemap-get-track", 3),
    ("6-refusal-at-depth", 1),
    ("7-growing-import", 3),
    ("7b-growing-identified", 3),
];

#[test]
fn each_benchmark_runs(rt: HostRuntime) -> Result<(), Fail> {
    for (name, operations) in &BENCHMARKS {
        let front = format!(in rt.alloc(); "bench {name} n=3 ops={operations} ns/op=")?;
        let mut out = Vec::new(rt.alloc());
        let mut err = Expecting::of("");
        let words = ["bench", *name, "3"];
        let answer = run(&rt, &words, "".as_bytes(), &mut out, &mut err);
        if answer == 1 {
            return Err(Fail::from(AllocError));
        }
        assert!(&rt; answer == 0 && out.starts_with(front.as_bytes()), "{name}");
    }
    Ok(())
}

// Whether a question prints this, or is refused where it is to print nothing.
fn prints(
    alloc: Global,
    session: &mut Session,
    line: &str,
    wanted: Option<&str>,
) -> Result<bool, Fail> {
    let Some(command) = read_line(alloc, line)? else {
        return Ok(false);
    };
    match session.run(alloc, command) {
        Ok(Some(text)) => Ok(wanted == Some(text.as_str())),
        Ok(None) => Ok(false),
        Err(ScriptError::Memory) => Err(Fail::from(AllocError)),
        Err(_) => Ok(wanted.is_none()),
    }
}

#[test]
fn a_question_that_is_refused_takes_no_number(rt: HostRuntime) -> Result<(), Fail> {
    let mut session = Session::new(rt.alloc());
    assert!(&rt; prints(rt.alloc(), &mut session, "track x@1.0.0", Some("1 x@1"))?);
    assert!(&rt; prints(rt.alloc(), &mut session, "track x@1.0.0 y", None)?);
    assert!(&rt; prints(rt.alloc(), &mut session, "count 1", None)?);
    assert!(&rt; prints(rt.alloc(), &mut session, "track x@2.0.0", Some("2 x@2"))?);
    Ok(())
}
