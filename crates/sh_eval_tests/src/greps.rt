//! `grep` with its options, over the standard input and one operand: what is written and told, and the status.
use crate::scripts::{expect, run};
use sh_eval::{Flow, How, Refusal};
use std::alloc::Global;
use std::process::Abort;
use std::sync::Wait;
use std::test::Fail;
use std::thread::Threads;

/// Script, input, output, errors, status. The file `g` has the lines 1 and 2.
type Row = (&'static str, &'static str, &'static str, &'static str, u8);

static LINES: [Row; 18] = [
    ("grep 1 g", "", "1\n", "", 0),
    ("grep -v 1 g", "", "2\n", "", 0),
    ("grep -n 2 g", "", "2:2\n", "", 0),
    ("grep -c 1 g", "", "1\n", "", 0),
    ("grep -c x g", "", "0\n", "", 1),
    ("grep -cv x g", "", "2\n", "", 0),
    ("grep -l 1 g", "", "g\n", "", 0),
    ("grep -lv 1 g", "", "g\n", "", 0),
    ("grep -l 1", "1\n", "(standard input)\n", "", 0),
    ("grep -l 1 -", "1\n", "(standard input)\n", "", 0),
    ("grep -q 1 g && echo yes", "", "yes\n", "", 0),
    ("grep -q z g || echo no", "", "no\n", "", 0),
    ("grep -x a", "ab\na\n", "a\n", "", 0),
    ("grep -i A", "a\nB", "a\n", "", 0),
    ("grep -E '^(a|b){2}$'", "ab\nabc\nba\n", "ab\nba\n", "", 0),
    ("grep '*a'", "*a\na\n", "*a\n", "", 0),
    ("grep -F a.", "ab\na.\n", "a.\n", "", 0),
    ("grep -e 2 -e 1 g", "", "1\n2\n", "", 0),
];

#[test]
fn lines_are_selected(rt: HostRuntime) -> Result<(), Fail> {
    for &(text, input, output, errors, status) in LINES.iter() {
        expect(&rt, rt.alloc(), text, input, output, errors, status)?;
    }
    Ok(())
}

static FAULTS: [Row; 15] = [
    (
        "grep -c x f; echo $?",
        "",
        "2\n",
        "grep: f: No such file or directory\n",
        0,
    ),
    (
        "grep -c 1 d; echo $?",
        "",
        "2\n",
        "grep: d: Is a directory\n",
        0,
    ),
    (
        "grep -l 1 f; echo $?",
        "",
        "2\n",
        "grep: f: No such file or directory\n",
        0,
    ),
    ("grep -qs 1 f; echo $?", "", "2\n", "", 0),
    (
        "echo a | grep '['; echo $?",
        "",
        "2\n",
        "grep: bad usage\n",
        0,
    ),
    ("grep -E 'a|' g; echo $?", "", "2\n", "grep: bad usage\n", 0),
    ("grep -E '(a' g; echo $?", "", "2\n", "grep: bad usage\n", 0),
    (
        "grep 'a\\{256\\}' g; echo $?",
        "",
        "2\n",
        "grep: bad usage\n",
        0,
    ),
    ("grep -s '[' g; echo $?", "", "2\n", "grep: bad usage\n", 0),
    (
        "grep -e 1 -e '[' g; echo $?",
        "",
        "2\n",
        "grep: bad usage\n",
        0,
    ),
    (
        "grep -e '[' -e '\\(a\\)\\1' g; echo $?",
        "",
        "2\n",
        "grep: bad usage\n",
        0,
    ),
    (
        "grep 'a\\{300\\}\\1' g; echo $?",
        "",
        "2\n",
        "grep: bad usage\n",
        0,
    ),
    (
        "grep '[' g 2> f; echo $?; cat f",
        "",
        "2\ngrep: bad usage\n",
        "",
        0,
    ),
    (
        "grep '[' g > g; echo $?; cat g",
        "",
        "2\n",
        "grep: bad usage\n",
        0,
    ),
    ("grep -F '[' && echo yes", "[\n", "[\nyes\n", "", 0),
];

/// The first fault of the patterns is told before anything else is done; the status of an error is 2.
#[test]
fn faults_are_told(rt: HostRuntime) -> Result<(), Fail> {
    for &(text, input, output, errors, status) in FAULTS.iter() {
        expect(&rt, rt.alloc(), text, input, output, errors, status)?;
    }
    Ok(())
}

/// A script that is refused where its patterns are read, and the pattern that is told.
static REFUSED: [(&str, &str); 5] = [
    ("echo aa | grep '\\(a\\)\\1'", "\\(a\\)\\1"),
    ("grep -E '(a)\\1' f", "(a)\\1"),
    ("grep -e 1 -e '\\(a\\)\\1' -e '[' g", "\\(a\\)\\1"),
    ("grep 'a\n\\(b\\)\\1' g", "\\(b\\)\\1"),
    ("grep '\\(a\\)\\1' g > g", "\\(a\\)\\1"),
];

/// Whether the pattern is told.
fn tells(how: &How, wanted: &str) -> bool {
    match how {
        How::Gone(Flow::Refused(Refusal::UnsupportedPattern(pattern))) => {
            pattern.as_slice() == wanted.as_bytes()
        }
        _ => false,
    }
}

/// A script is refused, and this pattern is told.
fn expect_refused<H: Abort + Threads + Wait + Sync>(
    rt: &H,
    alloc: Global,
    text: &str,
    wanted: &str,
) -> Result<(), Fail> {
    let ran = run(rt, alloc, text, "")?.expect(rt, text);
    assert!(rt; tells(&ran.how, wanted), "{text}: {:?}", ran.how);
    drop(ran);
    Ok(())
}

#[test]
fn back_references_are_refused(rt: HostRuntime) -> Result<(), Fail> {
    for &(text, wanted) in REFUSED.iter() {
        expect_refused(&rt, rt.alloc(), text, wanted)?;
    }
    Ok(())
}
