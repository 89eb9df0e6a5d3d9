//! What is told where a call of an object fails.
ghost use Rattle.std.specs.Prelude.{◌≤◌};

use super::{Entry, Failing, Ran, Reply, finished, in_turn, repeated, run, run_on};
use crate::answers::Why;
use ps_fakes::MemTree;
use ps_lines::Memory;
use std::process::Abort;
use std::sync::Wait;
use std::test::Fail;
use std::thread::Threads;

/// Runs a script over a file whose reader gives at most `most` bytes a read, and fails at the read `fail_at`, counted from 0.
fn stops_at_a_failed_read<R: Abort + AllocGlobal + Threads + Wait + Sync>(
    rt: &R,
    script: &[u8],
    most: usize,
    fail_at: u64,
) -> Result<(), Fail>
    requires { 1 ≤ most }
{
    let alloc = rt.alloc();
    let script = Vec::from_slice(alloc, script)?;
    let text = repeated(alloc, b"0123456789\n", 20_000)?;
    let entries: [Entry; 2] = [
        (b"/w/s", Some(script.as_slice())),
        (b"/w/a", Some(text.as_slice())),
    ];
    let tree = MemTree::of_table(alloc, b"/w", &entries, Vec::new(alloc))?;
    let mut tree = tree.expect(rt, "the entries make a tree");
    tree.plan(b"/w/a", most, Some(fail_at))?;
    let mut engine = in_turn(rt, alloc);
    let ran = run_on(
        alloc,
        &["run", "2", "s"],
        tree,
        Failing::Nothing,
        &mut engine,
    )?;
    assert!(rt;
        ran.ended_with(&Why::TreeFault, 122),
        "{:?} at {most}, {fail_at}",
        ran.why
    );
    assert!(rt;
        ran.has_part_of(&finished(text.as_slice(), b"", 0)),
        "at {most}, {fail_at}"
    );
    assert_eq!(rt; ran.tree.lent(), ran.tree.back(), "at {most}, {fail_at}");
    Ok(())
}

/// The file has more bytes than three reads of any of these sizes give.
#[test]
fn a_failed_read_is_no_end(rt: HostRuntime) -> Result<(), Fail> {
    for fail_at in 0..3 {
        stops_at_a_failed_read(&rt, b"cat a", 1, fail_at)?;
        stops_at_a_failed_read(&rt, b"cat a", 3, fail_at)?;
        stops_at_a_failed_read(&rt, b"cat a", 65_536, fail_at)?;
    }
    stops_at_a_failed_read(&rt, b"cat a | tr a-z A-Z", 4, 1)?;
    for fail_at in 0..2 {
        stops_at_a_failed_read(&rt, b"cat a | grep -F 7 | wc -l", 65_536, fail_at)?;
        stops_at_a_failed_read(&rt, b"tr 0 1 < a", 65_536, fail_at)?;
    }
    Ok(())
}

/// A script, with what it writes to output and errors where no call fails.
type Script<'a> = (&'a str, &'a str, &'a str);

/// The bytes of two files that scripts read, and don't write.
const A: &[u8] = b"x1\n";

const B: &[u8] = b"x2\n";

/// Whether the two files are as they were.
fn keeps_files(tree: &MemTree) -> Result<bool, Memory> {
    Ok(tree.file(b"/w/a")? == Some(A) && tree.file(b"/w/b")? == Some(B))
}

/// Whether a run told all of this where no call failed, and else a part of it, and ended with this fault.
fn told_fault_or_all(ran: &Ran, plain: &Reply, fault: &Why, status: u8) -> bool {
    if ran.has_fault() {
        return ran.ended_with(fault, status) && ran.has_part_of(plain);
    }
    ran.is(plain)
}

/// Runs a script over two files. Where the call that is to fail is made, the run ends with this fault, and else as if none were to fail;
/// answers whether it was made.
fn fails_or_tells_all<R: Abort + AllocGlobal + Threads + Wait + Sync>(
    rt: &R,
    script: Script,
    failing: Failing,
    fault: &Why,
    status: u8,
) -> Result<bool, Fail> {
    let (text, output, errors) = script;
    let entries: [Entry; 3] = [
        (b"/w/s", Some(text.as_bytes())),
        (b"/w/a", Some(A)),
        (b"/w/b", Some(B)),
    ];
    let plain = finished(output.as_bytes(), errors.as_bytes(), 0);
    let ran = run(rt, &["run", "2", "s"], &entries, failing)?;
    let is_right = told_fault_or_all(&ran, &plain, fault, status);
    assert!(rt; is_right, "{text}: {:?} at {failing:?}", ran.why);
    assert!(rt; keeps_files(&ran.tree)?, "{text} at {failing:?}");
    assert_eq!(rt; ran.tree.lent(), ran.tree.back(), "{text} at {failing:?}");
    Ok(ran.has_fault())
}

/// The first calls of each object fail in turn. The script makes the very first of each.
fn fails_at_each_call<R: Abort + AllocGlobal + Threads + Wait + Sync>(
    rt: &R,
    script: Script,
) -> Result<(), Fail> {
    for call in 0..24 {
        let of_tree = fails_or_tells_all(rt, script, Failing::Tree(call), &Why::TreeFault, 122)?;
        assert!(rt; call > 0 || of_tree);
    }
    for call in 0..12 {
        let of_input = fails_or_tells_all(rt, script, Failing::Input(call), &Why::ReadFault, 120)?;
        let of_output = fails_or_tells_all(
            rt,
            script,
            Failing::Output(call),
            &Why::WriteFault,
            121,
        )?;
        let of_errors = fails_or_tells_all(
            rt,
            script,
            Failing::Errors(call),
            &Why::WriteFault,
            121,
        )?;
        assert!(rt; call > 0 || of_input && of_output && of_errors);
    }
    Ok(())
}

/// Each script reads its input and the tree, and writes to output and errors.
#[test]
fn a_failed_call_is_told(rt: HostRuntime) -> Result<(), Fail> {
    let scripts: [Script; 5] = [
        ("echo a; echo b; cat; echo c >&2", "a\nb\nin\n", "c\n"),
        (
            "echo a; cat a missing - b; sort b > f; echo b",
            "a\nx1\nin\nx2\nb\n",
            "cat: missing: No such file or directory\n",
        ),
        (
            "{ echo a; echo b >&2; } > f 2>&1; cat f -; echo c >&2",
            "a\nb\nin\n",
            "c\n",
        ),
        (
            "cat < missing || echo c > g; cat g b -",
            "c\nx2\nin\n",
            "pash: missing: No such file or directory\n",
        ),
        (
            "for i in a b; do cat $i | tr x y; done >> f; read -r x; echo $(cat f) $x *; echo d >&2",
            "y1 y2 in a b f s\n",
            "d\n",
        ),
    ];
    for script in scripts {
        fails_at_each_call(&rt, script)?;
    }
    Ok(())
}
