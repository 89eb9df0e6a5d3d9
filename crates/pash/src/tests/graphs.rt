//! Printed graphs that are run: what they tell and leave, and what is told of texts that aren't.
//!
//! In a text `'` stands for `"`.
use super::{Entry, Failing, INPUT, Ran, Reply, finished, run};
use crate::answers::Why;
use ps_lines::Text;
use std::alloc::{AllocError, Global};
use std::process::Abort;
use std::sync::Wait;
use std::test::Fail;
use std::thread::Threads;

/// The text of a graph with these nodes and this status.
fn printed(alloc: Global, nodes: &str, status: &str) -> Result<Vec<u8>, AllocError> {
    let mut text = Vec::new(alloc);
    for part in ["{'nodes':[", nodes, "],'status':", status, ",'version':1}"] {
        text.extend_from_slice(quoted(alloc, part)?.as_slice())?;
    }
    Ok(text)
}

/// A text with `"` for each `'`.
fn quoted(alloc: Global, text: &str) -> Result<Vec<u8>, AllocError> {
    let mut bytes = Vec::new(alloc);
    for byte in text.as_bytes() {
        bytes.push(if *byte == b'\'' { b'"' } else { *byte })?;
    }
    Ok(bytes)
}

/// Runs the text in `g` over a few files.
fn run_text<R: Abort + AllocGlobal + Threads + Wait + Sync>(
    rt: &R,
    text: &[u8],
    failing: Failing,
) -> Result<Ran, Fail> {
    let entries: [Entry; 4] = [
        (b"/w/g", Some(text)),
        (b"/w/f", Some(b"a\nb\n")),
        (b"/w/old", Some(b"k\n")),
        (b"/w/d", None),
    ];
    run(rt, &["exec", "g"], &entries, failing)
}

/// A graph that counts the lines of `f`, over two parts of it.
static COUNTING: &str =
    "{'in':[],'kind':'source','out':[0],'path':'/w/f','stage':0},{'in':[0],'kind':'split','out':[1,2],'stage':1},{'in':[1],'kind':'map','out':[3],'stage':1,'words':['wc','-l']},{'in':[2],'kind':'map','out':[4],'stage':1,'words':['wc','-l']},{'in':[3,4],'kind':'agg','out':[5],'stage':1,'words':['wc','-l']},{'in':[5],'kind':'sink','out':[],'stage':1}";

/// One that writes the input into two files and to the output: one anew, the other behind what it holds.
static TEEING: &str =
    "{'in':[],'kind':'source','out':[0],'stage':0},{'append':false,'in':[0],'kind':'tee','out':[1],'path':'/w/new','stage':0},{'append':true,'in':[1],'kind':'tee','out':[2],'path':'/w/old','stage':0},{'in':[2],'kind':'sink','out':[],'stage':0}";

/// A graph's nodes and status, its output and exit status, and what is left of the input and in `new` and `old`.
type Row<'a> = (
    &'a str,
    &'a str,
    &'a str,
    u8,
    &'a str,
    Option<&'a str>,
    &'a str,
);

#[test]
fn printed_graphs_run(rt: HostRuntime) -> Result<(), Fail> {
    let rows: [Row; 6] = [
        (COUNTING, "{'fixed':0}", "2\n", 0, "in\n", None, "k\n"),
        (COUNTING, "{'fixed':7}", "2\n", 7, "in\n", None, "k\n"),
        (
            TEEING,
            "{'fixed':0}",
            "in\n",
            0,
            "",
            Some("in\n"),
            "k\nin\n",
        ),
        (
            "{'in':[],'kind':'source','out':[0],'path':'/w/f','stage':0},{'append':false,'in':[0],'kind':'sink','out':[],'path':'/w/old','stage':0}",
            "{'fixed':0}",
            "",
            0,
            "in\n",
            None,
            "a\nb\n",
        ),
        (
            "{'in':[],'kind':'source','out':[0],'stage':0},{'in':[0],'kind':'whole','out':[1],'stage':0,'words':['grep','x']},{'in':[1],'kind':'sink','out':[],'stage':0}",
            "{'nodes':[1],'none':1,'some':0}",
            "",
            1,
            "",
            None,
            "k\n",
        ),
        ("", "{'fixed':0}", "", 0, "in\n", None, "k\n"),
    ];
    for (nodes, status, output, code, input, new, old) in rows {
        let text = printed(rt.alloc(), nodes, status)?;
        let mut ran = run_text(&rt, text.as_slice(), Failing::Nothing)?;
        let reply = finished(output.as_bytes(), b"", code);
        assert!(rt; ran.is(&reply), "{nodes} ended with {:?}", ran.why);
        assert!(rt; ran.has_left(input.as_bytes()), "{nodes}");
        assert!(rt;
            ran.tree.file(b"/w/new")? == new.map(|text| text.as_bytes()),
            "{nodes}"
        );
        assert!(rt;
            ran.tree.file(b"/w/old")? == Some(old.as_bytes()),
            "{nodes}"
        );
        assert_eq!(rt; ran.tree.lent(), ran.tree.back(), "{nodes}");
    }
    Ok(())
}

/// The text in `g` isn't run: this line is told, and no file is made or changed.
fn tells<R: Abort + AllocGlobal + Threads + Wait + Sync>(
    rt: &R,
    text: &[u8],
    line: &str,
    why: Why,
) -> Result<(), Fail> {
    let mut ran = run_text(rt, text, Failing::Nothing)?;
    let reply = Reply {
        output: b"",
        errors: line.as_bytes(),
        status: 2,
        why,
    };
    assert!(rt; ran.is(&reply), "{line} ended with {:?}", ran.why);
    assert!(rt; ran.has_left(INPUT), "{line}");
    assert!(rt; ran.tree.file(b"/w/new")?.is_none(), "{line}");
    assert!(rt;
        ran.tree.file(b"/w/old")? == Some(b"k\n".as_slice()),
        "{line}"
    );
    assert_eq!(rt; ran.tree.lent(), ran.tree.back(), "{line}");
    Ok(())
}

#[test]
fn texts_that_are_no_graphs_are_told(rt: HostRuntime) -> Result<(), Fail> {
    let alloc = rt.alloc();
    tells(&rt, b"{", "pash: NotJson\n", Why::NotJson)?;
    tells(&rt, b"", "pash: NotJson\n", Why::NotJson)?;
    let other = quoted(alloc, "{'nodes':[],'status':{'fixed':0},'version':9}")?;
    tells(&rt, other.as_slice(), "pash: BadVersion\n", Why::BadVersion)?;
    let rows = [
        // An edge that two nodes give.
        "{'in':[],'kind':'source','out':[0],'path':'/w/f','stage':0},{'in':[0],'kind':'split','out':[1,2],'stage':1},{'in':[1],'kind':'map','out':[3],'stage':1,'words':['wc','-l']},{'in':[2],'kind':'map','out':[3],'stage':1,'words':['wc','-l']},{'in':[3,4],'kind':'agg','out':[5],'stage':1,'words':['wc','-l']},{'in':[5],'kind':'sink','out':[],'stage':1}",
        // A pattern that can't be read, which is told before the file that isn't there.
        "{'in':[],'kind':'source','out':[0],'path':'/w/none','stage':0},{'in':[0],'kind':'whole','out':[1],'stage':0,'words':['grep','[']},{'in':[1],'kind':'sink','out':[],'stage':0}",
    ];
    for nodes in rows {
        let text = printed(alloc, nodes, "{'fixed':0}")?;
        tells(&rt, text.as_slice(), "pash: NotGraph\n", Why::NotGraph)?;
    }
    Ok(())
}

/// The first node's file that is lacking is told, before any other is made.
#[test]
fn files_that_are_lacking_are_told(rt: HostRuntime) -> Result<(), Fail> {
    let alloc = rt.alloc();
    let rows = [
        (
            "{'in':[],'kind':'source','out':[0],'path':'/w/none','stage':0},{'in':[0],'kind':'sink','out':[],'stage':0}",
            "/w/none",
        ),
        (
            "{'in':[],'kind':'source','out':[0],'path':'/w/d','stage':0},{'in':[0],'kind':'sink','out':[],'stage':0}",
            "/w/d",
        ),
        (
            "{'in':[],'kind':'source','out':[0],'path':'/w/f','stage':0},{'append':false,'in':[0],'kind':'tee','out':[1],'path':'/w/new','stage':0},{'append':false,'in':[1],'kind':'sink','out':[],'path':'/w/none/x','stage':0}",
            "/w/none/x",
        ),
        (
            "{'in':[],'kind':'source','out':[0],'path':'/w/f','stage':0},{'append':true,'in':[0],'kind':'tee','out':[1],'path':'/w/d','stage':0},{'append':false,'in':[1],'kind':'sink','out':[],'path':'/w/old','stage':0}",
            "/w/d",
        ),
    ];
    for (nodes, path) in rows {
        let text = printed(alloc, nodes, "{'fixed':0}")?;
        let mut line = String::from_str(alloc, "pash: ")?;
        line.push_str(path)?;
        line.push_str(": No such file or directory\n")?;
        let lacking = Text::copy_of(alloc, path.as_bytes())?;
        tells(&rt, text.as_slice(), line.as_str(), Why::NoFile(lacking))?;
    }
    Ok(())
}

/// A graph stops where the object fails that a node reads or writes, and else the line of its answer.
#[test]
fn a_failed_graph_is_told(rt: HostRuntime) -> Result<(), Fail> {
    let text = printed(rt.alloc(), TEEING, "{'fixed':0}")?;
    let rows = [
        (Failing::Input(0), Why::ReadFault, 120),
        (Failing::Output(0), Why::WriteFault, 121),
        (Failing::Tree(0), Why::TreeFault, 122),
    ];
    for (failing, why, status) in rows {
        let ran = run_text(&rt, text.as_slice(), failing)?;
        assert!(rt;
            ran.ended_with(&why, status),
            "{failing:?} ended with {:?}",
            ran.why
        );
        assert!(rt; ran.has_part_of(&finished(b"in\n", b"", 0)), "{failing:?}");
        assert!(rt; ran.has_fault(), "{failing:?}");
        assert_eq!(rt; ran.tree.lent(), ran.tree.back(), "{failing:?}");
    }
    Ok(())
}
