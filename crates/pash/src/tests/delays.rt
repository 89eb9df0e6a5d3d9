//! Scripts on threads that come to their acts in another order with each seed: what they tell and leave is the same each time.
ghost use Rattle.std.specs.Prelude.{◌≡◌, ◌≤◌};

use super::{Entry, has_sent_all, owned_words};
use crate::answers::End;
use crate::samples::sample_text;
use crate::top::pash;
use fl_engines::OnThreads;
use ps_fakes::{DelayGate, MemSink, MemSource, MemTree};
use ps_lines::Memory;
use ps_world::Tree;
use std::alloc::Global;
use std::process::Abort;
use std::sync::Wait;
use std::test::Fail;
use std::thread::Threads;

/// How many seeds there are, with five runs each: two hundred seeds are a thousand runs, by hand. A wait lets others run up to 15 times, which
/// takes long beside other work.
const SEEDS: u64 = 40;

/// The widths that the seeds take in turn, as words.
static WIDTHS: [&str; 4] = ["2", "3", "4", "16"];

/// A script over the input and the files `f` and `t`, its output, errors and status, and what it leaves in the file `g`.
type Row<'a> = (&'a str, &'a str, &'a str, u8, &'a str);

/// What dash and GNU's tools tell and leave, but for the blanks before a count of `uniq -c`. The input is the text of 60 lines that the seed 7
/// gives, and `t` that of 30 lines that the seed 9 gives.
static ROWS: [Row; 5] = [
    (
        "cat t - | tr -cs a-z '\\n' | sort | uniq -c | sort -rn | head -n 3 > g",
        "",
        "",
        0,
        "18 eb\n13 ga\n12 da\n",
    ),
    (
        "cut -d ' ' -f 1 - t | sort | uniq -c | grep '[5-9]' > g; cat no g t | wc -l",
        "35\n",
        "cat: no: No such file or directory\n",
        0,
        "5 aa\n6 cd\n5 ea\n6 eb\n5 hb\n",
    ),
    (
        "sort -k 2 t - f | tail -n 3",
        "gd hd da\nec hd eb\nzz z\n",
        "",
        0,
        "",
    ),
    (
        "paste - t f | cut -b 4-20 | head -n 3",
        "cd eb\tdc db gd\tgb\nba ec\tca ed ab\tzz\nad dd\tcd cb cc\tac\n",
        "",
        0,
        "",
    ),
    (
        "cat f t f - | tr b c | grep -c cc; cat no",
        "34\n",
        "cat: no: No such file or directory\n",
        1,
        "",
    ),
];

/// What a run has left.
#[derive(Drop)]
struct Left {
    tree: MemTree,
    err: MemSink,
    end: End<MemSource, MemSink>,
}

/// The most bytes that a read gives, by the seed: the lines of the texts have nine.
fn most_given(seed: u64) -> usize
    ensures { 1 ≤ result }
{
    7 + seed as usize % 19
}

/// Lets each call of a tree wait, and each read of its files, which then come in pieces.
fn slow_down(tree: &mut MemTree, seed: u64) -> Result<(), Memory>
    ensures { ⟦<MemTree as Tree>⟧.state tree.new ≡ ⟦<MemTree as Tree>⟧.state tree.old }
{
    tree.delay(seed);
    tree.plan(b"/w/s", most_given(seed), None)?;
    tree.plan(b"/w/f", most_given(seed), None)?;
    tree.plan(b"/w/g", most_given(seed), None)?;
    tree.plan(b"/w/t", most_given(seed), None)
}

/// Runs a script at a width, with the delays of a seed where nodes begin and end, and before each read of the input and of files.
fn run<H: Abort + Threads + Wait + Sync>(
    rt: &H,
    alloc: Global,
    script: &str,
    width: &str,
    seed: u64,
) -> Result<Left, Memory> {
    let script = Vec::from_slice(alloc, script.as_bytes())?;
    let text = sample_text(alloc, 9, 30)?;
    let entries: [Entry; 4] = [
        (b"/w/s", Some(script.as_slice())),
        (b"/w/f", Some(b"gb b1\nzz z\nac ab\n")),
        (b"/w/g", Some(b"")),
        (b"/w/t", Some(text.as_slice())),
    ];
    let tree = MemTree::of_table(alloc, b"/w", &entries, Vec::new(alloc))?;
    let mut tree = tree.expect(rt, "the entries make a tree");
    slow_down(&mut tree, seed)?;
    let words = owned_words(alloc, &["run", width, "s"])?;
    let text = sample_text(alloc, 7, 60)?;
    let mut input = MemSource::in_pieces(text, most_given(seed), Vec::new(alloc));
    input.delay(seed);
    let out = MemSink::new(alloc, Vec::new(alloc));
    let mut err = MemSink::new(alloc, Vec::new(alloc));
    let gate = DelayGate::new(seed);
    let mut engine = OnThreads::new(rt, alloc);
    let end = pash(
        alloc,
        words.as_slice(),
        &mut tree,
        input,
        out,
        &mut err,
        &gate,
        &mut engine,
    );
    Ok(Left { tree, err, end })
}

/// The script of a row tells and leaves what the row says.
fn expect_row<R: Abort + AllocGlobal + Threads + Wait + Sync>(
    rt: &R,
    (script, output, errors, status, file): Row,
    width: &str,
    seed: u64,
) -> Result<(), Fail> {
    let left = run(rt, rt.alloc(), script, width, seed)?;
    let is_told = has_sent_all(&left.end.out, output.as_bytes())
        && has_sent_all(&left.err, errors.as_bytes())
        && left.end.status == status;
    assert!(rt;
        is_told,
        "{script} at {width}, {seed}: {:?} wrote {:?}",
        left.end.why,
        left.end.out.taken()
    );
    assert!(rt;
        left.tree.file(b"/w/g")? == Some(file.as_bytes()),
        "{script} at {width}, {seed}"
    );
    Ok(())
}

#[test]
fn a_run_with_delays_leaves_the_same(rt: HostRuntime) -> Result<(), Fail> {
    for seed in 0..SEEDS {
        let width = WIDTHS[seed as usize % 4];
        for &row in ROWS.iter() {
            expect_row(&rt, row, width, seed)?;
        }
    }
    Ok(())
}
