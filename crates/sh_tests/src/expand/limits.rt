//! The most fields of one expansion.
use ps_fakes::MemTree;
use ps_lines::{Memory, Text};
use sh_arith::Env;
use sh_expand::{ExpandFault, Frame, expand};
use sh_tree::{Form, Param, Part, Word};
use std::alloc::Global;
use std::test::Fail;

/// The word `$x`, or `${u?}`.
fn word(alloc: Global, name: &[u8], form: Form) -> Result<Word, Memory> {
    let what = Param::Name(Text::copy_of(alloc, name)?);
    let part = Part::Param {
        what,
        form,
        quoted: false,
    };
    Ok(Word {
        parts: Vec::from_array(alloc, [part])?,
    })
}

/// A byte and a space, so many times.
fn bytes_apart(alloc: Global, times: usize) -> Result<Vec<u8>, Fail> {
    let mut text = Vec::new(alloc);
    for _ in 0..times {
        text.push(b'a')?;
        text.push(b' ')?;
    }
    Ok(text)
}

/// So many words `$x`, and `${u?}` behind them or not.
fn words(alloc: Global, times: usize, unset: bool) -> Result<Vec<Word>, Fail> {
    let mut all = Vec::new(alloc);
    for _ in 0..times {
        all.push(word(alloc, b"x", Form::Plain)?)?;
    }
    if unset {
        all.push(checked(alloc)?)?;
    }
    Ok(all)
}

/// The word `${u?}`.
fn checked(alloc: Global) -> Result<Word, Memory> {
    let form = Form::Check {
        colon: false,
        word: None,
    };
    word(alloc, b"u", form)
}

/// How many fields these words have where x is such a text, or the name of their fault.
fn come_of(
    alloc: Global,
    tree: &mut MemTree,
    words: &[Word],
    times: usize,
) -> Result<Result<usize, &'static str>, Fail> {
    let mut env = Env::new(alloc);
    env.set(alloc, b"x", bytes_apart(alloc, times)?.as_slice())?;
    Ok(fields_of(alloc, tree, words, &mut env))
}

fn fields_of(
    alloc: Global,
    tree: &mut MemTree,
    words: &[Word],
    env: &mut Env,
) -> Result<usize, &'static str> {
    let mut frame = Frame {
        env,
        zero: b"s",
        args: &[],
        status: 0,
        subs: &[],
    };
    match expand(alloc, words, &mut frame, tree) {
        Ok(fields) => Ok(fields.len()),
        Err(fault) => Err(name_of(&fault)),
    }
}

fn name_of(fault: &ExpandFault) -> &'static str {
    match fault {
        ExpandFault::ArgsTooMany => "ArgsTooMany",
        ExpandFault::Unset(_, _) => "Unset",
        ExpandFault::Arith(_) => "Arith",
        ExpandFault::Failed => "Failed",
        ExpandFault::Memory => "Memory",
    }
}

/// How many words `$x`, of how many fields, whether `${u?}` stands behind them, and what comes of them.
static ROWS: [(usize, usize, bool, Result<usize, &str>); 8] = [
    (1, 0, false, Ok(0)),
    (1, 1, false, Ok(1)),
    (1, 65_536, false, Ok(65_536)),
    (1, 65_537, false, Err("ArgsTooMany")),
    (2, 32_768, false, Ok(65_536)),
    (3, 32_768, false, Err("ArgsTooMany")),
    (70, 1_000, false, Err("ArgsTooMany")),
    (70, 1_000, true, Err("Unset")),
];

#[test]
fn fields_are_counted_to_their_limit(rt: HostRuntime) -> Result<(), Fail> {
    let alloc = rt.alloc();
    let tree = MemTree::of_table(alloc, b"/w", &[], Vec::new(alloc))?;
    let mut tree = tree.ok_or("no files make a tree")?;
    for &(count, times, unset, wanted) in ROWS.iter() {
        let all = words(alloc, count, unset)?;
        let came = come_of(alloc, &mut tree, all.as_slice(), times)?;
        assert!(rt; came == wanted, "{count} words of {times} fields");
    }
    Ok(())
}
