//! Arguments of `test` and its answers, as `dash` gives them where the rule isn't our own.
use super::words_of;
use ps_fakes::MemTree;
use ps_world::WorldErr;
use std::alloc::{AllocError, Global};
use std::process::Abort;
use std::test::Fail;
use ut_test::Tested::{self, BadUsage, No, Yes};
use ut_test::test;

/// Asks for each row in a tree of these files, from `/w`. A row has arguments, each behind a bar, and the answer.
fn answers<R: Abort + AllocGlobal>(
    rt: &R,
    files: &[(&[u8], Option<&[u8]>)],
    rows: &[(&str, Tested)],
) -> Result<(), Fail> {
    let tree = MemTree::of_table(rt.alloc(), b"/w", files, Vec::new(rt.alloc()))?;
    let mut tree = tree.expect(rt, "the files make a tree");
    let asked = answers_in(rt, &mut tree, rows);
    drop(tree);
    asked
}

fn answers_in<R: Abort + AllocGlobal>(
    rt: &R,
    tree: &mut MemTree,
    rows: &[(&str, Tested)],
) -> Result<(), Fail> {
    for &(arguments, wanted) in rows {
        let answer = answer_to(rt.alloc(), tree, arguments)?;
        assert!(rt; answer == wanted, "{arguments}");
    }
    Ok(())
}

fn answer_to(alloc: Global, tree: &mut MemTree, arguments: &str) -> Result<Tested, Fail> {
    let words = words_of(alloc, arguments)?;
    Ok(test(alloc, words.as_slice(), tree)?)
}

/// An argument alone: whether it has a byte, whatever it spells.
static FEW: [(&str, Tested); 8] = [
    ("", No),
    ("|a", Yes),
    ("|", No),
    ("|-n", Yes),
    ("|!", Yes),
    ("|-f", Yes),
    ("|=", Yes),
    ("|--", Yes),
];

/// `!` before one argument.
static NOT_ONE: [(&str, Tested); 4] = [("|!|a", No), ("|!|", Yes), ("|!|!", No), ("|!|-n", No)];

/// `-n` and `-z`.
static LENGTHS: [(&str, Tested); 6] = [
    ("|-n|a", Yes),
    ("|-n|", No),
    ("|-z|a", No),
    ("|-z|", Yes),
    ("|-z| ", No),
    ("|-n|-n", Yes),
];

/// Without files: the directories of the working directory and the null device alone are there.
static PLACES: [(&str, Tested); 11] = [
    ("|-e|f", No),
    ("|-d|.", Yes),
    ("|-d|..", Yes),
    ("|-e|", No),
    ("|-f|", No),
    ("|-d|", No),
    ("|-d|/", Yes),
    ("|-e|/w", Yes),
    ("|-e|/dev/null", Yes),
    ("|-f|/dev/null", No),
    ("|-d|/dev/null", No),
];

/// `=` and `!=` compare bytes.
static TEXTS: [(&str, Tested); 16] = [
    ("|a|=|a", Yes),
    ("|a|=|b", No),
    ("|a|!=|b", Yes),
    ("|a|!=|a", No),
    ("||=|", Yes),
    ("||!=|a", Yes),
    ("|-n|=|-n", Yes),
    ("|!|=|!", Yes),
    ("|!|=|a", No),
    ("|!|!=|a", Yes),
    ("|(|=|)", No),
    ("|1|=|01", No),
    ("| a|=|a", No),
    ("|=|=|=", Yes),
    ("|-f|=|f", No),
    ("|*|=|a", No),
];

/// Numbers are compared by their values.
static NUMBERS: [(&str, Tested); 22] = [
    ("|1|-eq|1", Yes),
    ("|1|-eq|2", No),
    ("|1|-ne|2", Yes),
    ("|1|-ne|1", No),
    ("|2|-gt|1", Yes),
    ("|1|-gt|1", No),
    ("|1|-ge|1", Yes),
    ("|0|-ge|1", No),
    ("|1|-lt|2", Yes),
    ("|1|-lt|1", No),
    ("|1|-le|1", Yes),
    ("|2|-le|1", No),
    ("|01|-eq|1", Yes),
    ("|010|-eq|10", Yes),
    ("|-1|-lt|0", Yes),
    ("|+1|-eq|1", Yes),
    ("|-0|-eq|0", Yes),
    ("|-0|-eq|+0", Yes),
    ("|10|-gt|9", Yes),
    ("|9223372036854775807|-gt|9223372036854775806", Yes),
    ("|-9223372036854775808|-lt|-9223372036854775807", Yes),
    ("|000000000000000000000000001|-eq|1", Yes),
];

/// Texts that are no numbers of 64 bits with sign.
static NO_NUMBERS: [(&str, Tested); 17] = [
    ("|9223372036854775808|-eq|1", BadUsage),
    ("|1|-eq|9223372036854775808", BadUsage),
    ("|-9223372036854775809|-lt|1", BadUsage),
    ("|a|-eq|1", BadUsage),
    ("|1|-eq|a", BadUsage),
    ("||-eq|0", BadUsage),
    ("|1|-eq|", BadUsage),
    ("|1x|-eq|1", BadUsage),
    ("|1.0|-eq|1", BadUsage),
    ("|0x1|-eq|1", BadUsage),
    ("|--1|-eq|1", BadUsage),
    ("|+-1|-eq|1", BadUsage),
    ("|-|-eq|1", BadUsage),
    ("|+|-eq|1", BadUsage),
    ("| 1|-eq|1", BadUsage),
    ("|1 |-eq|1", BadUsage),
    ("|1\n|-eq|1", BadUsage),
];

/// `!` before two arguments.
static NOT_TWO: [(&str, Tested); 6] = [
    ("|!|-n|a", No),
    ("|!|-n|", Yes),
    ("|!|-z|", No),
    ("|!|!|a", Yes),
    ("|!|!|", No),
    ("|!|-e|f", Yes),
];

/// `!` before three arguments.
static NOT_THREE: [(&str, Tested); 11] = [
    ("|!|a|=|a", No),
    ("|!|a|=|b", Yes),
    ("|!|a|!=|a", Yes),
    ("|!|1|-eq|1", No),
    ("|!|1|-lt|2", No),
    ("|!|!|-n|a", Yes),
    ("|!|!|!|a", No),
    ("|!|!|=|!", No),
    ("|!|!|=|a", Yes),
    ("|!|!|!=|a", No),
    ("|!|a|-eq|1", BadUsage),
];

/// What is no test.
static OTHERS: [(&str, Tested); 26] = [
    ("|a|b", BadUsage),
    ("|a|b|c", BadUsage),
    ("|a|b|c|d", BadUsage),
    ("|!|a|b", BadUsage),
    ("|!|a|b|c", BadUsage),
    ("|a|=|b|c", BadUsage),
    ("|a|=|b|c|d", BadUsage),
    ("|a|==|a", BadUsage),
    ("|a|<|b", BadUsage),
    ("|a|=", BadUsage),
    ("|=|a", BadUsage),
    ("|-|a", BadUsage),
    ("|--|a", BadUsage),
    ("|-nn|a", BadUsage),
    ("|-1|a", BadUsage),
    ("|(|a|)", BadUsage),
    ("|!|!|a|b", BadUsage),
    ("|!|a|=|b|c", BadUsage),
    ("|-eq|1", BadUsage),
    ("|1|-eq", BadUsage),
    ("|1|-eqq|1", BadUsage),
    ("|1|-EQ|1", BadUsage),
    ("|a|-|b", BadUsage),
    ("|a|-ab|b", BadUsage),
    ("|!|!|!|!|a", BadUsage),
    ("|a|b|c|d|e|f", BadUsage),
];

/// With the file `f`, of one byte.
static A_FILE: [(&str, Tested); 1] = [("|-e|f", Yes)];

/// With the file `f`, which is empty.
static AN_EMPTY_FILE: [(&str, Tested); 9] = [
    ("|-f|f", Yes),
    ("|-d|f", No),
    ("|-f|f/", No),
    ("|-f|./f", Yes),
    ("|-e|f/x", No),
    ("|-f|*", No),
    ("|!|-f|f", No),
    ("|!|-d|f", Yes),
    ("|!|!|-f|f", Yes),
];

/// With the directory `d`, which is empty.
static A_DIRECTORY: [(&str, Tested); 4] = [
    ("|-e|d", Yes),
    ("|-f|d", No),
    ("|-d|d", Yes),
    ("|-d|d/", Yes),
];

/// With the file `f` in the directory `d`.
static A_FILE_IN_A_DIRECTORY: [(&str, Tested); 1] = [("|-f|d/f", Yes)];

/// With the directory `d` and the file `f`.
static A_FILE_BESIDE_A_DIRECTORY: [(&str, Tested); 1] = [("|-f|d/../f", Yes)];

/// With the directory `d`, which has a file.
static A_DIRECTORY_WITH_A_FILE: [(&str, Tested); 1] = [("|-d|d", Yes)];

#[test]
fn few_arguments_are_answered(rt: HostRuntime) -> Result<(), Fail> {
    answers(&rt, &[], FEW.as_slice())?;
    answers(&rt, &[], NOT_ONE.as_slice())?;
    answers(&rt, &[], LENGTHS.as_slice())
}

#[test]
fn two_operands_are_compared(rt: HostRuntime) -> Result<(), Fail> {
    answers(&rt, &[], TEXTS.as_slice())?;
    answers(&rt, &[], NUMBERS.as_slice())?;
    answers(&rt, &[], NO_NUMBERS.as_slice())
}

#[test]
fn the_opposite_of_more_arguments_is_answered(rt: HostRuntime) -> Result<(), Fail> {
    answers(&rt, &[], NOT_TWO.as_slice())?;
    answers(&rt, &[], NOT_THREE.as_slice())
}

#[test]
fn other_arguments_are_bad_usage(rt: HostRuntime) -> Result<(), Fail> {
    answers(&rt, &[], OTHERS.as_slice())
}

#[test]
fn places_are_looked_at(rt: HostRuntime) -> Result<(), Fail> {
    answers(&rt, &[], PLACES.as_slice())?;
    answers(&rt, &[(b"/w/f", Some(b"1"))], A_FILE.as_slice())?;
    answers(&rt, &[(b"/w/f", Some(b""))], AN_EMPTY_FILE.as_slice())?;
    answers(&rt, &[(b"/w/d", None)], A_DIRECTORY.as_slice())?;
    answers(
        &rt,
        &[(b"/w/d", None), (b"/w/d/f", Some(b""))],
        A_FILE_IN_A_DIRECTORY.as_slice(),
    )?;
    answers(
        &rt,
        &[(b"/w/d", None), (b"/w/f", Some(b""))],
        A_FILE_BESIDE_A_DIRECTORY.as_slice(),
    )?;
    answers(
        &rt,
        &[(b"/w/d", None), (b"/w/d/a", Some(b""))],
        A_DIRECTORY_WITH_A_FILE.as_slice(),
    )
}

/// A tree without files, whose first call fails.
fn failing(alloc: Global) -> Result<Option<MemTree>, Fail> {
    let mut fails = Vec::new(alloc);
    fails.push(0)?;
    Ok(MemTree::of_table(alloc, b"/w", &[], fails)?)
}

/// The fault of a call, if it has one.
fn fault_of(
    alloc: Global,
    tree: &mut MemTree,
    arguments: &str,
) -> Result<Option<WorldErr>, AllocError> {
    let words = words_of(alloc, arguments)?;
    Ok(test(alloc, words.as_slice(), tree).err())
}

/// A failure of the tree is told where a place is asked for, and only there.
#[test]
fn a_failure_is_told_where_a_place_is_asked_for(rt: HostRuntime) -> Result<(), Fail> {
    let mut tree = failing(rt.alloc())?.expect(&rt, "no files make a tree");
    let plain = answer_to(rt.alloc(), &mut tree, "|a|=|a");
    let asking = fault_of(rt.alloc(), &mut tree, "|!|-e|f");
    drop(tree);
    assert!(rt; plain? == Yes);
    assert!(rt; asking? == Some(WorldErr::Failed));
    Ok(())
}
