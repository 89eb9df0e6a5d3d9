//! The merge of sorted texts that come at ports, cut anywhere; what is wanted is what GNU's `sort -m` writes in the C locale.
use super::rows::sort_in;
use crate::cuttings::{CUTS, gives_at_ports};
use ps_lines::Memory;
use std::alloc::Global;
use std::test::Fail;
use ut_args::SortInv;
use ut_sort::Merger;

/// The words, how many ports there are, the texts of these, and what is written.
static MERGED: [(&str, u32, [&str; 3], &str); 15] = [
    ("sort", 2, ["b\nd\n", "a\nc\n", ""], "a\nb\nc\nd\n"),
    ("sort", 2, ["a\nab", "aa\n", ""], "a\naa\nab\n"),
    ("sort", 2, ["", "a\nb\n", ""], "a\nb\n"),
    ("sort", 2, ["", "", ""], ""),
    ("sort", 3, ["a\nd\n", "b\n", "c\ne"], "a\nb\nc\nd\ne\n"),
    ("sort", 3, ["b\n", "", "a\nc\n"], "a\nb\nc\n"),
    ("sort", 3, ["", "", "\na\n"], "\na\n"),
    ("sort -r", 3, ["c\na\n", "d\n", "b\n"], "d\nc\nb\na\n"),
    (
        "sort -n",
        3,
        ["9\n10\n", "1\n", "2\n11\n"],
        "1\n2\n9\n10\n11\n",
    ),
    ("sort -f", 2, ["a\n", "A\nb\n", ""], "A\na\nb\n"),
    ("sort -u", 2, ["a\nb\n", "a\nb\nc\n", ""], "a\nb\nc\n"),
    (
        "sort -u",
        3,
        ["a\nb\n", "b\nc\n", "a\nc\nd\n"],
        "a\nb\nc\nd\n",
    ),
    ("sort -u", 3, ["", "a\nb\n", "a\n"], "a\nb\n"),
    ("sort -fu", 3, ["a\n", "A\nb\n", "B\nc\n"], "a\nb\nc\n"),
    (
        "sort -u -k 2,2",
        3,
        ["b 1\n", "a 1\na 2\n", "c 2\n"],
        "b 1\na 2\n",
    ),
];

/// Whether the merge at so many ports writes this of their texts, however they are cut.
fn merges_at_ports(
    alloc: Global,
    words: &str,
    ports: u32,
    texts: &[&str; 3],
    wanted: &str,
) -> Result<bool, Memory> {
    match sort_in(alloc, words)? {
        Some(inv) => {
            let holds = merges(alloc, &inv, ports, texts, wanted);
            drop(inv);
            holds
        }
        None => Ok(false),
    }
}

fn merges(
    alloc: Global,
    inv: &SortInv,
    ports: u32,
    texts: &[&str; 3],
    wanted: &str,
) -> Result<bool, Memory> {
    for cuts in CUTS.iter() {
        if !merges_cut(alloc, inv, ports, texts, *cuts, wanted)? {
            return Ok(false);
        }
    }
    Ok(true)
}

fn merges_cut(
    alloc: Global,
    inv: &SortInv,
    ports: u32,
    texts: &[&str; 3],
    cuts: u64,
    wanted: &str,
) -> Result<bool, Memory> {
    let mut merger = Merger::new(alloc, inv, ports)?;
    let holds = gives_at_ports(alloc, &mut merger, texts, cuts, wanted);
    drop(merger);
    holds
}

#[test]
fn texts_are_merged_as_they_come(rt: HostRuntime) -> Result<(), Fail> {
    for &(words, ports, texts, wanted) in MERGED.iter() {
        let holds = merges_at_ports(rt.alloc(), words, ports, &texts, wanted)?;
        assert!(rt; holds, "{words}: {wanted}");
    }
    Ok(())
}
