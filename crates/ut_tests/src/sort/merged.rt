//! The merge of two sorted texts: the left's lines first, and with `-u` without the right's equal ones.
use super::rows::merges;
use std::test::Fail;

/// Two texts, each sorted, and both merged.
static PAIRS: &str = r"sort|b\nd\n|c\na\n|b\nd\n|a\nc\n|a\nb\nc\nd\n
sort|a\n|a|a\n|a\n|a\na\n
sort|\e|b\na|\e|a\nb\n|a\nb\n
sort -r|a\nc\n|b\n|c\na\n|b\n|c\nb\na\n
sort -n|10\n9\n|1\n|9\n10\n|1\n|1\n9\n10\n
sort -u|b\na\n|b\nc\n|a\nb\n|b\nc\n|a\nb\nc\n
sort -u -f|a\n|A\nb\n|a\n|A\nb\n|a\nb\n
sort -f|a\n|A\nb\n|a\n|A\nb\n|A\na\nb\n
sort -nu|1 a\n|01 b\n0\n|1 a\n|0\n01 b\n|0\n1 a\n
sort -k 2,2 -u|a 1\nc 2\n|b 1\n|a 1\nc 2\n|b 1\n|a 1\nc 2\n
sort -k 2,2|b 1\nc 2\n|a 1\n|b 1\nc 2\n|a 1\n|a 1\nb 1\nc 2\n
sort -t : -k 2n -r f|a:1\n|b:2\nc:1\n|a:1\n|c:1\nb:2\n|c:1\na:1\nb:2\n
sort|a 2\n|b 1\nb\na\nA|a 2\n|A\na\nb\nb 1\n|A\na\na 2\nb\nb 1\n
sort -r|b 1\n|A\na 1\n|b 1\n|a 1\nA\n|b 1\na 1\nA\n
sort -u|b 1\n|a 2\na\n|b 1\n|a\na 2\n|a\na 2\nb 1\n
sort -fu|a 2\n|aab|a 2\n|aab\n|a 2\naab\n
sort -n|a 2\naab\na\n|a 1\n|a\na 2\naab\n|a 1\n|a\na 1\na 2\naab\n
sort -k 2|b\n|b 1\nb|b\n|b\nb 1\n|b\nb\nb 1\n
sort -uk 2,2|A\na 1\nb 1\naab\n|aab\nA\n|A\na 1\n|aab\n|A\na 1\n
sort|aab\na 2\n|b 1\n|a 2\naab\n|b 1\n|a 2\naab\nb 1\n
sort -r|A\nA\na\na 1\n|b\nA|a 1\na\nA\nA\n|b\nA\n|b\na 1\na\nA\nA\nA\n
sort -u|\n|aab\na 2\n|\n|a 2\naab\n|\na 2\naab\n
sort -fu|\e|a 2\na 2\n\nb\na\n|\e|\na\na 2\nb\n|\na\na 2\nb\n
sort -n|A\n|b 1\na 1|A\n|a 1\nb 1\n|A\na 1\nb 1\n
sort -k 2|a 1\n\nb 1\naab\nb\n\n|\e|\n\naab\nb\na 1\nb 1\n|\e|\n\naab\nb\na 1\nb 1\n
sort -uk 2,2|\e|aab\n|\e|aab\n|aab\n
sort|\e|b\nb 1\n|\e|b\nb 1\n|b\nb 1\n
sort -r|a 1\naab\n|\naab\na 2\n|aab\na 1\n|aab\na 2\n\n|aab\naab\na 2\na 1\n\n
sort -u|aab\n|b 1\n\nb 1\na 2|aab\n|\na 2\nb 1\n|\na 2\naab\nb 1\n
sort -fu|b 1\nb\naab\n|aab\na\na 1\n|aab\nb\nb 1\n|a\na 1\naab\n|a\na 1\naab\nb\nb 1\n
sort -n|A\n|\e|A\n|\e|A\n
sort -k 2|A\na 1\n|A\n\na\na 1|A\na 1\n|\nA\na\na 1\n|\nA\nA\na\na 1\na 1\n
sort -uk 2,2|a 2\n|\e|a 2\n|\e|a 2\n
sort|\n|\e|\n|\e|\n
sort -r|b\na 2\n|b\n|b\na 2\n|b\n|b\nb\na 2\n
sort -u|\e|b 1\na 1\n|\e|a 1\nb 1\n|a 1\nb 1\n
sort -fu|aab\na\n|b 1\nb 1\nb 1\nA\n|a\naab\n|A\nb 1\n|a\naab\nb 1\n
sort -n|b 1\nb 1\naab\n|b\nb\naab\n|aab\nb 1\nb 1\n|aab\nb\nb\n|aab\naab\nb\nb\nb 1\nb 1\n
sort -k 2|a\nb 1\n|\n|a\nb 1\n|\n|\na\nb 1\n
sort -uk 2,2|A\nA\nb\nb 1\nA\na 1\n|\e|A\nb 1\n|\e|A\nb 1\n";

#[test]
fn sorted_texts_are_merged(rt: HostRuntime) -> Result<(), Fail> {
    for row in PAIRS.lines() {
        assert_eq!(rt; merges(rt.alloc(), row)?, true, "{row}");
    }
    Ok(())
}
