//! What sort writes for texts (XCU sort), as GNU sort does but for what is our own.
use super::rows::sorts;
use std::test::Fail;

/// The output for a text; operands are joined before, each but the last closed.
static TEXTS: &str = r"sort|b\na\nc\n|a\nb\nc\n
sort|b\na|a\nb\n
sort|\na\n\n|\n\na\n
sort|a\nB\n_\n1\n\x20\n| \n1\nB\n_\na\n
sort|\xff\na\n|a\n\xff\n
sort|\e|\e
sort f g|b\nd\nc\na\n|a\nb\nc\nd\n
sort -r|b\na\nc\n|c\nb\na\n
sort -u|b\na\nb\n|a\nb\n
sort -f|b\nA\nB\na\n|A\na\nB\nb\n
sort -fu|b\nA\nB\na\n|A\nb\n
sort -n|10\n9\n-1\n|-1\n9\n10\n
sort -n|b\n1\na\n0\n|0\na\nb\n1\n
sort -n|1.5\n1.25\n.5\n-.5\n|-.5\n.5\n1.25\n1.5\n
sort -rn|3\x20b\n10\x20a\n3\x20c\n|10 a\n3 c\n3 b\n
sort -nu|1\x20a\n01\x20b\n2\n|1 a\n2\n
sort -nu|x\n0\n-0\n|x\n
sort -k 2|a\x202\nb\x201\n|b 1\na 2\n
sort -k 2,2 -k 1,1r|a\x201\nb\x201\nc\x200\n|c 0\nb 1\na 1\n
sort -t : -k 2n|b:2\na:10\nc:1\n|c:1\nb:2\na:10\n
sort -k 2n -u|a\x202\nb\x202\nc\x201\n|c 1\na 2\n
sort -t : -k 2,2 -u|a:x:1\nb:x:2\nc:a:3\n|c:a:3\na:x:1\n
sort -r -k 1,1|a\x201\na\x202\nb\x200\n|b 0\na 2\na 1\n
sort -b -k 2|a\x20\x20\x202\nb\x201\n|b 1\na   2\n
sort -ru -k 1,1|a\x201\na\x202\nb\x200\n|b 0\na 1\n
sort -b|b\n\x20a\nA\n| a\nA\nb\n";

#[test]
fn texts_are_sorted_in_whatever_pieces_they_come(rt: HostRuntime) -> Result<(), Fail> {
    for row in TEXTS.lines() {
        assert_eq!(rt; sorts(rt.alloc(), row)?, true, "{row}");
    }
    Ok(())
}
