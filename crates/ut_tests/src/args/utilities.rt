//! The words of the utilities, by their pages in XCU.
use super::rows::{is_read, is_without};
use std::test::Fail;

static GREP: &str = r"grep | BadUsage grep
grep a | ok | B pattern=a | | 1
grep a f | ok | B pattern=a | f | 1
grep a f g | ok | B pattern=a | f g | 2
grep a - | ok | B pattern=a | - | 1
grep a \e | ok | B pattern=a | \e | 0
grep \e | ok | B pattern= | | 1
grep a\nb | ok | B pattern=a pattern=b | | 1
grep \n | ok | B pattern= pattern= | | 1
grep -ea | ok | B pattern=a | | 1
grep -e a -e b f | ok | B pattern=a pattern=b | f | 1
grep -e a\nb -ec | ok | B pattern=a pattern=b pattern=c | | 1
grep -e -e | ok | B pattern=-e | | 1
grep -e | BadUsage grep
grep -ie | BadUsage grep
grep -iea f | ok | B i pattern=a | f | 1
grep -e \e | ok | B pattern= | | 1
grep -- -e | ok | B pattern=-e | | 1
grep -- -e f | ok | B pattern=-e | f | 1
grep -e a -- -f | ok | B pattern=a | -f | 1
grep - | ok | B pattern=- | | 1
grep [ | ok | B pattern=[ | | 1
grep \\( | ok | B pattern=\\( | | 1
grep -E a | ok | E pattern=a | | 1
grep -c a | ok | B c pattern=a | | 1
grep -l a | ok | B l pattern=a | | 1
grep -q a | ok | B q pattern=a | | 1
grep -x a | ok | B x pattern=a | | 1
grep -Ecinsvx a f | ok | E c i n s v x pattern=a | f | 1
grep -E -E a | ok | E pattern=a | | 1
grep -c -c a | ok | B c pattern=a | | 1
grep -lv a f g | ok | B l v pattern=a | f g | 2
grep -EF a | BadUsage grep
grep -E -F a | BadUsage grep
grep -cl a | BadUsage grep
grep -lq a | BadUsage grep
grep -cn a | ok | B c n pattern=a | | 1
grep -qn a | ok | B n q pattern=a | | 1
grep -a b | UnsupportedFlag grep a
grep -A 1 b | UnsupportedFlag grep A
grep -w a | UnsupportedFlag grep w
grep -5 a | UnsupportedFlag grep 5
grep -EFa b | UnsupportedFlag grep a
grep -c -l -w a | UnsupportedFlag grep w
grep a -c | ok | B pattern=a | -c | 1
grep -E -F -z | UnsupportedFlag grep z";

#[test]
fn words_of_grep_are_read(rt: HostRuntime) -> Result<(), Fail> {
    for row in GREP.lines() {
        assert!(rt; is_read(rt.alloc(), row)?, "{row}");
    }
    Ok(())
}

static TR: &str = r"tr a b | ok | string=a string=b | | 1
tr a-z A-Z | ok | string=a-z string=A-Z | | 1
tr a | BadUsage tr
tr | BadUsage tr
tr a b c | BadUsage tr
tr -d a | ok | d string=a | | 1
tr -d | BadUsage tr
tr -s a | ok | s string=a | | 1
tr -s a b | ok | s string=a string=b | | 1
tr -s a b c | BadUsage tr
tr -s | BadUsage tr
tr -ds a b | ok | d s string=a string=b | | 1
tr -ds a | BadUsage tr
tr -c a b | ok | c string=a string=b | | 1
tr -cd a | ok | c d string=a | | 1
tr -cds a b | ok | c d s string=a string=b | | 1
tr -c a | BadUsage tr
tr -t a b | UnsupportedFlag tr t
tr -dx a | UnsupportedFlag tr x
tr a -s | ok | string=a string=-s | | 1
tr -- -a b | ok | string=-a string=b | | 1
tr - a | ok | string=- string=a | | 1
tr \e a | ok | string= string=a | | 1
tr a \e | BadUsage tr
tr -d \e | ok | d string= | | 1
tr -ds a \e | BadUsage tr
tr -s a \e | BadUsage tr
tr \e \e | BadUsage tr
tr z-a b | BadUsage tr
tr a z-a | BadUsage tr
tr a-a b | ok | string=a-a string=b | | 1
tr [=a=] b | BadUsage tr
tr a [=b=] | BadUsage tr
tr [=a b | ok | string=[=a string=b | | 1
tr [:foo:] b | BadUsage tr
tr [:alpha b | ok | string=[:alpha string=b | | 1
tr [:alpha:] b | ok | string=[:alpha:] string=b | | 1
tr a [:alpha:] | ok | string=a string=[:alpha:] | | 1
tr abc [x*2] | ok | string=abc string=[x*2] | | 1
tr abc [x*] | ok | string=abc string=[x*] | | 1
tr abc [x*0] | ok | string=abc string=[x*0] | | 1
tr abc [x*010] | ok | string=abc string=[x*010] | | 1
tr abc [x*08] | BadUsage tr
tr abc [x*09] | BadUsage tr
tr abc [x*y] | ok | string=abc string=[x*y] | | 1
tr abc [x*][y*] | BadUsage tr
tr abc [x*]y[z*0] | BadUsage tr
tr [x*2] abc | ok | string=[x*2] string=abc | | 1
tr abc []*1] | ok | string=abc string=[]*1] | | 1
tr abc [:*2] | ok | string=abc string=[:*2] | | 1
tr abc [\\n*2] | ok | string=abc string=[\\n*2] | | 1
tr a \\400 | BadUsage tr
tr a \\377 | ok | string=a string=\\377 | | 1
tr \\0 b | ok | string=\\0 string=b | | 1
tr a\\ b | ok | string=a\\ string=b | | 1
tr abc [x*65536] | ok | string=abc string=[x*65536] | | 1
tr abc [x*65537] | BadUsage tr
tr abc [x*99999999999999999999] | BadUsage tr
tr abc x[y*0200000] | BadUsage tr";

#[test]
fn words_of_tr_are_read(rt: HostRuntime) -> Result<(), Fail> {
    for row in TR.lines() {
        assert!(rt; is_read(rt.alloc(), row)?, "{row}");
    }
    Ok(())
}

static CUT: &str = r"cut -b 1 | ok | bytes part=1-1 | | 1
cut -b1 | ok | bytes part=1-1 | | 1
cut -f 1 f g | ok | fields d=\t part=1-1 | f g | 1
cut -b 1,3 | ok | bytes part=1-1 part=3-3 | | 1
cut -b 1\x203 | ok | bytes part=1-1 part=3-3 | | 1
cut -b 1\t3 | ok | bytes part=1-1 part=3-3 | | 1
cut -b 2-4 | ok | bytes part=2-4 | | 1
cut -b 2- | ok | bytes part=2- | | 1
cut -b -3 | ok | bytes part=1-3 | | 1
cut -b -3,5,7- | ok | bytes part=1-3 part=5-5 part=7- | | 1
cut -b 01 | ok | bytes part=1-1 | | 1
cut -b 9223372036854775807 | ok | bytes part=9223372036854775807-9223372036854775807 | | 1
cut -b 9223372036854775808 | BadUsage cut
cut -b 0 | BadUsage cut
cut -b 2-0 | BadUsage cut
cut -b 3-2 | BadUsage cut
cut -b \e | BadUsage cut
cut -b 1, | BadUsage cut
cut -b ,1 | BadUsage cut
cut -b 1,,2 | BadUsage cut
cut -b 1,\x202 | BadUsage cut
cut -b - | BadUsage cut
cut -b a | BadUsage cut
cut -b 1-2-3 | BadUsage cut
cut -b 1;2 | BadUsage cut
cut -b +1 | BadUsage cut
cut -f 1 -d : | ok | fields d=: part=1-1 | | 1
cut -d: -f1 | ok | fields d=: part=1-1 | | 1
cut -d : -f 1 -s f | ok | fields d=: s part=1-1 | f | 1
cut -sf1 | ok | fields d=\t s part=1-1 | | 1
cut -d \e -f 1 | BadUsage cut
cut -d :: -f 1 | BadUsage cut
cut -d : -d , -f 1 | ok | fields d=, part=1-1 | | 1
cut -d :: -d , -f 1 | BadUsage cut
cut -d \x20 -f 1 | ok | fields d=\x20 part=1-1 | | 1
cut -b 1 -d : | BadUsage cut
cut -b 1 -s | BadUsage cut
cut | BadUsage cut
cut f | BadUsage cut
cut -f | BadUsage cut
cut -d : | BadUsage cut
cut -d : -f | BadUsage cut
cut -b 1 -b 2 | BadUsage cut
cut -b 1 -f 2 | BadUsage cut
cut -n -b 1 | UnsupportedFlag cut n
cut -b 1 --complement | UnsupportedFlag cut -
cut -b a -x | UnsupportedFlag cut x
cut -b 1 \e f | ok | bytes part=1-1 | \e f | 1
cut -b 1 \e | ok | bytes part=1-1 | \e | 0
cut -b 1 -- -f | ok | bytes part=1-1 | -f | 1
cut -z -y -b 1 | UnsupportedFlag cut z";

#[test]
fn words_of_cut_are_read(rt: HostRuntime) -> Result<(), Fail> {
    for row in CUT.lines() {
        assert!(rt; is_read(rt.alloc(), row)?, "{row}");
    }
    Ok(())
}

static SORT: &str = r"sort | ok | | | 1
sort f | ok | | f | 1
sort f - g | ok | | f - g | 1
sort -b | ok | b | | 1
sort -u | ok | u | | 1
sort -bfnru f | ok | b f n r u | f | 1
sort -t: -k 2 | ok | t=: k=2.1 | | 1
sort -t \e | BadUsage sort
sort -t :: | BadUsage sort
sort -t : -t , | ok | t=, | | 1
sort -t :: -t , | BadUsage sort
sort -t | BadUsage sort
sort -k 1 | ok | k=1.1 | | 1
sort -k 2,3 | ok | k=2.1,3.0 | | 1
sort -k 1.2 | ok | k=1.2 | | 1
sort -k 1.2,3.4 | ok | k=1.2,3.4 | | 1
sort -k 1n | ok | k=1.1n | | 1
sort -k 1,2r | ok | k=1.1,2.0r | | 1
sort -k 1b,2b | ok | k=1.1b,2.0b | | 1
sort -k 1bfnr,2bfnr | ok | k=1.1bfnr,2.0bfnr | | 1
sort -k 1nn | ok | k=1.1n | | 1
sort -k 2,1 | ok | k=2.1,1.0 | | 1
sort -k 1,2.0 | ok | k=1.1,2.0 | | 1
sort -k 1 -k 2n | ok | k=1.1 k=2.1n | | 1
sort -nk 2 | ok | n k=2.1 | | 1
sort -rk2,2 f | ok | r k=2.1,2.0 | f | 1
sort -k 01.02 | ok | k=1.2 | | 1
sort -k 0 | BadUsage sort
sort -k 1.0 | BadUsage sort
sort -k 1,0 | BadUsage sort
sort -k \e | BadUsage sort
sort -k a | BadUsage sort
sort -k 1. | BadUsage sort
sort -k .1 | BadUsage sort
sort -k 1, | BadUsage sort
sort -k ,1 | BadUsage sort
sort -k 1,2,3 | BadUsage sort
sort -k 1\x202 | BadUsage sort
sort -k 1n2 | BadUsage sort
sort -k 1d | BadUsage sort
sort -k 9223372036854775807 | ok | k=9223372036854775807.1 | | 1
sort -k 9223372036854775808 | BadUsage sort
sort -k | BadUsage sort
sort -c | UnsupportedFlag sort c
sort -o f | UnsupportedFlag sort o
sort -d | UnsupportedFlag sort d
sort -nc | UnsupportedFlag sort c
sort -k 0 -c | UnsupportedFlag sort c
sort \e | ok | | \e | 0
sort \e f | ok | | \e f | 1
sort -- -n | ok | | -n | 1
sort -k a -z | UnsupportedFlag sort z";

#[test]
fn words_of_sort_are_read(rt: HostRuntime) -> Result<(), Fail> {
    for row in SORT.lines() {
        assert!(rt; is_read(rt.alloc(), row)?, "{row}");
    }
    Ok(())
}

static HEAD_AND_TAIL: &str = r"head | ok | count=10 | | 1
head f | ok | count=10 | f | 1
head f g | ok | count=10 | f g | 2
head -n 3 | ok | count=3 | | 1
head -n3 f | ok | count=3 | f | 1
head -3 | ok | count=3 | | 1
head -0 | ok | count=0 | | 1
head -n 0 | ok | count=0 | | 1
head -n 007 | ok | count=7 | | 1
head -n 1 -n 2 | ok | count=2 | | 1
head -5 -n 1 f | ok | count=1 | f | 1
head -n a -n 1 | BadUsage head
head -n | BadUsage head
head -n -3 | BadUsage head
head -n +3 | BadUsage head
head -n \e | BadUsage head
head -n 9223372036854775807 | ok | count=9223372036854775807 | | 1
head -n 9223372036854775808 | BadUsage head
head -c 3 | UnsupportedFlag head c
head -5n 3 | UnsupportedFlag head 5
head -n3 -q | UnsupportedFlag head q
head -3a | UnsupportedFlag head 3
head f -3 | ok | count=10 | f -3 | 2
head -- -3 | ok | count=10 | -3 | 1
head - - | ok | count=10 | - - | 2
head \e | ok | count=10 | \e | 0
tail | ok | lines from-end count=10 | | 1
tail f | ok | lines from-end count=10 | f | 1
tail f g | BadUsage tail
tail -n 3 | ok | lines from-end count=3 | | 1
tail -n3 f | ok | lines from-end count=3 | f | 1
tail -n +3 | ok | lines from-start count=3 | | 1
tail -n -3 | ok | lines from-end count=3 | | 1
tail -n+3 | ok | lines from-start count=3 | | 1
tail -n +0 | ok | lines from-start count=0 | | 1
tail -c 3 | ok | bytes from-end count=3 | | 1
tail -c +3 f | ok | bytes from-start count=3 | f | 1
tail -c+0 | ok | bytes from-start count=0 | | 1
tail -5 | ok | lines from-end count=5 | | 1
tail -0 | ok | lines from-end count=0 | | 1
tail -n 1 -c 2 | ok | bytes from-end count=2 | | 1
tail -n +2 -n 1 | ok | lines from-end count=1 | | 1
tail -c +2 -3 | ok | lines from-end count=3 | | 1
tail -n a -n 1 | BadUsage tail
tail -n | BadUsage tail
tail -n \e | BadUsage tail
tail -n + | BadUsage tail
tail -n - | BadUsage tail
tail -n +-3 | BadUsage tail
tail -n 9223372036854775808 | BadUsage tail
tail -f f | UnsupportedFlag tail f
tail -nf | BadUsage tail
tail -5f | UnsupportedFlag tail 5
tail +3 | ok | lines from-end count=10 | +3 | 1
tail - | ok | lines from-end count=10 | - | 1
tail \e | ok | lines from-end count=10 | \e | 0
tail -- f | ok | lines from-end count=10 | f | 1
tail -n a -z | UnsupportedFlag tail z";

#[test]
fn words_of_head_and_tail_are_read(rt: HostRuntime) -> Result<(), Fail> {
    for row in HEAD_AND_TAIL.lines() {
        assert!(rt; is_read(rt.alloc(), row)?, "{row}");
    }
    Ok(())
}

static PASTE_AND_UNIQ: &str = r"paste | ok | d=\t | | 1
paste f | ok | d=\t | f | 1
paste - | ok | d=\t | - | 1
paste - - | ok | d=\t | - - | 1
paste - f - | ok | d=\t | - f - | 2
paste -s | ok | s d=\t | | 1
paste -s - - | ok | s d=\t | - - | 2
paste -d , | ok | d=, | | 1
paste -d ab f g | ok | d=a d=b | f g | 2
paste -d \\n\\t\\\\\\0 | ok | d=\n d=\t d=\\ d= | | 1
paste -d \\0 | ok | d= | | 1
paste -sd , | ok | s d=, | | 1
paste -d , -d ; | ok | d=; | | 1
paste -d \\x -d ; | BadUsage paste
paste -d \e | BadUsage paste
paste -d \\ | BadUsage paste
paste -d \\x | BadUsage paste
paste -d | BadUsage paste
paste -z | UnsupportedFlag paste z
paste -sz | UnsupportedFlag paste z
paste f \e | ok | d=\t | f \e | 1
paste \e | ok | d=\t | \e | 0
paste - \e - | ok | d=\t | - \e - | 1
uniq | ok | f=0 s=0 | | 1
uniq f | ok | f=0 s=0 | f | 1
uniq f g | BadUsage uniq
uniq -c | ok | c f=0 s=0 | | 1
uniq -u | ok | u f=0 s=0 | | 1
uniq -cc | ok | c f=0 s=0 | | 1
uniq -cd | BadUsage uniq
uniq -d -u | BadUsage uniq
uniq -f 1 | ok | f=1 s=0 | | 1
uniq -f1 -s 2 f | ok | f=1 s=2 | f | 1
uniq -cf1 | ok | c f=1 s=0 | | 1
uniq -s 0 | ok | f=0 s=0 | | 1
uniq -f 01 | ok | f=1 s=0 | | 1
uniq -f 1 -f 2 | ok | f=2 s=0 | | 1
uniq -f | BadUsage uniq
uniq -f a | BadUsage uniq
uniq -f -1 | BadUsage uniq
uniq -s 9223372036854775808 | BadUsage uniq
uniq -i | UnsupportedFlag uniq i
uniq -w 2 | UnsupportedFlag uniq w
uniq -1 | UnsupportedFlag uniq 1
uniq -ci | UnsupportedFlag uniq i
uniq \e | ok | f=0 s=0 | \e | 0";

#[test]
fn words_of_paste_and_uniq_are_read(rt: HostRuntime) -> Result<(), Fail> {
    for row in PASTE_AND_UNIQ.lines() {
        assert!(rt; is_read(rt.alloc(), row)?, "{row}");
    }
    Ok(())
}

static CAT_TEE_AND_WC: &str = r"cat | ok | | | 1
cat a | ok | | a | 1
cat - | ok | | - | 1
cat a - b | ok | | a - b | 1
cat -u | ok | | | 1
cat -u a | ok | | a | 1
cat -u -u - | ok | | - | 1
cat -- | ok | | | 1
cat -- a | ok | | a | 1
cat -- -- | ok | | -- | 1
cat a -u | ok | | a -u | 1
cat a -- b | ok | | a -- b | 1
cat \e | ok | | \e | 0
cat \e a | ok | | \e a | 1
cat a\x20b * | ok | | a\x20b * | 1
cat -n | UnsupportedFlag cat n
cat -un | UnsupportedFlag cat n
cat -u -e a | UnsupportedFlag cat e
cat --help | UnsupportedFlag cat -
cat -\xff | UnsupportedFlag cat \xff
tee | ok | | | 1
tee f | ok | | f | 1
tee f g | ok | | f g | 1
tee -a | ok | a | | 1
tee -a f | ok | a | f | 1
tee - | ok | | - | 1
tee \e | ok | | \e | 1
tee -- -a | ok | | -a | 1
tee -i | UnsupportedFlag tee i
tee -ai f | UnsupportedFlag tee i
tee f -a | ok | | f -a | 1
wc | ok | l w c | | 1
wc f | ok | l w c | f | 1
wc f g | ok | l w c | f g | 2
wc -l | ok | l | | 1
wc -w f | ok | w | f | 1
wc -m f | ok | c | f | 1
wc -lw | ok | l w | | 1
wc -cl | ok | l c | | 1
wc -lwm | ok | l w c | | 1
wc -ll | ok | l | | 1
wc -cm | BadUsage wc
wc -L | UnsupportedFlag wc L
wc -lx | UnsupportedFlag wc x
wc -cmx | UnsupportedFlag wc x
wc -- -l | ok | l w c | -l | 1
wc - | ok | l w c | - | 1
wc f \e | ok | l w c | f \e | 1
wc \e | ok | l w c | \e | 0";

#[test]
fn words_of_cat_tee_and_wc_are_read(rt: HostRuntime) -> Result<(), Fail> {
    for row in CAT_TEE_AND_WC.lines() {
        assert!(rt; is_read(rt.alloc(), row)?, "{row}");
    }
    Ok(())
}

// The words, the flags of their operands, the words then, the operands then, and how many inputs are left.
static LACKING: &str = r"cat a b c | 0 1 0 | cat a \e c | a \e c | 1
cat a b | 1 1 | cat \e \e | \e \e | 0
cat -- -a b | 1 0 | cat -- \e b | \e b | 1
cat | 1 | cat | | 1
grep x f g | 1 | grep x \e g | \e g | 1
grep -e x -- -f | 1 | grep -e x -- \e | \e | 0
grep \e f g h | 0 1 0 | grep \e f \e h | f \e h | 2
tail -5 f | 1 1 | tail -5 \e | \e | 0
sort -k1,2 - f | 0 1 | sort -k1,2 - \e | - \e | 1
paste -s - f - | 0 1 0 | paste -s - \e - | - \e - | 2
tr a b | 1 1 | tr a b | | 1
tee a b | 1 1 | tee a b | a b | 1";

#[test]
fn operands_that_lack_an_input_are_empty(rt: HostRuntime) -> Result<(), Fail> {
    for row in LACKING.lines() {
        assert!(rt; is_without(rt.alloc(), row)?, "{row}");
    }
    Ok(())
}
