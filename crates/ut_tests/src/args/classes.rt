//! The classes of invocations, and which keep closed texts closed.
use super::rows::has_class;
use std::test::Fail;

static CLASSES_FIRST: &str = r"cat | S(Bytes) | yes
cat -u | S(Bytes) | yes
cat f | S(Bytes) | yes
cat f g | S(Bytes) | yes
cat - | S(Bytes) | yes
cat f \e | S(Bytes) | yes
tr a b | S(Bytes) | yes
tr a-z A-Z | S(Bytes) | yes
tr -d a | S(Bytes) | yes
tr -cd a | S(Bytes) | no
tr -cd \\n | S(Bytes) | yes
tr -c a b | S(Bytes) | no
tr -c a\\n b | S(Bytes) | yes
tr -C [:alpha:] \\n | S(Bytes) | yes
tr \\n x | S(Bytes) | no
tr \\n \\n | S(Bytes) | yes
tr x \\n | S(Bytes) | yes
tr \\n\\n xy | S(Bytes) | no
tr \\nx\\n ab\\n | S(Bytes) | yes
tr -d \\n | S(Bytes) | no
tr -d [:space:] | S(Bytes) | no
tr [:cntrl:] x | S(Bytes) | no
tr -s a | P | yes
tr -s \\n | P | yes
tr -s a b | P | yes
tr -s \\n x | P | no
tr -cs A-Za-z \\n | P | yes
tr -cs a-z x | P | no
tr -ds a b | P | yes
tr -ds \\n a | P | no
tr -ds a \\n | P | yes
tr \\11-\\13 abc | S(Bytes) | no
cut -b 1 | S(Lines) | yes
cut -f 1 f | S(Lines) | yes
cut -f 1 -s | S(Lines) | yes
cut -b 1 f g | S(Lines) | yes
cut -d \n -f 1 | S(Lines) | yes
grep a | S(Lines) | yes
grep a f | S(Lines) | yes
grep a - | S(Lines) | yes
grep -v a | S(Lines) | yes
grep -ivx a f | S(Lines) | yes
grep -E a\x7cb | S(Lines) | yes
grep -F a | S(Lines) | yes
grep -s a f | S(Lines) | yes
grep -q a | S(Lines) | yes
grep -qn a | S(Lines) | yes
grep -q a f | S(Lines) | yes
grep -q a f g | N | no
grep -c a | P | no
grep -c a f | P | no";

#[test]
fn invocations_have_their_class_first(rt: HostRuntime) -> Result<(), Fail> {
    for row in CLASSES_FIRST.lines() {
        assert!(rt; has_class(rt.alloc(), row)?, "{row}");
    }
    Ok(())
}

static CLASSES_SECOND: &str = r"grep -cn a | P | no
grep -cv a | P | no
grep -n a | N | yes
grep -l a | N | yes
grep -l a f | N | yes
grep -ln a | N | yes
grep a f g | N | no
grep -c a f g | N | no
grep -e a f | S(Lines) | yes
grep -e a f g | N | no
grep a f \e | N | no
grep a \e | S(Lines) | yes
grep -c a \e f | N | no
head | P | no
head -n 2 f | P | no
head -0 | P | no
head - | P | no
head f g | N | no
head f \e | N | no
head \e | P | no
tail | P | no
tail -n 2 f | P | no
tail -c 3 | P | no
tail -5 | P | no
tail -n -2 | P | no
tail -n +2 | N | no
tail -c +2 f | N | no
tail -n +1 | N | no
tail -n +2 -n 1 | P | no
tail -n 1 -c +2 | N | no
wc | P | no
wc -l f | P | no
wc - | P | no
wc f g | N | no
wc f \e | N | no
wc \e | P | no
uniq | P | no
uniq -c f | P | no
uniq -d | P | no
uniq -u -f 1 | P | no
sort | P | no
sort -u f | P | no
sort -rn -k 2 f g | P | no
sort -t : -k 2 | P | no
tee | E | no
tee f g | E | no
tee -a f | E | no
paste | N | no
paste f g | N | no
paste -s -d , | N | no
paste - - | N | no";

#[test]
fn invocations_have_their_class_second(rt: HostRuntime) -> Result<(), Fail> {
    for row in CLASSES_SECOND.lines() {
        assert!(rt; has_class(rt.alloc(), row)?, "{row}");
    }
    Ok(())
}
