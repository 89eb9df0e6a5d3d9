//! The words of the shell's own commands, and of no command.
use super::rows::is_read;
use std::test::Fail;

static TEST: &str = r"test | ok | | | 0
test a | ok | | a | 0
test \e | ok | | \e | 0
test -n | ok | | -n | 0
test ! | ok | | ! | 0
test -a | ok | | -a | 0
test ! a | ok | | ! a | 0
test -n a | ok | | -n a | 0
test -z \e | ok | | -z \e | 0
test -d f | ok | | -d f | 0
test a = b | ok | | a = b | 0
test a != b | ok | | a != b | 0
test 1 -eq 2 | ok | | 1 -eq 2 | 0
test 1 -gt 2 | ok | | 1 -gt 2 | 0
test 1 -lt 2 | ok | | 1 -lt 2 | 0
test ! -n a | ok | | ! -n a | 0
test ! ! a | ok | | ! ! a | 0
test ! a = b | ok | | ! a = b | 0
test ! ! -n a | ok | | ! ! -n a | 0
test -n = -n | ok | | -n = -n | 0
test ! = ! | ok | | ! = ! | 0
test ( a ) | BadUsage test
test -r f | UnsupportedFlag test r
test -L f | UnsupportedFlag test L
test ! -r f | UnsupportedFlag test r
test a -a b | UnsupportedFlag test a
test ! a -a b | UnsupportedFlag test a
test a -nt b | BadUsage test
test a == b | BadUsage test
test a < b | BadUsage test
test a b | BadUsage test
test a b c | BadUsage test
test a = b c | BadUsage test
test a = b -a c | BadUsage test
test -1 f | BadUsage test
test -- f | BadUsage test
test - f | BadUsage test
test -ab f | BadUsage test
test a -eq b | BadUsage test
test 1 -eq \e | BadUsage test
test \x201 -eq 1 | BadUsage test
test 1\x20 -eq 1 | BadUsage test
test +1 -eq -1 | ok | | +1 -eq -1 | 0
test 9223372036854775807 -eq 0 | ok | | 9223372036854775807 -eq 0 | 0
test 9223372036854775808 -eq 0 | BadUsage test
test -9223372036854775808 -eq 0 | ok | | -9223372036854775808 -eq 0 | 0
test -9223372036854775809 -eq 0 | BadUsage test
test 0 -lt 99999999999999999999 | BadUsage test
test - -eq 1 | BadUsage test
[ | BadUsage [
[ ] | ok | | | 0
[ a | BadUsage [
[ a ] | ok | | a | 0
[ a = b ] | ok | | a = b | 0
[ a = b | BadUsage [
[ -r f ] | UnsupportedFlag [ r
[ a ] b | BadUsage [";

#[test]
fn words_of_test_are_read(rt: HostRuntime) -> Result<(), Fail> {
    for row in TEST.lines() {
        assert!(rt; is_read(rt.alloc(), row)?, "{row}");
    }
    Ok(())
}

static OTHERS: &str = "true | ok | | | 0
true a b | ok | | | 0
true -- -x | ok | | | 0
true a -x | ok | | | 0
true -x | UnsupportedFlag true x
false | ok | | | 0
false -n | UnsupportedFlag false n
: | ok | | | 0
: a | ok | | | 0
: -x | UnsupportedFlag : x
: -- | ok | | | 0
break | ok | | | 0
break 1 | ok | n=1 | | 0
break 007 | ok | n=7 | | 0
break 9223372036854775807 | ok | n=9223372036854775807 | | 0
break 0 | BadUsage break
break 9223372036854775808 | BadUsage break
break a | BadUsage break
break +1 | BadUsage break
break 1 2 | BadUsage break
break -1 | UnsupportedFlag break 1
break -- 1 | ok | n=1 | | 0
continue | ok | | | 0
continue 3 | ok | n=3 | | 0
continue -x | UnsupportedFlag continue x
exit | ok | | | 0
exit 0 | ok | n=0 | | 0
exit 255 | ok | n=255 | | 0
exit 007 | ok | n=7 | | 0
exit 256 | BadUsage exit
exit a | BadUsage exit
exit 1 2 | BadUsage exit
exit -1 | UnsupportedFlag exit 1
exit -- 3 | ok | n=3 | | 0
exit a -b | BadUsage exit
shift | ok | | | 0
shift 0 | ok | n=0 | | 0
shift 1 | ok | n=1 | | 0
shift 01 | ok | n=1 | | 0
shift 9223372036854775808 | BadUsage shift
shift a | BadUsage shift
shift -1 | UnsupportedFlag shift 1";

#[test]
fn words_of_others_are_read(rt: HostRuntime) -> Result<(), Fail> {
    for row in OTHERS.lines() {
        assert!(rt; is_read(rt.alloc(), row)?, "{row}");
    }
    Ok(())
}

static NAMES: &str = r"unset x | ok | | x | 0
unset x y | ok | | x y | 0
unset -v x | ok | | x | 0
unset -- x | ok | | x | 0
unset | BadUsage unset
unset -v | BadUsage unset
unset 1x | BadUsage unset
unset x y-z | BadUsage unset
unset \e | BadUsage unset
unset -f x | UnsupportedFlag unset f
unset -vf x | UnsupportedFlag unset f
unset -f | UnsupportedFlag unset f
read -r x | ok | | x | 0
read -r x y _z1 | ok | | x y _z1 | 0
read -r -r x | ok | | x | 0
read -r -- x | ok | | x | 0
read x | UnsupportedFlag read r
read | UnsupportedFlag read r
read -- x | UnsupportedFlag read r
read -r | BadUsage read
read -r 1x | BadUsage read
read -r x-y | BadUsage read
read -r \e | BadUsage read
read -p x | UnsupportedFlag read p
read -rp x | UnsupportedFlag read p
read -r x -r | BadUsage read
read -q | UnsupportedFlag read q
echo | ok | | | 0
echo a b | ok | | a b | 0
echo \e | ok | | \e | 0
echo -- | ok | | -- | 0
echo - | ok | | - | 0
echo -e a | ok | | -e a | 0
echo a -n | ok | | a -n | 0
echo -- -n | ok | | -- -n | 0
echo \\n | ok | | \\n | 0
echo -n | UnsupportedFlag echo n
echo -n a | UnsupportedFlag echo n";

#[test]
fn words_of_names_are_read(rt: HostRuntime) -> Result<(), Fail> {
    for row in NAMES.lines() {
        assert!(rt; is_read(rt.alloc(), row)?, "{row}");
    }
    Ok(())
}

static SET_AND_UNKNOWN: &str = r"set -- | ok | | | 0
set -- a b | ok | | a b | 0
set -- -e | ok | | -e | 0
set -- \e | ok | | \e | 0
set a | ok | | a | 0
set a b | ok | | a b | 0
set a -u | ok | | a -u | 0
set a -- | ok | | a -- | 0
set \e | ok | | \e | 0
set | BadUsage set
set -eu | BadUsage set
set -u | UnsupportedFlag set u
set +u | UnsupportedFlag set u
set -1 | BadUsage set
set - | BadUsage set
set - a | BadUsage set
set - -u | UnsupportedFlag set u
set ++ | BadUsage set
foo | UnknownCommand foo
sleep 1 | UnknownCommand sleep
Cat | UnknownCommand Cat
\e | UnknownCommand \e
\e a | UnknownCommand \e
/bin/cat | UnknownCommand /bin/cat
cat\x20 | UnknownCommand cat\x20
cd | UnknownCommand cd
export | UnknownCommand export
. | UnknownCommand .
[[ a | UnknownCommand [[
in | UnknownCommand in
echo1 | UnknownCommand echo1
foo -x | UnknownCommand foo";

#[test]
fn words_of_set_and_unknown_are_read(rt: HostRuntime) -> Result<(), Fail> {
    for row in SET_AND_UNKNOWN.lines() {
        assert!(rt; is_read(rt.alloc(), row)?, "{row}");
    }
    Ok(())
}
