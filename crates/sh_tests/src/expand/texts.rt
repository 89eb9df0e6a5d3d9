//! The texts of words of which nothing is split, as `dash` answers where the rule isn't our own.
use super::rows::expect_texts;
use std::test::Fail;

/// Neither splitting nor path expansion. `$@` is joined by spaces (own), and `$*` as in double quotes.
static WHOLE: &str = r#"a | (w p:a) | | a
'' | (w q:\e) | | \e
'a b' | (w q:a\x20b) | | a\x20b
a"b c"\\ d | (w p:a q:b\x20c\x20 p:d) | | ab\x20c\x20d
$x | (w (v x)) | x=a\x20b | a\x20b
"$x" | (w (V x)) | x=a\x20b | a\x20b
$x | (w (v x)) | x=\x20a\x20\x20b\x20 | \x20a\x20\x20b\x20
$x$y | (w (v x) (v y)) | x=a\x20 y=\x20b | a\x20\x20b
$u | (w (v u)) | | \e
"$u" | (w (V u)) | | \e
$x | (w (v x)) | IFS=: x=a:b | a:b
$x | (w (v x)) | x=* | *
* | (w p:*) | | *
*.txt | (w p:*.txt) | | *.txt
[a] | (w p:[a]) | | [a]
"*" | (w q:*) | | *
\\* | (w q:*) | | *
a*b?c[d] | (w p:a*b?c[d]) | | a*b?c[d]
$x | (w (v x)) | x=\\* | \\*
$x | (w (v x)) | x=a\n\tb | a\n\tb
a$x'b'$y | (w p:a (v x) q:b (v y)) | x=1\x202 y=* | a1\x202b*
$@ | (w (v @)) | @a @b | a\x20b
"$@" | (w (V @)) | @a @b | a\x20b
$* | (w (v *)) | @a @b | a\x20b
"$*" | (w (V *)) | @a @b | a\x20b
$@ | (w (v @)) | | \e
"$@" | (w (V @)) | | \e
$* | (w (v *)) | | \e
"$*" | (w (V *)) | | \e
$@ | (w (v @)) | IFS=: @a @b | a\x20b
"$@" | (w (V @)) | IFS=: @a @b | a\x20b
$* | (w (v *)) | IFS=: @a @b | a:b
"$*" | (w (V *)) | IFS=: @a @b | a:b
$@ | (w (v @)) | IFS= @a @b | a\x20b
"$@" | (w (V @)) | IFS= @a @b | a\x20b
$* | (w (v *)) | IFS= @a @b | ab
"$*" | (w (V *)) | IFS= @a @b | ab
$@ | (w (v @)) | @a @ @b | a\x20\x20b
$* | (w (v *)) | IFS=: @ @ | :
"$*" | (w (V *)) | @ @a | \x20a
x$@y | (w p:x (v @) p:y) | @1 @2 | x1\x202y
x"$@"y | (w p:x (V @) p:y) | @1 @2 | x1\x202y
$@$* | (w (v @) (v *)) | IFS=- @1 @2 | 1\x2021-2
"$@"$x | (w (V @) (v x)) | x=\x20a @1 @2 | 1\x202\x20a
$* | (w (v *)) | IFS=:; @a @b @c | a:b:c
${@} | (w (v @)) | @a\x20b @c | a\x20b\x20c
"${*}" | (w (V *)) | IFS=, @a\x20b @c | a\x20b,c
${u:-$@} | (w (v u :- (w (v @)))) | @a @b | a\x20b
"${u:-$*}" | (w (V u :- (w (V *)))) | IFS=: @a @b | a:b
${u:-$*} | (w (v u :- (w (v *)))) | IFS=: @a @b | a:b
${u:="$@"} | (w (v u := (w (V @)))) | @a @b | a\x20b | u=a\x20b"#;

/// One text is given, whatever is in it.
#[test]
fn nothing_is_split(rt: HostRuntime) -> Result<(), Fail> {
    expect_texts(&rt, rt.alloc(), WHOLE)
}

/// Forms, then substitutions and arithmetic.
static FORMS: &str = r#"$1-$2-$# | (w (v 1) p:- (v 2) p:- (v #)) | @a @b | a-b-2
$? | (w (v ?)) | ?4 | 4
$0 | (w (v 0)) | | s
${#x} | (w (v x len)) | x=a\x20b | 3
${x:-a  b} | (w (v x :- (w p:a\x20\x20b))) | x= | a\x20\x20b
"${x:-a  b}" | (w (V x :- (w q:a\x20\x20b))) | x= | a\x20\x20b
${u-'a  b'} | (w (v u - (w q:a\x20\x20b))) | | a\x20\x20b
${u-a\\ \\ b} | (w (v u - (w p:a q:\x20\x20 p:b))) | | a\x20\x20b
${u-*} | (w (v u - (w p:*))) | | *
${x-a} | (w (v x - (w p:a))) | x= | \e
${u=a  b} | (w (v u = (w p:a\x20\x20b))) | | a\x20\x20b | u=a\x20\x20b
${u:="a"*} | (w (v u := (w q:a p:*))) | | a* | u=a*
${x+a  b} | (w (v x + (w p:a\x20\x20b))) | x=1 | a\x20\x20b
${x:+a} | (w (v x :+ (w p:a))) | x= | \e
${u?a  b} | (w (v u ? (w p:a\x20\x20b))) | | !Unset u a\x20\x20b
${u:?} | (w (v u :?)) | | !Unset u parameter\x20not\x20set
${x:?$y} | (w (v x :? (w (v y)))) | x= y=1\x20\x202 | !Unset x 1\x20\x202
${1?} | (w (v 1 ?)) | | !Unset 1 parameter\x20not\x20set
${x%b*} | (w (v x % (w p:b*))) | x=a\x20b\x20c | a\x20
${x%%" "*} | (w (v x %% (w q:\x20 p:*))) | x=a\x20b\x20c | a
${x#* } | (w (v x # (w p:*\x20))) | x=a\x20b\x20c | b\x20c
${x##* } | (w (v x ## (w p:*\x20))) | x=a\x20b\x20c | c
"${x##*/}" | (w (V x ## (w p:*/))) | x=/a/b\x20c | b\x20c
${x%$y} | (w (v x % (w (v y)))) | x=a* y=* | a*
${x%"$y"} | (w (v x % (w (V y)))) | x=a* y=* | a
${x#$*} | (w (v x # (w (v *)))) | IFS=? x=abcd @a @c | d
${u:-${v:-a b}} | (w (v u :- (w (v v :- (w p:a\x20b))))) | | a\x20b
"${u:-"${v:-a b}"}" | (w (V u :- (w (V v :- (w q:a\x20b))))) | | a\x20b
"${u:-'a'}" | (w (V u :- (w q:'a'))) | | 'a'
${u:-'a'} | (w (v u :- (w q:a))) | | a
${u:-"a}b"} | (w (v u :- (w q:a}b))) | | a}b
"${u:-a\\}b}" | (w (V u :- (w q:a}b))) | | a}b
"${u:-\\a}" | (w (V u :- (w q:\\a))) | | \\a
$(echo 'a  b') | (w (s 0)) | $a\x20\x20b | a\x20\x20b
"$(echo 'a  b')" | (w (S 0)) | $a\x20\x20b | a\x20\x20b
$(echo '*') | (w (s 0)) | $* | *
$(echo a; echo; echo) | (w (s 0)) | $a | a
a$()b | (w p:a (s 0) p:b) | $ | ab
$((1+2)) | (w (a p:1+2)) | | 3
$((x=1))$x | (w (a p:x=1) (v x)) | | 11 | x=1
$((x*x)) | (w (a p:x*x)) | x=7 | 49
$((1/0)) | (w (a p:1/0)) | | !Arith DivideByZero
$((x)) | (w (a p:x)) | x=q | !Arith NotANumber x
$((1+)) | (w (a p:1+)) | | !Arith Syntax
$x$((x=2))$((1/0)) | (w (v x) (a p:x=2) (a p:1/0)) | x=1 | !Arith DivideByZero | x=2
${v=1}${u?} | (w (v v = (w p:1)) (v u ?)) | | !Unset u parameter\x20not\x20set | v=1
a=b=c | (w p:a=b=c) | | a=b=c
x=$y | (w p:x= (v y)) | y=1 | x=1
"a\nb" | (w q:a\nb) | | a\nb
'$x' | (w q:$x) | | $x
"\\$x\\a" | (w q:$x\\a) | | $x\\a"#;

/// Forms, substitutions and arithmetic give their texts.
#[test]
fn forms_give_one_text(rt: HostRuntime) -> Result<(), Fail> {
    expect_texts(&rt, rt.alloc(), FORMS)
}

/// All rules together.
static TOGETHER: &str = r#""$@" | (w (V @)) | @ @ | \x20
a$x | (w p:a (v x)) | x=\x20b | a\x20b
${u?"$x"} | (w (v u ? (w (V x)))) | x=* | !Unset u *
${?%0} | (w (v ? % (w p:0))) | ?10 | 1
${x%%c*} | (w (v x %% (w p:c*))) | x=a\x20b\x20c\x20d | a\x20b\x20
$x$y | (w (v x) (v y)) | IFS=: x=a: y=b | a:b
"a$@" | (w q:a (V @)) | @ @ | a\x20
"${u:-'a b'}" | (w (V u :- (w q:'a\x20b'))) | | 'a\x20b'
"a$@b" | (w q:a (V @) q:b) | @1 @2 @3 | a1\x202\x203b
${u:=a:b} | (w (v u := (w p:a:b))) | IFS=: | a:b | u=a:b
$* | (w (v *)) | IFS= @a\x20b @c | a\x20bc
${x?a} | (w (v x ? (w p:a))) | x= | \e
a$x | (w p:a (v x)) | x=b\x20 | ab\x20
$()$u | (w (s 0) (v u)) | $ | \e
a$(echo b)c | (w p:a (s 0) p:c) | $b | abc
"${u:-$@}" | (w (V u :- (w (V @)))) | | \e
$* | (w (v *)) | IFS= @a @ @b | ab
"$@" | (w (V @)) | @a @b\x20c @ | a\x20b\x20c\x20
$@ | (w (v @)) | @a\x20b @c | a\x20b\x20c
$? | (w (v ?)) | IFS=0 ?101 | 101
$(echo "a  b") | (w (s 0)) | $a\x20\x20b | a\x20\x20b
${u:=$x} | (w (v u := (w (v x)))) | x=1\x202 | 1\x202 | u=1\x202
${x+${v=1}} | (w (v x + (w (v v = (w p:1))))) | x=1 | 1 | v=1
$x | (w (v x)) | x=a:b | a:b
"${x%*}" | (w (V x % (w p:*))) | x=a* | a*
${x%b} | (w (v x % (w p:b))) | x=abc | abc
${x:+a} | (w (v x :+ (w p:a))) | x=1 | a
$(echo a) | (w (s 0)) | $a | a
"${u:-$@}" | (w (V u :- (w (V @)))) | @a @b\x20c | a\x20b\x20c
$x$y | (w (v x) (v y)) | x=a\x20 y=b | a\x20b
$x$y | (w (v x) (v y)) | x=1 y=2 | 12
${#x} | (w (v x len)) | x=abc | 3
$x | (w (v x)) | IFS=\x20: x=a:\x20:b | a:\x20:b
""$x | (w q:\e (v x)) | x=\x20a | \x20a
"a$@" | (w q:a (V @)) | | a
${u:-$((1+2))} | (w (v u :- (w (a p:1+2)))) | | 3
$x"" | (w (v x) q:\e) | x=a\x20 | a\x20
$x | (w (v x)) | IFS=\x20: x=\x20a\x20:\x20b\x20 | \x20a\x20:\x20b\x20
${u:-'a':b} | (w (v u :- (w q:a p::b))) | IFS=: | a:b
${#?} | (w (v ? len)) | ?127 | 3
$x | (w (v x)) | IFS=\x20: x=a\x20:\x20b | a\x20:\x20b
"${x%abc}" | (w (V x % (w p:abc))) | x=abc | \e
"$@""" | (w (V @) q:\e) | | \e
$x$y | (w (v x) (v y)) | x=a y=b | ab
$x$y | (w (v x) (v y)) | x=a y=\x20b | a\x20b
${x=a} | (w (v x = (w p:a))) | x=1 | 1
$((9223372036854775807+1)) | (w (a p:9223372036854775807+1)) | | !Arith Overflow
${u="$@"} | (w (v u = (w (V @)))) | @a @b | a\x20b | u=a\x20b
${#x} | (w (v x len)) | IFS=1 x=aaaaaaaaaa | 10
x${u:-a b}y | (w p:x (v u :- (w p:a\x20b)) p:y) | | xa\x20by
"${u:-"a b"}" | (w (V u :- (w q:a\x20b))) | | a\x20b
$x | (w (v x)) | IFS=\x20: x=a\x20\x20b | a\x20\x20b
${0-a} | (w (v 0 - (w p:a))) | | s
"$( )" | (w (S 0)) | $ | \e
a"b c"d'e f' | (w p:a q:b\x20c p:d q:e\x20f) | | ab\x20cde\x20f
"${u:-a"b c"d}" | (w (V u :- (w q:ab\x20cd))) | | ab\x20cd
$x | (w (v x)) | IFS=\n x=a\x20b\n\nc | a\x20b\n\nc
"${u=$*}" | (w (V u = (w (V *)))) | IFS=: @a @b | a:b | u=a:b
"${u-}" | (w (V u - (w))) | | \e
"${u:=$x}" | (w (V u := (w (V x)))) | x=1\x202 | 1\x202 | u=1\x202
a$@b | (w p:a (v @) p:b) | @1 @2 | a1\x202b
$x | (w (v x)) | IFS=: x=a::b | a::b
$((-1)) | (w (a p:-1)) | | -1
"$@""$@" | (w (V @) (V @)) | | \e
"$(echo)" | (w (S 0)) | $ | \e
""$@ | (w q:\e (v @)) | | \e
a$((1))b | (w p:a (a p:1) p:b) | | a1b
"$@$@" | (w (V @) (V @)) | | \e
$1 | (w (v 1)) | @a\x20b | a\x20b
${x%b} | (w (v x % (w p:b))) | IFS=: x=a:c:b | a:c:"#;

/// Each part is expanded by its own rule, from the left.
#[test]
fn rules_hold_for_one_text(rt: HostRuntime) -> Result<(), Fail> {
    expect_texts(&rt, rt.alloc(), TOGETHER)
}
