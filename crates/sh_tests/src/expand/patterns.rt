//! Whether a pattern byte is left before path expansion, as `dash` answers where the rule isn't our own.
use super::rows::expect_patterns;
use std::test::Fail;

/// Pattern bytes, written, or from an expansion; bytes of IFS, which splitting drops; faults, and variables.
static BYTES: &str = r#"a | (w p:a) | | no
* | (w p:*) | | yes
? | (w p:?) | | yes
[ | (w p:[) | | yes
] | (w p:]) | | no
*.txt | (w p:*.txt) | | yes
"*.txt" | (w q:*.txt) | | no
a"*" | (w p:a q:*) | | no
'*' "?" \\[ | (w q:*) (w q:?) (w q:[) | | no
a b * | (w p:a) (w p:b) (w p:*) | | yes
a* b | (w p:a*) (w p:b) | | yes
"a"* | (w q:a p:*) | | yes
\e | | | no
a[b | (w p:a[b) | | yes
$x | (w (v x)) | x=* | yes
"$x" | (w (V x)) | x=* | no
$x | (w (v x)) | x=a | no
a$x | (w p:a (v x)) | x=b? | yes
$x | (w (v x)) | x=[ | yes
${x} | (w (v x)) | x=a\x20b*\x20c | yes
$1 | (w (v 1)) | @? | yes
$@ | (w (v @)) | @a @* | yes
"$@" | (w (V @)) | @a @* | no
$* | (w (v *)) | @a @b | no
$* | (w (v *)) | IFS=* @a @b | no
"$*" | (w (V *)) | IFS=* @a @b | no
$? | (w (v ?)) | ?1 | no
$(echo '*') | (w (s 0)) | $* | yes
"$(echo '*')" | (w (S 0)) | $* | no
$(echo a) | (w (s 0)) | $a | no
${u:-*} | (w (v u :- (w p:*))) | | yes
"${u:-*}" | (w (V u :- (w q:*))) | | no
${u:-"*"} | (w (v u :- (w q:*))) | | no
${u:-\\*} | (w (v u :- (w q:*))) | | no
${x:-*} | (w (v x :- (w p:*))) | x=a | no
${x+*} | (w (v x + (w p:*))) | x=a | yes
${u=*} | (w (v u = (w p:*))) | | yes | u=*
"${u=*}" | (w (V u = (w q:*))) | | no | u=*
${x%*} | (w (v x % (w p:*))) | x=a* | yes
${x%b} | (w (v x % (w p:b))) | x=*b | yes
${x#*} | (w (v x # (w p:*))) | x=ab | no
$x | (w (v x)) | x=\\* | yes
${#x} | (w (v x len)) | x=* | no
$((2*3)) | (w (a p:2*3)) | | no
$((x=4)) | (w (a p:x=4)) | | no | x=4
$u | (w (v u)) | | no
$x | (w (v x)) | IFS=* x=a*b | no
$x | (w (v x)) | IFS=* x=a?b | yes
$x | (w (v x)) | IFS=? x=? | no
"$x"* | (w (V x) p:*) | IFS=* x=a | yes
a*b | (w p:a*b) | IFS=* | yes
${u:-a*b} | (w (v u :- (w p:a*b))) | IFS=* | no
$x | (w (v x)) | IFS=[ x=[a | no
${u?a} | (w (v u ? (w p:a))) | | !Unset u a
* ${u?a} | (w p:*) (w (v u ? (w p:a))) | | !Unset u a
${u?a} * | (w (v u ? (w p:a))) (w p:*) | | !Unset u a
${v=1} * ${w=2} | (w (v v = (w p:1))) (w p:*) (w (v w = (w p:2))) | | yes | v=1 w=2
${v=*} $v | (w (v v = (w p:*))) (w (v v)) | | yes | v=*
$((1/0)) * | (w (a p:1/0)) (w p:*) | | !Arith DivideByZero
* $((1/0)) | (w p:*) (w (a p:1/0)) | | !Arith DivideByZero
$((x)) | (w (a p:x)) | x=a | !Arith NotANumber x
${v=1} ${u?} ${w=2} | (w (v v = (w p:1))) (w (v u ?)) (w (v w = (w p:2))) | | !Unset u parameter\x20not\x20set | v=1
$((v=1+)) * | (w (a p:v=1+)) (w p:*) | | !Arith Syntax"#;

/// A quoted byte is none, and one that splitting drops neither.
#[test]
fn unquoted_pattern_bytes_are_left(rt: HostRuntime) -> Result<(), Fail> {
    expect_patterns(&rt, rt.alloc(), BYTES)
}

/// All rules together.
static BYTES_TOGETHER: &str = r#"${x?a} | (w (v x ? (w p:a))) | x=1 | no
${u:?a} | (w (v u :? (w p:a))) | | !Unset u a
"$*" | (w (V *)) | IFS=: @a @b | no
${u=$*} | (w (v u = (w (v *)))) | IFS=: @a @b | no | u=a:b
${x%.*} ${x%%.*} | (w (v x % (w p:.*))) (w (v x %% (w p:.*))) | x=a.b.c | no
"${*}" | (w (V *)) | IFS=\n @a @b | no
$x | (w (v x)) | IFS=: x=a:: | no
${u:?a b  c} | (w (v u :? (w p:a\x20b\x20\x20c))) | | !Unset u a\x20b\x20\x20c
\\** | (w q:* p:*) | | yes
"${x%$*}" | (w (V x % (w (v *)))) | IFS= x=abcd @c @d | no
"*" '*' \\* | (w q:*) (w q:*) (w q:*) | | no
"${x%$p}" | (w (V x % (w (v p)))) | x=a* p=\\* | no
[ a | (w p:[) (w p:a) | | yes
${x%/*} ${x##*/} | (w (v x % (w p:/*))) (w (v x ## (w p:*/))) | x=/a/b.c | no
$((2))* | (w (a p:2) p:*) | | yes
${x%%[[:digit:]]*} | (w (v x %% (w p:[[:digit:]]*))) | x=ab12c | no
${?:?a} | (w (v ? :? (w p:a))) | | no
"$*" | (w (V *)) | IFS= @a @b | no
a:b$x | (w p:a:b (v x)) | IFS=: x=c:d | no
$x$y | (w (v x) (v y)) | IFS=: x=a: y=b | no
"$*" | (w (V *)) | @a\x20b @* | no
a$*b | (w p:a (v *) p:b) | @1\x202 @3 | no
${x#*b} ${x##*b} | (w (v x # (w p:*b))) (w (v x ## (w p:*b))) | x=abab | no
a ${u?b} $((1/0)) | (w p:a) (w (v u ? (w p:b))) (w (a p:1/0)) | | !Unset u b
$* | (w (v *)) | IFS=: @a:b @c | no
${u=$@} | (w (v u = (w (v @)))) | IFS=: @a @b | no | u=a\x20b
$? $(false) $? | (w (v ?)) (w (s 0)) (w (v ?)) | ?5 $ | no
nope* "no"pe* | (w p:nope*) (w q:no p:pe*) | | yes
${x%[} | (w (v x % (w p:[))) | x=a[ | no
"$*" | (w (V *)) | IFS=:; @a @b | no
a$?b$#c$1 | (w p:a (v ?) p:b (v #) p:c (v 1)) | @q ?7 | no
$x | (w (v x)) | IFS=,; x=a,b;c,;d | no
"a$*b" | (w q:a (V *) q:b) | @1 @2 | no
${v=1} ${u?a} ${w=2} | (w (v v = (w p:1))) (w (v u ? (w p:a))) (w (v w = (w p:2))) | | !Unset u a | v=1
${x:?a} | (w (v x :? (w p:a))) | x=1 | no
${x%b} | (w (v x % (w p:b))) | IFS=: x=a:c:b | no
a:b | (w p:a:b) | IFS=: | no
"${x#$*}" | (w (V x # (w (v *)))) | IFS=? x=abcd @a @c | no
${x#*.} ${x##*.} | (w (v x # (w p:*.))) (w (v x ## (w p:*.))) | x=a.b.c | no
${u:-'a':b} | (w (v u :- (w q:a p::b))) | IFS=: | no
$? | (w (v ?)) | ?255 | no
$x | (w (v x)) | IFS=\x20: x=a:\x20:b | no
${u:?} | (w (v u :?)) | | !Unset u parameter\x20not\x20set
"$@" | (w (V @)) | IFS= @a @b | no
$x"" | (w (v x) q:\e) | IFS=: x=a: | no
"${x#"$*"}" | (w (V x # (w (V *)))) | IFS=? x=abcd @a @c | no
${x%.*}* | (w (v x % (w p:.*)) p:*) | x=a.b | yes
${x%'*'} ${x%"*"} ${x%\\*} | (w (v x % (w q:*))) (w (v x % (w q:*))) (w (v x % (w q:*))) | x=a* | no
$x | (w (v x)) | IFS=\x20: x=a\x20\x20b | no
""$x | (w q:\e (v x)) | IFS=: x=:a | no
$x$y | (w (v x) (v y)) | IFS=: x=a: y=:b | no
"${u:=a:b}" | (w (V u := (w q:a:b))) | IFS=: | no | u=a:b
"$*" | (w (V *)) | @ @ | no
"${x%*}" | (w (V x % (w p:*))) | x=a* | no
${x+a:b} | (w (v x + (w p:a:b))) | IFS=: x=1 | no
${x#*} "${x##*}" | (w (v x # (w p:*))) (w (V x ## (w p:*))) | x=abc | no
$x ${IFS:+$((IFS=0))} $x | (w (v x)) (w (v IFS :+ (w (a p:IFS=0)))) (w (v x)) | IFS=1 x=a1b0c | no | IFS=0
${x%b*} ${x%%b*} | (w (v x % (w p:b*))) (w (v x %% (w p:b*))) | x=abab | no
$x/* | (w (v x) p:/*) | x=d | yes
$(($x*2)) | (w (a (V x) p:*2)) | x=3 | no
$x | (w (v x)) | IFS=\x20: x=a\x20:\x20b | no
$x | (w (v x)) | IFS=\\ x=a\\b | no
${u?""} | (w (v u ? (w q:\e))) | | !Unset u \e
${x%]} ${x%[]]} | (w (v x % (w p:]))) (w (v x % (w p:[]]))) | x=a] | no
[!a]* | (w p:[!a]*) | | yes
$(echo a)* | (w (s 0) p:*) | $a | yes
"$((10203))" | (w (A p:10203)) | IFS=0 | no
${x:?} | (w (v x :?)) | x= | !Unset x parameter\x20not\x20set
\\[a] [a"]" | (w q:[ p:a]) (w p:[a q:]) | | yes
$@ | (w (v @)) | IFS= @a\x20b @c | no
${?:-a} | (w (v ? :- (w p:a))) | ?3 | no
${u:-"a:b"} | (w (v u :- (w q:a:b))) | IFS=: | no
$x | (w (v x)) | IFS=\x0b x=a\x0b\x0bb | no
$x | (w (v x)) | IFS=\x20: x=a\x20: | no
${u:-a:b} | (w (v u :- (w p:a:b))) | IFS=: | no
"${x%'*'}" "${x%"*"}" "${x%\\*}" | (w (V x % (w q:*))) (w (V x % (w q:*))) (w (V x % (w q:*))) | x=a* | no
${u?"$x"} | (w (v u ? (w (V x)))) | x=* | !Unset u *
"${x%%c*}" | (w (V x %% (w p:c*))) | x=a\x20b\x20c\x20d | no
d/* */a | (w p:d/*) (w p:*/a) | | yes
${#x} | (w (v x len)) | IFS=1 x=aaaaaaaaaa | no
"$@" | (w (V @)) | @* @? | no
${u?$x} | (w (v u ? (w (v x)))) | x=1\x20\x202 | !Unset u 1\x20\x202
${2:?a} | (w (v 2 :? (w p:a))) | @a @ | !Unset 2 a
"${x%"$p"}" | (w (V x % (w (V p)))) | x=a\\* p=\\* | no
$* | (w (v *)) | @ @a @ | no
$? ${?} | (w (v ?)) (w (v ?)) | | no
$x'' | (w (v x) q:\e) | IFS=: x=: | no
$? | (w (v ?)) | ?11 | no
${01:?a} | (w (v 1 :? (w p:a))) | | !Unset 1 a
${u:=*} | (w (v u := (w p:*))) | | yes | u=*"#;

/// Each part is expanded by its own rule, from the left.
#[test]
fn pattern_bytes_are_found_by_all_rules(rt: HostRuntime) -> Result<(), Fail> {
    expect_patterns(&rt, rt.alloc(), BYTES_TOGETHER)
}
