//! The fields of words: quotes, and parameters with their forms, as `dash` answers where the rule isn't our own.
use super::rows::expect_fields;
use std::test::Fail;

/// Words without expansions, whose quotes are removed (XCU 2.6.7), parameters (XCU 2.5), and their lengths, `${#x}`.
static PLAIN: &str = r#"\e
a | (w p:a) | | a
a b c | (w p:a) (w p:b) (w p:c) | | a b c
'a b' | (w q:a\x20b) | | a\x20b
"a b" | (w q:a\x20b) | | a\x20b
a\\ b | (w p:a q:\x20 p:b) | | a\x20b
a"b c"d'e f' | (w p:a q:b\x20c p:d q:e\x20f) | | ab\x20cde\x20f
'' | (w q:\e) | | \e
"" | (w q:\e) | | \e
'' "" | (w q:\e) (w q:\e) | | \e \e
a'' | (w p:a q:\e) | | a
''a"" | (w q:\e p:a q:\e) | | a
'a"b' "c'd" | (w q:a"b) (w q:c'd) | | a"b c'd
\\a\\\\\\'\\" | (w q:a\\'") | | a\\'"
"\\a\\\\\\"\\'" | (w q:\\a\\"\\') | | \\a\\"\\'
"a\\\nb" | (w q:ab) | | ab
$x | (w (v x)) | x=1 | 1
${x} | (w (v x)) | x=1 | 1
a${x}b$x | (w p:a (v x) p:b (v x)) | x=1 | a1b1
$x$y | (w (v x) (v y)) | x=1 y=2 | 12
$xy | (w (v xy)) | x=1
$x.y | (w (v x) p:.y) | x=1 | 1.y
$u | (w (v u))
a$u | (w p:a (v u)) | | a
a$u b | (w p:a (v u)) (w p:b) | | a b
"$u" | (w (V u)) | | \e
$1 $2 | (w (v 1)) (w (v 2)) | @a @b | a b
$3 | (w (v 3)) | @a @b
"$3" | (w (V 3)) | @a @b | \e
$10 ${10} | (w (v 1) p:0) (w (v 10)) | @a @b @c @d @e @f @g @h @i @j | a0 j
${01} ${002} | (w (v 1)) (w (v 2)) | @a @b | a b
${11} | (w (v 11)) | @a @b @c @d @e @f @g @h @i @j
$0 ${0} ${00} | (w (v 0)) (w (v 0)) (w (v 0)) | | s s s
$# ${#} | (w (v #)) (w (v #)) | @a @b @ | 3 3
$# | (w (v #)) | | 0
$? ${?} | (w (v ?)) (w (v ?)) | | 0 0
$? | (w (v ?)) | ?255 | 255
a$?b$#c$1 | (w p:a (v ?) p:b (v #) p:c (v 1)) | @q ?7 | a7b1cq
${#x} | (w (v x len)) | x=abc | 3
${#x} | (w (v x len)) | x= | 0
${#u} | (w (v u len)) | | 0
${#x} | (w (v x len)) | x=\xc3\xa9 | 2
${#x} | (w (v x len)) | x=\x20a\x20 | 3
${#1}${#2} | (w (v 1 len) (v 2 len)) | @ab | 20
${#?} | (w (v ? len)) | ?127 | 3
${#0} | (w (v 0 len)) | | 1
"${#x}" | (w (V x len)) | x=a\nb | 3"#;

/// A parameter that is unset gives nothing.
#[test]
fn parameters_give_their_texts(rt: HostRuntime) -> Result<(), Fail> {
    expect_fields(&rt, rt.alloc(), PLAIN)
}

/// Forms with a word that is used or left: `${x-w}` and `${x:-w}`, `${x+w}` and `${x:+w}`, `${x=w}` and `${x:=w}`.
static WORDS: &str = r#"${x-a} | (w (v x - (w p:a))) | x=1 | 1
${x:-a} | (w (v x :- (w p:a))) | x=1 | 1
${u-a} ${u:-b} | (w (v u - (w p:a))) (w (v u :- (w p:b))) | | a b
${x-a} | (w (v x - (w p:a))) | x=
${x:-a} | (w (v x :- (w p:a))) | x= | a
"${x-a}" | (w (V x - (w q:a))) | x= | \e
"${x:-a b}" | (w (V x :- (w q:a\x20b))) | x= | a\x20b
${u-} ${u:-} | (w (v u - (w))) (w (v u :- (w)))
"${u-}" | (w (V u - (w))) | | \e
${u:-$x} | (w (v u :- (w (v x)))) | x=1\x202 | 1 2
${u:-"$x"} | (w (v u :- (w (V x)))) | x=1\x202 | 1\x202
"${u:-$x}" | (w (V u :- (w (V x)))) | x=1\x202 | 1\x202
${u:-${v:-a}} | (w (v u :- (w (v v :- (w p:a))))) | | a
${u:-a b c} | (w (v u :- (w p:a\x20b\x20c))) | | a b c
${u:-a "b c" d} | (w (v u :- (w p:a\x20 q:b\x20c p:\x20d))) | | a b\x20c d
${u:-'a b'} | (w (v u :- (w q:a\x20b))) | | a\x20b
${u:-a\\ b} | (w (v u :- (w p:a q:\x20 p:b))) | | a\x20b
x${u:-a b}y | (w p:x (v u :- (w p:a\x20b)) p:y) | | xa by
"${u:-"a b"}" | (w (V u :- (w q:a\x20b))) | | a\x20b
"${u:-'a b'}" | (w (V u :- (w q:'a\x20b'))) | | 'a\x20b'
"${u:-a\\}b}" ${u:-a\\}b} | (w (V u :- (w q:a}b))) (w (v u :- (w p:a q:} p:b))) | | a}b a}b
"${u:-\\a\\$x}" | (w (V u :- (w q:\\a$x))) | | \\a$x
"${u:-a"b c"d}" | (w (V u :- (w q:ab\x20cd))) | | ab\x20cd
${1:-a} ${2-b} | (w (v 1 :- (w p:a))) (w (v 2 - (w p:b))) | @ | a b
${?:-a} | (w (v ? :- (w p:a))) | ?3 | 3
${0-a} | (w (v 0 - (w p:a))) | | s
${u:-$((1+2))} | (w (v u :- (w (a p:1+2)))) | | 3
${x+a} | (w (v x + (w p:a))) | x=1 | a
${x:+a} | (w (v x :+ (w p:a))) | x=1 | a
${x+a} | (w (v x + (w p:a))) | x= | a
${x:+a} | (w (v x :+ (w p:a))) | x=
${u+a} ${u:+a} | (w (v u + (w p:a))) (w (v u :+ (w p:a)))
"${u+a}" | (w (V u + (w q:a))) | | \e
"${x+a b}" | (w (V x + (w q:a\x20b))) | x=1 | a\x20b
${x+a b} | (w (v x + (w p:a\x20b))) | x=1 | a b
${x+"$x"} | (w (v x + (w (V x)))) | x=a\x20b | a\x20b
${x:+$x$x} | (w (v x :+ (w (v x) (v x)))) | x=1 | 11
${1+a} | (w (v 1 + (w p:a))) | @ | a
${?+a} | (w (v ? + (w p:a))) | | a
a${u+b}c | (w p:a (v u + (w p:b)) p:c) | | ac
${x=a} | (w (v x = (w p:a))) | x=1 | 1
${x:=a} | (w (v x := (w p:a))) | x=1 | 1
${u=a} $u | (w (v u = (w p:a))) (w (v u)) | | a a | u=a
${u:=a} $u | (w (v u := (w p:a))) (w (v u)) | | a a | u=a
${x=a} | (w (v x = (w p:a))) | x=
${x:=a} | (w (v x := (w p:a))) | x= | a | x=a
"${u=a b}" $u | (w (V u = (w q:a\x20b))) (w (v u)) | | a\x20b a b | u=a\x20b
${u=a b} $u | (w (v u = (w p:a\x20b))) (w (v u)) | | a b a b | u=a\x20b
${u='a  b'} "$u" | (w (v u = (w q:a\x20\x20b))) (w (V u)) | | a b a\x20\x20b | u=a\x20\x20b
${u:=$x} | (w (v u := (w (v x)))) | x=1\x202 | 1 2 | u=1\x202
"${u:=$x}" | (w (V u := (w (V x)))) | x=1\x202 | 1\x202 | u=1\x202
${u=} | (w (v u = (w))) | | | u=
"${u=}" | (w (V u = (w))) | | \e | u=
$u ${u=1} $u | (w (v u)) (w (v u = (w p:1))) (w (v u)) | | 1 1 | u=1
${u=${v=1}} | (w (v u = (w (v v = (w p:1))))) | | 1 | u=1 v=1
${u:-${v=1}} ${x:-${w=2}} | (w (v u :- (w (v v = (w p:1))))) (w (v x :- (w (v w = (w p:2))))) | x=1 | 1 1 | v=1
${x+${v=1}} | (w (v x + (w (v v = (w p:1))))) | x=1 | 1 | v=1
${u+${v=1}} | (w (v u + (w (v v = (w p:1)))))
${u:="a"'b'\\c} | (w (v u := (w q:abc))) | | abc | u=abc
"${u:="a b"c}" | (w (V u := (w q:a\x20bc))) | | a\x20bc | u=a\x20bc
${u=$1} | (w (v u = (w (v 1)))) | @* | * | u=*
${u:=*} | (w (v u := (w p:*))) | /f= | f | u=*
"${u:=*}" | (w (V u := (w q:*))) | /f= | * | u=*"#;

/// The word is expanded only where it is used, and an assignment stands for what follows.
#[test]
fn words_of_forms_are_used(rt: HostRuntime) -> Result<(), Fail> {
    expect_fields(&rt, rt.alloc(), WORDS)
}

/// `${x?w}` and `${x:?w}`.
static CHECKS: &str = r#"${x?a} | (w (v x ? (w p:a))) | x=1 | 1
${x:?a} | (w (v x :? (w p:a))) | x=1 | 1
${x?a} | (w (v x ? (w p:a))) | x=
${x:?a} | (w (v x :? (w p:a))) | x= | !Unset x a
${u?a} | (w (v u ? (w p:a))) | | !Unset u a
${u:?a} | (w (v u :? (w p:a))) | | !Unset u a
${u?} | (w (v u ?)) | | !Unset u parameter\x20not\x20set
${u:?} | (w (v u :?)) | | !Unset u parameter\x20not\x20set
${x:?} | (w (v x :?)) | x= | !Unset x parameter\x20not\x20set
${u?""} | (w (v u ? (w q:\e))) | | !Unset u \e
${u:?a b  c} | (w (v u :? (w p:a\x20b\x20\x20c))) | | !Unset u a\x20b\x20\x20c
"${u?a b}" | (w (V u ? (w q:a\x20b))) | | !Unset u a\x20b
${u?$x} | (w (v u ? (w (v x)))) | x=1\x20\x202 | !Unset u 1\x20\x202
${u?"$x"} | (w (v u ? (w (V x)))) | x=* | !Unset u *
${1?a} | (w (v 1 ? (w p:a))) | | !Unset 1 a
${2:?a} | (w (v 2 :? (w p:a))) | @a @ | !Unset 2 a
${01:?a} | (w (v 1 :? (w p:a))) | | !Unset 1 a
${?:?a} | (w (v ? :? (w p:a))) | | 0
${v=1} ${u?a} ${w=2} | (w (v v = (w p:1))) (w (v u ? (w p:a))) (w (v w = (w p:2))) | | !Unset u a | v=1
${u?${v=1}} | (w (v u ? (w (v v = (w p:1))))) | | !Unset u 1 | v=1
a ${u?b} $((1/0)) | (w p:a) (w (v u ? (w p:b))) (w (a p:1/0)) | | !Unset u b
a $((1/0)) ${u?b} | (w p:a) (w (a p:1/0)) (w (v u ? (w p:b))) | | !Arith DivideByZero"#;

/// The first fault is told, and what was assigned before it stays.
#[test]
fn unset_parameters_are_told(rt: HostRuntime) -> Result<(), Fail> {
    expect_fields(&rt, rt.alloc(), CHECKS)
}

/// `${x%p}`, `${x%%p}`, `${x#p}`, `${x##p}`. In the last rows, a backslash that an expansion gave is a byte like others (own).
static CUTS: &str = r#"${x%c} | (w (v x % (w p:c))) | x=abc | ab
${x%b} | (w (v x % (w p:b))) | x=abc | abc
${x%} | (w (v x % (w))) | x=abc | abc
${x%abc} | (w (v x % (w p:abc))) | x=abc
"${x%abc}" | (w (V x % (w p:abc))) | x=abc | \e
${x#a} | (w (v x # (w p:a))) | x=abc | bc
${x#b} | (w (v x # (w p:b))) | x=abc | abc
${x##abc} | (w (v x ## (w p:abc))) | x=abc
${x%.*} ${x%%.*} | (w (v x % (w p:.*))) (w (v x %% (w p:.*))) | x=a.b.c | a.b a
${x#*.} ${x##*.} | (w (v x # (w p:*.))) (w (v x ## (w p:*.))) | x=a.b.c | b.c c
${x%b*} ${x%%b*} | (w (v x % (w p:b*))) (w (v x %% (w p:b*))) | x=abab | aba a
${x#*b} ${x##*b} | (w (v x # (w p:*b))) (w (v x ## (w p:*b))) | x=abab | ab
${x%?} ${x#?} ${x%??} | (w (v x % (w p:?))) (w (v x # (w p:?))) (w (v x % (w p:??))) | x=abc | ab bc a
${x%*} ${x%%*} | (w (v x % (w p:*))) (w (v x %% (w p:*))) | x=abc | abc
${x#*} "${x##*}" | (w (v x # (w p:*))) (w (V x ## (w p:*))) | x=abc | abc \e
${x%[bc]} ${x%[!bc]} | (w (v x % (w p:[bc]))) (w (v x % (w p:[!bc]))) | x=abc | ab abc
${x##[a-c]*[0-9]} | (w (v x ## (w p:[a-c]*[0-9]))) | x=ab12c | c
${x%%[[:digit:]]*} | (w (v x %% (w p:[[:digit:]]*))) | x=ab12c | ab
${x%a} | (w (v x % (w p:a))) | x=
${u%a} "${u#a}" | (w (v u % (w p:a))) (w (V u # (w p:a))) | | \e
${x%'*'} ${x%"*"} ${x%\\*} | (w (v x % (w q:*))) (w (v x % (w q:*))) (w (v x % (w q:*))) | x=a* | a a a
"${x%'*'}" "${x%"*"}" "${x%\\*}" | (w (V x % (w q:*))) (w (V x % (w q:*))) (w (V x % (w q:*))) | x=a* | a a a
"${x%*}" | (w (V x % (w p:*))) | x=a* | a*
"${x%%c*}" | (w (V x %% (w p:c*))) | x=a\x20b\x20c\x20d | a\x20b\x20
${x%%c*} | (w (v x %% (w p:c*))) | x=a\x20b\x20c\x20d | a b
${x%$y} ${x%"$y"} | (w (v x % (w (v y)))) (w (v x % (w (V y)))) | x=ab* y=b* | a a
"${x%$y}" "${x%"$y"}" | (w (V x % (w (v y)))) (w (V x % (w (V y)))) | x=ab* y=b* | a a
${x#$y} | (w (v x # (w (v y)))) | x=abc y=? | bc
${x%${y#a}} | (w (v x % (w (v y # (w p:a))))) | x=abc y=ac | ab
${x%/*} ${x##*/} | (w (v x % (w p:/*))) (w (v x ## (w p:*/))) | x=/a/b.c | /a b.c
${x%/*} | (w (v x % (w p:/*))) | x=.a/.b | .a
${1%b} ${1##a} | (w (v 1 % (w p:b))) (w (v 1 ## (w p:a))) | @ab | a b
${?%0} | (w (v ? % (w p:0))) | ?10 | 1
${x%]} ${x%[]]} | (w (v x % (w p:]))) (w (v x % (w p:[]]))) | x=a] | a a
${x%[} | (w (v x % (w p:[))) | x=a[ | a
${x#\\\\} | (w (v x # (w q:\\))) | x=\\a | a
${x%'}'} ${x%\\}} | (w (v x % (w q:}))) (w (v x % (w q:}))) | x=a} | a a
${x%% *} | (w (v x %% (w p:\x20*))) | x=a\x20b | a
${x%${u=c}} | (w (v x % (w (v u = (w p:c))))) | x=abc | ab | u=c
${x%$p} | (w (v x % (w (v p)))) | x=a* p=\\* | a*
${x%$p} | (w (v x % (w (v p)))) | x=a\\b p=\\* | a
"${x%$p}" | (w (V x % (w (v p)))) | x=a* p=\\* | a*
"${x%"$p"}" | (w (V x % (w (V p)))) | x=a\\* p=\\* | a"#;

/// The shortest or the longest ending or beginning that fits is removed.
#[test]
fn texts_are_cut_by_patterns(rt: HostRuntime) -> Result<(), Fail> {
    expect_fields(&rt, rt.alloc(), CUTS)
}
