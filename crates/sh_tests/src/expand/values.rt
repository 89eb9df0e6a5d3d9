//! The fields of words: command substitutions and arithmetic, as `dash` answers where the rule isn't our own.
use super::rows::expect_fields;
use std::test::Fail;

/// Command substitutions.
static SUBSTITUTIONS: &str = r#"$(echo a) | (w (s 0)) | $a | a
a$(echo b)c | (w p:a (s 0) p:c) | $b | abc
$(echo a b) | (w (s 0)) | $a\x20b | a b
"$(echo a b)" | (w (S 0)) | $a\x20b | a\x20b
$(echo) | (w (s 0)) | $
"$(echo)" | (w (S 0)) | $ | \e
$(echo a; echo) | (w (s 0)) | $a | a
"$(echo a; echo; echo b; echo)" | (w (S 0)) | $a\n\nb | a\n\nb
$(echo a; echo; echo b) | (w (s 0)) | $a\n\nb | a b
$(echo "a  b") | (w (s 0)) | $a\x20\x20b | a b
$(echo a)$(echo b) "$(echo c)" | (w (s 0) (s 1)) (w (S 2)) | $a $b $c | ab c
$() | (w (s 0)) | $
"$( )" | (w (S 0)) | $ | \e
a$()b | (w p:a (s 0) p:b) | $ | ab
$(echo '*') | (w (s 0)) | $* /f= /g= | f g
"$(echo '*')" | (w (S 0)) | $* /f= /g= | *
$(echo '$x') | (w (s 0)) | x=1 $$x | $x
$? $(false) $? | (w (v ?)) (w (s 0)) (w (v ?)) | ?5 $ | 5 5"#;

/// Their texts are given in order.
#[test]
fn substitutions_give_their_texts(rt: HostRuntime) -> Result<(), Fail> {
    expect_fields(&rt, rt.alloc(), SUBSTITUTIONS)
}

/// Arithmetic expansions (XCU 2.6.4), and their faults.
static ARITHMETIC: &str = r#"$((1+2)) | (w (a p:1+2)) | | 3
a$((1))b | (w p:a (a p:1) p:b) | | a1b
"$((1))" | (w (A p:1)) | | 1
$(( 6 / 4 )) | (w (a p:\x206\x20/\x204\x20)) | | 1
$((x*2)) | (w (a p:x*2)) | x=3 | 6
$(($x*2)) | (w (a (V x) p:*2)) | x=3 | 6
$((${x}0)) | (w (a (V x) p:0)) | x=3 | 30
$(($x)) | (w (a (V x))) | x=1+1 | 2
$((x=3)) $x | (w (a p:x=3)) (w (v x)) | | 3 3 | x=3
$x $((x=x+1)) $x | (w (v x)) (w (a p:x=x+1)) (w (v x)) | x=1 | 1 2 2 | x=2
$((${u:=4})) $u | (w (a (V u := (w q:4)))) (w (v u)) | | 4 4 | u=4
$((${#x})) | (w (a (V x len))) | x=abc | 3
$(($1+$2)) | (w (a (V 1) p:+ (V 2))) | @1 @2 | 3
$(($((1+1))*3)) | (w (a (A p:1+1) p:*3)) | | 6
$(()) | (w (a)) | | 0
$((-1)) | (w (a p:-1)) | | -1
$(($u)) | (w (a (V u))) | | 0
$(($u+1)) | (w (a (V u) p:+1)) | | 1
$(( $(echo 1) + 1 )) | (w (a p:\x20 (S 0) p:\x20+\x201\x20)) | $1 | 2
$((1<2)) $((2<1)) | (w (a p:1<2)) (w (a p:2<1)) | | 1 0
$((1/0)) | (w (a p:1/0)) | | !Arith DivideByZero
$((1+)) | (w (a p:1+)) | | !Arith Syntax
$((1 2)) | (w (a p:1\x202)) | | !Arith Syntax
$((x)) | (w (a p:x)) | x=a | !Arith NotANumber x
$((9223372036854775807+1)) | (w (a p:9223372036854775807+1)) | | !Arith Overflow
$((1'2)) | (w (a p:1'2)) | | !Arith Syntax
$((1"2")) | (w (a p:1"2")) | | !Arith Syntax
$((1)+2)) | (w (a p:1\x29+2)) | | !Arith Syntax
a ${v=1} $((x=2)) $((1/0)) $((y=3)) | (w p:a) (w (v v = (w p:1))) (w (a p:x=2)) (w (a p:1/0)) (w (a p:y=3)) | | !Arith DivideByZero | v=1 x=2
$((v=1/0)) | (w (a p:v=1/0)) | | !Arith DivideByZero
${v=1}$((v=2))$((w)) | (w (v v = (w p:1)) (a p:v=2) (a p:w)) | w=q | !Arith NotANumber w | v=2
$(($@)) | (w (a (V @))) | @1 @2 | !Arith Syntax"#;

/// A value is a text in decimal; a fault leaves the assignments before it.
#[test]
fn expressions_give_their_values(rt: HostRuntime) -> Result<(), Fail> {
    expect_fields(&rt, rt.alloc(), ARITHMETIC)
}
