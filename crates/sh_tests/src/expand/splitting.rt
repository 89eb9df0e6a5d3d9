//! The fields of words: field splitting (XCU 2.6.5), as `dash` answers where the rule isn't our own.
use super::rows::expect_fields;
use std::test::Fail;

/// IFS is unset. In the last rows, a word that gives no byte and has no quoted part gives no field.
static UNSET: &str = r#"$x | (w (v x)) | x=a\x20b | a b
$x | (w (v x)) | x=\x20a\x20\x20b\x20 | a b
$x | (w (v x)) | x=a\tb\nc | a b c
$x | (w (v x)) | x=\x20\x20
$x | (w (v x)) | x=
a$x | (w p:a (v x)) | x=\x20b | a b
a$x | (w p:a (v x)) | x=b\x20 | ab
$x$y | (w (v x) (v y)) | x=a\x20 y=b | a b
$x$y | (w (v x) (v y)) | x=a y=\x20b | a b
$x$y | (w (v x) (v y)) | x=a y=b | ab
a$x"b" | (w p:a (v x) q:b) | x=\x20 | a b
"a"$x"b" | (w q:a (v x) q:b) | x=1\x202 | a1 2b
"$x" | (w (V x)) | x=\x20a\x20\x20b\x20 | \x20a\x20\x20b\x20
$x"" | (w (v x) q:\e) | x=a\x20 | a \e
""$x | (w q:\e (v x)) | x=\x20a | \e a
$x | (w (v x)) | x=a\x0bb | a\x0bb
$x | (w (v x)) | x=a:b | a:b
a b$x | (w p:a) (w p:b (v x)) | x=\x20c | a b c
$x'c d' | (w (v x) q:c\x20d) | x=a\x20b | a bc\x20d
${u:-$x} | (w (v u :- (w (v x)))) | x=a\x20b | a b
$1 | (w (v 1)) | @a\x20b | a b
$? | (w (v ?)) | ?11 | 11
$u $u | (w (v u)) (w (v u))
$u "$u" '' | (w (v u)) (w (V u)) (w q:\e) | | \e \e
$u$u | (w (v u) (v u))
a $u b | (w p:a) (w (v u)) (w p:b) | | a b
$x | (w (v x)) | x=\x20\t\n
${u:-} | (w (v u :- (w)))
${u:-""} | (w (v u :- (w q:\e))) | | \e
${u:-$v} | (w (v u :- (w (v v))))
${u:-"$v"} | (w (v u :- (w (V v)))) | | \e
${x+} | (w (v x + (w))) | x=1
$()$u | (w (s 0) (v u)) | $"#;

/// Space, tab and newline split where IFS is unset.
#[test]
fn white_space_splits(rt: HostRuntime) -> Result<(), Fail> {
    expect_fields(&rt, rt.alloc(), UNSET)
}

/// IFS is set.
static OTHER: &str = r#"$x | (w (v x)) | IFS=: x=a:b | a b
$x | (w (v x)) | IFS=: x=a::b | a \e b
$x | (w (v x)) | IFS=: x=:a | \e a
$x | (w (v x)) | IFS=: x=a: | a
$x | (w (v x)) | IFS=: x=a:: | a \e
$x | (w (v x)) | IFS=: x=: | \e
$x | (w (v x)) | IFS=: x=:: | \e \e
$x | (w (v x)) | IFS=: x=a\x20b | a\x20b
$x | (w (v x)) | IFS=: x=\x20a\x20:\x20b\x20 | \x20a\x20 \x20b\x20
$x | (w (v x)) | IFS=\x20: x=a\x20:\x20b | a b
$x | (w (v x)) | IFS=\x20: x=\x20a\x20:\x20b\x20 | a b
$x | (w (v x)) | IFS=\x20: x=a\x20\x20b | a b
$x | (w (v x)) | IFS=\x20: x=a:\x20:b | a \e b
$x | (w (v x)) | IFS=\x20: x=\x20:\x20a | \e a
$x | (w (v x)) | IFS=\x20: x=a\x20: | a
$x | (w (v x)) | IFS=:\x20 x=: | \e
$x | (w (v x)) | IFS=,; x=a,b;c,;d | a b c \e d
$x | (w (v x)) | IFS= x=a\x20b | a\x20b
$x | (w (v x)) | IFS= x=\x20 | \x20
$x | (w (v x)) | IFS=\n x=a\x20b\n\nc | a\x20b c
$x | (w (v x)) | IFS=\x20 x=a\tb\x20c | a\tb c
$x | (w (v x)) | IFS=x x=axb | a b
$x | (w (v x)) | IFS=aa x=baac | b \e c
$x | (w (v x)) | IFS=\x0b x=a\x0b\x0bb | a \e b
$x | (w (v x)) | IFS=\\ x=a\\b | a b
$x | (w (v x)) | IFS=* x=a*b | a b
a:b$x | (w p:a:b (v x)) | IFS=: x=c:d | a:bc d
a:b | (w p:a:b) | IFS=: | a:b
$x$y | (w (v x) (v y)) | IFS=: x=a: y=:b | a \e b
$x$y | (w (v x) (v y)) | IFS=: x=a: y=b | a b
$x:b | (w (v x) p::b) | IFS=: x=a | a:b
$x"" | (w (v x) q:\e) | IFS=: x=a: | a \e
$x'' | (w (v x) q:\e) | IFS=: x=: | \e \e
""$x | (w q:\e (v x)) | IFS=: x=:a | \e a
"$x" | (w (V x)) | IFS=: x=a:b | a:b
${u:-a:b} | (w (v u :- (w p:a:b))) | IFS=: | a b
${u:-"a:b"} | (w (v u :- (w q:a:b))) | IFS=: | a:b
${u:-'a':b} | (w (v u :- (w q:a p::b))) | IFS=: | a b
${u:=a:b} | (w (v u := (w p:a:b))) | IFS=: | a b | u=a:b
"${u:=a:b}" | (w (V u := (w q:a:b))) | IFS=: | a:b | u=a:b
${x+a:b} | (w (v x + (w p:a:b))) | IFS=: x=1 | a b
$((10203)) | (w (a p:10203)) | IFS=0 | 1 2 3
"$((10203))" | (w (A p:10203)) | IFS=0 | 10203
$? | (w (v ?)) | IFS=0 ?101 | 1 1
$(echo a:b) | (w (s 0)) | IFS=: $a:b | a b
${#x} | (w (v x len)) | IFS=1 x=aaaaaaaaaa | \e 0
${x%b} | (w (v x % (w p:b))) | IFS=: x=a:c:b | a c
$x ${IFS=:} $x | (w (v x)) (w (v IFS = (w p::))) (w (v x)) | x=a:b | a:b \e a b | IFS=:
$x ${IFS:+$((IFS=0))} $x | (w (v x)) (w (v IFS :+ (w (a p:IFS=0)))) (w (v x)) | IFS=1 x=a1b0c | a b0c \e a1b c | IFS=0"#;

/// White space of IFS joins, and each other byte of it ends a field.
#[test]
fn bytes_of_ifs_split(rt: HostRuntime) -> Result<(), Fail> {
    expect_fields(&rt, rt.alloc(), OTHER)
}
