//! The fields of words: `$@` and `$*`, as `dash` answers where the rule isn't our own.
use super::rows::expect_fields;
use std::test::Fail;

/// In double quotes: `"$@"`, then `"$@"` without arguments, and `"$*"`.
static QUOTED: &str = r#""$@" | (w (V @)) | @a @b\x20c @ | a b\x20c \e
"$@" | (w (V @))
""$@ | (w q:\e (v @)) | | \e
"$@""" | (w (V @) q:\e) | | \e
a"$@" | (w p:a (V @)) | | a
"a$@" | (w q:a (V @)) | | a
"a$@b" | (w q:a (V @) q:b) | @1 | a1b
"a$@b" | (w q:a (V @) q:b) | @1 @2 @3 | a1 2 3b
x"$@"y | (w p:x (V @) p:y) | @1 @2 | x1 2y
"$@" | (w (V @)) | @ | \e
"$@" | (w (V @)) | @ @ | \e \e
"a$@" | (w q:a (V @)) | @ @ | a \e
"$@$@" | (w (V @) (V @)) | @1 @2 | 1 21 2
"$@ $@" | (w (V @) q:\x20 (V @)) | @1 @2 | 1 2\x201 2
"$@" | (w (V @)) | IFS=: @a:b @c | a:b c
"$@" | (w (V @)) | IFS= @a @b | a b
"$@" | (w (V @)) | @* @? | * ?
"${@}" | (w (V @)) | @a @b | a b
"$x$@" | (w (V x) (V @)) | x=a\x20b @1 @2 | a\x20b1 2
$x"$@" | (w (v x) (V @)) | x=a\x20b @1 @2 | a b1 2
"$@"$x | (w (V @) (v x)) | x=\x20a @1 @2 | 1 2 a
"${u:-$@}" | (w (V u :- (w (V @)))) | @a @b\x20c | a b\x20c
${u:-"$@"} | (w (v u :- (w (V @)))) | @a @b\x20c | a b\x20c
${u+"$@"} | (w (v u + (w (V @)))) | @a @b
${x+"$@"} | (w (v x + (w (V @)))) | x=1 @a @b\x20c | a b\x20c
"$@$@" | (w (V @) (V @))
"$@""$@" | (w (V @) (V @))
"${u:-$@}" | (w (V u :- (w (V @)))) | | \e
"$@"'' | (w (V @) q:\e) | | \e
''"$@" | (w q:\e (V @)) | | \e
"$@$u" | (w (V @) (V u)) | | \e
$u"$@" | (w (v u) (V @))
"$@" a "$@" | (w (V @)) (w p:a) (w (V @)) | | a
${u:-"$@"} | (w (v u :- (w (V @))))
x${u:-"$@"} | (w p:x (v u :- (w (V @)))) | | x
"$@"$x | (w (V @) (v x)) | x=\x20
"$*" | (w (V *)) | @a @b @c | a\x20b\x20c
"$*" | (w (V *)) | | \e
"$*" | (w (V *)) | @ @ | \x20
"$*" | (w (V *)) | IFS=: @a @b | a:b
"$*" | (w (V *)) | IFS=:; @a @b | a:b
"$*" | (w (V *)) | IFS= @a @b | ab
"a$*b" | (w q:a (V *) q:b) | @1 @2 | a1\x202b
"$*" | (w (V *)) | @a\x20b @* | a\x20b\x20*
"${*}" | (w (V *)) | IFS=\n @a @b | a\nb
"$*" | (w (V *)) | IFS=* @a @b /a*b= | a*b"#;

/// `"$@"` gives each argument, and `"$*"` one field.
#[test]
fn quoted_arguments_are_fields_or_one(rt: HostRuntime) -> Result<(), Fail> {
    expect_fields(&rt, rt.alloc(), QUOTED)
}

/// Outside quotes. An empty argument gives no field, whatever IFS is. The byte that joins `$*` is unquoted in the pattern of a cut.
static UNQUOTED: &str = r#"$@ | (w (v @)) | @a @b | a b
$* | (w (v *)) | @a @b | a b
$@ | (w (v @))
$* | (w (v *))
a$@ | (w p:a (v @)) | | a
$@ | (w (v @)) | @a\x20b @c | a b c
$* | (w (v *)) | @a\x20b @\x20c\x20 | a b c
a$@b | (w p:a (v @) p:b) | @1 @2 | a1 2b
a$*b | (w p:a (v *) p:b) | @1\x202 @3 | a1 2 3b
$* | (w (v *)) | IFS= @a\x20b @c | a\x20b c
$@ | (w (v @)) | IFS= @a\x20b @c | a\x20b c
$* | (w (v *)) | IFS=: @a:b @c | a b c
$@ | (w (v @)) | IFS=: @a:b @c\x20d | a b c\x20d
$@ | (w (v @)) | @* /f= /g= | f g
$*$* | (w (v *) (v *)) | @1 @2 | 1 21 2
${u:-$*} | (w (v u :- (w (v *)))) | @a @b | a b
${u:-$@} | (w (v u :- (w (v @)))) | IFS= @a @b\x20c | a b\x20c
${u=$*} | (w (v u = (w (v *)))) | IFS=: @a @b | a b | u=a:b
${u=$@} | (w (v u = (w (v @)))) | IFS=: @a @b | a\x20b | u=a\x20b
"${u=$*}" | (w (V u = (w (V *)))) | IFS=: @a @b | a:b | u=a:b
"${u=$@}" | (w (V u = (w (V @)))) | @a @b | a\x20b | u=a\x20b
${u="$@"} | (w (v u = (w (V @)))) | @a @b | a b | u=a\x20b
$@ | (w (v @)) | @a @ @b | a b
$* | (w (v *)) | @ @a @ | a
$@ | (w (v @)) | IFS=: @a @ @b | a b
$* | (w (v *)) | IFS= @a @ @b | a b
x$@y | (w p:x (v @) p:y) | @ @ | x y
x$@y | (w p:x (v @) p:y) | @ @a @ | x a y
$@"" | (w (v @) q:\e) | @a @ | a \e
"${x#$*}" | (w (V x # (w (v *)))) | IFS=? x=abcd @a @c | d
"${x#"$*"}" | (w (V x # (w (V *)))) | IFS=? x=abcd @a @c | abcd
"${x#"$*"}" | (w (V x # (w (V *)))) | IFS=? x=a?cd @a @c | d
"${x#$@}" | (w (V x # (w (v @)))) | x=a\x20cd @a @c | d
"${x%$*}" | (w (V x % (w (v *)))) | IFS= x=abcd @c @d | ab"#;

/// Each argument is split, and an empty one gives no field.
#[test]
fn arguments_are_split(rt: HostRuntime) -> Result<(), Fail> {
    expect_fields(&rt, rt.alloc(), UNQUOTED)
}
