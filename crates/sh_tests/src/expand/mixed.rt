//! The fields of words: all rules together, as `dash` answers where the rule isn't our own.
use super::rows::expect_fields;
use std::test::Fail;

/// Words of several parts.
static MIXED: &str = r#"$x$@ | (w (v x) (v @)) | IFS=:a x= y= @: @\x20b | \e \x20b
$x$y | (w (v x) (v y)) | IFS=\x20: x= y=:\x20 @\x20 | \e
$x | (w (v x)) | x=:bab y= @:a @: | :bab
${x%%[:a]*}$y | (w (v x %% (w p:[:a]*)) (v y)) | x=:\x20\x20\x20 y=b: | b:
"$@"$x | (w (V @) (v x)) | IFS=\x20 x=:ab\x20 y=b | :ab
${x#?} | (w (v x # (w p:?))) | IFS= x= y=a:: @: @:\x20:
${u:-$x b} | (w (v u :- (w (v x) p:\x20b))) | IFS=: x= y=a | \x20b
$* | (w (v *)) | IFS= x=a:: y=b: @:\x20 | :\x20
$x"b" | (w (v x) q:b) | IFS=: x=\x20\x20\x20 y= | \x20\x20\x20b
"$x"$y | (w (V x) (v y)) | IFS=\x20: x=\x20a\x20a\x20 y=ab: @aa @b | \x20a\x20a\x20ab
"$x"$y | (w (V x) (v y)) | IFS=\x20: x=ab: y=a:b | ab:a b
${x%%[:a]*}$y | (w (v x %% (w p:[:a]*)) (v y)) | IFS=\x20 x=\x20:a:: y=\x20b @\x20aa | b
a$x | (w p:a (v x)) | IFS=\x20: x=bab\x20: y=b\x20\x20 @\x20\x20: @ab | abab
$x'' $y | (w (v x) q:\e) (w (v y)) | x=a:: y= @::\x20 | a::
$x'' $y | (w (v x) q:\e) (w (v y)) | IFS=\x20: x=\x20 y=a: @a\x20a | \e a
"$x"$y | (w (V x) (v y)) | IFS= x=\x20: y=a\x20 @ab | \x20:a\x20
$x$y | (w (v x) (v y)) | x=b y=aaa @ab @\x20ba | baaa
$x | (w (v x)) | IFS=: x=b y=a: | b
${u:-$x b} | (w (v u :- (w (v x) p:\x20b))) | IFS=:a x=\x20:\x20 y=\x20 @b @b\x20 | \x20 \x20\x20b
$x"b" | (w (v x) q:b) | IFS=\x20 x=: y=\x20a: | :b
${x#?} | (w (v x # (w p:?))) | IFS=\x20 x= y=b:\x20 @:a
$* | (w (v *)) | IFS= x= y=\x20 @a @:b | a :b
$x$@ | (w (v x) (v @)) | IFS=\x20 x=b y=b:a @:a | b:a
a$x | (w p:a (v x)) | IFS=:a x= y=a @: | a
$x | (w (v x)) | IFS=:a x=\x20\x20\x20\x20 y= | \x20\x20\x20\x20
${x%%[:a]*}$y | (w (v x %% (w p:[:a]*)) (v y)) | IFS=: x=a\x20: y=\x20b\x20 | \x20b\x20
$x | (w (v x)) | x=\x20aaa y= @: @a | aaa
"$@"$x | (w (V @) (v x)) | IFS= x=\x20\x20\x20\x20\x20 y=a @a @ba | a ba\x20\x20\x20\x20\x20
$x"b" | (w (v x) q:b) | IFS=\x20: x=\x20\x20: y=aba @\x20 @:\x20a | \e b
"$@"$x | (w (V @) (v x)) | IFS=\x20 x=aa: y=bbb | aa:
$x$y | (w (v x) (v y)) | IFS= x=: y= | :
$x | (w (v x)) | x=: y=:ba @:\x20b @bb | :
"$x"$y | (w (V x) (v y)) | x=\x20\x20:\x20\x20 y=a @:a: @\x20\x20: | \x20\x20:\x20\x20a
$x | (w (v x)) | IFS=\x20 x=a\x20 y=: | a
$x'' $y | (w (v x) q:\e) (w (v y)) | IFS=:a x=\x20:bba: y= @b:: | \x20 bb \e \e
$x$y | (w (v x) (v y)) | IFS=:a x= y=aba @b\x20 @:b | \e b
$x"b" | (w (v x) q:b) | IFS=: x=\x20\x20\x20:\x20\x20 y=:: @b @b\x20b | \x20\x20\x20 \x20\x20b
${x#?} | (w (v x # (w p:?))) | x=b::a:\x20 y= @\x20:\x20 | ::a:
a$x | (w p:a (v x)) | IFS= x=\x20\x20a y= @\x20b @\x20 | a\x20\x20a
$x$y | (w (v x) (v y)) | IFS=\x20: x=:\x20 y=\x20b\x20 @a:: | \e b
${u:-$x b} | (w (v u :- (w (v x) p:\x20b))) | IFS=:a x=:a\x20a y=:a @b @b: | \e \e \x20 \x20b
$x$y | (w (v x) (v y)) | IFS=\x20: x=:\x20b::: y=: @b @:b\x20 | \e b \e \e \e
$x'' $y | (w (v x) q:\e) (w (v y)) | IFS=\x20 x=a\x20 y=b\x20b @a @a\x20 | a \e b b
$x$y | (w (v x) (v y)) | IFS=\x20: x=\x20:\x20\x20 y=a @\x20a: | \e a
$x'' $y | (w (v x) q:\e) (w (v y)) | IFS=\x20: x=b\x20\x20 y=\x20 @ab | b \e
${x%%[:a]*}$y | (w (v x %% (w p:[:a]*)) (v y)) | x=\x20a y=: @ba\x20 | :
$x'' $y | (w (v x) q:\e) (w (v y)) | IFS=:a x=\x20:: y=baa @b | \x20 \e \e b \e
${u:-$x b} | (w (v u :- (w (v x) p:\x20b))) | IFS=\x20 x=: y=: @\x20\x20 @b | : b
${x#?} | (w (v x # (w p:?))) | IFS= x=:a: y= @b:: @aaa | a:
"$@"$x | (w (V @) (v x)) | IFS=: x=:: y=\x20b @b | b \e
$x | (w (v x)) | IFS=: x=:\x20b y=:a: @b: | \e \x20b
$x$y | (w (v x) (v y)) | IFS=:a x= y=bb\x20 @a: | bb\x20
${x%%[:a]*}$y | (w (v x %% (w p:[:a]*)) (v y)) | IFS=: x=:\x20\x20 y=\x20 | \x20
$x'' $y | (w (v x) q:\e) (w (v y)) | IFS=: x=\x20:: y=\x20\x20\x20 @a @:b: | \x20 \e \e \x20\x20\x20
$x'' $y | (w (v x) q:\e) (w (v y)) | x=: y=a @:a | : a
$x'' $y | (w (v x) q:\e) (w (v y)) | IFS=: x= y= @b:: | \e
$x'' $y | (w (v x) q:\e) (w (v y)) | IFS=\x20 x=a\x20b\x20a: y= @\x20\x20 @a | a b a:
${x#?} | (w (v x # (w p:?))) | IFS=:a x=ba y=b\x20 @a @:\x20a | \e
$x"b" | (w (v x) q:b) | IFS= x= y=aa\x20 | b
$x"b" | (w (v x) q:b) | IFS=:a x=:::\x20\x20: y=aab | \e \e \e \x20\x20 b"#;

/// Each part is expanded by its own rule, from the left.
#[test]
fn rules_hold_together(rt: HostRuntime) -> Result<(), Fail> {
    expect_fields(&rt, rt.alloc(), MIXED)
}
