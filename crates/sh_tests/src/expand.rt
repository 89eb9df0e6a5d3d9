//! Words and what they become, in tables: `rows` says how these are written.
mod arguments;
mod limits;
mod mixed;
mod names;
mod parameters;
mod patterns;
mod rows;
mod splitting;
mod texts;
mod values;

use rows::{expect_fields, expect_patterns};
use std::test::Fail;

/// The words of small scripts.
static EXAMPLES: &str =
    r#"x='a  b'; echo $x "$x" | (w p:echo) (w (v x)) (w (V x)) | x=a\x20\x20b | echo a b a\x20\x20b
echo *.txt | (w p:echo) (w p:*.txt) | /x1.txt= /x2.txt= /.x3.txt= | echo x1.txt x2.txt
echo *.log | (w p:echo) (w p:*.log) | /x1.txt= /x2.txt= /.x3.txt= | echo *.log
f=x1.txt; echo ${f%.*} | (w p:echo) (w (v f % (w p:.*))) | f=x1.txt | echo x1
IFS=:; x=a::b; for i in $x | (w (v x)) | IFS=: x=a::b | a \e b
echo $((7 / 2 * 2)) $((x = 3)) $x | (w p:echo) (w (a p:7\x20/\x202\x20*\x202)) (w (a p:x\x20=\x203)) (w (v x)) | | echo 6 3 3 | x=3
echo $((1 / 0)) | (w p:echo) (w (a p:1\x20/\x200)) | | !Arith DivideByZero
echo ${x?none} | (w p:echo) (w (v x ? (w p:none))) | | !Unset x none
echo $((1 / 0)) ${x?none} | (w p:echo) (w (a p:1\x20/\x200)) (w (v x ? (w p:none))) | | !Arith DivideByZero"#;

#[test]
fn words_of_small_scripts_have_their_fields(rt: HostRuntime) -> Result<(), Fail> {
    expect_fields(&rt, rt.alloc(), EXAMPLES)
}

/// Words in which a pattern byte is left, or not.
static STARS: &str = r#"*.txt | (w p:*.txt) | | yes
"*.txt" | (w q:*.txt) | | no
$x | (w (v x)) | x=* | yes"#;

#[test]
fn an_unquoted_star_is_a_pattern_byte(rt: HostRuntime) -> Result<(), Fail> {
    expect_patterns(&rt, rt.alloc(), STARS)
}
