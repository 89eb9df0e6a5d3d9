//! The fields of words: path expansion, as `dash` answers where the rule isn't our own.
use super::rows::expect_fields;
use std::test::Fail;

/// Files in the working directory: path expansion of fields (XCU 2.6.6), and words one by one from the left.
static NAMES: &str = r#"* | (w p:*) | /b= /a= /.c= | a b
*.txt *.log | (w p:*.txt) (w p:*.log) | /x1.txt= /x2.txt= /.x3.txt= | x1.txt x2.txt *.log
"*" '*' \\* | (w q:*) (w q:*) (w q:*) | /a= | * * *
$x | (w (v x)) | x=* /b= /a= | a b
"$x" | (w (V x)) | x=* /b= /a= | *
$x | (w (v x)) | x=a*\x20b* /b1= /a1= /a2= | a1 a2 b1
$x* | (w (v x) p:*) | x=a /ab= /b= | ab
$x"*" | (w (v x) q:*) | x=a /ab= /a*= | a*
"$x"* | (w (V x) p:*) | x=? /ab= /?c= | ?c
${u:-*} | (w (v u :- (w p:*))) | /ab= /b= | ab b
${u:-"*"} | (w (v u :- (w q:*))) | /ab= | *
"${u:-*}" | (w (V u :- (w q:*))) | /ab= | *
[a-b]? | (w p:[a-b]?) | /a1= /b2= /c3= | a1 b2
[!a]* | (w p:[!a]*) | /a1= /b2= /.c= | b2
.* | (w p:.*) | /a= /.c= | .c
d/* */a | (w p:d/*) (w p:*/a) | /d/a= /d/.b= /e/a= | d/a d/a e/a
$x/* | (w (v x) p:/*) | x=d /d/a= | d/a
a\\* a'?' | (w p:a q:*) (w p:a q:?) | /a*= /ab= | a* a?
\\[a] [a"]" | (w q:[ p:a]) (w p:[a q:]) | /a= /[a]= | [a] [a]
nope* "no"pe* | (w p:nope*) (w q:no p:pe*) | /a= | nope* nope*
[ a | (w p:[) (w p:a) | /a= | [ a
$x | (w (v x)) | x=\\* /a= | \\*
"a b"* | (w q:a\x20b p:*) | /a\x20bc= /a= | a\x20bc
* | (w p:*) | /a\x20b= /c=\x20d | a\x20b c
$x | (w (v x)) | IFS=: x=a:* /a= | a a
$((2))* | (w (a p:2) p:*) | /2a= | 2a
"$@"* | (w (V @) p:*) | @x @a /ab= /ac= | x ab ac
$(echo a)* | (w (s 0) p:*) | $a /ab= /ac= | ab ac
${x%.*}* | (w (v x % (w p:.*)) p:*) | x=a.b /a.b= /ac= | a.b ac
\\** | (w q:* p:*) | /*a= /b= | *a
$x ${x:=1} $x | (w (v x)) (w (v x := (w p:1))) (w (v x)) | | 1 1 | x=1
${x:=1} ${x:=2} | (w (v x := (w p:1))) (w (v x := (w p:2))) | | 1 1 | x=1
$((x=1)) ${x:+$((x=2))} $x | (w (a p:x=1)) (w (v x :+ (w (a p:x=2)))) (w (v x)) | | 1 2 2 | x=2
${x=a b} $x "$x" | (w (v x = (w p:a\x20b))) (w (v x)) (w (V x)) | | a b a b a\x20b | x=a\x20b
$x $((x=5)) "$x" ${x%5} | (w (v x)) (w (a p:x=5)) (w (V x)) (w (v x % (w p:5))) | x=1 | 1 5 5 | x=5"#;

/// A field with an unquoted pattern byte gives the names that fit, and others stay.
#[test]
fn patterns_give_names(rt: HostRuntime) -> Result<(), Fail> {
    expect_fields(&rt, rt.alloc(), NAMES)
}
