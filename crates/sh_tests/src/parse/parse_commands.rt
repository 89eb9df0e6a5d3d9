//! Texts and their trees: simple commands, lists and pipelines.
//!
//! Where a rule isn't our own, `dash -n` takes and refuses the same texts.
use super::rows::expect_rows;
use std::test::Fail;

/// Scripts of nothing, where blanks, newlines and comments are no commands, and of one simple command, with its words, their quotes
/// and joined lines (XCU 2.9.1).
static SIMPLE: &str = r#"\e => none
\n => none
\n\n\n => none
# a => none
 # a\n\n => none
a => (list (simple (w p:a)))
a b c => (list (simple (w p:a) (w p:b) (w p:c)))
\na => (list (simple (w p:a)))
a; => (list (simple (w p:a)))
a #b => (list (simple (w p:a)))
'a' "b" \\c => (list (simple (w q:a) (w q:b) (w q:c)))
a'b'"c"\\d => (list (simple (w p:a q:bcd)))
a"" => (list (simple (w p:a q:\e)))
'' => (list (simple (w q:\e)))
"a b"$x => (list (simple (w q:a\x20b (v x))))
a\\\nb => (list (simple (w p:ab)))"#;

/// A word has its parts, and quotes are parts of no bytes of their own.
#[test]
fn a_simple_command_has_its_words(rt: HostRuntime) -> Result<(), Fail> {
    expect_rows(&rt, rt.alloc(), SIMPLE)
}

/// Words before a command's name that begin with a name and `=`, and those that don't (XCU 2.10.2, rule 7).
static ASSIGNS: &str = r#"x=1 => (list (simple (= x p:1)))
x= => (list (simple (= x)))
x=1 y=2 => (list (simple (= x p:1) (= y p:2)))
x=1 a => (list (simple (= x p:1) (w p:a)))
x=1 y=2 a b => (list (simple (= x p:1) (= y p:2) (w p:a) (w p:b)))
a x=1 => (list (simple (w p:a) (w p:x=1)))
x=1 a y=2 => (list (simple (= x p:1) (w p:a) (w p:y=2)))
x=a=b => (list (simple (= x p:a=b)))
_=1 => (list (simple (= _ p:1)))
x1_=2 => (list (simple (= x1_ p:2)))
1x=2 => (list (simple (w p:1x=2)))
"x"=1 => (list (simple (w q:x p:=1)))
x"y"=1 => (list (simple (w p:x q:y p:=1)))
\\x=1 => (list (simple (w q:x p:=1)))
=1 => (list (simple (w p:=1)))
x=$y$z => (list (simple (= x (v y) (v z))))
x="a b" => (list (simple (= x q:a\x20b)))
x=a'b' => (list (simple (= x p:a q:b)))
x+=1 => (list (simple (w p:x+=1)))
x.y=1 => (list (simple (w p:x.y=1)))
$x=1 => (list (simple (w (v x) p:=1)))
x=1 >f => (list (simple (= x p:1) (> 1 (w p:f))))
x=1 >f y=2 => (list (simple (= x p:1) (= y p:2) (> 1 (w p:f))))
>f x=1 a => (list (simple (= x p:1) (w p:a) (> 1 (w p:f))))
x=1 y"="2 => (list (simple (= x p:1) (w p:y q:= p:2)))"#;

/// The name and the `=` are written without quotes.
#[test]
fn a_word_that_begins_with_a_name_and_an_equals_sign_assigns(rt: HostRuntime) -> Result<(), Fail> {
    expect_rows(&rt, rt.alloc(), ASSIGNS)
}

/// Simple commands with redirections (XCU 2.7).
static REDIRECTIONS: &str = r#">f => (list (simple (> 1 (w p:f))))
<f => (list (simple (< 0 (w p:f))))
>&1 => (list (simple (>& 1 (w p:1))))
0<f => (list (simple (< 0 (w p:f))))
1>f => (list (simple (> 1 (w p:f))))
2>>f => (list (simple (>> 2 (w p:f))))
2>&1 => (list (simple (>& 2 (w p:1))))
a <f => (list (simple (w p:a) (< 0 (w p:f))))
>f a => (list (simple (w p:a) (> 1 (w p:f))))
<f >g a b => (list (simple (w p:a) (w p:b) (< 0 (w p:f)) (> 1 (w p:g))))
a 2>&1 >f => (list (simple (w p:a) (>& 2 (w p:1)) (> 1 (w p:f))))
a >f 2>&1 => (list (simple (w p:a) (> 1 (w p:f)) (>& 2 (w p:1))))
a >"f g" => (list (simple (w p:a) (> 1 (w q:f\x20g))))
a >$x => (list (simple (w p:a) (> 1 (w (v x)))))
a >& 2 => (list (simple (w p:a) (>& 1 (w p:2))))
a > f;b<g => (list (simple (w p:a) (> 1 (w p:f))) (simple (w p:b) (< 0 (w p:g))))"#;

/// Without a number it is 0 for `<`, and 1 for the others.
#[test]
fn redirections_have_their_descriptor(rt: HostRuntime) -> Result<(), Fail> {
    expect_rows(&rt, rt.alloc(), REDIRECTIONS)
}

/// Lists: commands with `;` and newlines between them, and-or lists (XCU 2.9.3), pipelines and `!` (XCU 2.9.2).
static LISTS: &str = r"a;b => (list (simple (w p:a)) (simple (w p:b)))
a\nb => (list (simple (w p:a)) (simple (w p:b)))
a;\n\nb => (list (simple (w p:a)) (simple (w p:b)))
a\n\nb => (list (simple (w p:a)) (simple (w p:b)))
a\n;b => BadSyntax
a;\n; => BadSyntax
; => BadSyntax
;a => BadSyntax
a \n b \n \n => (list (simple (w p:a)) (simple (w p:b)))
a&&b => (list (andor (simple (w p:a)) and (simple (w p:b))))
a||b => (list (andor (simple (w p:a)) or (simple (w p:b))))
a&&b||c => (list (andor (simple (w p:a)) and (simple (w p:b)) or (simple (w p:c))))
a||b&&c&&d => (list (andor (simple (w p:a)) or (simple (w p:b)) and (simple (w p:c)) and (simple (w p:d))))
a &&\nb => (list (andor (simple (w p:a)) and (simple (w p:b))))
a && b; c || d => (list (andor (simple (w p:a)) and (simple (w p:b))) (andor (simple (w p:c)) or (simple (w p:d))))
a|b => (list (pipe (simple (w p:a)) (simple (w p:b))))
a|b|c => (list (pipe (simple (w p:a)) (simple (w p:b)) (simple (w p:c))))
a |\nb => (list (pipe (simple (w p:a)) (simple (w p:b))))
a | b && c | d => (list (andor (pipe (simple (w p:a)) (simple (w p:b))) and (pipe (simple (w p:c)) (simple (w p:d)))))
! a => (list (not (simple (w p:a))))
! a && ! b => (list (andor (not (simple (w p:a))) and (not (simple (w p:b)))))
! => BadSyntax
! !a => (list (not (simple (w p:!a))))
! ! a => BadSyntax
!a => (list (simple (w p:!a)))
a ! => (list (simple (w p:a) (w p:!)))
! ; => BadSyntax
&& a => BadSyntax
a && => BadSyntax
a && ; b => BadSyntax
a && && b => BadSyntax
a || | b => BadSyntax
| a => BadSyntax
a | | b => BadSyntax
a | ; b => BadSyntax
a\n&& b => BadSyntax
a;&& b => BadSyntax
a && \n => BadSyntax";

/// And-or lists have the operators in the order of the text.
#[test]
fn lists_group_to_the_left(rt: HostRuntime) -> Result<(), Fail> {
    expect_rows(&rt, rt.alloc(), LISTS)
}
