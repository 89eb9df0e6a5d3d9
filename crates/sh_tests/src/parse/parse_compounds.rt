//! Texts and their trees: compound commands and reserved words.
//!
//! Where a rule isn't our own, `dash -n` takes and refuses the same texts.
use super::rows::expect_rows;
use std::test::Fail;

/// Groups and subshells (XCU 2.9.4.1). In the last row the rule is our own.
static GROUPS: &str = r#"{ a; } => (list (group (list (simple (w p:a)))))
{ a\n} => (list (group (list (simple (w p:a)))))
{\na;\n} => (list (group (list (simple (w p:a)))))
{ a;b; } => (list (group (list (simple (w p:a)) (simple (w p:b)))))
{ a | b; } => (list (group (list (pipe (simple (w p:a)) (simple (w p:b))))))
{ a; } >f => (list (group (list (simple (w p:a))) (> 1 (w p:f))))
{ a; } >f 2>&1 => (list (group (list (simple (w p:a))) (> 1 (w p:f)) (>& 2 (w p:1))))
{ a; } | b => (list (pipe (group (list (simple (w p:a)))) (simple (w p:b))))
{ { a; }; } => (list (group (list (group (list (simple (w p:a)))))))
{ { a; } } => (list (group (list (group (list (simple (w p:a)))))))
{ ( a ) } => (list (group (list (subshell (list (simple (w p:a)))))))
(a) => (list (subshell (list (simple (w p:a)))))
( a ) => (list (subshell (list (simple (w p:a)))))
(\na\n) => (list (subshell (list (simple (w p:a)))))
(a) <f => (list (subshell (list (simple (w p:a))) (< 0 (w p:f))))
((a)) => (list (subshell (list (subshell (list (simple (w p:a)))))))
( (a) ) => (list (subshell (list (subshell (list (simple (w p:a)))))))
(a);(b) => (list (subshell (list (simple (w p:a)))) (subshell (list (simple (w p:b)))))
{a; } => BadSyntax
{a => (list (simple (w p:{a)))
a { => (list (simple (w p:a) (w p:{)))
a } => (list (simple (w p:a) (w p:})))
a { b } => (list (simple (w p:a) (w p:{) (w p:b) (w p:})))
{ a } => BadSyntax
{ a => BadSyntax
{ a; => BadSyntax
{ => BadSyntax
{ } => BadSyntax
{ ; } => BadSyntax
{\n} => BadSyntax
} => BadSyntax
( ) => BadSyntax
() => BadSyntax
(;) => BadSyntax
(a => BadSyntax
) => BadSyntax
a ) => BadSyntax
(a)) => BadSyntax
(a) b => BadSyntax
{ a; } b => BadSyntax
{ a; } } => BadSyntax
{ a; } { b; } => BadSyntax
(a) x=1 => BadSyntax
a (b) => BadSyntax
a () => BadSyntax
x=1 (a) => BadSyntax
x=1 { a; } => BadSyntax
>f { a; } => BadSyntax
>f (a) => BadSyntax
! { a; } => (list (not (group (list (simple (w p:a))))))
! (a) => (list (not (subshell (list (simple (w p:a))))))
"{" a => (list (simple (w q:{) (w p:a)))
\\{ a => (list (simple (w q:{) (w p:a)))
'}' => (list (simple (w q:})))
{ a; } >f <g b => BadSyntax
{ { a; } >f } => (list (group (list (group (list (simple (w p:a))) (> 1 (w p:f))))))"#;

/// A `}` behind a command without `;` is a word of it.
#[test]
fn a_group_ends_where_a_command_may_begin(rt: HostRuntime) -> Result<(), Fail> {
    expect_rows(&rt, rt.alloc(), GROUPS)
}

/// `if` with `elif` and `else` (XCU 2.9.4.3).
static CONDITIONS: &str =
    r#"if a; then b; fi => (list (if ((list (simple (w p:a))) (list (simple (w p:b))))))
if a\nthen b\nfi => (list (if ((list (simple (w p:a))) (list (simple (w p:b))))))
if a; b; then c; d; fi => (list (if ((list (simple (w p:a)) (simple (w p:b))) (list (simple (w p:c)) (simple (w p:d))))))
if a; then b; else c; fi => (list (if ((list (simple (w p:a))) (list (simple (w p:b)))) else (list (simple (w p:c)))))
if a; then b; elif c; then d; fi => (list (if ((list (simple (w p:a))) (list (simple (w p:b)))) ((list (simple (w p:c))) (list (simple (w p:d))))))
if a; then b; elif c; then d; else e; fi => (list (if ((list (simple (w p:a))) (list (simple (w p:b)))) ((list (simple (w p:c))) (list (simple (w p:d)))) else (list (simple (w p:e)))))
if a; then b; fi >f => (list (if ((list (simple (w p:a))) (list (simple (w p:b)))) (> 1 (w p:f))))
if a; then b; fi | c => (list (pipe (if ((list (simple (w p:a))) (list (simple (w p:b))))) (simple (w p:c))))
if ! a; then b; fi => (list (if ((list (not (simple (w p:a)))) (list (simple (w p:b))))))
if a && b; then c; fi => (list (if ((list (andor (simple (w p:a)) and (simple (w p:b)))) (list (simple (w p:c))))))
if (a) then (b) fi => (list (if ((list (subshell (list (simple (w p:a))))) (list (subshell (list (simple (w p:b))))))))
if { a; } then { b; } else { c; } fi => (list (if ((list (group (list (simple (w p:a))))) (list (group (list (simple (w p:b)))))) else (list (group (list (simple (w p:c)))))))
if (a) then b; fi => (list (if ((list (subshell (list (simple (w p:a))))) (list (simple (w p:b))))))
if if a; then b; fi; then c; fi => (list (if ((list (if ((list (simple (w p:a))) (list (simple (w p:b)))))) (list (simple (w p:c))))))
if a; then if b; then c; fi; fi => (list (if ((list (simple (w p:a))) (list (if ((list (simple (w p:b))) (list (simple (w p:c)))))))))
if if a; then b; fi then c; fi => (list (if ((list (if ((list (simple (w p:a))) (list (simple (w p:b)))))) (list (simple (w p:c))))))
if true => BadSyntax
if a => BadSyntax
if a then b; fi => BadSyntax
if a; then b => BadSyntax
if a; then b fi => BadSyntax
if a; then fi => BadSyntax
if a; then b; else fi => BadSyntax
if a; then b; elif c; fi => BadSyntax
if a; then b; else c; elif d; then e; fi => BadSyntax
if a; else b; fi => BadSyntax
if a; fi => BadSyntax
if; then a; fi => BadSyntax
if then a; fi => BadSyntax
if a; then ; b; fi => BadSyntax
if a; then b; fi c => BadSyntax
fi => BadSyntax
else => BadSyntax
elif a => BadSyntax
then a => BadSyntax
a; then => BadSyntax
a; fi => BadSyntax
echo fi => (list (simple (w p:echo) (w p:fi)))
a then => (list (simple (w p:a) (w p:then)))
"if" a => (list (simple (w q:if) (w p:a)))
\\if a; then b; fi => BadSyntax
if a; "then" b; fi => BadSyntax
i'f' a => (list (simple (w p:i q:f) (w p:a)))"#;

#[test]
fn an_if_has_its_conditions_with_their_bodies(rt: HostRuntime) -> Result<(), Fail> {
    expect_rows(&rt, rt.alloc(), CONDITIONS)
}

/// `while` and `until` (XCU 2.9.4.4, 2.9.4.5).
static LOOPS: &str =
    r"while a; do b; done => (list (while (list (simple (w p:a))) (list (simple (w p:b)))))
until a; do b; done => (list (until (list (simple (w p:a))) (list (simple (w p:b)))))
while a\ndo b\ndone => (list (while (list (simple (w p:a))) (list (simple (w p:b)))))
while a; do b; done <f => (list (while (list (simple (w p:a))) (list (simple (w p:b))) (< 0 (w p:f))))
until ! a; do b; done | c => (list (pipe (until (list (not (simple (w p:a)))) (list (simple (w p:b)))) (simple (w p:c))))
while (a) do (b) done => (list (while (list (subshell (list (simple (w p:a))))) (list (subshell (list (simple (w p:b)))))))
while a; do while b; do c; done; done => (list (while (list (simple (w p:a))) (list (while (list (simple (w p:b))) (list (simple (w p:c)))))))
while a; do until b; do c; done done => (list (while (list (simple (w p:a))) (list (until (list (simple (w p:b))) (list (simple (w p:c)))))))
a | while b; do c; done => (list (pipe (simple (w p:a)) (while (list (simple (w p:b))) (list (simple (w p:c))))))
while => BadSyntax
while a => BadSyntax
while a; do => BadSyntax
while a; do b done => BadSyntax
while a; do done => BadSyntax
while do a; done => BadSyntax
while a; done => BadSyntax
while a do b; done => BadSyntax
while a; do ; b; done => BadSyntax
do a; done => BadSyntax
done => BadSyntax
a; done => BadSyntax
a; do => BadSyntax
while a; then b; done => BadSyntax
echo do done => (list (simple (w p:echo) (w p:do) (w p:done)))";

#[test]
fn loops_have_a_condition_and_a_body(rt: HostRuntime) -> Result<(), Fail> {
    expect_rows(&rt, rt.alloc(), LOOPS)
}

/// `for`, with words and without (XCU 2.9.4.2). In the last row the rule is our own.
static WORD_LOOPS: &str =
    r#"for i in a b; do c; done => (list (for i (in (w p:a) (w p:b)) (list (simple (w p:c)))))
for i in a; do b; done => (list (for i (in (w p:a)) (list (simple (w p:b)))))
for i in; do a; done => (list (for i (in) (list (simple (w p:a)))))
for i in\ndo a; done => (list (for i (in) (list (simple (w p:a)))))
for i in a\ndo b; done => (list (for i (in (w p:a)) (list (simple (w p:b)))))
for i in a;\n\ndo b; done => (list (for i (in (w p:a)) (list (simple (w p:b)))))
for i\nin a; do b; done => (list (for i (in (w p:a)) (list (simple (w p:b)))))
for i do a; done => (list (for i args (list (simple (w p:a)))))
for i; do a; done => (list (for i args (list (simple (w p:a)))))
for i\ndo a; done => (list (for i args (list (simple (w p:a)))))
for i\n\ndo a; done => (list (for i args (list (simple (w p:a)))))
for i in $x "$y" 'z'; do a; done => (list (for i (in (w (v x)) (w (V y)) (w q:z)) (list (simple (w p:a)))))
for i in a=b x=1; do c; done => (list (for i (in (w p:a=b) (w p:x=1)) (list (simple (w p:c)))))
for i in do done; do a; done => (list (for i (in (w p:do) (w p:done)) (list (simple (w p:a)))))
for i in in; do a; done => (list (for i (in (w p:in)) (list (simple (w p:a)))))
for i in if; do a; done => (list (for i (in (w p:if)) (list (simple (w p:a)))))
for in in a; do b; done => (list (for in (in (w p:a)) (list (simple (w p:b)))))
for if in a; do b; done => (list (for if (in (w p:a)) (list (simple (w p:b)))))
for _x1 in a; do b; done => (list (for _x1 (in (w p:a)) (list (simple (w p:b)))))
for i in a; do b; done >f => (list (for i (in (w p:a)) (list (simple (w p:b))) (> 1 (w p:f))))
for i in a; do b; done | c => (list (pipe (for i (in (w p:a)) (list (simple (w p:b)))) (simple (w p:c))))
for i in a; do for j in b; do c; done; done => (list (for i (in (w p:a)) (list (for j (in (w p:b)) (list (simple (w p:c)))))))
for i in $(a) $(b); do c; done => (list (for i (in (w (s 0)) (w (s 1)) (list (simple (w p:a))) (list (simple (w p:b)))) (list (simple (w p:c)))))
for i in a; do b; done >$(c) => (list (for i (in (w p:a)) (list (simple (w p:b))) (> 1 (w (s 0))) (list (simple (w p:c)))))
for => BadSyntax
for i => BadSyntax
for i in a => BadSyntax
for i in a b do c; done => BadSyntax
for i in a; b; done => BadSyntax
for i in a | b; do c; done => BadSyntax
for i in a >f; do b; done => BadSyntax
for i a; do b; done => BadSyntax
for i; in a; do b; done => BadSyntax
for 1 in a; do b; done => BadSyntax
for i.j in a; do b; done => BadSyntax
for "i" in a; do b; done => BadSyntax
for $i in a; do b; done => BadSyntax
for i "in" a; do b; done => BadSyntax
for i in (a); do b; done => BadSyntax
for ; do a; done => BadSyntax
for i in a; do done => BadSyntax
for i in a; do b; done c => BadSyntax
for i\n; do a; done => BadSyntax"#;

/// Without `in` it goes over the arguments.
#[test]
fn a_for_has_a_name_and_words(rt: HostRuntime) -> Result<(), Fail> {
    expect_rows(&rt, rt.alloc(), WORD_LOOPS)
}

/// Reserved words, where they count and where they are words as others (XCU 2.4). In the last two rows the rule is our own.
static RESERVED: &str = r#"case => BadSyntax
case a in b) c; => BadSyntax
esac => BadSyntax
a in => (list (simple (w p:a) (w p:in)))
echo if then else elif fi while until do done for case esac in { } ! => (list (simple (w p:echo) (w p:if) (w p:then) (w p:else) (w p:elif) (w p:fi) (w p:while) (w p:until) (w p:do) (w p:done) (w p:for) (w p:case) (w p:esac) (w p:in) (w p:{) (w p:}) (w p:!)))
x=1 if => (list (simple (= x p:1) (w p:if)))
x=1 if a; then b; fi => BadSyntax
>f if => (list (simple (w p:if) (> 1 (w p:f))))
>f fi => (list (simple (w p:fi) (> 1 (w p:f))))
>f } => (list (simple (w p:}) (> 1 (w p:f))))
x=1 } => (list (simple (= x p:1) (w p:})))
a | if b; then c; fi => (list (pipe (simple (w p:a)) (if ((list (simple (w p:b))) (list (simple (w p:c)))))))
a && while b; do c; done => (list (andor (simple (w p:a)) and (while (list (simple (w p:b))) (list (simple (w p:c))))))
a | then => BadSyntax
! fi => BadSyntax
{ fi; } => BadSyntax
(fi) => BadSyntax
if} => (list (simple (w p:if})))
}a => (list (simple (w p:}a)))
!! => (list (simple (w p:!!)))
"!" a => (list (simple (w q:!) (w p:a)))
in => (list (simple (w p:in)))
in a b => (list (simple (w p:in) (w p:a) (w p:b)))"#;

#[test]
fn reserved_words_count_unquoted_where_a_command_begins(rt: HostRuntime) -> Result<(), Fail> {
    expect_rows(&rt, rt.alloc(), RESERVED)
}
