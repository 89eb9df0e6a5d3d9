//! Texts and their trees: command substitutions and the other parts of words.
use super::rows::expect_rows;
use std::test::Fail;

/// Command substitutions (XCU 2.6.3): last, all of a command, wherever they stand in it, and those of the words, of the body and of the
/// redirections of a `for` apart.
static SUBSTITUTIONS: &str = r#"$(a) => (list (simple (w (s 0)) (list (simple (w p:a)))))
$() => (list (simple (w (s 0)) (list)))
$( ) => (list (simple (w (s 0)) (list)))
$(\n) => (list (simple (w (s 0)) (list)))
$(#x\n) => (list (simple (w (s 0)) (list)))
$(a;b) => (list (simple (w (s 0)) (list (simple (w p:a)) (simple (w p:b)))))
a $(b) $(c) => (list (simple (w p:a) (w (s 0)) (w (s 1)) (list (simple (w p:b))) (list (simple (w p:c)))))
a "$(b)"$(c) => (list (simple (w p:a) (w (S 0) (s 1)) (list (simple (w p:b))) (list (simple (w p:c)))))
x=$(a) => (list (simple (= x (s 0)) (list (simple (w p:a)))))
x=$(a) y=$(b) c $(d) >$(e) => (list (simple (= x (s 0)) (= y (s 1)) (w p:c) (w (s 2)) (> 1 (w (s 3))) (list (simple (w p:a))) (list (simple (w p:b))) (list (simple (w p:d))) (list (simple (w p:e)))))
>$(a) b $(c) => (list (simple (w p:b) (w (s 1)) (> 1 (w (s 0))) (list (simple (w p:a))) (list (simple (w p:c)))))
a $(b $(c)) $(d) => (list (simple (w p:a) (w (s 0)) (w (s 1)) (list (simple (w p:b) (w (s 0)) (list (simple (w p:c))))) (list (simple (w p:d)))))
a $(b | c && d) => (list (simple (w p:a) (w (s 0)) (list (andor (pipe (simple (w p:b)) (simple (w p:c))) and (simple (w p:d))))))
a $(if b; then c; fi) => (list (simple (w p:a) (w (s 0)) (list (if ((list (simple (w p:b))) (list (simple (w p:c))))))))
a $( (b) ) => (list (simple (w p:a) (w (s 0)) (list (subshell (list (simple (w p:b)))))))
a $({ b; }) => (list (simple (w p:a) (w (s 0)) (list (group (list (simple (w p:b)))))))
a $((1+$(b))) $(c) => (list (simple (w p:a) (w (a p:1+ (S 0))) (w (s 1)) (list (simple (w p:b))) (list (simple (w p:c)))))
{ a; } >$(b) 2>$(c) => (list (group (list (simple (w p:a))) (> 1 (w (s 0))) (> 2 (w (s 1))) (list (simple (w p:b))) (list (simple (w p:c)))))
while a $(b); do c $(d); done <$(e) => (list (while (list (simple (w p:a) (w (s 0)) (list (simple (w p:b))))) (list (simple (w p:c) (w (s 0)) (list (simple (w p:d))))) (< 0 (w (s 0))) (list (simple (w p:e)))))
$(a &&) => BadSyntax
echo $(a && ) b => BadSyntax
echo $(a &&\n) b => BadSyntax
echo $(;) => BadSyntax
$(fi) => BadSyntax
$(a|) => BadSyntax
a $(if b) c => BadSyntax
a $(b) ) => BadSyntax
$(a ")" 'b') => (list (simple (w (s 0)) (list (simple (w p:a) (w q:\x29) (w q:b)))))
a $( fi ) ; ; => BadSyntax
x=$(a) b "$(c)" >$(d) e$((1+$(f)))$(g) => (list (simple (= x (s 0)) (w p:b) (w (S 1)) (w p:e (a p:1+ (S 3)) (s 4)) (> 1 (w (s 2))) (list (simple (w p:a))) (list (simple (w p:c))) (list (simple (w p:d))) (list (simple (w p:f))) (list (simple (w p:g)))))
"$((1+$(a)))" $(b) => (list (simple (w (A p:1+ (S 0))) (w (s 1)) (list (simple (w p:a))) (list (simple (w p:b)))))
for i in $(a); do b $(c); done <$(d) => (list (for i (in (w (s 0)) (list (simple (w p:a)))) (list (simple (w p:b) (w (s 0)) (list (simple (w p:c))))) (< 0 (w (s 0))) (list (simple (w p:d)))))"#;

/// Each command counts its own from 0.
#[test]
fn substitutions_are_numbered_in_text_order(rt: HostRuntime) -> Result<(), Fail> {
    expect_rows(&rt, rt.alloc(), SUBSTITUTIONS)
}

/// Parameters with their forms, arithmetic expansions and quotes (XCU 2.6).
static PARTS: &str = r#"$x => (list (simple (w (v x))))
"$x" => (list (simple (w (V x))))
${x} => (list (simple (w (v x))))
$1 => (list (simple (w (v 1))))
$0 => (list (simple (w (v 0))))
${10} => (list (simple (w (v 10))))
${01} => (list (simple (w (v 1))))
${00} => (list (simple (w (v 0))))
$@ => (list (simple (w (v @))))
"$@" => (list (simple (w (V @))))
$* => (list (simple (w (v *))))
${@} => (list (simple (w (v @))))
"${*}" => (list (simple (w (V *))))
$# => (list (simple (w (v #))))
${#} => (list (simple (w (v #))))
$? => (list (simple (w (v ?))))
${?} => (list (simple (w (v ?))))
${#x} => (list (simple (w (v x len))))
${#1} => (list (simple (w (v 1 len))))
${#?} => (list (simple (w (v ? len))))
"${#x}" => (list (simple (w (V x len))))
${x-a} => (list (simple (w (v x - (w p:a)))))
${x:-a} => (list (simple (w (v x :- (w p:a)))))
${x:=a} => (list (simple (w (v x := (w p:a)))))
${x:?a} => (list (simple (w (v x :? (w p:a)))))
${x:+a} => (list (simple (w (v x :+ (w p:a)))))
${x?} => (list (simple (w (v x ?))))
${x:?} => (list (simple (w (v x :?))))
${x-} => (list (simple (w (v x - (w)))))
${x:-} => (list (simple (w (v x :- (w)))))
${x=} => (list (simple (w (v x = (w)))))
${x:+} => (list (simple (w (v x :+ (w)))))
${x%} => (list (simple (w (v x % (w)))))
${x##} => (list (simple (w (v x ## (w)))))
${x:?""} => (list (simple (w (v x :? (w q:\e)))))
${1:-a} => (list (simple (w (v 1 :- (w p:a)))))
${1?a} => (list (simple (w (v 1 ? (w p:a)))))
${?:-a} => (list (simple (w (v ? :- (w p:a)))))
${?+a} => (list (simple (w (v ? + (w p:a)))))
${x%a} => (list (simple (w (v x % (w p:a)))))
${x#a} => (list (simple (w (v x # (w p:a)))))
${x##a} => (list (simple (w (v x ## (w p:a)))))
${1%a} => (list (simple (w (v 1 % (w p:a)))))
${?#0} => (list (simple (w (v ? # (w p:0)))))
${x:-a b} => (list (simple (w (v x :- (w p:a\x20b)))))
${x:-"a b"c} => (list (simple (w (v x :- (w q:a\x20b p:c)))))
${x:-$y} => (list (simple (w (v x :- (w (v y))))))
${x:-"$y"} => (list (simple (w (v x :- (w (V y))))))
"${x:-a b}" => (list (simple (w (V x :- (w q:a\x20b)))))
"${x:-$y}" => (list (simple (w (V x :- (w (V y))))))
"${x:-"a"b}" => (list (simple (w (V x :- (w q:ab)))))
"${x:-'a'}" => (list (simple (w (V x :- (w q:'a')))))
"${x:-a\\}b}" => (list (simple (w (V x :- (w q:a}b)))))
"${x%'a'b}" => (list (simple (w (V x % (w q:a p:b)))))
"${x%"$y"}" => (list (simple (w (V x % (w (V y))))))
${x:-${y:-z}} => (list (simple (w (v x :- (w (v y :- (w p:z)))))))
${x%${y#a}} => (list (simple (w (v x % (w (v y # (w p:a)))))))
${x:-a;b|c} => (list (simple (w (v x :- (w p:a;b|c)))))
${x:--} => (list (simple (w (v x :- (w p:-)))))
${x:-:-} => (list (simple (w (v x :- (w p::-)))))
${x%%%} => (list (simple (w (v x %% (w p:%)))))
${x###} => (list (simple (w (v x ## (w p:#)))))
${x:=:} => (list (simple (w (v x := (w p::)))))
$((1)) => (list (simple (w (a p:1))))
"$((1))" => (list (simple (w (A p:1))))
$((x+$y)) => (list (simple (w (a p:x+ (V y)))))
$((1 + ${x})) => (list (simple (w (a p:1\x20+\x20 (V x)))))
$(("1")) => (list (simple (w (a p:"1"))))
$(($((1)))) => (list (simple (w (a (A p:1)))))
$(($(a))) => (list (simple (w (a (S 0))) (list (simple (w p:a)))))
$(()) => (list (simple (w (a))))
a$((1))b => (list (simple (w p:a (a p:1) p:b)))
$ => (list (simple (w p:$)))
a$ => (list (simple (w p:a$)))
"$" => (list (simple (w q:$)))
$x$y => (list (simple (w (v x) (v y))))
$x.y => (list (simple (w (v x) p:.y)))
$10 => (list (simple (w (v 1) p:0)))"#;

/// Bytes that follow one another with the same quoting are one part.
#[test]
fn words_have_their_parts(rt: HostRuntime) -> Result<(), Fail> {
    expect_rows(&rt, rt.alloc(), PARTS)
}
