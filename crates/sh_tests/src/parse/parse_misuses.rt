//! Texts that are refused though the grammar has them, and like ones that aren't. Most of these rules are our own.
use super::rows::expect_rows;
use std::test::Fail;

/// Expansions without a form. The greatest place of an argument is 4294967295.
static FORMS: &str = r#"${} => ParameterForm 0
${x!} => ParameterForm 0
echo ${x!} => ParameterForm 5
${ x} => ParameterForm 0
${x y} => ParameterForm 0
${x:} => ParameterForm 0
${x:a} => ParameterForm 0
${-} => ParameterForm 0
${!} => ParameterForm 0
${!x} => ParameterForm 0
${x/a/b} => ParameterForm 0
${x^} => ParameterForm 0
${x[1]} => ParameterForm 0
${1x} => ParameterForm 0
${1=a} => ParameterForm 0
${?=a} => ParameterForm 0
${@:-a} => ParameterForm 0
${#@} => ParameterForm 0
${##} => ParameterForm 0
"${4294967296%'}" => ParameterForm 1
echo ${4294967296:-~} => ParameterForm 5
${#-w} => ParameterForm 0
${#x%a} => ParameterForm 0
${#x:-a} => ParameterForm 0
${4294967295} => (list (simple (w (v 4294967295))))
${4294967296} => ParameterForm 0
${99999999999999999999} => ParameterForm 0
${x\n} => ParameterForm 0
"${x!}" => ParameterForm 1
a "${x:-${y!}}" => ParameterForm 8
${x!} ${y!} => ParameterForm 0
$((${x!})) => ParameterForm 3
a $(b ${x!}) => ParameterForm 6
x=${y!} => ParameterForm 2
>${x!} => ParameterForm 1
for i in ${x!}; do a; done => ParameterForm 9"#;

/// The offset is that of its `${`, of several the first.
#[test]
fn an_expansion_without_a_form_is_told(rt: HostRuntime) -> Result<(), Fail> {
    expect_rows(&rt, rt.alloc(), FORMS)
}

/// Simple commands that have both a command substitution and an expansion that assigns, and others that don't.
static MIXED: &str = r#"echo ${x:=1} $(echo 2) => SubstitutionMix 0
echo $(echo 2) ${x:=1} => SubstitutionMix 0
a ${x=1} $(b) => SubstitutionMix 0
a $((x=1)) $(b) => SubstitutionMix 0
a $(b) >${x:=f} => SubstitutionMix 0
x=${y:=1} a $(b) => SubstitutionMix 0
x=$(a) b ${y=1} => SubstitutionMix 0
a "${x:=1}" "$(b)" => SubstitutionMix 0
a ${y:-${x:=1}} $(b) => SubstitutionMix 0
a $((${x:=1})) $(b) => SubstitutionMix 0
a $((x=$(b))) => SubstitutionMix 0
x=$(a) y=$((z=1)) => SubstitutionMix 0
b; a ${x:=1} $(c) => SubstitutionMix 3
a $(b ${x:=1}) => (list (simple (w p:a) (w (s 0)) (list (simple (w p:b) (w (v x := (w p:1)))))))
a $(b ${x:=1} $(c)) => SubstitutionMix 4
a ${x:=1}; b $(c) => (list (simple (w p:a) (w (v x := (w p:1)))) (simple (w p:b) (w (s 0)) (list (simple (w p:c)))))
a ${x:-1} $(b) => (list (simple (w p:a) (w (v x :- (w p:1))) (w (s 0)) (list (simple (w p:b)))))
a ${x:?1} $(b) => (list (simple (w p:a) (w (v x :? (w p:1))) (w (s 0)) (list (simple (w p:b)))))
a $((x==1)) $(b) => (list (simple (w p:a) (w (a p:x==1)) (w (s 0)) (list (simple (w p:b)))))
a $((x!=1)) $(b) => (list (simple (w p:a) (w (a p:x!=1)) (w (s 0)) (list (simple (w p:b)))))
a $((x<=1)) $(b) => (list (simple (w p:a) (w (a p:x<=1)) (w (s 0)) (list (simple (w p:b)))))
a $((x<<=1)) $(b) => SubstitutionMix 0
a $((x===1)) $(b) => SubstitutionMix 0
a $((${x:-=})) $(b) => (list (simple (w p:a) (w (a (V x :- (w q:=)))) (w (s 0)) (list (simple (w p:b)))))
a $(($x)) $(b) => (list (simple (w p:a) (w (a (V x))) (w (s 0)) (list (simple (w p:b)))))
a $((x = 1)) $() => SubstitutionMix 0
for i in ${x:=1} $(a); do b; done => (list (for i (in (w (v x := (w p:1))) (w (s 0)) (list (simple (w p:a)))) (list (simple (w p:b)))))
for i in a; do b ${x:=1} $(c); done => SubstitutionMix 15
{ a; } >${x:=f} <$(b) => (list (group (list (simple (w p:a))) (> 1 (w (v x := (w p:f)))) (< 0 (w (s 0))) (list (simple (w p:b)))))
if a ${x:=1} $(b); then c; fi => SubstitutionMix 3
a $((1 ? x = 2 : 3)) $(b) => SubstitutionMix 0"#;

/// The offset is that of the command. An expansion assigns as it is written, whether or not it will.
#[test]
fn a_command_that_substitutes_and_assigns_is_told(rt: HostRuntime) -> Result<(), Fail> {
    expect_rows(&rt, rt.alloc(), MIXED)
}

/// Texts in which more than one thing is refused.
static FIRST: &str = "a && ; ${x!} => BadSyntax
${x!} && ; b => BadSyntax
${x!} ${x:=1} $(a) => ParameterForm 0
${x:=1} $(a) ${x!} => SubstitutionMix 0
${x:=1} $(a); ${y!} => SubstitutionMix 0
${y!}; ${x:=1} $(a) => ParameterForm 0
a $(b ${x!}) ${y:=1} => SubstitutionMix 0
a ${y:=1} $(b ${x!}) => SubstitutionMix 0
a $(b ${x:=1} $(c)) ${y:=1} => SubstitutionMix 0
a $(${x!}) ) => BadSyntax
echo ${x!} fi; fi => BadSyntax
if ${x!} => BadSyntax";

/// Of two misuses the one with the lesser offset is told.
#[test]
fn the_grammar_is_told_before_misuses(rt: HostRuntime) -> Result<(), Fail> {
    expect_rows(&rt, rt.alloc(), FIRST)
}
