//! Texts and their trees: levels of compound commands and command substitutions, of which 64 may be open (own).
use super::rows::answer;
use std::alloc::{AllocError, Global};
use std::process::Abort;
use std::test::Fail;

/// What stands first, what stands so many times before the middle, the middle, what stands so many times behind it, and what
/// stands last.
type Nested = [&'static str; 5];

fn written(alloc: Global, times: u32, nested: &Nested) -> Result<String, AllocError> {
    let [first, before, middle, behind, last] = nested;
    let mut text = String::from_str(alloc, first)?;
    for _ in 0..times {
        text.push_str(before)?;
    }
    text.push_str(middle)?;
    for _ in 0..times {
        text.push_str(behind)?;
    }
    text.push_str(last)?;
    Ok(text)
}

/// Expects that `parse` answers so to the text, both with so many repetitions.
fn expect(
    rt: &impl Abort,
    alloc: Global,
    times: u32,
    text: Nested,
    wanted: Nested,
) -> Result<(), Fail> {
    let text = written(alloc, times, &text)?;
    let wanted = written(alloc, times, &wanted)?;
    let answer = answer(alloc, text.as_bytes())?;
    assert_eq!(rt; answer.as_slice(), wanted.as_bytes(), "{times} in {text}");
    Ok(())
}

#[test]
fn sixty_four_levels_have_their_tree(rt: HostRuntime) -> Result<(), Fail> {
    let alloc = rt.alloc();
    let name = "(list (simple (w p:a)))";
    let substituted = "(list (simple (w p:a) (w (s 0)) (list (simple (w p:b)))))";
    let subshells = ["", "(list (subshell ", name, "))", ""];
    let groups = ["", "(list (group ", name, "))", ""];
    let around = ["", "(list (group ", substituted, "))", ""];
    expect(&rt, alloc, 64, ["", "( ", "a", " )", ""], subshells)?;
    expect(&rt, alloc, 64, ["", "{ ", "a", "; }", ""], groups)?;
    expect(&rt, alloc, 63, ["", "{ ", "a $(b)", "; }", ""], around)
}

#[test]
fn the_sixty_fifth_level_is_refused_where_it_opens(rt: HostRuntime) -> Result<(), Fail> {
    let alloc = rt.alloc();
    for (times, before, middle, behind, wanted) in [
        (65, "( ", "true", " )", "TooDeep 128"),
        (65, "{ ", "a", "; }", "TooDeep 128"),
        (65, "if ", "a", "; then b; fi", "TooDeep 192"),
        (65, "while ", "a", "; do b; done", "TooDeep 384"),
        (65, "for i do ", "a", "; done", "TooDeep 576"),
        (64, "{ ", "a $(b)", "; }", "TooDeep 130"),
        (63, "{ ", "a $( (b) )", "; }", "TooDeep 131"),
        (64, "{ ", r#"a "$(b)""#, "; }", "TooDeep 131"),
        // How the text goes on doesn't matter, and what stands before it does.
        (65, "( ", "", "", "TooDeep 128"),
        (64, "( ", "a $(b)", "", "TooDeep 130"),
        (64, "( ", "$(b) fi", "", "TooDeep 128"),
        (64, "( ", ") ", "", "BadSyntax"),
        (64, "( ", "fi $(b)", "", "BadSyntax"),
    ] {
        let text = ["", before, middle, behind, ""];
        expect(&rt, alloc, times, text, ["", "", wanted, "", ""])?;
    }
    Ok(())
}

/// Levels that are closed don't count.
#[test]
fn levels_count_while_they_are_open(rt: HostRuntime) -> Result<(), Fail> {
    let alloc = rt.alloc();
    let name = "(list (simple (w p:a)))";
    let text = ["{ ", "{ ", "a", "; }", "; }; { a; }"];
    let last = ") (group (list (simple (w p:a)))))";
    let groups = ["(list (group ", "(list (group ", name, "))", last];
    expect(&rt, alloc, 63, text, groups)?;
    let subshell = " (subshell (list (simple (w p:a))))";
    let wanted = ["(list", subshell, "", "", ")"];
    expect(&rt, alloc, 70, ["", "(a);", "", "", ""], wanted)?;
    let command = " (simple (w p:a) (w (s 0)) (list (simple (w p:b))))";
    let wanted = ["(list", command, "", "", ")"];
    expect(&rt, alloc, 70, ["", "a $(b);", "", "", ""], wanted)
}
