//! Trees as the rows of tables write them.
//!
//! - A script is its list, or `none`. `(list ITEM..)` is a list. An item is `(andor P and P or P ..)`, or its only pipeline. A
//!   pipeline is `(pipe COMMAND..)`, `(not COMMAND..)` where `!` stands before it, or its only command.
//! - `(simple ASSIGN.. WORD.. REDIR.. LIST..)` is a simple command: `(= NAME PART..)` is an assignment, `(< NUMBER WORD)` a
//!   redirection, with `>`, `>>` and `>&` too, and the lists are its command substitutions.
//! - `(group LIST TAIL)`, `(subshell LIST TAIL)`, `(if (LIST LIST).. TAIL)` with `else LIST` before the tail,
//!   `(while LIST LIST TAIL)`, `(until LIST LIST TAIL)`, `(for NAME args LIST TAIL)` and `(for NAME (in WORD.. LIST..) LIST TAIL)`
//!   are compound commands. A tail is `REDIR.. LIST..`.
//! - `(w PART..)` is a word. A part is `p:BYTES`, or `q:BYTES` where they are quoted; `(v PARAMETER FORM WORD)`, `(s NUMBER)` or
//!   `(a PART..)`, with `V`, `S` or `A` where it is quoted.
//!
//! In bytes `\n`, `\t`, `\\` and `\xNN` stand for those that a row can't show, blanks and parentheses among them, and `\e` for none.
use ps_lines::{Memory, Text, decimal};
use sh_tree::{
    AndOr, Command, Form, How, Join, List, Param, Part, Pipeline, Redir, Script, Simple, Tail,
    Word, Words,
};
use std::alloc::Global;

/// The script's tree, as a row writes it.
pub(super) fn shown(alloc: Global, script: &Script) -> Result<Vec<u8>, Memory> {
    let mut out = Vec::new(alloc);
    match &script.body {
        Some(list) => add_list(&mut out, list)?,
        None => add(&mut out, "none")?,
    }
    Ok(out)
}

fn add(out: &mut Vec<u8>, text: &str) -> Result<(), Memory> {
    out.extend_from_slice(text.as_bytes())?;
    Ok(())
}

/// Adds the lists, each behind a blank.
#[cycle(lists)]
fn add_lists(out: &mut Vec<u8>, lists: &[List]) -> Result<(), Memory> {
    for list in lists {
        add(out, " ")?;
        add_list(out, list)?;
    }
    Ok(())
}

#[cycle(lists)]
fn add_list(out: &mut Vec<u8>, list: &List) -> Result<(), Memory> {
    add(out, "(list")?;
    for item in &list.items {
        add(out, " ")?;
        add_and_or(out, item)?;
    }
    add(out, ")")
}

#[cycle(lists)]
fn add_and_or(out: &mut Vec<u8>, item: &AndOr) -> Result<(), Memory> {
    if item.rest.is_empty() {
        return add_pipeline(out, &item.first);
    }
    add(out, "(andor ")?;
    add_pipeline(out, &item.first)?;
    for (join, pipeline) in &item.rest {
        add(out, join_sign(*join))?;
        add_pipeline(out, pipeline)?;
    }
    add(out, ")")
}

fn join_sign(join: Join) -> &'static str {
    match join {
        Join::And => " and ",
        Join::Or => " or ",
    }
}

#[cycle(lists)]
fn add_pipeline(out: &mut Vec<u8>, pipeline: &Pipeline) -> Result<(), Memory> {
    let stages = pipeline.stages.as_slice();
    if let ([only], false) = (stages, pipeline.negated) {
        return add_command(out, only);
    }
    add(out, if pipeline.negated { "(not" } else { "(pipe" })?;
    for command in stages {
        add(out, " ")?;
        add_command(out, command)?;
    }
    add(out, ")")
}

#[cycle(lists)]
fn add_command(out: &mut Vec<u8>, command: &Command) -> Result<(), Memory> {
    match command {
        Command::Simple(simple) => add_simple(out, simple)?,
        Command::Group(list, tail) => {
            add_behind(out, "(group ", list)?;
            add_tail(out, tail)?;
        }
        Command::Subshell(list, tail) => {
            add_behind(out, "(subshell ", list)?;
            add_tail(out, tail)?;
        }
        Command::If(branches, otherwise, tail) => {
            add(out, "(if")?;
            for (condition, body) in branches {
                add_behind(out, " (", condition)?;
                add_behind(out, " ", body)?;
                add(out, ")")?;
            }
            if let Some(list) = otherwise {
                add_behind(out, " else ", list)?;
            }
            add_tail(out, tail)?;
        }
        Command::While(condition, body, tail) => {
            add_behind(out, "(while ", condition)?;
            add_behind(out, " ", body)?;
            add_tail(out, tail)?;
        }
        Command::Until(condition, body, tail) => {
            add_behind(out, "(until ", condition)?;
            add_behind(out, " ", body)?;
            add_tail(out, tail)?;
        }
        Command::For(name, words, body, tail) => {
            add_for(out, name)?;
            add_for_words(out, words)?;
            add_list(out, body)?;
            add_tail(out, tail)?;
        }
    }
    add(out, ")")
}

/// Adds the list behind these bytes.
#[cycle(lists)]
fn add_behind(out: &mut Vec<u8>, sign: &str, list: &List) -> Result<(), Memory> {
    add(out, sign)?;
    add_list(out, list)
}

fn add_for(out: &mut Vec<u8>, name: &Text) -> Result<(), Memory> {
    add(out, "(for ")?;
    add_bytes(out, name.as_slice())
}

/// Adds the words of a `for`, between blanks.
#[cycle(lists)]
fn add_for_words(out: &mut Vec<u8>, words: &Option<Words>) -> Result<(), Memory> {
    match words {
        Some(words) => {
            add(out, " (in")?;
            add_words(out, words.words.as_slice())?;
            add_lists(out, words.subs.as_slice())?;
            add(out, ") ")
        }
        None => add(out, " args "),
    }
}

/// Adds a simple command without its `)`.
#[cycle(lists)]
fn add_simple(out: &mut Vec<u8>, simple: &Simple) -> Result<(), Memory> {
    add(out, "(simple")?;
    add_assigns(out, simple.assigns.as_slice())?;
    add_words(out, simple.words.as_slice())?;
    add_redirs(out, simple.redirs.as_slice())?;
    add_lists(out, simple.subs.as_slice())
}

#[cycle(lists)]
fn add_tail(out: &mut Vec<u8>, tail: &Tail) -> Result<(), Memory> {
    add_redirs(out, tail.redirs.as_slice())?;
    add_lists(out, tail.subs.as_slice())
}

fn add_assigns(out: &mut Vec<u8>, assigns: &[(Text, Word)]) -> Result<(), Memory> {
    for (name, value) in assigns {
        add(out, " (= ")?;
        add_bytes(out, name.as_slice())?;
        add_parts(out, value.parts.as_slice())?;
        add(out, ")")?;
    }
    Ok(())
}

fn add_redirs(out: &mut Vec<u8>, redirs: &[Redir]) -> Result<(), Memory> {
    for redir in redirs {
        add(out, how_sign(redir.how))?;
        decimal(u64::from(redir.number), out)?;
        add(out, " ")?;
        add_word(out, &redir.word)?;
        add(out, ")")?;
    }
    Ok(())
}

fn how_sign(how: How) -> &'static str {
    match how {
        How::Read => " (< ",
        How::Write => " (> ",
        How::Append => " (>> ",
        How::Copy => " (>& ",
    }
}

fn add_words(out: &mut Vec<u8>, words: &[Word]) -> Result<(), Memory> {
    for word in words {
        add(out, " ")?;
        add_word(out, word)?;
    }
    Ok(())
}

#[cycle(words)]
fn add_word(out: &mut Vec<u8>, word: &Word) -> Result<(), Memory> {
    add(out, "(w")?;
    add_parts(out, word.parts.as_slice())?;
    add(out, ")")
}

/// Adds the parts, each behind a blank.
#[cycle(words)]
fn add_parts(out: &mut Vec<u8>, parts: &[Part]) -> Result<(), Memory> {
    for part in parts {
        add(out, " ")?;
        add_part(out, part)?;
    }
    Ok(())
}

#[cycle(words)]
fn add_part(out: &mut Vec<u8>, part: &Part) -> Result<(), Memory> {
    match part {
        Part::Plain(text) => {
            add(out, "p:")?;
            add_bytes(out, text.as_slice())
        }
        Part::Quoted(text) => {
            add(out, "q:")?;
            add_bytes(out, text.as_slice())
        }
        Part::Param { what, form, quoted } => {
            add(out, if *quoted { "(V " } else { "(v " })?;
            add_param(out, what)?;
            add_form(out, form)?;
            add(out, ")")
        }
        Part::Sub { number, quoted } => {
            add(out, if *quoted { "(S " } else { "(s " })?;
            decimal(u64::from(*number), out)?;
            add(out, ")")
        }
        Part::Arith { parts, quoted } => {
            add(out, if *quoted { "(A" } else { "(a" })?;
            add_parts(out, parts.as_slice())?;
            add(out, ")")
        }
    }
}

fn add_param(out: &mut Vec<u8>, what: &Param) -> Result<(), Memory> {
    match what {
        Param::Name(name) => add_bytes(out, name.as_slice()),
        Param::Place(place) => decimal(u64::from(*place), out),
        Param::At => add(out, "@"),
        Param::Star => add(out, "*"),
        Param::Count => add(out, "#"),
        Param::Status => add(out, "?"),
    }
}

/// Adds the form behind a blank, and its word.
#[cycle(words)]
fn add_form(out: &mut Vec<u8>, form: &Form) -> Result<(), Memory> {
    match form {
        Form::Plain => Ok(()),
        Form::Length => add(out, " len"),
        Form::Default { colon, word } => {
            add_formed(out, if *colon { " :- " } else { " - " }, word)
        }
        Form::Assign { colon, word } => add_formed(out, if *colon { " := " } else { " = " }, word),
        Form::Check { colon, word } => {
            add(out, if *colon { " :?" } else { " ?" })?;
            match word {
                Some(word) => add_formed(out, " ", word),
                None => Ok(()),
            }
        }
        Form::Alternate { colon, word } => {
            add_formed(out, if *colon { " :+ " } else { " + " }, word)
        }
        Form::CutSuffix { longest, word } => {
            add_formed(out, if *longest { " %% " } else { " % " }, word)
        }
        Form::CutPrefix { longest, word } => {
            add_formed(out, if *longest { " ## " } else { " # " }, word)
        }
    }
}

/// Adds the word behind the sign of its form.
#[cycle(words)]
fn add_formed(out: &mut Vec<u8>, sign: &str, word: &Word) -> Result<(), Memory> {
    add(out, sign)?;
    add_word(out, word)
}

/// Adds the bytes of an atom.
fn add_bytes(out: &mut Vec<u8>, bytes: &[u8]) -> Result<(), Memory> {
    if bytes.is_empty() {
        return add(out, r"\e");
    }
    for &byte in bytes {
        add_byte(out, byte)?;
    }
    Ok(())
}

fn add_byte(out: &mut Vec<u8>, byte: u8) -> Result<(), Memory> {
    match byte {
        b'\n' => add(out, r"\n"),
        b'\t' => add(out, r"\t"),
        b'\\' => add(out, r"\\"),
        b' ' | b'(' | b')' | 0..=31 | 127..=255 => {
            add(out, r"\x")?;
            out.push(digit(byte >> 4))?;
            Ok(out.push(digit(byte & 15))?)
        }
        other => Ok(out.push(other)?),
    }
}

/// The hexadecimal digit of a value below 16.
fn digit(value: u8) -> u8 {
    match value {
        0..=9 => b'0' + value,
        10..=15 => b'a' + (value - 10),
        _ => b'?',
    }
}
