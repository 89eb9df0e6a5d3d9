//! Rows of tables: words as trees, what is given, and what they become.
//!
//! A row is a line of a table. It has columns with `|` between them: the words as a script writes them, their trees, what is
//! given, what they become, and the variables that change. Empty columns at the end are left out.
//!
//! - Trees: `(w PART..)` is a word. A part is `p:BYTES`, or `q:BYTES` where they are quoted; `(v PARAMETER FORM WORD)`, `(s NUMBER)`
//!   or `(a PART..)`, with `V`, `S` or `A` where it is quoted.
//! - Given: variables `name=text`, arguments `@text`, files `/path=content`, texts of substitutions `$text`, and `$?` as `?number`
//!   where it isn't 0.
//! - What they become: the fields, the text, `yes` or `no`; or `!` and the name of the fault, with its details.
//!
//! Items of a column have spaces between them. In an item `\n`, `\t`, `\\` and `\xNN` are bytes, and `\e` is nothing, so that an item
//! may be empty.
//!
//! A row that isn't written so fails its test.
use ps_fakes::{MemTree, is_tree};
use ps_lines::Text;
use sh_arith::{ArithFault, Env};
use sh_expand::{ExpandFault, Frame, expand, expand_one, has_pattern};
use sh_tree::{Form, Param, Part, Word};
use std::alloc::Global;
use std::mem::replace;
use std::process::Abort;
use std::test::Fail;

/// A row that was read.
#[derive(Drop)]
struct Row {
    words: Vec<Word>,
    given: Setting,
    /// What they become.
    wanted: Vec<Vec<u8>>,
    /// The variables that they leave.
    left: Env,
}

/// What an expansion is given.
#[derive(Drop)]
struct Setting {
    env: Env,
    args: Vec<Vec<u8>>,
    status: u8,
    subs: Vec<Vec<u8>>,
    files: Vec<(Vec<u8>, Option<Vec<u8>>)>,
}

/// Where the bytes of an item have come to.
#[derive(Clone, Copy)]
enum At {
    Byte,
    Backslash,
    FirstDigit,
    SecondDigit(u8),
}

/// A part or a word that isn't closed yet.
#[derive(Drop)]
struct Open {
    kind: u8,
    atoms: Vec<Vec<u8>>,
    parts: Vec<Part>,
    word: Option<Word>,
}

/// Whether `expand` answers what each row wants.
pub(super) fn expect_fields(rt: &impl Abort, alloc: Global, rows: &str) -> Result<(), Fail> {
    for row in rows.lines() {
        assert!(rt; has_fields(alloc, row)?, "{row}");
    }
    Ok(())
}

/// Whether `expand_one` answers what each row wants.
pub(super) fn expect_texts(rt: &impl Abort, alloc: Global, rows: &str) -> Result<(), Fail> {
    for row in rows.lines() {
        assert!(rt; has_text(alloc, row)?, "{row}");
    }
    Ok(())
}

/// Whether `has_pattern` answers what each row wants.
pub(super) fn expect_patterns(rt: &impl Abort, alloc: Global, rows: &str) -> Result<(), Fail> {
    for row in rows.lines() {
        assert!(rt; leaves_pattern(alloc, row)?, "{row}");
    }
    Ok(())
}

fn has_fields(alloc: Global, row: &str) -> Result<bool, Fail> {
    let mut row = row_of(alloc, row)?;
    let holds = becomes_fields(alloc, &mut row)?;
    Ok(holds & are_same(&row.given.env, &row.left))
}

fn has_text(alloc: Global, row: &str) -> Result<bool, Fail> {
    let mut row = row_of(alloc, row)?;
    let holds = becomes_text(alloc, &mut row);
    Ok(holds & are_same(&row.given.env, &row.left))
}

fn leaves_pattern(alloc: Global, row: &str) -> Result<bool, Fail> {
    let mut row = row_of(alloc, row)?;
    let holds = tells_pattern(alloc, &mut row);
    Ok(holds & are_same(&row.given.env, &row.left))
}

fn becomes_fields(alloc: Global, row: &mut Row) -> Result<bool, Fail> {
    let files = replace(&mut row.given.files, Vec::new(alloc));
    let mut tree = tree_of(alloc, files)?;
    let mut frame = Frame {
        env: &mut row.given.env,
        zero: b"s",
        args: row.given.args.as_slice(),
        status: row.given.status,
        subs: row.given.subs.as_slice(),
    };
    match expand(alloc, row.words.as_slice(), &mut frame, &mut tree) {
        Ok(fields) => Ok(fields.as_slice() == row.wanted.as_slice()),
        Err(fault) => Ok(is_fault(&fault, row.wanted.as_slice())),
    }
}

fn becomes_text(alloc: Global, row: &mut Row) -> bool {
    let mut frame = Frame {
        env: &mut row.given.env,
        zero: b"s",
        args: row.given.args.as_slice(),
        status: row.given.status,
        subs: row.given.subs.as_slice(),
    };
    let [word] = row.words.as_slice() else {
        return false;
    };
    match expand_one(alloc, word, &mut frame) {
        Ok(text) => are(row.wanted.as_slice(), &[text.as_slice()]),
        Err(fault) => is_fault(&fault, row.wanted.as_slice()),
    }
}

fn tells_pattern(alloc: Global, row: &mut Row) -> bool {
    let mut frame = Frame {
        env: &mut row.given.env,
        zero: b"s",
        args: row.given.args.as_slice(),
        status: row.given.status,
        subs: row.given.subs.as_slice(),
    };
    match has_pattern(alloc, row.words.as_slice(), &mut frame) {
        Ok(true) => are(row.wanted.as_slice(), &[b"yes"]),
        Ok(false) => are(row.wanted.as_slice(), &[b"no"]),
        Err(fault) => is_fault(&fault, row.wanted.as_slice()),
    }
}

/// Whether the items are these.
fn are(items: &[Vec<u8>], wanted: &[&[u8]]) -> bool {
    if items.len() != wanted.len() {
        return false;
    }
    for (item, text) in items.iter().zip(wanted) {
        if item.as_slice() != *text {
            return false;
        }
    }
    true
}

/// Reads a row.
fn row_of(alloc: Global, row: &str) -> Result<Row, Fail> {
    let mut columns = row.as_bytes().split(|byte| *byte == b'|').skip(1);
    let words = words_of(alloc, columns.next().unwrap_or(&[]))?;
    let before = columns.next().unwrap_or(&[]);
    let wanted = items_of(alloc, columns.next().unwrap_or(&[]))?;
    let given = setting_of(alloc, before, &[])?;
    let left = setting_of(alloc, before, columns.next().unwrap_or(&[]))?;
    Ok(Row {
        words,
        given,
        wanted,
        left: left.env,
    })
}

/// Whether the variables that rows name are the same.
fn are_same(env: &Env, other: &Env) -> bool {
    for name in ["IFS", "f", "p", "u", "v", "w", "x", "y"] {
        if env.get(name.as_bytes()) != other.get(name.as_bytes()) {
            return false;
        }
    }
    true
}

/// Whether the items are the fault's name and its details.
fn is_fault(fault: &ExpandFault, items: &[Vec<u8>]) -> bool {
    match fault {
        ExpandFault::Unset(name, text) => are(
            items,
            &[b"!Unset", name.as_slice(), text.as_slice()],
        ),
        ExpandFault::Arith(why) => is_arith_fault(why, items),
        ExpandFault::ArgsTooMany | ExpandFault::Failed | ExpandFault::Memory => false,
    }
}

fn is_arith_fault(fault: &ArithFault, items: &[Vec<u8>]) -> bool {
    match fault {
        ArithFault::NotANumber(name) => are(items, &[b"!Arith", b"NotANumber", name.as_slice()]),
        other => are(items, &[b"!Arith", cause_of(other)]),
    }
}

fn cause_of(fault: &ArithFault) -> &'static [u8] {
    match fault {
        ArithFault::Syntax => b"Syntax",
        ArithFault::DivideByZero => b"DivideByZero",
        ArithFault::Overflow => b"Overflow",
        ArithFault::Deep => b"Deep",
        ArithFault::NotANumber(_) | ArithFault::Memory => b"",
    }
}

/// The files below `/w`.
fn tree_of(alloc: Global, files: Vec<(Vec<u8>, Option<Vec<u8>>)>) -> Result<MemTree, Fail> {
    if is_tree(alloc, b"/w", files.as_slice())? {
        return Ok(MemTree::new(alloc, b"/w", files, Vec::new(alloc))?);
    }
    malformed("these files make no tree")
}

/// A row is written otherwise than the head of this file says.
fn malformed<T>(why: &'static str) -> Result<T, Fail> {
    let row: Option<T> = None;
    Ok(row.ok_or(why)?)
}

/// What these two columns give.
fn setting_of(alloc: Global, before: &[u8], behind: &[u8]) -> Result<Setting, Fail> {
    let mut given = nothing(alloc);
    add_items(alloc, &mut given, before)?;
    add_items(alloc, &mut given, behind)?;
    Ok(given)
}

fn nothing(alloc: Global) -> Setting {
    Setting {
        env: Env::new(alloc),
        args: Vec::new(alloc),
        status: 0,
        subs: Vec::new(alloc),
        files: Vec::new(alloc),
    }
}

/// Adds the items of a column; of two texts of a variable the last counts.
fn add_items(alloc: Global, given: &mut Setting, column: &[u8]) -> Result<(), Fail> {
    for item in column.split(|byte| *byte == b' ') {
        add_item(alloc, given, item)?;
    }
    Ok(())
}

fn add_item(alloc: Global, given: &mut Setting, item: &[u8]) -> Result<(), Fail> {
    match item {
        [] => Ok(()),
        [b'@', text @ ..] => add_text(alloc, &mut given.args, text),
        [b'$', text @ ..] => add_text(alloc, &mut given.subs, text),
        [b'?', digits @ ..] => set_status(given, digits),
        [b'/', file @ ..] => add_file(alloc, &mut given.files, file),
        variable => set_variable(alloc, &mut given.env, variable),
    }
}

fn add_text(alloc: Global, texts: &mut Vec<Vec<u8>>, item: &[u8]) -> Result<(), Fail> {
    Ok(texts.push(unescaped(alloc, item)?)?)
}

fn set_status(given: &mut Setting, digits: &[u8]) -> Result<(), Fail> {
    match u8::try_from(number_of(digits)?) {
        Ok(status) => given.status = status,
        Err(_) => return malformed("a status is below 256"),
    }
    Ok(())
}

fn add_file(
    alloc: Global,
    files: &mut Vec<(Vec<u8>, Option<Vec<u8>>)>,
    file: &[u8],
) -> Result<(), Fail> {
    let (path, content) = parted(file);
    let whole = path_of(alloc, path)?;
    let content = unescaped(alloc, content)?;
    Ok(files.push((whole, Some(content)))?)
}

/// The path below `/w`.
fn path_of(alloc: Global, path: &[u8]) -> Result<Vec<u8>, Fail> {
    let below = unescaped(alloc, path)?;
    let mut whole = Vec::from_slice(alloc, b"/w/")?;
    whole.extend_from_slice(below.as_slice())?;
    Ok(whole)
}

fn set_variable(alloc: Global, env: &mut Env, variable: &[u8]) -> Result<(), Fail> {
    let (name, text) = parted(variable);
    let text = unescaped(alloc, text)?;
    Ok(env.set(alloc, name, text.as_slice())?)
}

/// What stands before the first `=`, and behind it.
fn parted(item: &[u8]) -> (&[u8], &[u8]) {
    match item.iter().position(|byte| *byte == b'=') {
        Some(place) => (&item[..place], &item[place + 1..]),
        None => (item, b""),
    }
}

/// The items of a column.
fn items_of(alloc: Global, column: &[u8]) -> Result<Vec<Vec<u8>>, Fail> {
    let mut items = Vec::new(alloc);
    for item in column.split(|byte| *byte == b' ') {
        if !item.is_empty() {
            items.push(unescaped(alloc, item)?)?;
        }
    }
    Ok(items)
}

/// The bytes of an item.
fn unescaped(alloc: Global, item: &[u8]) -> Result<Vec<u8>, Fail> {
    let mut bytes = Vec::new(alloc);
    let mut at = At::Byte;
    for &byte in item {
        let (next, done) = after(at, byte)?;
        at = next;
        if let Some(byte) = done {
            bytes.push(byte)?;
        }
    }
    match at {
        At::Byte => Ok(bytes),
        At::Backslash | At::FirstDigit | At::SecondDigit(_) => malformed("an escape has no end"),
    }
}

/// Where a byte leads to, and the byte that it ends.
fn after(at: At, byte: u8) -> Result<(At, Option<u8>), Fail> {
    match (at, byte) {
        (At::Byte, b'\\') => Ok((At::Backslash, None)),
        (At::Byte, byte) => Ok((At::Byte, Some(byte))),
        (At::Backslash, b'n') => Ok((At::Byte, Some(b'\n'))),
        (At::Backslash, b't') => Ok((At::Byte, Some(b'\t'))),
        (At::Backslash, b'x') => Ok((At::FirstDigit, None)),
        (At::Backslash, b'e') => Ok((At::Byte, None)),
        (At::Backslash, b'\\') => Ok((At::Byte, Some(b'\\'))),
        (At::Backslash, _) => malformed("no such escape"),
        (At::FirstDigit, digit) => Ok((At::SecondDigit(digit_of(digit)?), None)),
        (At::SecondDigit(first), digit) => Ok((At::Byte, Some((first << 4) | digit_of(digit)?))),
    }
}

fn digit_of(byte: u8) -> Result<u8, Fail> {
    match byte {
        b'0'..=b'9' => Ok(byte - b'0'),
        b'a'..=b'f' => Ok(byte - b'a' + 10),
        _ => malformed("no digit"),
    }
}

fn number_of(digits: &[u8]) -> Result<u32, Fail> {
    let mut number: u32 = 0;
    for &digit in digits {
        number = number
            .wrapping_mul(10)
            .wrapping_add(u32::from(digit_of(digit)?));
    }
    Ok(number)
}

/// The words of their trees.
fn words_of(alloc: Global, trees: &[u8]) -> Result<Vec<Word>, Fail> {
    let mut words = Vec::new(alloc);
    let mut opened = Vec::new(alloc);
    for piece in trees.split(|byte| *byte == b' ') {
        if !piece.is_empty() {
            read_piece(alloc, piece, &mut opened, &mut words)?;
        }
    }
    if opened.is_empty() {
        return Ok(words);
    }
    malformed("a word isn't closed")
}

/// Reads a `(` with its kind, or an atom, and the `)` behind it.
fn read_piece(
    alloc: Global,
    piece: &[u8],
    opened: &mut Vec<Open>,
    words: &mut Vec<Word>,
) -> Result<(), Fail> {
    let end = piece
        .iter()
        .position(|byte| *byte == b')')
        .unwrap_or(piece.len());
    match &piece[..end] {
        [b'(', kind] => opened.push(Open {
            kind: *kind,
            atoms: Vec::new(alloc),
            parts: Vec::new(alloc),
            word: None,
        })?,
        atom => add_atom(alloc, atom, opened)?,
    }
    for _ in &piece[end..] {
        close(alloc, opened, words)?;
    }
    Ok(())
}

/// Adds bytes, or an atom, to what is open.
fn add_atom(alloc: Global, atom: &[u8], opened: &mut Vec<Open>) -> Result<(), Fail> {
    let Some(open) = opened.last_mut() else {
        return malformed("bytes stand outside of a word");
    };
    match atom {
        [b'p', b':', text @ ..] => Ok(open.parts.push(Part::Plain(text_of(alloc, text)?))?),
        [b'q', b':', text @ ..] => Ok(open.parts.push(Part::Quoted(text_of(alloc, text)?))?),
        atom => Ok(open.atoms.push(Vec::from_slice(alloc, atom)?)?),
    }
}

fn text_of(alloc: Global, item: &[u8]) -> Result<Text, Fail> {
    let bytes = unescaped(alloc, item)?;
    Ok(Text::copy_of(alloc, bytes.as_slice())?)
}

/// Closes what was opened last.
fn close(alloc: Global, opened: &mut Vec<Open>, words: &mut Vec<Word>) -> Result<(), Fail> {
    let Some(open) = opened.pop() else {
        return malformed("a `)` closes nothing");
    };
    if open.kind == b'w' {
        let word = word_of(open)?;
        return close_word(word, opened, words);
    }
    let part = part_of(alloc, open)?;
    let Some(mut outer) = opened.pop() else {
        return malformed("a part stands outside of a word");
    };
    outer.parts.push(part)?;
    Ok(opened.push(outer)?)
}

/// The word that is closed.
fn word_of(open: Open) -> Result<Word, Fail> {
    if !open.atoms.is_empty() || open.word.is_some() {
        return malformed("a word holds parts alone");
    }
    Ok(Word { parts: open.parts })
}

/// Hands a word to the part around it, or adds it to the words.
fn close_word(word: Word, opened: &mut Vec<Open>, words: &mut Vec<Word>) -> Result<(), Fail> {
    let Some(mut outer) = opened.pop() else {
        return Ok(words.push(word)?);
    };
    if outer.word.is_some() {
        return malformed("a part has one word at most");
    }
    outer.word = Some(word);
    Ok(opened.push(outer)?)
}

/// The part that is closed.
fn part_of(alloc: Global, open: Open) -> Result<Part, Fail> {
    let Open {
        kind,
        atoms,
        parts,
        word,
    } = open;
    let quoted = kind.is_ascii_uppercase();
    match kind.to_ascii_lowercase() {
        b'a' => Ok(Part::Arith { parts, quoted }),
        b's' => {
            let number = number_of(atom_at(atoms.as_slice(), 0))?;
            Ok(Part::Sub { number, quoted })
        }
        b'v' => {
            let what = param_of(alloc, atom_at(atoms.as_slice(), 0))?;
            let form = form_of(atom_at(atoms.as_slice(), 1), word)?;
            Ok(Part::Param { what, form, quoted })
        }
        _ => malformed("no such part"),
    }
}

/// The atom at this place, or nothing.
fn atom_at(atoms: &[Vec<u8>], place: usize) -> &[u8] {
    match atoms.get(place) {
        Some(atom) => atom.as_slice(),
        None => b"",
    }
}

fn param_of(alloc: Global, atom: &[u8]) -> Result<Param, Fail> {
    match atom {
        [] => malformed("a parameter has no name"),
        [b'@'] => Ok(Param::At),
        [b'*'] => Ok(Param::Star),
        [b'#'] => Ok(Param::Count),
        [b'?'] => Ok(Param::Status),
        [b'0'..=b'9', ..] => Ok(Param::Place(number_of(atom)?)),
        name => Ok(Param::Name(Text::copy_of(alloc, name)?)),
    }
}

/// The form that is written so, with its word.
fn form_of(sign: &[u8], word: Option<Word>) -> Result<Form, Fail> {
    let colon = sign.first() == Some(&b':');
    let longest = sign.len() == 2;
    match (sign.last(), word) {
        (None, None) => Ok(Form::Plain),
        (Some(b'n'), None) => Ok(Form::Length),
        (Some(b'?'), word) => Ok(Form::Check { colon, word }),
        (Some(b'-'), Some(word)) => Ok(Form::Default { colon, word }),
        (Some(b'='), Some(word)) => Ok(Form::Assign { colon, word }),
        (Some(b'+'), Some(word)) => Ok(Form::Alternate { colon, word }),
        (Some(b'%'), Some(word)) => Ok(Form::CutSuffix { longest, word }),
        (Some(b'#'), Some(word)) => Ok(Form::CutPrefix { longest, word }),
        _ => malformed("no such form"),
    }
}
