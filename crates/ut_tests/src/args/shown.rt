//! What an invocation asks for, as the items of a row.
use ps_lines::{Memory, decimal};
use std::alloc::Global;
use ut_args::{
    CutArgs, GrepArgs, Groups, Inv, Key, KeyEnd, Ordering, Origin, Parts, PasteArgs, Report,
    SortArgs, Syntax, TailArgs, TrArgs, UniqArgs, Unit, WcArgs,
};
use ut_options::Texts;

/// Items of a row.
type Items = Vec<Vec<u8>>;

/// The operands, files, names or arguments.
pub(super) fn operands_of(inv: &Inv) -> &[Vec<u8>] {
    match inv {
        Inv::Unset(unset) => unset.args.names.as_slice(),
        Inv::Read(read) => read.args.names.as_slice(),
        Inv::Echo(echo) => echo.args.operands.as_slice(),
        Inv::Set(set) => set.args.arguments.as_slice(),
        Inv::Test(test) => test.args.arguments.as_slice(),
        Inv::Bracket(test) => test.args.arguments.as_slice(),
        Inv::Tee(_) => inv.files_written(),
        _ => inv.operands(),
    }
}

/// The options that hold.
pub(super) fn options_of(alloc: Global, inv: &Inv) -> Result<Items, Memory> {
    let mut items = Vec::new(alloc);
    add_options(alloc, &mut items, inv)?;
    Ok(items)
}

fn add_options(alloc: Global, items: &mut Items, inv: &Inv) -> Result<(), Memory> {
    match inv {
        Inv::Grep(grep) => add_grep(alloc, items, &grep.args),
        Inv::Tr(tr) => add_tr(alloc, items, &tr.args),
        Inv::Cut(cut) => add_cut(alloc, items, &cut.args),
        Inv::Head(head) => add_number(alloc, items, b"count=", head.args.count),
        Inv::Tail(tail) => add_tail(alloc, items, &tail.args),
        Inv::Wc(wc) => add_wc(alloc, items, &wc.args),
        Inv::Uniq(uniq) => add_uniq(alloc, items, &uniq.args),
        Inv::Sort(sort) => add_sort(alloc, items, &sort.args),
        Inv::Paste(paste) => add_paste(alloc, items, &paste.args),
        Inv::Tee(tee) => add_flag(alloc, items, tee.args.appends, b"a"),
        Inv::Break(exit) => add_given(alloc, items, exit.args.depth),
        Inv::Continue(exit) => add_given(alloc, items, exit.args.depth),
        Inv::Exit(exit) => add_given(alloc, items, exit.args.status.map(u64::from)),
        Inv::Shift(shift) => add_given(alloc, items, shift.args.count),
        Inv::Cat(_) | Inv::True(_) | Inv::False(_) | Inv::Colon(_) => Ok(()),
        Inv::Set(_) | Inv::Unset(_) | Inv::Read(_) | Inv::Echo(_) => Ok(()),
        Inv::Test(_) | Inv::Bracket(_) => Ok(()),
    }
}

fn add_wc(alloc: Global, items: &mut Items, args: &WcArgs) -> Result<(), Memory> {
    add_flag(alloc, items, args.lines, b"l")?;
    add_flag(alloc, items, args.words, b"w")?;
    add_flag(alloc, items, args.bytes, b"c")
}

fn add_uniq(alloc: Global, items: &mut Items, args: &UniqArgs) -> Result<(), Memory> {
    add_flag(alloc, items, args.groups == Groups::Counted, b"c")?;
    add_flag(alloc, items, args.groups == Groups::Repeated, b"d")?;
    add_flag(alloc, items, args.groups == Groups::Single, b"u")?;
    add_number(alloc, items, b"f=", args.fields)?;
    add_number(alloc, items, b"s=", args.bytes)
}

/// Adds an item, of a front and its rest.
fn add(alloc: Global, items: &mut Items, front: &[u8], rest: &[u8]) -> Result<(), Memory> {
    let mut item = Vec::from_slice(alloc, front)?;
    item.extend_from_slice(rest)?;
    items.push(item)?;
    Ok(())
}

fn add_flag(alloc: Global, items: &mut Items, given: bool, flag: &[u8]) -> Result<(), Memory> {
    if given {
        add(alloc, items, flag, b"")
    } else {
        Ok(())
    }
}

fn add_number(alloc: Global, items: &mut Items, front: &[u8], number: u64) -> Result<(), Memory> {
    let mut item = Vec::from_slice(alloc, front)?;
    decimal(number, &mut item)?;
    items.push(item)?;
    Ok(())
}

fn add_given(alloc: Global, items: &mut Items, number: Option<u64>) -> Result<(), Memory> {
    match number {
        Some(number) => add_number(alloc, items, b"n=", number),
        None => Ok(()),
    }
}

fn add_texts(alloc: Global, items: &mut Items, front: &[u8], texts: &Texts) -> Result<(), Memory> {
    for text in texts.as_slice() {
        add(alloc, items, front, text.as_slice())?;
    }
    Ok(())
}

fn add_grep(alloc: Global, items: &mut Items, args: &GrepArgs) -> Result<(), Memory> {
    let syntax: &[u8] = match args.syntax {
        Syntax::Basic => b"B",
        Syntax::Extended => b"E",
        Syntax::Fixed => b"F",
    };
    add(alloc, items, syntax, b"")?;
    add_flag(alloc, items, args.report == Report::Count, b"c")?;
    add_flag(alloc, items, args.ignores_case, b"i")?;
    add_flag(alloc, items, args.report == Report::Path, b"l")?;
    add_flag(alloc, items, args.numbers, b"n")?;
    add_flag(alloc, items, args.report == Report::Nothing, b"q")?;
    add_flag(alloc, items, args.silent, b"s")?;
    add_flag(alloc, items, args.inverts, b"v")?;
    add_flag(alloc, items, args.whole_lines, b"x")?;
    add_texts(alloc, items, b"pattern=", &args.patterns)
}

fn add_tr(alloc: Global, items: &mut Items, args: &TrArgs) -> Result<(), Memory> {
    add_flag(alloc, items, args.complements, b"c")?;
    add_flag(alloc, items, args.deletes, b"d")?;
    add_flag(alloc, items, args.squeezes, b"s")?;
    add(alloc, items, b"string=", args.first.as_slice())?;
    match &args.second {
        Some(second) => add(alloc, items, b"string=", second.as_slice()),
        None => Ok(()),
    }
}

fn add_cut(alloc: Global, items: &mut Items, args: &CutArgs) -> Result<(), Memory> {
    match args.parts {
        Parts::Bytes => add(alloc, items, b"bytes", b"")?,
        Parts::Fields {
            delimiter,
            only_delimited,
        } => {
            add(alloc, items, b"fields", b"")?;
            add(alloc, items, b"d=", &[delimiter])?;
            add_flag(alloc, items, only_delimited, b"s")?;
        }
    }
    for range in args.ranges.as_slice() {
        let mut item = Vec::from_slice(alloc, b"part=")?;
        decimal(range.from, &mut item)?;
        item.push(b'-')?;
        if let Some(to) = range.to {
            decimal(to, &mut item)?;
        }
        items.push(item)?;
    }
    Ok(())
}

fn add_tail(alloc: Global, items: &mut Items, args: &TailArgs) -> Result<(), Memory> {
    let unit: &[u8] = match args.part.unit {
        Unit::Lines => b"lines",
        Unit::Bytes => b"bytes",
    };
    add(alloc, items, unit, b"")?;
    match args.part.origin {
        Origin::Start(number) => {
            add(alloc, items, b"from-start", b"")?;
            add_number(alloc, items, b"count=", number)
        }
        Origin::End(number) => {
            add(alloc, items, b"from-end", b"")?;
            add_number(alloc, items, b"count=", number)
        }
    }
}

fn add_sort(alloc: Global, items: &mut Items, args: &SortArgs) -> Result<(), Memory> {
    add_flag(alloc, items, args.ordering.blanks, b"b")?;
    add_flag(alloc, items, args.ordering.fold, b"f")?;
    add_flag(alloc, items, args.ordering.numeric, b"n")?;
    add_flag(alloc, items, args.ordering.reverse, b"r")?;
    add_flag(alloc, items, args.unique, b"u")?;
    if let Some(separator) = args.separator {
        add(alloc, items, b"t=", &[separator])?;
    }
    for key in args.keys.as_slice() {
        let mut item = Vec::from_slice(alloc, b"k=")?;
        put_key(&mut item, key)?;
        items.push(item)?;
    }
    Ok(())
}

fn put_key(item: &mut Vec<u8>, key: &Key) -> Result<(), Memory> {
    put_end(item, &key.start)?;
    if let Some(end) = &key.end {
        item.push(b',')?;
        put_end(item, end)?;
    }
    Ok(())
}

fn put_end(item: &mut Vec<u8>, end: &KeyEnd) -> Result<(), Memory> {
    decimal(end.field, item)?;
    item.push(b'.')?;
    decimal(end.byte, item)?;
    put_letters(item, end.letters)
}

fn put_letters(item: &mut Vec<u8>, letters: Ordering) -> Result<(), Memory> {
    for (given, letter) in [
        (letters.blanks, b'b'),
        (letters.fold, b'f'),
        (letters.numeric, b'n'),
        (letters.reverse, b'r'),
    ] {
        if given {
            item.push(letter)?;
        }
    }
    Ok(())
}

fn add_paste(alloc: Global, items: &mut Items, args: &PasteArgs) -> Result<(), Memory> {
    add_flag(alloc, items, args.serial, b"s")?;
    for delimiter in args.delimiters.as_slice() {
        match delimiter {
            Some(byte) => add(alloc, items, b"d=", &[*byte])?,
            None => add(alloc, items, b"d=", b"")?,
        }
    }
    Ok(())
}
