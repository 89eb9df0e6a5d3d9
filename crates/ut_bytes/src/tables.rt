//! Tables of what a byte is, and of what it becomes.
ghost use Rattle.std.specs.Prelude.{◌≡◌, ◌||◌, ℕ, false, length, get_or, drop, IfOk};
ghost use Rattle.ut_args.specs.Strings.{image};
ghost use Rattle.ut_bytes.specs.Inner.Tables.{last_of};
ghost use Rattle.ut_options.specs.Rows.{is_among};

use ps_lines::Memory;
use std::alloc::Global;
use std::marker::Model;

/// How many bytes there are.
const BYTES: usize = 256;

/// A set of bytes.
#[derive(Drop)]
pub struct Marks {
    marks: Vec<bool>,
    ghost whole: { length marks.items ≡ 256 },
}

impl Model for Marks {
    ghost use Rattle.std.specs.Prelude.{List, Bool};

    ghost Value = { List Bool };

    ghost view = { λ set. set.marks.items };
}

impl Marks {
    ghost use Rattle.std.specs.Prelude.{◌≡◌, IfOk};
    ghost use Rattle.ut_options.specs.Rows.{is_among};
    ghost use Rattle.ut_bytes.specs.Inner.Tables.{marked};

    /// The set of these bytes.
    pub fn of(alloc: Global, bytes: &[u8]) -> Result<Marks, Memory>
        ensures { IfOk result (λ set. marked set ≡ is_among bytes.now) }
    {
        let mut marks = vec![in alloc; false; BYTES]?;
        mark(&mut marks, bytes);
        Ok(Marks { marks })
    }

    /// Whether the set has the byte.
    pub fn has(&self, byte: u8) -> bool
        ensures { result ≡ marked self.now byte }
    {
        self.marks[byte as usize]
    }
}

/// Marks these bytes.
fn mark(marks: &mut Vec<bool>, bytes: &[u8])
    requires { length marks.old.items ≡ 256 }
    ensures marked { (byte : ℕ) → get_or marks.new.items byte false ≡ (get_or marks.old.items byte false || is_among bytes.now byte) }
    ensures whole { length marks.new.items ≡ 256 }
{
    let mut left = bytes;
    while let [byte, rest @ ..] = left {
        marks[*byte as usize] = true;
        left = rest;
    }
}

/// What each byte becomes.
#[derive(Drop)]
pub struct Images {
    images: Vec<u8>,
    ghost whole: { length images.items ≡ 256 },
}

impl Model for Images {
    ghost use Rattle.std.specs.Prelude.{ℕ, List};

    ghost Value = { List ℕ };

    ghost view = { λ table. table.images.items };
}

impl Images {
    ghost use Rattle.std.specs.Prelude.{◌≡◌, IfOk};
    ghost use Rattle.ut_bytes.specs.Tr.{image_of};
    ghost use Rattle.ut_bytes.specs.Inner.Tables.{image_at};

    /// What each byte becomes where the bytes `from` become those of `to`.
    pub fn of(alloc: Global, from: &[u8], to: &[u8]) -> Result<Images, Memory>
        ensures { IfOk result (λ table. image_at table ≡ image_of from.now to.now) }
    {
        let mut images = same(alloc)?;
        let [first, ..] = to else {
            return Ok(Images { images });
        };
        replace(&mut images, from, to, *first);
        Ok(Images { images })
    }

    /// What the byte becomes.
    pub fn at(&self, byte: u8) -> u8
        ensures { result ≡ image_at self.now byte }
    {
        self.images[byte as usize]
    }
}

/// The table in which each byte stays as it is.
fn same(alloc: Global) -> Result<Vec<u8>, Memory>
    ensures same { IfOk result (λ images. (byte : ℕ) → get_or images.items byte byte ≡ byte) }
    ensures whole { IfOk result (λ images. length images.items ≡ 256) }
{
    let mut images = Vec::with_capacity(alloc, BYTES)?;
    for byte in 0..BYTES {
        images.push(byte as u8)?;
    }
    Ok(images)
}

/// Replaces the bytes `from` by those of `to`, which goes on with its last byte; `last` is the byte before `to`.
fn replace(images: &mut Vec<u8>, from: &[u8], to: &[u8], last: u8)
    requires { length images.old.items ≡ 256 }
    ensures replaced { (byte : ℕ) → get_or images.new.items byte byte ≡ image byte (get_or images.old.items byte byte) last from.now to.now }
    ensures whole { length images.new.items ≡ 256 }
{
    let mut left = from;
    let mut others = to;
    let mut current = last;
    while let [byte, rest @ ..] = left {
        (current, others) = next_byte(current, others);
        images[*byte as usize] = current;
        left = rest;
    }
}

/// The next byte of the second string, and those behind it: where there is none, the last one again.
fn next_byte(last: u8, others: &[u8]) -> (u8, &[u8])
    ensures byte { result.0 ≡ last_of last others.now }
    ensures rest { result.1.now ≡ drop 1 others.now }
{
    match others {
        [] => (last, others),
        [byte, rest @ ..] => (*byte, rest),
    }
}
