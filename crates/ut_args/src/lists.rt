//! Lists of an invocation that contracts see as lists.
use ps_lines::Memory;
use std::alloc::Global;
use std::marker::Model;

/// Places of a line that `cut` selects, counted from 1: those from `from` up to `to`, or to the line's end.
#[derive(Clone, Copy, Debug, PartialEq, Eq)]
pub struct Range {
    /// The first place.
    pub from: u64,
    /// The last one; None: the line's end.
    pub to: Option<u64>,
}

/// The ranges of `cut`, in the order of its list.
#[derive(Debug, Drop)]
pub struct Ranges {
    ranges: Vec<Range>,
}

impl Model for Ranges {
    ghost use Rattle.std.specs.Prelude.{List};
    ghost use Rattle.ut_args.specs.declared.lists.Range.{Range};

    ghost Value = { List Range };

    ghost view = { λ ranges. ranges.ranges.items };
}

impl Ranges {
    ghost use Rattle.std.specs.Prelude.{◌≡◌, ◌∷◌, ◌++◌, [], OnOk};

    /// No range.
    pub(crate) fn new(alloc: Global) -> Ranges
        ensures { result ≡ [] }
    {
        Ranges {
            ranges: Vec::new(alloc),
        }
    }

    /// Appends a range.
    pub(crate) fn push(&mut self, range: Range) -> Result<(), Memory>
        ensures { OnOk result (self.new ≡ self.old ++ range ∷ []) }
    {
        self.ranges.push(range)?;
        Ok(())
    }

    /// The ranges.
    pub fn as_slice(&self) -> &[Range]
        ensures { result.now ≡ self.now }
    {
        self.ranges.as_slice()
    }
}

/// How a key of `sort` is compared, by the letters on it.
#[derive(Clone, Copy, Debug, PartialEq, Eq)]
pub struct Ordering {
    /// `b`: without the blanks at its beginning.
    pub blanks: bool,
    /// `f`: lower case letters as upper case.
    pub fold: bool,
    /// `n`: by the number at its beginning.
    pub numeric: bool,
    /// `r`: in reverse.
    pub reverse: bool,
}

/// One end of a key of `sort`.
#[derive(Clone, Copy, Debug, PartialEq, Eq)]
pub struct KeyEnd {
    /// The field, counted from 1.
    pub field: u64,
    /// The byte in the field, counted from 1; 0 at a key's end: the field's last byte.
    pub byte: u64,
    /// The letters that stand at this end.
    pub letters: Ordering,
}

/// A key of `sort`.
#[derive(Clone, Copy, Debug, PartialEq, Eq)]
pub struct Key {
    /// Where it begins.
    pub start: KeyEnd,
    /// Where it ends; None: at the line's end.
    pub end: Option<KeyEnd>,
}

/// The keys of `sort`, in order.
#[derive(Debug, Drop)]
pub struct Keys {
    keys: Vec<Key>,
}

impl Model for Keys {
    ghost use Rattle.std.specs.Prelude.{List};
    ghost use Rattle.ut_args.specs.declared.lists.Key.{Key};

    ghost Value = { List Key };

    ghost view = { λ keys. keys.keys.items };
}

impl Keys {
    ghost use Rattle.std.specs.Prelude.{◌≡◌, ◌∷◌, ◌++◌, [], OnOk};

    /// No key.
    pub(crate) fn new(alloc: Global) -> Keys
        ensures { result ≡ [] }
    {
        Keys {
            keys: Vec::new(alloc),
        }
    }

    /// Appends a key.
    pub(crate) fn push(&mut self, key: Key) -> Result<(), Memory>
        ensures { OnOk result (self.new ≡ self.old ++ key ∷ []) }
    {
        self.keys.push(key)?;
        Ok(())
    }

    /// The keys.
    pub fn as_slice(&self) -> &[Key]
        ensures { result.now ≡ self.now }
    {
        self.keys.as_slice()
    }
}

/// The delimiters of `paste`, in the order of its list; None stands for the empty one.
#[derive(Debug, Drop)]
pub struct Delimiters {
    delimiters: Vec<Option<u8>>,
}

impl Model for Delimiters {
    ghost use Rattle.std.specs.Prelude.{ℕ, List, Option};

    ghost Value = { List (Option ℕ) };

    ghost view = { λ delimiters. delimiters.delimiters.items };
}

impl Delimiters {
    ghost use Rattle.std.specs.Prelude.{◌≡◌, ◌∷◌, ◌++◌, [], OnOk};

    /// No delimiter.
    pub(crate) fn new(alloc: Global) -> Delimiters
        ensures { result ≡ [] }
    {
        Delimiters {
            delimiters: Vec::new(alloc),
        }
    }

    /// Appends a delimiter.
    pub(crate) fn push(&mut self, delimiter: Option<u8>) -> Result<(), Memory>
        ensures { OnOk result (self.new ≡ self.old ++ delimiter ∷ []) }
    {
        self.delimiters.push(delimiter)?;
        Ok(())
    }

    /// The delimiters.
    pub fn as_slice(&self) -> &[Option<u8>]
        ensures { result.now ≡ self.now }
    {
        self.delimiters.as_slice()
    }
}
