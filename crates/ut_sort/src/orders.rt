//! The order of lines.
ghost use Rattle.std.specs.Prelude.{◌≡◌, drop, map, IfOk};
ghost use Rattle.ut_sort.specs.Keys.{keys_cmp, keys_in_force as keys_in_force_def, with_global as with_global_def};
ghost use Rattle.ut_sort.specs.LineOrders.{cmp_by, number_by, rest_by, tied_by};
ghost use Rattle.ut_sort.specs.Prefixes.{FirstKey, begins_whole as begins_whole_def, first_letters as first_letters_def, is_whole_key as is_whole_key_def, no_letters};
ghost use Rattle.ut_sort.specs.Order.{last_cmp, order_of};

use crate::keys::{compare_key, compare_keys, letters_of, whole_line, with_global};
use crate::line_orders::LineOrder;
use crate::prefixes::{is_exact, number_of_key};
use ps_lines::Memory;
use std::alloc::Global;
use std::cmp::Ordering;
use std::slice;
use ut_args::{Key, Ordering as Letters, SortArgs, SortInv};

/// The order of two lines in the output of this invocation, by its keys, and without `-u` at last by all bytes.
///
/// It takes no memory.
pub fn order(inv: &SortInv, one: &[u8], other: &[u8]) -> Ordering
    ensures { result ≡ order_of inv.now.args one.now other.now }
{
    let args = &inv.args;
    match compare_in_force(
        args.separator,
        args.ordering,
        args.keys.as_slice(),
        one,
        other,
    ) {
        Ordering::Equal => compare_last(args.unique, args.ordering.reverse, one, other),
        decided => decided,
    }
}

/// The order of two lines by these keys with the global letters, or by the whole line where there are no keys.
fn compare_in_force(
    separator: Option<u8>,
    global: Letters,
    keys: &[Key],
    one: &[u8],
    other: &[u8],
) -> Ordering
    ensures { result ≡ keys_cmp separator (keys_in_force_def global keys.now) one.now other.now }
{
    if keys.is_empty() {
        return compare_keys(separator, slice::from_ref(&whole_line(global)), one, other);
    }
    compare_each(separator, global, keys, one, other)
}

/// The order of two lines by these keys with the global letters.
fn compare_each(
    separator: Option<u8>,
    global: Letters,
    keys: &[Key],
    one: &[u8],
    other: &[u8],
) -> Ordering
    ensures { result ≡ keys_cmp separator (map (with_global_def global) keys.now) one.now other.now }
{
    let mut left = keys;
    while let [key, rest @ ..] = left {
        let key = with_global(global, key);
        match compare_key(separator, &key, one, other) {
            Ordering::Equal => left = rest,
            decided => return decided,
        }
    }
    Ordering::Equal
}

/// The order of two lines by all their bytes, where that is asked.
pub(crate) fn compare_last(unique: bool, reverse: bool, one: &[u8], other: &[u8]) -> Ordering
    ensures { result ≡ last_cmp unique reverse one.now other.now }
{
    if unique {
        return Ordering::Equal;
    }
    if reverse {
        other.cmp(one)
    } else {
        one.cmp(other)
    }
}

impl LineOrder {
    /// The order of the lines of this invocation.
    pub(crate) fn new(alloc: Global, args: &SortArgs) -> Result<LineOrder, Memory>
        ensures keys { IfOk result (λ order. order.keys.items ≡ keys_in_force_def args.now.ordering args.now.keys) }
        ensures separator { IfOk result (λ order. order.separator ≡ args.now.separator) }
        ensures unique { IfOk result (λ order. order.unique ≡ args.now.unique) }
        ensures reverse { IfOk result (λ order. order.reverse ≡ args.now.ordering.reverse) }
    {
        let keys = keys_in_force(alloc, args.ordering, args.keys.as_slice())?;
        let letters = first_letters(keys.as_slice());
        let whole = begins_whole(keys.as_slice());
        Ok(LineOrder {
            keys,
            separator: args.separator,
            unique: args.unique,
            reverse: args.ordering.reverse,
            letters,
            whole,
        })
    }

    /// The order of two lines.
    pub(crate) fn compare(&self, one: &[u8], other: &[u8]) -> Ordering
        ensures { result ≡ cmp_by self.now one.now other.now }
    {
        match compare_keys(self.separator, self.keys.as_slice(), one, other) {
            Ordering::Equal => compare_last(self.unique, self.reverse, one, other),
            decided => decided,
        }
    }

    /// The order of two lines that both have this number: a number that says all of the first key spares a look at it.
    pub(crate) fn compare_tied(&self, number: u64, one: &[u8], other: &[u8]) -> Ordering
        ensures { result ≡ tied_by self.now number one.now other.now }
    {
        if is_exact(self.letters, number) {
            self.compare_rest(one, other)
        } else {
            self.compare(one, other)
        }
    }

    /// The order of two lines whose first keys are equal.
    fn compare_rest(&self, one: &[u8], other: &[u8]) -> Ordering
        ensures { result ≡ rest_by self.now one.now other.now }
    {
        if self.whole {
            return Ordering::Equal;
        }
        match compare_keys(
            self.separator,
            behind_first_key(self.keys.as_slice()),
            one,
            other,
        ) {
            Ordering::Equal => compare_last(self.unique, self.reverse, one, other),
            decided => decided,
        }
    }

    /// The number of a line: where it is less than another's, the line is before the other.
    pub(crate) fn number_of(&self, line: &[u8]) -> u64
        ensures number { result ≡ number_by self.now line.now }
        ensures key { FirstKey self.now.separator self.now.keys.items line.now }
    {
        match self.keys.as_slice() {
            [] => 0,
            [key, ..] => number_of_key(self.separator, key, line),
        }
    }
}

/// The keys behind the first.
fn behind_first_key(keys: &[Key]) -> &[Key]
    ensures { result.now ≡ drop 1 keys.now }
{
    match keys {
        [] => keys,
        [_, others @ ..] => others,
    }
}

/// The letters of the first key; none where there is no key.
fn first_letters(keys: &[Key]) -> Letters
    ensures { result ≡ first_letters_def keys.now }
{
    match keys {
        [] => Letters {
            blanks: false,
            fold: false,
            numeric: false,
            reverse: false,
        },
        [key, ..] => letters_of(key),
    }
}

/// Whether the first key is the line as it stands.
fn begins_whole(keys: &[Key]) -> bool
    ensures { result ≡ begins_whole_def keys.now }
{
    match keys {
        [] => false,
        [key, ..] => is_whole_key(key),
    }
}

/// Whether a key is the line as it stands.
fn is_whole_key(key: &Key) -> bool
    ensures { result ≡ is_whole_key_def key.now }
{
    let start = key.start;
    start.field == 1
        && start.byte == 1
        && !start.letters.blanks
        && key.end.is_none()
        && !start.letters.fold
        && !start.letters.numeric
}

/// The keys with the letters that count for them, or the whole line where there are none.
fn keys_in_force(alloc: Global, global: Letters, keys: &[Key]) -> Result<Vec<Key>, Memory>
    ensures { IfOk result (λ found. found.items ≡ keys_in_force_def global keys.now) }
{
    if keys.is_empty() {
        return Ok(Vec::from_slice(alloc, &[whole_line(global)])?);
    }
    each_with_global(alloc, global, keys)
}

/// Each of the keys with the letters that count for it.
fn each_with_global(alloc: Global, global: Letters, keys: &[Key]) -> Result<Vec<Key>, Memory>
    ensures { IfOk result (λ found. found.items ≡ map (with_global_def global) keys.now) }
{
    let mut found = Vec::new(alloc);
    for key in keys {
        found.push(with_global(global, key))?;
    }
    Ok(found)
}
