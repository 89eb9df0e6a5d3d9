//! JSON values read by themselves.
ghost use Rattle.std.specs.Prelude.{◌≡◌, option_and_then, option_map, IfOk};
ghost use Rattle.std.specs.Str.{chars};
ghost use Rattle.serde_json.specs.Find.{as_array, as_bool, as_object};
ghost use Rattle.serde_json.specs.View.{items_view, members_view, view};
ghost use Rattle.fl_text.specs.Inner.Drafts.{all_in, byte_of, bytes_in, bytes_of, count_of, each_of, name_in, narrowed, optional, path_in, required, where_it_is};
ghost use Rattle.fl_text.specs.Values.{is_byte, is_count};

use crate::names::Name;
use fl_graph::Seq;
use ps_lines::{Memory, Text};
use ps_world::Path;
use serde_json::{Map, Value};
use std::alloc::Global;
use std::mem;
use ut_options::Texts;

/// A whole number below 2^32.
pub fn read_count(value: &Value) -> Option<u32>
    ensures { result ≡ count_of (view value.now) }
{
    match value.as_u64() {
        Some(count) => narrow_count(count),
        None => None,
    }
}

/// A number below 2^32.
fn narrow_count(count: u64) -> Option<u32>
    ensures { result ≡ where_it_is is_count count }
{
    if count < 0x1_0000_0000 {
        Some(count as u32)
    } else {
        None
    }
}

/// A whole number below 256.
pub fn read_byte(value: &Value) -> Option<u8>
    ensures { result ≡ byte_of (view value.now) }
{
    match value.as_u64() {
        Some(count) => narrow_byte(count),
        None => None,
    }
}

/// A number below 256.
fn narrow_byte(count: u64) -> Option<u8>
    ensures { result ≡ where_it_is is_byte count }
{
    if count < 256 { Some(count as u8) } else { None }
}

/// A whole number below 2^32 that has to be there.
pub fn read_count_at(value: &Option<Value>) -> Option<u32>
    ensures { result ≡ required count_of (option_map view value.now) }
{
    match value {
        Some(value) => read_count(value),
        None => None,
    }
}

/// A whole number below 256 that has to be there.
pub fn read_byte_at(value: &Option<Value>) -> Option<u8>
    ensures { result ≡ required byte_of (option_map view value.now) }
{
    match value {
        Some(value) => read_byte(value),
        None => None,
    }
}

/// Whole numbers below 2^32 that have to be there.
pub fn read_counts_at(alloc: Global, value: &Option<Value>) -> Result<Option<Seq<u32>>, Memory>
    ensures { IfOk result (λ counts. counts ≡ required (all_in count_of) (option_map view value.now)) }
{
    match value {
        Some(value) => read_counts(alloc, value),
        None => Ok(None),
    }
}

/// Whole numbers below 2^32.
fn read_counts(alloc: Global, value: &Value) -> Result<Option<Seq<u32>>, Memory>
    ensures { IfOk result (λ counts. counts ≡ all_in count_of (view value.now)) }
{
    match value.as_array() {
        Some(values) => read_each_count(alloc, values.as_slice()),
        None => Ok(None),
    }
}

/// The whole numbers that these values are.
#[tactic(auto, using(crate::proofs::ReadLemmas::one_by_one))]
fn read_each_count(alloc: Global, values: &[Value]) -> Result<Option<Seq<u32>>, Memory>
    ensures { IfOk result (λ counts. counts ≡ each_of count_of (items_view values.now)) }
{
    let mut counts = Vec::new(alloc);
    for value in values {
        let Some(count) = read_count(value) else {
            return Ok(None);
        };
        counts.push(count)?;
    }
    Ok(Some(Seq::from_vec(counts)))
}

/// The bytes that a string's characters stand for.
fn read_bytes(alloc: Global, value: &Value) -> Result<Option<Text>, Memory>
    ensures { IfOk result (λ bytes. bytes ≡ bytes_of (view value.now)) }
{
    match value.as_str() {
        Some(text) => narrow(alloc, text),
        None => Ok(None),
    }
}

/// The bytes that a text's characters stand for, each below U+0100.
#[tactic(auto, using(crate::proofs::ReadLemmas::by_characters))]
fn narrow(alloc: Global, text: &str) -> Result<Option<Text>, Memory>
    ensures { IfOk result (λ bytes. bytes ≡ bytes_in text.now) }
{
    let characters = characters_of(alloc, text)?;
    narrow_each(alloc, characters.as_slice())
}

/// A text's characters.
fn characters_of(alloc: Global, text: &str) -> Result<Vec<char>, Memory>
    ensures { IfOk result (λ characters. characters.items ≡ chars text.now) }
{
    Ok(text.chars().collect(alloc)?)
}

/// The bytes that these characters stand for.
fn narrow_each(alloc: Global, characters: &[char]) -> Result<Option<Text>, Memory>
    ensures { IfOk result (λ bytes. bytes ≡ narrowed characters.now) }
{
    let mut bytes = Vec::with_capacity(alloc, characters.len())?;
    for character in characters {
        let number = *character as u32;
        if number >= 256 {
            return Ok(None);
        }
        bytes.push(number as u8)?;
    }
    Ok(Some(Text::from_vec(bytes)))
}

/// The members of an object, taken out of it.
pub fn take_members(alloc: Global, value: Value) -> Option<Map<String, Value>>
    ensures { option_map (λ members. members_view members.entries) result ≡ as_object (view value) }
{
    let mut whole = value;
    match whole.as_object_mut() {
        Some(members) => Some(mem::replace(members, Map::new(alloc))),
        None => None,
    }
}

/// The items of an array, taken out of it.
pub fn take_items(alloc: Global, value: Value) -> Option<Vec<Value>>
    ensures { option_map (λ items. items_view items.items) result ≡ as_array (view value) }
{
    let mut whole = value;
    match whole.as_array_mut() {
        Some(items) => Some(mem::replace(items, Vec::new(alloc))),
        None => None,
    }
}

/// The kind that a string names.
pub fn read_name_at(alloc: Global, value: &Option<Value>) -> Result<Option<Name>, Memory>
    ensures { IfOk result (λ name. name ≡ required name_in (option_map view value.now)) }
{
    match value {
        Some(value) => read_name(alloc, value),
        None => Ok(None),
    }
}

/// The kind that a string names.
fn read_name(alloc: Global, value: &Value) -> Result<Option<Name>, Memory>
    ensures { IfOk result (λ name. name ≡ name_in (view value.now)) }
{
    match read_bytes(alloc, value)? {
        Some(text) => Ok(Name::named(text.as_slice())),
        None => Ok(None),
    }
}

/// True or false, where it is there.
pub fn read_switch_at(value: &Option<Value>) -> Option<Option<bool>>
    ensures { result ≡ optional as_bool (option_map view value.now) }
{
    match value {
        Some(value) => match value.as_bool() {
            Some(is) => Some(Some(is)),
            None => None,
        },
        None => Some(None),
    }
}

/// A path, where it is there.
pub fn read_path_at(alloc: Global, value: &Option<Value>) -> Result<Option<Option<Path>>, Memory>
    ensures { IfOk result (λ path. path ≡ optional path_in (option_map view value.now)) }
{
    match value {
        Some(value) => match read_path(alloc, value)? {
            Some(path) => Ok(Some(Some(path))),
            None => Ok(None),
        },
        None => Ok(Some(None)),
    }
}

/// The path that a string spells.
fn read_path(alloc: Global, value: &Value) -> Result<Option<Path>, Memory>
    ensures { IfOk result (λ path. path ≡ path_in (view value.now)) }
{
    match read_bytes(alloc, value)? {
        Some(text) => Ok(Path::read(alloc, text.as_slice())?),
        None => Ok(None),
    }
}

/// A list of bytes, where it is there.
pub fn read_text_at(alloc: Global, value: &Option<Value>) -> Result<Option<Option<Text>>, Memory>
    ensures { IfOk result (λ text. text ≡ optional bytes_of (option_map view value.now)) }
{
    match value {
        Some(value) => match read_bytes(alloc, value)? {
            Some(text) => Ok(Some(Some(text))),
            None => Ok(None),
        },
        None => Ok(Some(None)),
    }
}

/// Lists of bytes, where they are there.
pub fn read_words_at(alloc: Global, value: &Option<Value>) -> Result<Option<Option<Texts>>, Memory>
    ensures { IfOk result (λ words. words ≡ optional (all_in bytes_of) (option_map view value.now)) }
{
    match value {
        Some(value) => match read_words(alloc, value)? {
            Some(words) => Ok(Some(Some(words))),
            None => Ok(None),
        },
        None => Ok(Some(None)),
    }
}

/// Lists of bytes.
fn read_words(alloc: Global, value: &Value) -> Result<Option<Texts>, Memory>
    ensures { IfOk result (λ words. words ≡ all_in bytes_of (view value.now)) }
{
    match value.as_array() {
        Some(values) => read_each_word(alloc, values.as_slice()),
        None => Ok(None),
    }
}

/// The lists of bytes that these values are.
#[tactic(auto, using(crate::proofs::ReadLemmas::one_by_one))]
fn read_each_word(alloc: Global, values: &[Value]) -> Result<Option<Texts>, Memory>
    ensures { IfOk result (λ words. words ≡ each_of bytes_of (items_view values.now)) }
{
    let mut words = Texts::new(alloc);
    for value in values {
        let Some(word) = read_bytes(alloc, value)? else {
            return Ok(None);
        };
        words.push(alloc, word.as_slice())?;
    }
    Ok(Some(words))
}
