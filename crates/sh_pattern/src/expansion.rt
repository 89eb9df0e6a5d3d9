//! Pathname expansion (XCU 2.13.3): the files for which a marked text stands.

ghost use Rattle.std.specs.Prelude.{◌≡◌, ◌∷◌, [], ◌↔◌, ◌++◌, ◌<◌, List, ℕ, length, true, false, IsTrue, Err, IfOk, IfSome, IfNone, OnOk, OnErr, position, map};
ghost use Rattle.std.specs.List.{list_any, slice_split, list_all};
ghost use Rattle.std.specs.List.Sorted.{IsStrictlySortedBy};
ghost use Rattle.std.specs.Ordering.{nat_cmp};
ghost use Rattle.std.specs.Cmp.Lexicographic.{slice_cmp};
ghost use Rattle.ps_lines.specs.Texts.{texts_of as texts_of_def};
ghost use Rattle.ps_world.specs.Counts.{Counts};
ghost use Rattle.ps_world.specs.Paths.{goes_up, has_slash, is_name, stays};
ghost use Rattle.ps_world.specs.Places.{start_of as start_of_def};
ghost use Rattle.ps_world.specs.Files.{kind_at};
ghost use Rattle.sh_pattern.specs.declared.elements.Element.{Element};
ghost use Rattle.sh_pattern.specs.Reading.{Reads, is_special as is_special_def};
ghost use Rattle.sh_pattern.specs.PathExpansion.{bytes_of as bytes_of_def, begins_with_period as begins_with_period_def, components_of, has_special as has_special_def, HasNoSlash, is_slash_mark, place_in as place_in_def, AreNamed, Expands, FitsComponent, IsAmong, Names};
ghost use Rattle.sh_pattern.specs.Finding.{Adds, IsFound, IsText, Follows, FollowsAll, AddsFitting, GoesOn};

use crate::elements::Pattern;
use crate::marks::{Mark, is_unquoted};
use crate::matching::matches;
use crate::reading::read_pattern;
use ps_world::{Kind, Path, Tree, WorldErr};
use std::alloc::{AllocError, Global};

const SLASH: &[u8] = b"/";

const CURRENT: &[u8] = b".";

const PARENT: &[u8] = b"..";

/// Expands the paths for which a marked text stands, in the order of their bytes.
///
/// The text is cut at its slashes, quoted or not. A component with an unquoted `*`, `?` or `[` stands for each name in its directory
/// that fits it; a period that begins a name fits only one that begins the component, so `.` and `..` are never found. The other
/// components stand for themselves, and every slash stays as it is written. Where nothing is found, and where no component has such a
/// byte, the answer is the text without its marks; then nothing was looked up.
#[tactic(auto, using(crate::proofs::ExpansionLemmas::expanded))]
pub fn expand_paths<T: Tree>(
    alloc: Global,
    tree: &mut T,
    text: &[Mark],
) -> Result<Vec<Vec<u8>>, WorldErr>
    ensures names { IfOk result (λ names. IfSome (T.state tree.old).held (λ files.
        Expands files (T.state tree.old).home text.now (texts_of_def names.items))) }
    ensures plain { has_special_def text.now ≡ false → IfOk result (λ names. texts_of_def names.items ≡ bytes_of_def text.now ∷ []) }
    ensures unasked { has_special_def text.now ≡ false → tree.new ≡ tree.old }
    ensures state { T.state tree.new ≡ T.state tree.old }
    ensures cause { Counts (T.faults tree.old) (T.faults tree.new) result }
{
    if !has_special(text) {
        return itself(alloc, text);
    }
    let names = find_names(alloc, tree, text)?;
    if names.is_empty() {
        return itself(alloc, text);
    }
    Ok(names)
}

/// The text without its marks, alone.
fn itself(alloc: Global, text: &[Mark]) -> Result<Vec<Vec<u8>>, WorldErr>
    ensures names { IfOk result (λ names. texts_of_def names.items ≡ bytes_of_def text.now ∷ []) }
    ensures memory { OnErr result (result ≡ Err WorldErr.Memory) }
{
    let mut names = Vec::new(alloc);
    names.push(bytes_of(alloc, text)?)?;
    Ok(names)
}

/// The bytes of a marked text.
fn bytes_of(alloc: Global, text: &[Mark]) -> Result<Vec<u8>, AllocError>
    ensures { IfOk result (λ bytes. bytes.items ≡ bytes_of_def text.now) }
{
    let mut bytes = Vec::with_capacity(alloc, text.len())?;
    for mark in text {
        bytes.push(mark.byte)?;
    }
    Ok(bytes)
}

/// Whether an unquoted `*`, `?` or `[` stands in the text.
fn has_special(text: &[Mark]) -> bool
    ensures { result ≡ has_special_def text.now }
{
    text.iter().any(|mark| is_special(*mark))
}

/// Whether the mark is an unquoted `*`, `?` or `[`.
fn is_special(mark: Mark) -> bool
    ensures { result ≡ is_special_def mark }
{
    is_unquoted(mark, b'*') || is_unquoted(mark, b'?') || is_unquoted(mark, b'[')
}

/// A place that was found, and its text: what the components so far stand for, as they spell it.
#[derive(Drop)]
struct Found {
    place: Path,
    text: Vec<u8>,
}

/// The texts of all that is there and for which the marked text stands, each once, in the order of their bytes.
fn find_names<T: Tree>(alloc: Global, tree: &mut T, text: &[Mark]) -> Result<Vec<Vec<u8>>, WorldErr>
    ensures names { IfOk result (λ names. IfSome (T.state tree.old).held (λ files.
        AreNamed files (T.state tree.old).home text.now (texts_of_def names.items))) }
    ensures state { T.state tree.new ≡ T.state tree.old }
    ensures cause { Counts (T.faults tree.old) (T.faults tree.new) result }
{
    let mut found = Vec::new(alloc);
    found.push(Found {
        place: start_of(alloc, tree, text)?,
        text: Vec::new(alloc),
    })?;
    let mut left = text;
    while let Some((component, rest)) = split_component(left) {
        found = follow_all(alloc, tree, found.as_slice(), component, SLASH)?;
        left = rest;
    }
    found = follow_all(alloc, tree, found.as_slice(), left, b"")?;
    Ok(sorted_texts(alloc, found)?)
}

/// Where the components of a text start.
fn start_of<T: Tree>(alloc: Global, tree: &T, text: &[Mark]) -> Result<Path, AllocError>
    ensures { IfOk result (λ start. start ≡ start_of_def (T.state tree.now).home (bytes_of_def text.now)) }
{
    match text {
        [first, ..] if first.byte == b'/' => Ok(Path::root(alloc)),
        _ => tree.home().copy(),
    }
}

/// The first component of a text and what comes after its slash; None where no slash is left.
fn split_component(text: &[Mark]) -> Option<(&[Mark], &[Mark])>
    ensures last { IfNone result ((components_of text.now ≡ text.now ∷ []) × HasNoSlash text.now) }
    ensures first { IfSome result (λ parts. components_of text.now ≡ parts.0.now ∷ components_of parts.1.now) }
    ensures part { IfSome result (λ parts. HasNoSlash parts.0.now) }
    ensures shorter { IfSome result (λ parts. length parts.1.now < length text.now) }
{
    match first_slash(text) {
        Some(end) => Some((&text[..end], &text[end + 1..])),
        None => None,
    }
}

/// The place of the first slash.
fn first_slash(text: &[Mark]) -> Option<usize>
    ensures value { result ≡ position is_slash_mark text.now }
    ensures within { IfSome result (λ place. place < length text.now) }
{
    text.iter().position(|mark| mark.byte == b'/')
}

/// What the component leads to from the places that were found; `ending` is put after it.
fn follow_all<T: Tree>(
    alloc: Global,
    tree: &mut T,
    from: &[Found],
    component: &[Mark],
    ending: &[u8],
) -> Result<Vec<Found>, WorldErr>
    requires part { HasNoSlash component.now }
    ensures found { IfOk result (λ found. IfSome (T.state tree.old).held (λ files.
        FollowsAll files from.now component.now ending.now found.items)) }
    ensures state { T.state tree.new ≡ T.state tree.old }
    ensures cause { Counts (T.faults tree.old) (T.faults tree.new) result }
{
    let mut found = Vec::new(alloc);
    for place in from {
        follow(alloc, tree, place, component, ending, &mut found)?;
    }
    Ok(found)
}

/// Adds to `found` what the component leads to from one place; `ending` is put after it.
#[tactic(auto, using(crate::proofs::ExpansionLemmas::no_directory))]
fn follow<T: Tree>(
    alloc: Global,
    tree: &mut T,
    from: &Found,
    component: &[Mark],
    ending: &[u8],
    found: &mut Vec<Found>,
) -> Result<(), WorldErr>
    requires part { HasNoSlash component.now }
    ensures found { OnOk result (IfSome (T.state tree.old).held (λ files.
        Follows files from.now component.now ending.now found.old.items found.new.items)) }
    ensures state { T.state tree.new ≡ T.state tree.old }
    ensures cause { Counts (T.faults tree.old) (T.faults tree.new) result }
{
    match tree.kind(&from.place)? {
        Kind::Dir => {
            if has_special(component) {
                follow_pattern(alloc, tree, from, component, ending, found)
            } else {
                follow_written(alloc, tree, from, component, ending, found)
            }
        }
        Kind::File | Kind::Missing => Ok(()),
    }
}

/// Adds to `found` what a component without pattern bytes leads to from a directory.
#[tactic(auto, using(crate::proofs::ExpansionLemmas::written))]
fn follow_written<T: Tree>(
    alloc: Global,
    tree: &mut T,
    from: &Found,
    component: &[Mark],
    ending: &[u8],
    found: &mut Vec<Found>,
) -> Result<(), WorldErr>
    requires part { HasNoSlash component.now }
    requires plain { has_special_def component.now ≡ false }
    requires directory { IfSome (T.state tree.old).held (λ files. kind_at files from.now.place ≡ Kind.Dir) }
    ensures found { OnOk result (IfSome (T.state tree.old).held (λ files.
        Follows files from.now component.now ending.now found.old.items found.new.items)) }
    ensures state { T.state tree.new ≡ T.state tree.old }
    ensures cause { Counts (T.faults tree.old) (T.faults tree.new) result }
{
    let name = bytes_of(alloc, component)?;
    match place_in(alloc, tree, &from.place, name.as_slice())? {
        Some(place) => Ok(add(alloc, found, place, from, name.as_slice(), ending)?),
        None => Ok(()),
    }
}

/// What a component without a slash names in a directory, where something is there.
fn place_in<T: Tree>(
    alloc: Global,
    tree: &mut T,
    dir: &Path,
    name: &[u8],
) -> Result<Option<Path>, WorldErr>
    requires part { has_slash name.now ≡ false }
    ensures place { IfOk result (λ place. IfSome (T.state tree.old).held (λ files. place ≡ place_in_def files dir.now name.now)) }
    ensures state { T.state tree.new ≡ T.state tree.old }
    ensures cause { Counts (T.faults tree.old) (T.faults tree.new) result }
{
    let mut place = dir.copy()?;
    if is_staying(name) {
        return Ok(Some(place));
    }
    if is_going_up(name) {
        place.pop();
        return Ok(Some(place));
    }
    place.push(alloc, name)?;
    match tree.kind(&place)? {
        Kind::Missing => Ok(None),
        Kind::File | Kind::Dir => Ok(Some(place)),
    }
}

/// Whether a component leaves the directory as it is: `.`, and the empty one.
#[tactic(auto, unfolding(ps_world::specs::Paths::stays))]
fn is_staying(component: &[u8]) -> bool
    ensures { result ≡ stays component.now }
{
    component.is_empty() || component == CURRENT
}

/// Whether a component leads to the parent: `..`.
#[tactic(auto, unfolding(ps_world::specs::Paths::goes_up))]
fn is_going_up(component: &[u8]) -> bool
    ensures { result ≡ goes_up component.now }
{
    component == PARENT
}

/// Adds to `found` a place, and its text: that of the place before it, this name, and what is put after it.
fn add(
    alloc: Global,
    found: &mut Vec<Found>,
    place: Path,
    from: &Found,
    name: &[u8],
    ending: &[u8],
) -> Result<(), AllocError>
    ensures added { OnOk result (Adds found.old.items found.new.items place (from.now.text.items ++ (name.now ++ ending.now))) }
{
    let text = spelled_after(alloc, from.text.as_slice(), name, ending)?;
    found.push(Found { place, text })?;
    Ok(())
}

/// A text, and after it a name and what is put after that.
fn spelled_after(
    alloc: Global,
    before: &[u8],
    name: &[u8],
    ending: &[u8],
) -> Result<Vec<u8>, AllocError>
    ensures { IfOk result (λ text. text.items ≡ before.now ++ (name.now ++ ending.now)) }
{
    let mut text = Vec::with_capacity(
        alloc,
        before
            .len()
            .saturating_add(name.len())
            .saturating_add(ending.len()),
    )?;
    text.extend_from_slice(before)?;
    text.extend_from_slice(name)?;
    text.extend_from_slice(ending)?;
    Ok(text)
}

/// Adds to `found` the names in a directory that fit a component with pattern bytes.
#[tactic(auto, using(crate::proofs::ExpansionLemmas::by_names))]
fn follow_pattern<T: Tree>(
    alloc: Global,
    tree: &mut T,
    from: &Found,
    component: &[Mark],
    ending: &[u8],
    found: &mut Vec<Found>,
) -> Result<(), WorldErr>
    requires special { has_special_def component.now ≡ true }
    requires directory { IfSome (T.state tree.old).held (λ files. kind_at files from.now.place ≡ Kind.Dir) }
    ensures found { OnOk result (IfSome (T.state tree.old).held (λ files.
        Follows files from.now component.now ending.now found.old.items found.new.items)) }
    ensures state { T.state tree.new ≡ T.state tree.old }
    ensures cause { Counts (T.faults tree.old) (T.faults tree.new) result }
{
    let names = tree.list(&from.place)?;
    add_fitting(alloc, names.as_slice(), from, component, ending, found)
}

/// Adds to `found` those of the names that fit a component.
fn add_fitting(
    alloc: Global,
    names: &[Vec<u8>],
    from: &Found,
    component: &[Mark],
    ending: &[u8],
    found: &mut Vec<Found>,
) -> Result<(), WorldErr>
    requires names { IsTrue (list_all is_name (texts_of_def names.now)) }
    ensures found { OnOk result (AddsFitting (texts_of_def names.now) from.now component.now ending.now found.old.items found.new.items) }
    ensures memory { OnErr result (result ≡ Err WorldErr.Memory) }
{
    let pattern = read_pattern(alloc, component)?;
    for name in names {
        add_if_fits(
            alloc,
            found,
            &pattern,
            from,
            component,
            name.as_slice(),
            ending,
        )?;
    }
    Ok(())
}

/// Adds to `found` a name in a directory, if it fits a component, which reads as this pattern.
#[tactic(auto, using(crate::proofs::ExpansionLemmas::one_by_one))]
fn add_if_fits(
    alloc: Global,
    found: &mut Vec<Found>,
    pattern: &Pattern,
    from: &Found,
    component: &[Mark],
    name: &[u8],
    ending: &[u8],
) -> Result<(), AllocError>
    requires read { Reads component.now pattern.now }
    requires only { (other : List Element) → Reads component.now other → other ≡ pattern.now }
    requires name { IsTrue (is_name name.now) }
    ensures found { OnOk result (AddsFitting (name.now ∷ []) from.now component.now ending.now found.old.items found.new.items) }
{
    if !fits(pattern, component, name) {
        return Ok(());
    }
    let place = place_below(alloc, &from.place, name)?;
    add(alloc, found, place, from, name, ending)
}

/// The place of a name in a directory.
fn place_below(alloc: Global, dir: &Path, name: &[u8]) -> Result<Path, AllocError>
    requires name { IsTrue (is_name name.now) }
    ensures place { IfOk result (λ place. place ≡ dir.now ++ name.now ∷ []) }
{
    let mut place = dir.copy()?;
    place.push(alloc, name)?;
    Ok(place)
}

/// Whether a name fits a component, which reads as this pattern.
#[tactic(auto, using(crate::proofs::ExpansionLemmas::fitting))]
fn fits(pattern: &Pattern, component: &[Mark], name: &[u8]) -> bool
    requires read { Reads component.now pattern.now }
    requires only { (other : List Element) → Reads component.now other → other ≡ pattern.now }
    ensures { IsTrue result ↔ FitsComponent component.now name.now }
{
    if begins_with_period(name) && !has_leading_period(component) {
        return false;
    }
    matches(pattern, name)
}

/// Whether the first byte is a period.
fn begins_with_period(name: &[u8]) -> bool
    ensures { result ≡ begins_with_period_def name.now }
{
    match name {
        [first, ..] => *first == b'.',
        [] => false,
    }
}

/// Whether the first byte is a period, quoted or not.
fn has_leading_period(text: &[Mark]) -> bool
    ensures { result ≡ begins_with_period_def (bytes_of_def text.now) }
{
    match text {
        [first, ..] => first.byte == b'.',
        [] => false,
    }
}

/// The texts of what was found, each once, in the order of their bytes.
#[tactic(auto, using(crate::proofs::ExpansionLemmas::ordered))]
fn sorted_texts(alloc: Global, found: Vec<Found>) -> Result<Vec<Vec<u8>>, AllocError>
    ensures texts { IfOk result (λ texts. (text : List ℕ) → IsAmong (texts_of_def texts.items) text ↔ IsText found.items text) }
    ensures sorted { IfOk result (λ texts. IsStrictlySortedBy (slice_cmp nat_cmp) (texts_of_def texts.items)) }
{
    let mut texts = texts_of(alloc, found)?;
    texts.sort()?;
    texts.dedup();
    Ok(texts)
}

/// The texts of what was found, in their order.
fn texts_of(alloc: Global, found: Vec<Found>) -> Result<Vec<Vec<u8>>, AllocError>
    ensures { IfOk result (λ texts. texts.items ≡ map (λ one. one.text) found.items) }
{
    let mut texts = Vec::with_capacity(alloc, found.len())?;
    for one in found {
        texts.push(one.text)?;
    }
    Ok(texts)
}
