//! Words to fields.

ghost use Rattle.std.specs.Prelude.{◌≡◌, ◌++◌, ◌∷◌, [], ◌<◌, ◌≤◌, false, map, length, IfErr, IfOk, OnOk, IfSome, IsErrOf, MatchOption};
ghost use Rattle.std.specs.List.{list_any};
ghost use Rattle.ps_lines.specs.Texts.{texts_of};
ghost use Rattle.ps_world.specs.Counts.{Counts};
ghost use Rattle.sh_arith.specs.Variables.{Variables};
ghost use Rattle.sh_pattern.specs.PathExpansion.{Expands};
ghost use Rattle.sh_tree.specs.Views.{word_tree};
ghost use Rattle.sh_expand.specs.Marks.{bare as bare_def, has_pattern as has_pattern_def, pattern_of as pattern_of_def};
ghost use Rattle.sh_expand.specs.Splitting.{split as split_def, fields_of};
ghost use Rattle.sh_expand.specs.Given.{given_of};
ghost use Rattle.sh_expand.specs.Fields.{HasMarks, HasSomeMarks, AreNames, AreFields, WordFields, Pass, PatternIn, WordStops, Stop, IsOfWords, IsOfWordsOrTree, IsPlain, Sees, TooMany, Asks, Appends, AppendsUpTo, outside as outside_def};
ghost use Rattle.ps_world.specs.Files.{Files};
ghost use Rattle.ps_world.specs.Paths.{Components};
ghost use Rattle.sh_expand.specs.Frames.{frame_given};
ghost use Rattle.sh_expand.specs.Outcomes.{Expansions, AreExpansions, Tells, told_of, told_fields};

use crate::faults::{ExpandFault, told};
use crate::frames::{Frame, known_of};
use crate::known::Known;
use crate::marks::{Marked, bare, has_pattern as is_pattern_among, pattern_of};
use crate::parameters::Setting;
use crate::separators::ifs_of;
use crate::splitting::{is_pattern_left, split};
use crate::values::add_word;
use ps_lines::Memory;
use ps_world::{Tree, WorldErr};
use sh_arith::Env;
use sh_pattern::expand_paths;
use sh_tree::Word;
use std::alloc::Global;

/// The most fields of one expansion.
pub const MAX_FIELDS: usize = 65_536;

/// Whether an unquoted `*`, `?` or `[`, written or from an expansion, is left in some word before path expansion.
///
/// The variables are left as `expand` leaves them, and the faults are those that it tells of the words. So but for want of memory it
/// tells the one outcome of this question.
#[tactic(auto, using(crate::proofs::OutcomeLemmas::pattern_tells))]
pub fn has_pattern(
    alloc: Global,
    words: &[Word],
    frame: &mut Frame<'_>,
) -> Result<bool, ExpandFault>
    ensures found { IfOk result (λ found. PatternIn (frame_given frame.old) frame.old.env.now (map word_tree words.now) found frame.new.env.now) }
    ensures fault { IfErr result (λ fault. Stop (frame_given frame.old) frame.old.env.now (map word_tree words.now) fault frame.new.env.now) }
    ensures of_words { IfErr result IsOfWords }
    ensures told { (expansions : Expansions) → AreExpansions expansions → Tells (λ found. found) (told_of (expansions.pattern (frame_given frame.old) frame.old.env.now (map word_tree words.now))) result frame.new.env.now }
    ensures same { frame_given frame.new ≡ frame_given frame.old }
    ensures same_reference { frame.new.env.ghost_name ≡ frame.old.env.ghost_name }
{
    let known = known_of(frame);
    pattern_in_words(alloc, words, &known, frame.env)
}

/// The same, over what is known and the variables.
fn pattern_in_words(
    alloc: Global,
    words: &[Word],
    known: &Known<'_>,
    env: &mut Env,
) -> Result<bool, ExpandFault>
    ensures found { IfOk result (λ found. PatternIn (given_of known.now) env.old (map word_tree words.now) found env.new) }
    ensures fault { IfErr result (λ fault. Stop (given_of known.now) env.old (map word_tree words.now) fault env.new) }
    ensures of_words { IfErr result IsOfWords }
{
    let mut found = false;
    for word in words {
        match marks_of_word(alloc, word, known, env) {
            Ok(marks) => found |= is_pattern_left(marks.as_slice(), ifs_of(env)),
            Err(fault) => return Err(fault),
        }
    }
    Ok(found)
}

/// The marks of a word.
#[tactic(auto, using(crate::proofs::FieldLemmas::texts))]
fn marks_of_word(
    alloc: Global,
    word: &Word,
    known: &Known<'_>,
    env: &mut Env,
) -> Result<Vec<Marked>, ExpandFault>
    ensures marks { IfOk result (λ marks. HasMarks (given_of known.now) env.old (word_tree word.now) marks.items env.new) }
    ensures fault { IfErr result (λ fault. WordStops (given_of known.now) env.old (word_tree word.now) fault env.new) }
    ensures of_words { IfErr result IsOfWords }
{
    let mut marks = Vec::new(alloc);
    match add_word(alloc, word, Setting::Outer, known, env, &mut marks) {
        Ok(()) => Ok(marks),
        Err(fault) => Err(told(fault)),
    }
}

/// Expands words to fields (XCU 2.6): parameters, command substitutions and arithmetic, then field splitting, path expansion and quote
/// removal, word by word from the left.
///
/// Unset and Arith are told for the first part that has such a fault. ArgsTooMany is told where there are more than MAX_FIELDS fields,
/// and neither of these faults; fields above that number are neither made nor kept. Failed is told where the tree failed, and nothing
/// else is told there. After a fault the variables have what was assigned before it.
///
/// Names are those in the files that the tree tells. Where `has_pattern` is false of the words they are the same in all files, whatever
/// the tree tells, and it stays as it was.
pub fn expand<T: Tree>(
    alloc: Global,
    words: &[Word],
    frame: &mut Frame<'_>,
    tree: &mut T,
) -> Result<Vec<Vec<u8>>, ExpandFault>
    ensures fields { (files : Files) (home : Components) → Sees (T.state tree.old) (IsPlain (frame_given frame.old) frame.old.env.now (map word_tree words.now)) files home
        → IfOk result (λ fields. AreFields files home (frame_given frame.old) frame.old.env.now (map word_tree words.now) (texts_of fields.items) frame.new.env.now) }
    ensures passed { OnOk result (Pass (frame_given frame.old) frame.old.env.now (map word_tree words.now) frame.new.env.now) }
    ensures few { IfOk result (λ fields. length fields.items ≤ MAX_FIELDS) }
    ensures many { (files : Files) (home : Components) → Sees (T.state tree.old) (IsPlain (frame_given frame.old) frame.old.env.now (map word_tree words.now)) files home
        → IsErrOf result ExpandFault.ArgsTooMany → TooMany MAX_FIELDS (λ fields. AreFields files home (frame_given frame.old) frame.old.env.now (map word_tree words.now) fields frame.new.env.now) }
    ensures fault { IfErr result (λ fault. Stop (frame_given frame.old) frame.old.env.now (map word_tree words.now) fault frame.new.env.now) }
    ensures told { (expansions : Expansions) → AreExpansions expansions → (files : Files) (home : Components) → Sees (T.state tree.old) (IsPlain (frame_given frame.old) frame.old.env.now (map word_tree words.now)) files home
        → Tells (λ fields. texts_of fields.items) (told_fields (expansions.fields files home (frame_given frame.old) frame.old.env.now (map word_tree words.now))) result frame.new.env.now }
    ensures unasked { IsPlain (frame_given frame.old) frame.old.env.now (map word_tree words.now) → tree.new ≡ tree.old }
    ensures state { T.state tree.new ≡ T.state tree.old }
    ensures cause { Asks (T.faults tree.old) (T.faults tree.new) result }
    ensures same { frame_given frame.new ≡ frame_given frame.old }
    ensures same_reference { frame.new.env.ghost_name ≡ frame.old.env.ghost_name }
{
    let known = known_of(frame);
    fields_of_words(alloc, words, &known, frame.env, tree)
}

/// The same, over what is known and the variables.
fn fields_of_words<T: Tree>(
    alloc: Global,
    words: &[Word],
    known: &Known<'_>,
    env: &mut Env,
    tree: &mut T,
) -> Result<Vec<Vec<u8>>, ExpandFault>
    ensures fields { (files : Files) (home : Components) → Sees (T.state tree.old) (IsPlain (given_of known.now) env.old (map word_tree words.now)) files home
        → IfOk result (λ fields. AreFields files home (given_of known.now) env.old (map word_tree words.now) (texts_of fields.items) env.new) }
    ensures passed { OnOk result (Pass (given_of known.now) env.old (map word_tree words.now) env.new) }
    ensures few { IfOk result (λ fields. length fields.items ≤ MAX_FIELDS) }
    ensures many { (files : Files) (home : Components) → Sees (T.state tree.old) (IsPlain (given_of known.now) env.old (map word_tree words.now)) files home
        → IsErrOf result ExpandFault.ArgsTooMany → TooMany MAX_FIELDS (λ fields. AreFields files home (given_of known.now) env.old (map word_tree words.now) fields env.new) }
    ensures fault { IfErr result (λ fault. Stop (given_of known.now) env.old (map word_tree words.now) fault env.new) }
    ensures unasked { IsPlain (given_of known.now) env.old (map word_tree words.now) → tree.new ≡ tree.old }
    ensures state { T.state tree.new ≡ T.state tree.old }
    ensures cause { Asks (T.faults tree.old) (T.faults tree.new) result }
{
    let mut fields = Vec::new(alloc);
    let mut left = words;
    while let Some((word, rest)) = left.split_first() {
        match add_word_fields(alloc, word, known, env, tree, &mut fields) {
            Ok(()) => {}
            Err(fault) => return Err(fault),
        }
        if fields.len() > MAX_FIELDS {
            return Err(fault_behind(alloc, rest, known, env));
        }
        left = rest;
    }
    Ok(fields)
}

/// What is told where the words before these have too many fields: the first fault of these, else that.
fn fault_behind(alloc: Global, words: &[Word], known: &Known<'_>, env: &mut Env) -> ExpandFault
    ensures fault { Stop (given_of known.now) env.old (map word_tree words.now) result env.new }
    ensures not_failed { result ≡ ExpandFault.Failed → ⊥ }
{
    for word in words {
        match marks_of_word(alloc, word, known, env) {
            Ok(_) => {}
            Err(fault) => return fault,
        }
    }
    ExpandFault::ArgsTooMany
}

/// Appends the fields of a word, or the first of them, where these are too many.
#[tactic(auto, using(crate::proofs::FieldLemmas::names))]
fn add_word_fields<T: Tree>(
    alloc: Global,
    word: &Word,
    known: &Known<'_>,
    env: &mut Env,
    tree: &mut T,
    out: &mut Vec<Vec<u8>>,
) -> Result<(), ExpandFault>
    ensures fields { (files : Files) (home : Components) → Sees (T.state tree.old) (IsPlain (given_of known.now) env.old (word_tree word.now ∷ [])) files home
        → OnOk result (AppendsUpTo MAX_FIELDS (λ names. WordFields files home (given_of known.now) env.old (word_tree word.now) names env.new) (texts_of out.old.items) (texts_of out.new.items)) }
    ensures passed { OnOk result (HasSomeMarks (given_of known.now) env.old (word_tree word.now) env.new) }
    ensures fault { IfErr result (λ fault. WordStops (given_of known.now) env.old (word_tree word.now) fault env.new) }
    ensures not_many { IfErr result IsOfWordsOrTree }
    ensures unasked { IsPlain (given_of known.now) env.old (word_tree word.now ∷ []) → tree.new ≡ tree.old }
    ensures state { T.state tree.new ≡ T.state tree.old }
    ensures cause { Asks (T.faults tree.old) (T.faults tree.new) result }
{
    match marks_of_word(alloc, word, known, env) {
        Ok(marks) => match add_fields(alloc, marks.as_slice(), ifs_of(env), tree, out) {
            Ok(()) => Ok(()),
            Err(fault) => Err(outside(fault)),
        },
        Err(fault) => Err(fault),
    }
}

/// The fault of the tree, or want of memory.
fn outside(fault: WorldErr) -> ExpandFault
    ensures { result ≡ outside_def fault }
{
    match fault {
        WorldErr::Failed => ExpandFault::Failed,
        WorldErr::Memory => ExpandFault::Memory,
    }
}

/// Appends the fields that these marks are cut into, each with its names, or the first of them, where these are too many.
fn add_fields<T: Tree>(
    alloc: Global,
    marks: &[Marked],
    ifs: &[u8],
    tree: &mut T,
    out: &mut Vec<Vec<u8>>,
) -> Result<(), WorldErr>
    ensures names { (files : Files) (home : Components) → Sees (T.state tree.old) (list_any has_pattern_def (split_def ifs.now marks.now) ≡ false) files home
        → OnOk result (AppendsUpTo MAX_FIELDS (AreNames files home (split_def ifs.now marks.now)) (texts_of out.old.items) (texts_of out.new.items)) }
    ensures unasked { list_any has_pattern_def (split_def ifs.now marks.now) ≡ false → tree.new ≡ tree.old }
    ensures state { T.state tree.new ≡ T.state tree.old }
    ensures cause { Counts (T.faults tree.old) (T.faults tree.new) result }
{
    let fields = split(alloc, marks, ifs, MAX_FIELDS)?;
    add_all_names(alloc, fields.as_slice(), tree, out)
}

/// Appends the names of the fields, or the first of them, where these are too many.
fn add_all_names<T: Tree>(
    alloc: Global,
    fields: &[Vec<Marked>],
    tree: &mut T,
    out: &mut Vec<Vec<u8>>,
) -> Result<(), WorldErr>
    ensures names { (files : Files) (home : Components) → Sees (T.state tree.old) (list_any has_pattern_def (fields_of fields.now) ≡ false) files home
        → OnOk result (AppendsUpTo MAX_FIELDS (AreNames files home (fields_of fields.now)) (texts_of out.old.items) (texts_of out.new.items)) }
    ensures unasked { list_any has_pattern_def (fields_of fields.now) ≡ false → tree.new ≡ tree.old }
    ensures state { T.state tree.new ≡ T.state tree.old }
    ensures cause { Counts (T.faults tree.old) (T.faults tree.new) result }
{
    let mut left = fields;
    while let Some((field, rest)) = front(left) {
        add_names(alloc, field, tree, out)?;
        if out.len() > MAX_FIELDS {
            return Ok(());
        }
        left = rest;
    }
    Ok(())
}

/// The first field, and the others.
fn front(fields: &[Vec<Marked>]) -> Option<(&[Marked], &[Vec<Marked>])>
    ensures first { MatchOption result (fields.now ≡ []) (λ r. fields_of fields.now ≡ r.0.now ∷ fields_of r.1.now) }
    ensures shorter { IfSome result (λ r. length r.1.now < length fields.now) }
{
    match fields {
        [] => None,
        [first, rest @ ..] => Some((first.as_slice(), rest)),
    }
}

/// Appends the names of a field, which is its text where it has no pattern in it.
#[tactic(auto, using(crate::proofs::FieldLemmas::names))]
fn add_names<T: Tree>(
    alloc: Global,
    field: &[Marked],
    tree: &mut T,
    out: &mut Vec<Vec<u8>>,
) -> Result<(), WorldErr>
    ensures names { (files : Files) (home : Components) → Sees (T.state tree.old) (has_pattern_def field.now ≡ false) files home
        → OnOk result (Appends (Expands files home (pattern_of_def field.now)) (texts_of out.old.items) (texts_of out.new.items)) }
    ensures unasked { has_pattern_def field.now ≡ false → tree.new ≡ tree.old }
    ensures state { T.state tree.new ≡ T.state tree.old }
    ensures cause { Counts (T.faults tree.old) (T.faults tree.new) result }
{
    if !is_pattern_among(field) {
        return Ok(add_bare(alloc, field, out)?);
    }
    let pattern = pattern_of(alloc, field)?;
    let names = expand_paths(alloc, tree, pattern.as_slice())?;
    Ok(append(names, out)?)
}

/// Appends a field without its marks.
#[tactic(auto, using(crate::proofs::FieldLemmas::names))]
fn add_bare(alloc: Global, field: &[Marked], out: &mut Vec<Vec<u8>>) -> Result<(), Memory>
    ensures { OnOk result (texts_of out.new.items ≡ texts_of out.old.items ++ bare_def field.now ∷ []) }
{
    let text = bare(alloc, field)?;
    Ok(out.push(text)?)
}

/// Appends the names.
fn append(names: Vec<Vec<u8>>, out: &mut Vec<Vec<u8>>) -> Result<(), Memory>
    ensures { OnOk result (texts_of out.new.items ≡ texts_of out.old.items ++ texts_of names.items) }
{
    for name in names {
        out.push(name)?;
    }
    Ok(())
}
