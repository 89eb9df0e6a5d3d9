//! The calls that are timed.
ghost use Rattle.std.specs.Prelude.{◌≡◌, ◌==◌, count_by};

use ps_lines::{NEWLINE, next_line};

/// A call that can be timed.
#[derive(Clone, Copy, Debug, PartialEq, Eq)]
pub enum Call {
    /// `next_line` from line to line of a text.
    NextLine,
    /// `lines` of a whole text.
    Lines,
    /// `read_all` of an opened file.
    ReadAll,
    /// `lex` of a whole script.
    Lex,
    /// `Matcher::first_having` of an expression from line to line, over the pieces of a file.
    Has,
    /// `arith` of a text, a million times over the same variables, of which `i` is 41 at first.
    Arith,
    /// `matches` of each line of a text against `*a*b*c*`.
    Matches,
    /// `expand` of the word `$x`, of which a whole text is the value.
    Expand,
    /// `expand` of 4,000 words `$x`, of which a whole text is the value.
    ExpandMany,
    /// `expand_one` of the word `${x##*/}`, of which `x` is a whole text.
    CutPrefix,
    /// `expand_one` of the word `${x%%*[! ]}`, of which `x` is a whole text.
    CutSuffix,
    /// `parse` of a whole script.
    Parse,
    /// The stream of `grep -F` with a word, over the pieces of a file.
    Grep,
    /// The stream of `wc -l`, over the pieces of a file.
    Wc,
    /// The stream of an invocation of `grep`, `tr`, `cut`, `head` or `tail` with one input, over the pieces of a file.
    Stream,
    /// The stream of `sort` with options, over the pieces of a file.
    Sort,
}

impl Call {
    /// The call of this name.
    pub fn named(name: &str) -> Option<Call> {
        match name {
            "next_line" => Some(Call::NextLine),
            "lines" => Some(Call::Lines),
            "read_all" => Some(Call::ReadAll),
            "lex" => Some(Call::Lex),
            "has" => Some(Call::Has),
            "arith" => Some(Call::Arith),
            "matches" => Some(Call::Matches),
            "expand" => Some(Call::Expand),
            "expand_many" => Some(Call::ExpandMany),
            "cut_prefix" => Some(Call::CutPrefix),
            "cut_suffix" => Some(Call::CutSuffix),
            "parse" => Some(Call::Parse),
            "grep" => Some(Call::Grep),
            "wc" => Some(Call::Wc),
            "stream" => Some(Call::Stream),
            "sort" => Some(Call::Sort),
            _ => None,
        }
    }
}

/// The newlines of the text, by one call of `next_line` each.
#[tactic(auto, using(crate::proofs::CountLemmas::newline_steps))]
pub fn count_newlines(text: &[u8]) -> usize
    ensures { result ≡ count_by (λ byte. byte == NEWLINE) text.now }
{
    let mut count = 0;
    let mut from = 0;
    while let Some(next) = next_line(text, from) {
        count += 1;
        from = next;
    }
    count
}
