//! Scripts, lists, pipelines and commands (XCU 2.9).
use crate::words::Word;
use ps_lines::Text;

/// A script: a list, or nothing.
#[derive(Debug, Drop)]
pub struct Script {
    /// The list.
    pub body: Option<List>,
}

/// A list: and-or lists that run one after another. Only that of an empty substitution has none.
#[derive(Debug, Drop)]
#[cycle(command)]
pub struct List {
    /// The and-or lists.
    pub items: Vec<AndOr>,
}

/// An and-or list: pipelines joined by `&&` and `||`, which have equal precedence and group to the left.
#[derive(Debug, Drop)]
#[cycle(command)]
pub struct AndOr {
    /// The first pipeline.
    pub first: Pipeline,
    /// The others, each with the operator before it.
    pub rest: Vec<(Join, Pipeline)>,
}

/// The operator between two pipelines.
#[derive(Clone, Copy, Debug, PartialEq, Eq)]
pub enum Join {
    /// `&&`
    And,
    /// `||`
    Or,
}

/// A pipeline of one command or more.
#[derive(Debug, Drop)]
#[cycle(command)]
pub struct Pipeline {
    /// Whether `!` stands before it.
    pub negated: bool,
    /// The commands, from the first.
    pub stages: Vec<Command>,
}

/// A command.
#[derive(Debug, Drop)]
#[cycle(command)]
pub enum Command {
    /// A simple command.
    Simple(Simple),
    /// `{ list }`
    Group(List, Tail),
    /// `( list )`
    Subshell(List, Tail),
    /// `if`: the conditions with their bodies, in order, and what stands behind `else`.
    If(Vec<(List, List)>, Option<List>, Tail),
    /// `while`: the condition and the body.
    While(List, List, Tail),
    /// `until`: the condition and the body.
    Until(List, List, Tail),
    /// `for`: the name, the words behind `in` where it is there, and the body.
    For(Text, Option<Words>, List, Tail),
}

/// A simple command (XCU 2.9.1).
#[derive(Debug, Drop)]
#[cycle(command)]
pub struct Simple {
    /// The assignments before its name.
    pub assigns: Vec<(Text, Word)>,
    /// Its name and arguments.
    pub words: Vec<Word>,
    /// Its redirections.
    pub redirs: Vec<Redir>,
    /// Its command substitutions, in text order: a word names one by its place here.
    pub subs: Vec<List>,
}

/// The words of a `for`.
#[derive(Debug, Drop)]
#[cycle(command)]
pub struct Words {
    /// The words.
    pub words: Vec<Word>,
    /// Their command substitutions, in text order.
    pub subs: Vec<List>,
}

/// What stands behind a compound command.
#[derive(Debug, Drop)]
#[cycle(command)]
pub struct Tail {
    /// Its redirections.
    pub redirs: Vec<Redir>,
    /// Their command substitutions, in text order.
    pub subs: Vec<List>,
}

/// A redirection (XCU 2.7).
#[derive(Debug, Drop)]
pub struct Redir {
    /// The descriptor that is redirected.
    pub number: u8,
    /// How.
    pub how: How,
    /// The file, or with `Copy` the descriptor that is copied.
    pub word: Word,
}

/// How a descriptor is redirected.
#[derive(Clone, Copy, Debug, PartialEq, Eq)]
pub enum How {
    /// `<`
    Read,
    /// `>`
    Write,
    /// `>>`
    Append,
    /// `>&`
    Copy,
}
