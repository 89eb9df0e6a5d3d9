//! The constructs that are open while items are read, with what was read of each.
ghost use Rattle.std.specs.Prelude.{◌≡◌, ◌∷◌, [], ◌++◌, map, IfOk, OnOk};
ghost use Rattle.std.specs.Option.{option_map};
ghost use Rattle.sh_tree.specs.Trees.{if_branches, no_branch};
ghost use Rattle.sh_tree.specs.Views.{list_tree, branches_onto, else_of, and_or_tree, command_tree, pipeline_tree, tail_tree, words_tree};
ghost use Rattle.sh_parse.specs.Grammar.{script_of};
ghost use Rattle.sh_tree.specs.Numbering.{sub_count};
ghost use Rattle.sh_parse.specs.Pieces.{words_of};
ghost use Rattle.sh_parse.specs.Inner.Building.{level, command_done, words_done, and_or_of, nothing, fresh, list_of, compound, command_made, chained, with_stage, pipeline_done, and_or_done, with_assign, with_argument, with_target, with_sub, turned, with_words};
ghost use Rattle.sh_parse.specs.declared.items.Reserved.TheVariants as reserved;
ghost use Rattle.sh_parse.specs.Inner.Built.{branch_of, construct_of, chain_of, chain_parts, listing_of, making_of, pieces_of, level_of, subs_of, made_of};

use crate::items::{Reserved, Span};
use crate::readers::WordReader;
use ps_lines::{Memory, Text};
use sh_tree::{AndOr, Command, How, Join, List, Pipeline, Redir, Simple, Tail, Word, Words};
use std::alloc::Global;
use std::mem;

/// A construct that is open, with its parts that are read.
#[derive(Drop)]
pub enum Compound {
    /// A script, or a command substitution.
    Whole,
    /// `{ list }`
    Group,
    /// `( list )`
    Subshell,
    /// The condition of a branch of an `if`, behind these branches.
    Condition(Vec<(List, List)>),
    /// The body of a branch of an `if`, behind these branches and its condition.
    Branch(Vec<(List, List)>, List),
    /// The list behind `else`, behind these branches.
    Otherwise(Vec<(List, List)>),
    /// The condition of a `while`.
    While,
    /// The body of a `while`, behind its condition.
    WhileBody(List),
    /// The condition of an `until`.
    Until,
    /// The body of an `until`, behind its condition.
    UntilBody(List),
    /// A `for` before its name.
    Unnamed,
    /// A `for` behind its name, with the words behind `in`.
    For(Text, Option<Words>),
}

/// Pipelines that are joined.
#[derive(Drop)]
pub struct Chain {
    /// The first one.
    pub first: Pipeline,
    /// The others, each with the operator before it.
    pub rest: Vec<(Join, Pipeline)>,
}

/// A list that is read.
#[derive(Drop)]
pub struct Listing {
    /// Its and-or lists.
    pub items: Vec<AndOr>,
    /// The pipelines of the next and-or list.
    pub chain: Option<Chain>,
    /// The operator before the next pipeline.
    pub sign: Join,
    /// Whether `!` stands before the next pipeline.
    pub negated: bool,
    /// The commands of the next pipeline.
    pub stages: Vec<Command>,
}

/// A command that is read.
#[derive(Drop)]
pub struct Making {
    /// Its assignments.
    pub assigns: Vec<(Text, Word)>,
    /// Its name and arguments.
    pub words: Vec<Word>,
    /// Its redirections.
    pub redirs: Vec<Redir>,
    /// Its command substitutions.
    pub subs: Vec<List>,
    /// The descriptor of the next redirection.
    pub number: u8,
    /// How the next redirection is.
    pub how: How,
    /// The compound command before its redirections, with its last list.
    pub compound: Option<(Compound, List)>,
}

/// A construct that is open.
#[derive(Drop)]
pub struct Level {
    /// What it is.
    pub construct: Compound,
    /// The list in it that is read.
    pub list: Listing,
    /// The command that is read.
    pub command: Making,
}

impl Level {
    /// A construct of which nothing is read.
    pub fn opened(alloc: Global, construct: Compound) -> Level
        ensures { level_of result ≡ level (construct_of construct) nothing fresh }
    {
        Level {
            construct,
            list: Listing::nothing(alloc),
            command: Making::fresh(alloc),
        }
    }

    /// What is open, and its list.
    pub fn into_parts(self) -> (Compound, List)
        ensures construct { construct_of result.0 ≡ construct_of self.construct }
        ensures list { list_tree result.1 ≡ list_of (listing_of self.list) }
    {
        let Level {
            construct,
            list,
            ..
        } = self;
        (construct, list.into_list())
    }

    /// Ends a command.
    pub fn end_command(&mut self, alloc: Global) -> Result<(), Memory>
        ensures { OnOk result (level_of self.new ≡ command_done (level_of self.old)) }
    {
        let command = mem::replace(&mut self.command, Making::fresh(alloc));
        self.list.push_stage(command.into_command()?)
    }

    /// Ends the words of a `for`.
    pub fn end_words(&mut self, alloc: Global)
        ensures { level_of self.new ≡ words_done (level_of self.old) }
    {
        let command = mem::replace(&mut self.command, Making::fresh(alloc));
        let construct = mem::replace(&mut self.construct, Compound::Whole);
        self.construct = construct.with_words(command.into_words());
    }
}

impl Compound {
    /// The compound command, behind its last list.
    pub fn into_command(self, list: List, tail: Tail) -> Result<Command, Memory>
        ensures { IfOk result (λ command. command_tree command
            ≡ compound (construct_of self) (list_tree list) (tail_tree tail)) }
    {
        match self {
            Compound::Subshell => Ok(Command::Subshell(list, tail)),
            Compound::Branch(branches, condition) => {
                let branches = with_branch(branches, condition, list)?;
                Ok(if_command(branches, None, tail))
            }
            Compound::Otherwise(branches) => Ok(if_command(branches, Some(list), tail)),
            Compound::WhileBody(condition) => Ok(Command::While(condition, list, tail)),
            Compound::UntilBody(condition) => Ok(Command::Until(condition, list, tail)),
            Compound::For(name, words) => Ok(Command::For(name, words, list, tail)),
            _other => Ok(Command::Group(list, tail)),
        }
    }

    /// The construct behind a reserved word inside it.
    pub fn turned(self, name: Reserved, list: List) -> Result<Compound, Memory>
        ensures { IfOk result (λ next. construct_of next ≡ turned (construct_of self) name (list_tree list)) }
    {
        match name {
            Reserved::Then => Ok(self.then(list)),
            Reserved::Elif => self.behind_elif(list),
            Reserved::Else => self.behind_else(list),
            Reserved::Do => Ok(self.behind_do(list)),
            _ => Ok(self),
        }
    }

    fn then(self, list: List) -> Compound
        ensures { construct_of result ≡ turned (construct_of self) reserved.Then (list_tree list) }
    {
        match self {
            Compound::Condition(branches) => Compound::Branch(branches, list),
            other => other,
        }
    }

    fn behind_elif(self, list: List) -> Result<Compound, Memory>
        ensures { IfOk result (λ next. construct_of next ≡ turned (construct_of self) reserved.Elif (list_tree list)) }
    {
        match self {
            Compound::Branch(branches, condition) => {
                let branches = with_branch(branches, condition, list)?;
                Ok(Compound::Condition(branches))
            }
            other => Ok(other),
        }
    }

    fn behind_else(self, list: List) -> Result<Compound, Memory>
        ensures { IfOk result (λ next. construct_of next ≡ turned (construct_of self) reserved.Else (list_tree list)) }
    {
        match self {
            Compound::Branch(branches, condition) => {
                let branches = with_branch(branches, condition, list)?;
                Ok(Compound::Otherwise(branches))
            }
            other => Ok(other),
        }
    }

    fn behind_do(self, list: List) -> Compound
        ensures { construct_of result ≡ turned (construct_of self) reserved.Do (list_tree list) }
    {
        match self {
            Compound::While => Compound::WhileBody(list),
            Compound::Until => Compound::UntilBody(list),
            other => other,
        }
    }

    /// The `for` with these words behind its `in`.
    pub fn with_words(self, words: Words) -> Compound
        ensures { construct_of result ≡ with_words (construct_of self) (words_tree words) }
    {
        match self {
            Compound::For(name, _before) => Compound::For(name, Some(words)),
            other => other,
        }
    }
}

/// An `if` with these branches, and this list behind `else`.
fn if_command(branches: Vec<(List, List)>, otherwise: Option<List>, tail: Tail) -> Command
    ensures { command_tree result
        ≡ if_branches (branches_onto (map branch_of branches.items) no_branch) (else_of (option_map list_tree otherwise)) (tail_tree tail) }
{
    Command::If(branches, otherwise, tail)
}

/// The branches of an `if` with one more.
fn with_branch(
    branches: Vec<(List, List)>,
    condition: List,
    body: List,
) -> Result<Vec<(List, List)>, Memory>
    ensures { IfOk result (λ all. map branch_of all.items ≡ map branch_of branches.items ++ (list_tree condition, list_tree body) ∷ []) }
{
    let mut branches = branches;
    branches.push((condition, body))?;
    Ok(branches)
}

impl Listing {
    /// A list of which nothing is read.
    pub fn nothing(alloc: Global) -> Listing
        ensures { listing_of result ≡ nothing }
    {
        Listing {
            items: Vec::new(alloc),
            chain: None,
            sign: Join::And,
            negated: false,
            stages: Vec::new(alloc),
        }
    }

    /// The list.
    pub fn into_list(self) -> List
        ensures { list_tree result ≡ list_of (listing_of self) }
    {
        List { items: self.items }
    }

    /// The list, where it has an and-or list.
    #[tactic(auto, using(crate::proofs::Lists::bodies))]
    pub fn into_body(self) -> Option<List>
        ensures { option_map list_tree result ≡ script_of (list_of (listing_of self)) }
    {
        if self.items.is_empty() {
            return None;
        }
        Some(self.into_list())
    }

    /// Reads one more command of the pipeline.
    pub fn push_stage(&mut self, last: Command) -> Result<(), Memory>
        ensures { OnOk result (listing_of self.new ≡ with_stage (listing_of self.old) (command_tree last)) }
    {
        self.stages.push(last)?;
        Ok(())
    }

    /// Ends the pipeline.
    pub fn end_pipeline(&mut self, alloc: Global) -> Result<(), Memory>
        ensures { OnOk result (listing_of self.new ≡ pipeline_done (listing_of self.old)) }
    {
        let last = Pipeline {
            negated: self.negated,
            stages: mem::replace(&mut self.stages, Vec::new(alloc)),
        };
        let before = mem::replace(&mut self.chain, None);
        let chain = chained(alloc, before, self.sign, last)?;
        self.chain = Some(chain);
        self.sign = Join::And;
        self.negated = false;
        Ok(())
    }

    /// Ends the and-or list.
    #[tactic(auto, using(crate::proofs::Lists::listings))]
    pub fn end_and_or(&mut self) -> Result<(), Memory>
        ensures { OnOk result (listing_of self.new ≡ and_or_done (listing_of self.old)) }
    {
        let chain = mem::replace(&mut self.chain, None);
        if let Some(chain) = chain {
            self.items.push(chain.into_and_or())?;
        }
        Ok(())
    }
}

impl Chain {
    /// The and-or list.
    fn into_and_or(self) -> AndOr
        ensures { and_or_tree result ≡ and_or_of (chain_parts self) }
    {
        AndOr {
            first: self.first,
            rest: self.rest,
        }
    }
}

/// The pipelines with one more.
fn chained(
    alloc: Global,
    before: Option<Chain>,
    sign: Join,
    last: Pipeline,
) -> Result<Chain, Memory>
    ensures { IfOk result (λ chain. chain_parts chain ≡ chained (chain_of before) sign (pipeline_tree last)) }
{
    match before {
        None => Ok(Chain {
            first: last,
            rest: Vec::new(alloc),
        }),
        Some(chain) => {
            let mut rest = chain.rest;
            rest.push((sign, last))?;
            Ok(Chain {
                first: chain.first,
                rest,
            })
        }
    }
}

impl Making {
    /// A command of which nothing is read.
    pub fn fresh(alloc: Global) -> Making
        ensures { making_of result ≡ fresh }
    {
        Making {
            assigns: Vec::new(alloc),
            words: Vec::new(alloc),
            redirs: Vec::new(alloc),
            subs: Vec::new(alloc),
            number: 0,
            how: How::Read,
            compound: None,
        }
    }

    /// Reads an assignment.
    pub fn push_assign<W: WordReader>(
        &mut self,
        alloc: Global,
        reader: &W,
        at: Span,
    ) -> Result<(), Memory>
        ensures { OnOk result (making_of self.new ≡ with_assign (W.views reader.now) at (making_of self.old)) }
    {
        let assign = reader.assign(alloc, at, self.sub_number())?;
        self.assigns.push(assign)?;
        Ok(())
    }

    /// Reads a word.
    pub fn push_word<W: WordReader>(
        &mut self,
        alloc: Global,
        reader: &W,
        at: Span,
    ) -> Result<(), Memory>
        ensures { OnOk result (making_of self.new ≡ with_argument (W.views reader.now) at (making_of self.old)) }
    {
        let word = reader.word(alloc, at, self.sub_number())?;
        self.words.push(word)?;
        Ok(())
    }

    /// Reads the word of a redirection.
    pub fn push_target<W: WordReader>(
        &mut self,
        alloc: Global,
        reader: &W,
        at: Span,
    ) -> Result<(), Memory>
        ensures { OnOk result (making_of self.new ≡ with_target (W.views reader.now) at (making_of self.old)) }
    {
        let word = reader.word(alloc, at, self.sub_number())?;
        self.redirs.push(Redir {
            number: self.number,
            how: self.how,
            word,
        })?;
        self.number = 0;
        self.how = How::Read;
        Ok(())
    }

    /// The number of the next command substitution.
    #[tactic(auto, using(crate::proofs::Lists::counted))]
    fn sub_number(&self) -> usize
        ensures { result ≡ sub_count (subs_of self.now) }
    {
        self.subs.len()
    }

    /// Reads a command substitution of the last word.
    pub fn push_sub(&mut self, list: List) -> Result<(), Memory>
        ensures { OnOk result (making_of self.new ≡ with_sub (list_tree list) (making_of self.old)) }
    {
        self.subs.push(list)?;
        Ok(())
    }

    /// The command.
    pub fn into_command(self) -> Result<Command, Memory>
        ensures { IfOk result (λ command. command_tree command ≡ command_made (pieces_of self) (made_of self.compound)) }
    {
        let Making {
            assigns,
            words,
            redirs,
            subs,
            compound,
            ..
        } = self;
        match compound {
            None => Ok(Command::Simple(Simple {
                assigns,
                words,
                redirs,
                subs,
            })),
            Some((construct, list)) => construct.into_command(list, Tail { redirs, subs }),
        }
    }

    /// The words behind the `in` of a `for`.
    pub fn into_words(self) -> Words
        ensures { words_tree result ≡ words_of (pieces_of self) }
    {
        Words {
            words: self.words,
            subs: self.subs,
        }
    }
}
