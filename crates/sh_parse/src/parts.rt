//! What is still owed: the rest of each rule that is open.
ghost use Rattle.std.specs.Prelude.{◌≡◌, [], ◌∷◌, if◌then◌else◌};
ghost use Rattle.sh_parse.specs.Inner.Owed.{push, skip, stuck, loop_name, loop_head, loop_lines, is_level, is_option, move, compound_by, word_by, redirection_by, piece_by, command_by, pipeline_by, followed, branch_by, is_bang};
ghost use Rattle.sh_parse.specs.Inner.Moves.{parts_of, move_of, owing_of};
ghost use Rattle.sh_parse.specs.declared.items.Item.TheVariants as token;
ghost use Rattle.sh_parse.specs.declared.items.Span.{Span};

use crate::items::{Item, Reserved, WordKind};
use crate::pieces::{Slot, Use, is_name, redirects, used};

/// The rest of a rule that is open.
#[derive(Clone, Copy, Debug, PartialEq, Eq)]
pub enum Pending {
    /// Further pieces of a command, from this place on.
    Pieces(Slot),
    /// A redirection operator and its word, behind an IoNumber.
    Operator,
    /// The word of a redirection.
    Target,
    /// Further command substitutions of a word.
    Substitutions,
    /// A pipeline.
    Pipeline,
    /// A command.
    Command,
    /// Further commands behind `|`.
    Pipes,
    /// A command behind newlines.
    NextCommand,
    /// Further pipelines behind `&&` and `||`.
    Joins,
    /// A pipeline behind newlines.
    NextPipeline,
    /// A separator, and perhaps further and-or lists.
    Separator,
    /// A list that may be left out, behind newlines.
    Again,
    /// A list that must be there, behind newlines.
    Body,
    /// `}`
    CloseBrace,
    /// `)`
    CloseParenthesis,
    /// The `)` of a command substitution.
    CloseSubstitution,
    /// `then`, a body and further branches.
    ThenBody,
    /// `elif` and `else` branches, up to `fi`.
    Branches,
    /// `fi`
    EndIf,
    /// `do`, a body and `done`.
    DoBody,
    /// `done`
    EndLoop,
    /// The name of a `for`, and all behind it.
    LoopName,
    /// What stands behind the name of a `for`, up to its `done`.
    LoopHead,
    /// The same behind a newline.
    LoopLines,
    /// A separator, and the rest of a `for`.
    LoopSeparator,
    /// `do` behind newlines, and the rest of a `for`.
    LoopDo,
}

/// Parts that come to be owed, the first one first.
#[derive(Clone, Copy, Debug)]
pub enum Parts {
    /// None.
    Empty,
    /// One.
    One(Pending),
    /// Two.
    Two(Pending, Pending),
    /// Three.
    Three(Pending, Pending, Pending),
}

/// What a part makes of an item.
#[derive(Clone, Copy, Debug)]
pub enum Move {
    /// These are owed in its place.
    Push(Parts),
    /// These are owed in its place, and a level opens.
    Opens(Parts),
    /// The part is done, and the item is for the next one.
    Skip,
    /// No rule goes on.
    Stuck,
}

/// A move, and what is owed behind it.
#[derive(Clone, Copy, Debug)]
pub struct Owing {
    /// The move.
    pub what: Move,
    /// What is owed behind it.
    pub behind: Parts,
}

/// Whether the part stands for an open level.
pub fn is_level(part: Pending) -> bool
    ensures { result ≡ is_level part }
{
    match part {
        Pending::CloseBrace
        | Pending::CloseParenthesis
        | Pending::CloseSubstitution
        | Pending::ThenBody
        | Pending::Branches
        | Pending::EndIf
        | Pending::DoBody
        | Pending::EndLoop
        | Pending::LoopName
        | Pending::LoopHead
        | Pending::LoopLines
        | Pending::LoopSeparator
        | Pending::LoopDo => true,
        _ => false,
    }
}

/// Whether the part may be left out.
pub fn is_option(part: Pending) -> bool
    ensures { result ≡ is_option part }
{
    match part {
        Pending::Pieces(_)
        | Pending::Substitutions
        | Pending::Pipes
        | Pending::Joins
        | Pending::Separator
        | Pending::Again => true,
        _ => false,
    }
}

/// A compound command, behind its reserved word.
fn compound_by(name: Reserved) -> Move
    ensures { move_of result ≡ compound_by name }
{
    match name {
        Reserved::OpenBrace => Move::Opens(Parts::Three(
            Pending::Body,
            Pending::CloseBrace,
            Pending::Pieces(Slot::Tail),
        )),
        Reserved::If => Move::Opens(Parts::Three(
            Pending::Body,
            Pending::ThenBody,
            Pending::Pieces(Slot::Tail),
        )),
        Reserved::While => Move::Opens(Parts::Three(
            Pending::Body,
            Pending::DoBody,
            Pending::Pieces(Slot::Tail),
        )),
        Reserved::Until => Move::Opens(Parts::Three(
            Pending::Body,
            Pending::DoBody,
            Pending::Pieces(Slot::Tail),
        )),
        Reserved::For => Move::Opens(Parts::Two(Pending::LoopName, Pending::Pieces(Slot::Tail))),
        _ => Move::Stuck,
    }
}

/// A piece, behind its word.
fn word_by(word: Use) -> Move
    ensures { move_of result ≡ word_by word }
{
    match word {
        Use::Assigned => Move::Push(Parts::Two(
            Pending::Substitutions,
            Pending::Pieces(Slot::BeforeName),
        )),
        Use::Given(behind) => Move::Push(Parts::Two(
            Pending::Substitutions,
            Pending::Pieces(behind),
        )),
        Use::Unused => Move::Skip,
    }
}

/// A redirection, behind its first item.
fn redirection_by(part: Pending, behind: Option<Slot>) -> Move
    ensures { move_of result ≡ redirection_by part behind }
{
    match behind {
        Some(behind) => Move::Push(Parts::Two(part, Pending::Pieces(behind))),
        None => Move::Skip,
    }
}

/// A piece, behind its first item.
fn piece_by(place: Slot, item: Item) -> Move
    ensures { move_of result ≡ piece_by place item }
{
    match item {
        Item::Word(kind, _) => word_by(used(place, kind)),
        Item::IoNumber(..) => redirection_by(Pending::Operator, redirects(place)),
        Item::Redirect(..) => redirection_by(Pending::Target, redirects(place)),
        _ => Move::Skip,
    }
}

/// A command, behind its first word.
fn command_by_word(kind: WordKind) -> Move
    ensures { (at : Span) → move_of result ≡ command_by (token.Word kind at) }
{
    match kind {
        WordKind::Reserved(name) => compound_by(name),
        WordKind::Assign => Move::Push(Parts::Two(
            Pending::Substitutions,
            Pending::Pieces(Slot::BeforeName),
        )),
        WordKind::In | WordKind::Name | WordKind::Other => {
            Move::Push(Parts::Two(Pending::Substitutions, Pending::Pieces(Slot::BehindName)))
        }
    }
}

/// A command, behind its first item.
fn command_by(item: Item) -> Move
    ensures { move_of result ≡ command_by item }
{
    match item {
        Item::Word(kind, _) => command_by_word(kind),
        Item::IoNumber(..) => Move::Push(Parts::Two(
            Pending::Operator,
            Pending::Pieces(Slot::BeforeName),
        )),
        Item::Redirect(..) => Move::Push(Parts::Two(
            Pending::Target,
            Pending::Pieces(Slot::BeforeName),
        )),
        Item::Open(_) => Move::Opens(Parts::Three(
            Pending::Body,
            Pending::CloseParenthesis,
            Pending::Pieces(Slot::Tail),
        )),
        _ => Move::Stuck,
    }
}

/// A pipeline, behind its first item.
#[tactic(auto, using(crate::proofs::Movings::no_bang))]
fn pipeline_by(item: Item) -> Move
    ensures { move_of result ≡ pipeline_by item }
{
    if is_bang(item) {
        return Move::Push(Parts::One(Pending::Command));
    }
    command_by(item)
}

/// Whether the item is `!`.
fn is_bang(item: Item) -> bool
    ensures { result ≡ is_bang item }
{
    matches!(item, Item::Word(WordKind::Reserved(Reserved::Bang), _))
}

/// A move with more owed behind it, and a skip or a halt where no rule goes on.
fn followed(first: Move, behind: Parts, skips: bool) -> Owing
    ensures { owing_of result ≡ followed (move_of first) (parts_of behind) (if skips then skip else stuck) }
{
    match first {
        Move::Push(_) | Move::Opens(_) => Owing {
            what: first,
            behind,
        },
        Move::Skip | Move::Stuck => {
            if skips {
                alone(Move::Skip)
            } else {
                alone(Move::Stuck)
            }
        }
    }
}

/// A move with nothing owed behind it.
#[tactic(auto, using(crate::proofs::Movings::with_no_more))]
fn alone(what: Move) -> Owing
    ensures { owing_of result ≡ move_of what }
{
    Owing {
        what,
        behind: Parts::Empty,
    }
}

/// One part that is owed in place of another.
fn owes(part: Pending) -> Owing
    ensures { owing_of result ≡ push (part ∷ []) }
{
    alone(Move::Push(Parts::One(part)))
}

/// Two parts that are owed in place of another.
fn owes_both(part: Pending, behind: Pending) -> Owing
    ensures { owing_of result ≡ push (part ∷ behind ∷ []) }
{
    alone(Move::Push(Parts::Two(part, behind)))
}

/// No rule goes on.
fn stuck() -> Owing
    ensures { owing_of result ≡ stuck }
{
    alone(Move::Stuck)
}

/// The part may be left out.
fn skip() -> Owing
    ensures { owing_of result ≡ skip }
{
    alone(Move::Skip)
}

/// The part is done.
fn done() -> Owing
    ensures { owing_of result ≡ push [] }
{
    alone(Move::Push(Parts::Empty))
}

/// What a part makes of an item.
pub fn move_at(part: Pending, item: Item) -> Owing
    ensures { owing_of result ≡ move part item }
{
    match part {
        Pending::Pieces(place) => alone(piece_by(place, item)),
        Pending::Operator => match item {
            Item::Redirect(..) => owes(Pending::Target),
            _ => stuck(),
        },
        Pending::Target => match item {
            Item::Word(_, _) => owes(Pending::Substitutions),
            _ => stuck(),
        },
        Pending::Substitutions => match item {
            Item::SubOpen(_) => alone(Move::Opens(Parts::Three(
                Pending::Again,
                Pending::CloseSubstitution,
                Pending::Substitutions,
            ))),
            _ => skip(),
        },
        Pending::Pipeline => followed(pipeline_by(item), Parts::One(Pending::Pipes), false),
        Pending::Command => alone(command_by(item)),
        Pending::Pipes => match item {
            Item::Pipe => owes_both(Pending::NextCommand, Pending::Pipes),
            _ => skip(),
        },
        Pending::NextCommand => match item {
            Item::Newline => owes(Pending::NextCommand),
            _ => alone(command_by(item)),
        },
        Pending::Joins => match item {
            Item::Join(_) => owes_both(Pending::NextPipeline, Pending::Joins),
            _ => skip(),
        },
        Pending::NextPipeline => match item {
            Item::Newline => owes(Pending::NextPipeline),
            _ => followed(pipeline_by(item), Parts::One(Pending::Pipes), false),
        },
        Pending::Separator => match item {
            Item::Semi | Item::Newline => owes(Pending::Again),
            _ => skip(),
        },
        Pending::Again => match item {
            Item::Newline => owes(Pending::Again),
            _ => followed(
                pipeline_by(item),
                Parts::Three(Pending::Pipes, Pending::Joins, Pending::Separator),
                true,
            ),
        },
        Pending::Body => match item {
            Item::Newline => owes(Pending::Body),
            _ => followed(
                pipeline_by(item),
                Parts::Three(Pending::Pipes, Pending::Joins, Pending::Separator),
                false,
            ),
        },
        Pending::CloseParenthesis => match item {
            Item::Close => done(),
            _ => stuck(),
        },
        Pending::CloseSubstitution => match item {
            Item::SubClose => done(),
            _ => stuck(),
        },
        Pending::CloseBrace => match item {
            Item::Word(WordKind::Reserved(Reserved::CloseBrace), _) => done(),
            _ => stuck(),
        },
        Pending::ThenBody => match item {
            Item::Word(WordKind::Reserved(Reserved::Then), _) => owes_both(
                Pending::Body,
                Pending::Branches,
            ),
            _ => stuck(),
        },
        Pending::Branches => branch_at(item),
        Pending::EndIf => match item {
            Item::Word(WordKind::Reserved(Reserved::Fi), _) => done(),
            _ => stuck(),
        },
        Pending::DoBody => match item {
            Item::Word(WordKind::Reserved(Reserved::Do), _) => owes_both(
                Pending::Body,
                Pending::EndLoop,
            ),
            _ => stuck(),
        },
        Pending::EndLoop => match item {
            Item::Word(WordKind::Reserved(Reserved::Done), _) => done(),
            _ => stuck(),
        },
        Pending::LoopName => loop_name_at(item),
        Pending::LoopHead => loop_head_at(item),
        Pending::LoopLines => loop_lines_at(item),
        Pending::LoopSeparator => match item {
            Item::Semi | Item::Newline => owes(Pending::LoopDo),
            _ => stuck(),
        },
        Pending::LoopDo => match item {
            Item::Newline => owes(Pending::LoopDo),
            Item::Word(WordKind::Reserved(Reserved::Do), _) => owes_both(
                Pending::Body,
                Pending::EndLoop,
            ),
            _ => stuck(),
        },
    }
}

/// What is next behind the body of a branch.
fn branch_at(item: Item) -> Owing
    ensures { owing_of result ≡ branch_by item }
{
    match item {
        Item::Word(WordKind::Reserved(Reserved::Elif), _) => owes_both(
            Pending::Body,
            Pending::ThenBody,
        ),
        Item::Word(WordKind::Reserved(Reserved::Else), _) => owes_both(
            Pending::Body,
            Pending::EndIf,
        ),
        Item::Word(WordKind::Reserved(Reserved::Fi), _) => done(),
        _ => stuck(),
    }
}

/// The name of a `for`.
fn loop_name_at(item: Item) -> Owing
    ensures { owing_of result ≡ move loop_name item }
{
    match item {
        Item::Word(kind, _) => {
            if is_name(kind) {
                owes(Pending::LoopHead)
            } else {
                stuck()
            }
        }
        _ => stuck(),
    }
}

/// What is next behind the name of a `for`.
fn loop_head_at(item: Item) -> Owing
    ensures { owing_of result ≡ move loop_head item }
{
    match item {
        Item::Word(WordKind::Reserved(Reserved::Do), _) => owes_both(
            Pending::Body,
            Pending::EndLoop,
        ),
        Item::Word(WordKind::In, _) => owes_both(
            Pending::Pieces(Slot::Loop),
            Pending::LoopSeparator,
        ),
        Item::Newline => owes(Pending::LoopLines),
        Item::Semi => owes(Pending::LoopDo),
        _ => stuck(),
    }
}

/// The same behind a newline.
fn loop_lines_at(item: Item) -> Owing
    ensures { owing_of result ≡ move loop_lines item }
{
    match item {
        Item::Word(WordKind::Reserved(Reserved::Do), _) => owes_both(
            Pending::Body,
            Pending::EndLoop,
        ),
        Item::Word(WordKind::In, _) => owes_both(
            Pending::Pieces(Slot::Loop),
            Pending::LoopSeparator,
        ),
        Item::Newline => owes(Pending::LoopLines),
        _ => stuck(),
    }
}
