//! How items change what is read of a script.
ghost use Rattle.std.specs.Prelude.{◌≡◌, ◌∷◌, [], IfOk, OnOk, IfSome, IfNone};
ghost use Rattle.sh_tree.specs.Views.{script_tree};
ghost use Rattle.sh_parse.specs.Inner.Building.{start, opened, closed, sub_closed, turns, named, on_listing, on_making, with_assign, with_argument, with_target, with_number, with_how, with_sign, with_bang, pieces_over, left_out, pipeline_done, and_or_done, role_of, keyword, no_piece_by, word_as, word_by_role, redirect_by_role, acted, script_built};
ghost use Rattle.sh_parse.specs.Inner.Built.{construct_of, level_of, levels_of, state_of};
ghost use Rattle.sh_parse.specs.Pieces.{default_number};

use crate::items::{Item, Reserved, Span, WordKind};
use crate::levels::{Compound, Level, Listing, Making};
use crate::parts::Pending;
use crate::pieces::{Slot, Use, used};
use crate::readers::WordReader;
use ps_lines::Memory;
use sh_tree::{How, Script};
use std::alloc::Global;
use std::mem;

/// What a word is at a part that is owed.
#[derive(Clone, Copy, Debug, PartialEq, Eq)]
pub enum Role {
    /// A piece, where one stands at this place; else a reserved word.
    Piece(Slot),
    /// Nothing: an operator is owed.
    Operator,
    /// The word of a redirection.
    Target,
    /// The name of a `for`.
    Name,
}

/// What a word is at a part.
pub fn role_of(part: Pending) -> Role
    ensures { result ≡ role_of part }
{
    match part {
        Pending::Pieces(place) => Role::Piece(place),
        Pending::Operator => Role::Operator,
        Pending::Target => Role::Target,
        Pending::LoopName => Role::Name,
        Pending::Pipeline
        | Pending::Command
        | Pending::NextCommand
        | Pending::NextPipeline
        | Pending::Again
        | Pending::Body => Role::Piece(Slot::First),
        _ => Role::Piece(Slot::Tail),
    }
}

/// A script that is read: the innermost open construct, and those around it.
#[derive(Drop)]
pub struct Building {
    /// The innermost.
    pub level: Level,
    /// Those around it, from the outermost.
    pub outer: Vec<Level>,
}

impl Building {
    /// A script of which nothing is read.
    pub fn start(alloc: Global) -> Building
        ensures { state_of result ≡ start }
    {
        Building {
            level: Level::opened(alloc, Compound::Whole),
            outer: Vec::new(alloc),
        }
    }

    /// The script.
    pub fn into_script(self) -> Script
        ensures { script_tree result ≡ script_built (state_of self) }
    {
        let Building { level, .. } = self;
        let Level { list, .. } = level;
        Script {
            body: list.into_body(),
        }
    }

    /// Opens a construct.
    #[tactic(auto, using(crate::proofs::Arounds::levels_last))]
    fn open(&mut self, alloc: Global, construct: Compound) -> Result<(), Memory>
        ensures { OnOk result (state_of self.new ≡ opened (construct_of construct) (state_of self.old)) }
    {
        let outside = mem::replace(&mut self.level, Level::opened(alloc, construct));
        self.outer.push(outside)?;
        Ok(())
    }

    /// Takes the innermost construct out, where it isn't the only one.
    fn leave(&mut self) -> Option<Level>
        ensures innermost { IfSome result (λ inner. level_of inner ≡ level_of self.old.level) }
        ensures around { IfSome result (λ _. levels_of self.old.outer.items ≡ level_of self.new.level ∷ levels_of self.new.outer.items) }
        ensures same { IfNone result (self.new.level ≡ self.old.level) }
        ensures only { IfNone result (levels_of self.old.outer.items ≡ []) }
        ensures still { IfNone result (levels_of self.new.outer.items ≡ []) }
    {
        match self.outer.pop() {
            Some(outside) => Some(mem::replace(&mut self.level, outside)),
            None => None,
        }
    }

    /// Ends the innermost construct, which is a compound command.
    fn close(&mut self)
        ensures { state_of self.new ≡ closed (state_of self.old) }
    {
        if let Some(inner) = self.leave() {
            self.level.command.compound = Some(inner.into_parts());
        }
    }

    /// Ends the innermost construct, which is a command substitution.
    fn close_sub(&mut self) -> Result<(), Memory>
        ensures { OnOk result (state_of self.new ≡ sub_closed (state_of self.old)) }
    {
        match self.leave() {
            Some(inner) => {
                let (_, list) = inner.into_parts();
                self.level.command.push_sub(list)
            }
            None => Ok(()),
        }
    }

    /// Reads a reserved word inside the innermost construct.
    fn turn(&mut self, alloc: Global, name: Reserved) -> Result<(), Memory>
        ensures { OnOk result (state_of self.new ≡ turns name (state_of self.old)) }
    {
        let list = mem::replace(&mut self.level.list, Listing::nothing(alloc));
        let construct = mem::replace(&mut self.level.construct, Compound::Whole);
        self.level.construct = construct.turned(name, list.into_list())?;
        Ok(())
    }

    /// Leaves out the rest of a part that is owed, and so ends what it belongs to.
    pub fn leave_out(&mut self, alloc: Global, part: Pending) -> Result<(), Memory>
        ensures { OnOk result (state_of self.new ≡ left_out part (state_of self.old)) }
    {
        match part {
            Pending::Pieces(Slot::Loop) => {
                self.level.end_words(alloc);
                Ok(())
            }
            Pending::Pieces(_) => self.level.end_command(alloc),
            Pending::Pipes => self.level.list.end_pipeline(alloc),
            Pending::Joins => self.level.list.end_and_or(),
            _ => Ok(()),
        }
    }

    /// Reads an item, where this is owed.
    pub fn act<W: WordReader>(
        &mut self,
        alloc: Global,
        reader: &W,
        at: Role,
        item: Item,
    ) -> Result<(), Memory>
        ensures { OnOk result (state_of self.new ≡ acted (W.views reader.now) at item (state_of self.old)) }
    {
        match item {
            Item::Word(kind, span) => self.act_word(alloc, reader, at, kind, span),
            Item::IoNumber(number, _) => {
                self.level.command.number = number;
                Ok(())
            }
            Item::Redirect(how, _) => {
                self.redirect(at, how);
                Ok(())
            }
            Item::Join(sign) => {
                self.level.list.sign = sign;
                Ok(())
            }
            Item::Open(_) => self.open(alloc, Compound::Subshell),
            Item::Close => {
                self.close();
                Ok(())
            }
            Item::SubOpen(_) => self.open(alloc, Compound::Whole),
            Item::SubClose => self.close_sub(),
            Item::Newline | Item::Semi | Item::Pipe => Ok(()),
        }
    }

    /// Reads a word, where this is owed.
    fn act_word<W: WordReader>(
        &mut self,
        alloc: Global,
        reader: &W,
        at: Role,
        kind: WordKind,
        span: Span,
    ) -> Result<(), Memory>
        ensures { OnOk result (state_of self.new ≡ word_by_role (W.views reader.now) at kind span (state_of self.old)) }
    {
        match at {
            Role::Piece(place) => self.act_piece(alloc, reader, used(place, kind), kind, span),
            Role::Operator => Ok(()),
            Role::Target => self.level.command.push_target(alloc, reader, span),
            Role::Name => {
                let name = reader.name(alloc, span)?;
                self.level.construct = Compound::For(name, None);
                Ok(())
            }
        }
    }

    /// Reads a word that is used so.
    fn act_piece<W: WordReader>(
        &mut self,
        alloc: Global,
        reader: &W,
        word: Use,
        kind: WordKind,
        span: Span,
    ) -> Result<(), Memory>
        ensures { OnOk result (state_of self.new ≡ word_as (W.views reader.now) word kind span (state_of self.old)) }
    {
        match word {
            Use::Assigned => self.level.command.push_assign(alloc, reader, span),
            Use::Given(_) => self.level.command.push_word(alloc, reader, span),
            Use::Unused => self.act_other(alloc, kind),
        }
    }

    /// Reads a word that is no piece of a command.
    fn act_other(&mut self, alloc: Global, kind: WordKind) -> Result<(), Memory>
        ensures { OnOk result (state_of self.new ≡ no_piece_by kind (state_of self.old)) }
    {
        match kind {
            WordKind::Reserved(name) => self.act_reserved(alloc, name),
            _ => Ok(()),
        }
    }

    /// Reads a reserved word.
    fn act_reserved(&mut self, alloc: Global, name: Reserved) -> Result<(), Memory>
        ensures { OnOk result (state_of self.new ≡ keyword name (state_of self.old)) }
    {
        match name {
            Reserved::Bang => {
                self.level.list.negated = true;
                Ok(())
            }
            Reserved::OpenBrace => self.open(alloc, Compound::Group),
            Reserved::If => self.open(alloc, Compound::Condition(Vec::new(alloc))),
            Reserved::While => self.open(alloc, Compound::While),
            Reserved::Until => self.open(alloc, Compound::Until),
            Reserved::For => self.open(alloc, Compound::Unnamed),
            Reserved::CloseBrace | Reserved::Fi | Reserved::Done => {
                self.close();
                Ok(())
            }
            Reserved::Then | Reserved::Elif | Reserved::Else | Reserved::Do => {
                self.turn(alloc, name)
            }
            Reserved::Case | Reserved::Esac => Ok(()),
        }
    }

    /// Reads a redirection operator. Its descriptor was read before it, or is the usual one.
    fn redirect(&mut self, at: Role, how: How)
        ensures { state_of self.new ≡ redirect_by_role at how (state_of self.old) }
    {
        self.level.command.how = how;
        match at {
            Role::Operator => {}
            Role::Piece(_) | Role::Target | Role::Name => {
                self.level.command.number = default_number(how);
            }
        }
    }
}

/// The descriptor of a redirection without a number.
fn default_number(how: How) -> u8
    ensures { result ≡ default_number how }
{
    match how {
        How::Read => 0,
        How::Write | How::Append | How::Copy => 1,
    }
}
