//! What a shell keeps for itself.
ghost use Rattle.std.specs.Prelude.{◌≡◌, [], IfNone, IfOk, IfSome, OnOk};
ghost use Rattle.std.specs.FinMap as map;
ghost use Rattle.ps_lines.specs.Texts.{texts_of};
ghost use Rattle.sh_eval.specs.Shells.{started, inside as inside_def, with_status};
ghost use Rattle.sh_eval.specs.Commands.{entered, none_substituted, with_kept};

use crate::newlines::without_newlines;
use ps_lines::{Memory, Text};
use sh_arith::Env;
use std::alloc::Global;
use ut_options::Texts;

/// What a shell keeps for itself (XCU 2.12): a subshell begins with a copy, and what it changes is lost with it.
#[derive(Debug, Drop)]
pub struct Shell {
    /// The variables.
    pub(crate) variables: Env,
    /// `$0`.
    pub(crate) zero: Text,
    /// The arguments, `$1` first.
    pub(crate) arguments: Texts,
    /// `$?`.
    pub(crate) status: u8,
    /// How many loops of this shell enclose the command.
    pub(crate) loops: u64,
    /// The status of the last body of the innermost loop, 0 where none has run.
    pub(crate) body_status: u8,
    /// The texts of the command's substitutions that have run, without the newlines at their ends.
    pub(crate) substituted: Texts,
    /// The status of the last of them, 0 where none has run.
    pub(crate) substitution_status: u8,
}

/// What a shell keeps of the loops around one that it enters.
#[derive(Drop)]
pub(crate) struct Around {
    loops: u64,
    body_status: u8,
}

impl Shell {
    /// A shell of these arguments, in which no variable is set. `zero` is `$0`.
    pub fn new(alloc: Global, zero: &[u8], args: &[Vec<u8>]) -> Result<Shell, Memory>
        ensures { IfOk result (λ shell. shell ≡ started zero.now (texts_of args.now)) }
    {
        let zero = Text::copy_of(alloc, zero)?;
        let arguments = Texts::copy_of(alloc, args)?;
        let substituted = Texts::new(alloc);
        Ok(Shell {
            variables: Env::new(alloc),
            zero,
            arguments,
            status: 0,
            loops: 0,
            body_status: 0,
            substituted,
            substitution_status: 0,
        })
    }

    /// `$?`.
    pub fn status(&self) -> u8
        ensures { result ≡ self.now.status }
    {
        self.status
    }

    /// The shell of a subshell, a stage or a substitution: a copy, in which no loop encloses a command.
    pub(crate) fn inside(&self, alloc: Global) -> Result<Shell, Memory>
        ensures { IfOk result (λ shell. shell ≡ inside_def self.now) }
    {
        Ok(Shell {
            variables: self.variables.copy(alloc)?,
            zero: Text::copy_of(alloc, self.zero.as_slice())?,
            arguments: self.arguments.copy()?,
            status: self.status,
            loops: 0,
            body_status: 0,
            substituted: Texts::new(alloc),
            substitution_status: 0,
        })
    }

    /// Leaves a subshell, or the last stage of a pipeline: its status is all that stays of it (XCU 2.9.2, 2.12).
    pub(crate) fn take_status(&mut self, inner: Shell)
        ensures { self.new ≡ with_status inner.status self.old }
    {
        self.status = inner.status;
    }

    /// Keeps the text of a substitution, without the newlines at its end, and its status.
    pub(crate) fn keep_text(&mut self, alloc: Global, text: &[u8], status: u8) -> Result<(), Memory>
        ensures { OnOk result (self.new ≡ with_kept text.now status self.old) }
    {
        self.substituted.push(alloc, without_newlines(text))?;
        self.substitution_status = status;
        Ok(())
    }

    /// Begins a command, which has no substitutions yet.
    pub(crate) fn begin_command(&mut self, alloc: Global)
        ensures { self.new ≡ none_substituted self.old }
    {
        self.substituted = Texts::new(alloc);
        self.substitution_status = 0;
    }

    /// Enters a loop, in which no body has run yet, and gives what is put back behind it; None where there are 2^64-1 of them.
    pub(crate) fn enter_loop(&mut self) -> Option<Around>
        ensures shell { IfSome result (λ around. self.new ≡ entered self.old) }
        ensures around { IfSome result (λ around. (around.loops ≡ self.old.loops) × (around.body_status ≡ self.old.body_status)) }
        ensures none { IfNone result (self.new ≡ self.old) }
    {
        let around = Around {
            loops: self.loops,
            body_status: self.body_status,
        };
        self.loops = self.loops.checked_add(1)?;
        self.body_status = 0;
        Some(around)
    }

    /// Leaves a loop.
    pub(crate) fn leave_loop(&mut self, around: Around)
        ensures { self.new ≡ record self.old { loops = around.loops; body_status = around.body_status } }
    {
        self.loops = around.loops;
        self.body_status = around.body_status;
    }
}
