//! Texts of which a part has been read.
ghost use Rattle.std.specs.Prelude.{◌≡◌, ◌≤◌, length, drop};

use ps_lines::{Memory, cut_line};
use std::alloc::Global;
use std::marker::Model;
use std::mem;

/// What is left of a text that a shell reads. Contracts see the bytes that are left.
#[derive(Debug, Drop)]
pub struct Rest {
    text: Vec<u8>,
    read: usize,
    ghost within: { read ≤ length text.items },
}

impl Model for Rest {
    ghost use Rattle.std.specs.Prelude.{ℕ, List, drop};

    ghost Value = { List ℕ };

    ghost view = { λ rest. drop rest.read rest.text.items };
}

impl Rest {
    ghost use Rattle.std.specs.Prelude.{◌++◌, [], IfOk, OnOk, OnErr};
    ghost use Rattle.ps_lines.specs.Lines.{has_newline};
    ghost use Rattle.sh_eval.specs.Builtins.{behind_line, line_in};

    /// All of a text.
    pub fn of(text: Vec<u8>) -> Rest
        ensures { result ≡ text.items }
    {
        Rest { text, read: 0 }
    }

    /// Takes all that is left. Memory is wanted only where a part was read before; an error leaves all as it was.
    pub(crate) fn take(&mut self, alloc: Global) -> Result<Vec<u8>, Memory>
        ensures text { IfOk result (λ text. text.items ≡ self.old) }
        ensures rest { OnOk result (self.new ≡ []) }
        ensures err { OnErr result (self.new ≡ self.old) }
    {
        let Rest { text, read } = mem::replace(self, Rest::of(Vec::new(alloc)));
        if read == 0 {
            return Ok(text);
        }
        match Vec::from_slice(alloc, &text.as_slice()[read..]) {
            Ok(left) => Ok(left),
            Err(_refused) => {
                *self = Rest { text, read };
                Err(Memory)
            }
        }
    }

    /// Takes the first line that is left and puts it behind `line`, without its newline; answers whether a newline ended it (XCU read).
    ///
    /// An error leaves all as it was.
    pub(crate) fn read_line(&mut self, line: &mut Vec<u8>) -> Result<bool, Memory>
        ensures closed { IfOk result (λ closed. closed ≡ has_newline self.old) }
        ensures line { OnOk result (line.new.items ≡ line.old.items ++ line_in self.old) }
        ensures rest { OnOk result (self.new ≡ behind_line self.old) }
        ensures err { OnErr result (self.new ≡ self.old) }
    {
        let left = &self.text.as_slice()[self.read..];
        match cut_line(left) {
            Some((text, rest)) => {
                line.extend_from_slice(text)?;
                self.read = self.text.len() - rest.len();
                Ok(true)
            }
            None => {
                line.extend_from_slice(left)?;
                self.read = self.text.len();
                Ok(false)
            }
        }
    }
}
