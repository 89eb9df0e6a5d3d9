//! A name that is added to a line of counts.
ghost use Rattle.std.specs.Prelude.{◌≡◌, ◌++◌, ℕ, List, false, IfOk};
ghost use Rattle.std.specs.Option.{option_to_list};
ghost use Rattle.std.specs.Result.{is_ok};
ghost use Rattle.ut_streams.specs.Streams.{Put};
ghost use Rattle.ut_groups.specs.Wc.{name_in, with_name};

use crate::columns::put_name;
use crate::wc::name_of;
use ps_lines::Memory;
use std::alloc::Global;
use ut_args::WcInv;
use ut_streams::{Stream, put};

/// The finish of `wc`: a line of counts, with the name of the input in the place of its newline.
#[derive(Drop)]
pub struct Named {
    name: Vec<u8>,
    /// The last byte that came, if any did.
    last: Option<u8>,
    spent: bool,
}

impl Named {
    /// The finish of one invocation, from the beginning of the counts.
    pub fn new(alloc: Global, inv: &WcInv) -> Result<Named, Memory>
        ensures due { IfOk result (λ named. (text : List ℕ) → ⟦<Named as Stream>⟧.due named text ≡ with_name (name_in inv.now.args.operands) text) }
        ensures unspent { IfOk result (λ named. ⟦<Named as Stream>⟧.spent named ≡ false) }
    {
        Ok(Named {
            name: name_of(alloc, &inv.args)?,
            last: None,
            spent: false,
        })
    }
}

impl Stream for Named {
    ghost due = { λ named more. with_name named.name.items (option_to_list named.last ++ more) };

    ghost selects = { λ _ _. false };

    ghost selected = { λ _. false };

    ghost spent = { λ named. named.spent };

    #[tactic(auto, using(crate::proofs::NamedLemmas::passes))]
    fn feed(&mut self, piece: &[u8], out: &mut Vec<u8>) -> Result<(), Memory> {
        let [front @ .., end] = piece else {
            return Ok(());
        };
        let passed = pass(self.last, front, out);
        self.last = Some(*end);
        self.spent = passed.is_err();
        passed
    }

    #[tactic(auto, using(crate::proofs::NamedLemmas::ends))]
    fn finish(&mut self, out: &mut Vec<u8>) -> Result<(), Memory> {
        let finished = put_name(self.name.as_slice(), out);
        self.spent = finished.is_err();
        finished
    }

    fn has_selected(&self) -> bool {
        false
    }

    fn is_spent(&self) -> bool {
        self.spent
    }
}

/// Appends the byte that is held, and the text behind it.
#[tactic(auto, using(crate::proofs::ColumnLemmas::puts))]
fn pass(held: Option<u8>, text: &[u8], out: &mut Vec<u8>) -> Result<(), Memory>
    ensures { Put (option_to_list held ++ text.now) out.old.items out.new.items (is_ok result) }
{
    match held {
        Some(byte) => match put(&[byte], out) {
            Ok(()) => put(text, out),
            Err(memory) => Err(memory),
        },
        None => put(text, out),
    }
}
