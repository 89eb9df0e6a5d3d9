//! The status that a network ends with.
ghost use Rattle.std.specs.Prelude.{◌≡◌, ℕ, List, [], Bool, false, length, slice_get, get_or, Some};
ghost use Rattle.std.specs.List.{list_any};
ghost use Rattle.fl_classes.specs.Flow.{status_by};

use crate::nets::Net;
use fl_graph::{Act, Machine, StatusRule};

impl<M: Machine> Net<M> {
    /// The exit status of a network whose machines have all stopped.
    pub fn status(&self, rule: &StatusRule) -> u8
        requires stopped { (node : ℕ) (machine : M) → slice_get self.now.machines.items node ≡ Some machine → (M.state machine).act ≡ Act.Stop }
        requires whole { (node : ℕ) (machine : M) → slice_get self.now.machines.items node ≡ Some machine → (M.state machine).broken ≡ false }
        ensures { (told : List Bool) → ((node : ℕ) (machine : M) → slice_get self.now.machines.items node ≡ Some machine → get_or told node false ≡ (M.state machine).selects (λ _. [])) →
            length told ≡ length self.now.machines.items → result ≡ status_by rule.now told }
    {
        match rule {
            StatusRule::Fixed(code) => *code,
            StatusRule::Selected { nodes, some, none } => {
                if any_selected(self.machines.as_slice(), nodes.as_slice()) {
                    *some
                } else {
                    *none
                }
            }
        }
    }
}

/// Whether one of the named machines, which have stopped, has selected a line.
fn any_selected<M: Machine>(machines: &[M], nodes: &[u32]) -> bool
    requires stopped { (node : ℕ) (machine : M) → slice_get machines.now node ≡ Some machine → (M.state machine).act ≡ Act.Stop }
    requires whole { (node : ℕ) (machine : M) → slice_get machines.now node ≡ Some machine → (M.state machine).broken ≡ false }
    ensures { (told : List Bool) → ((node : ℕ) (machine : M) → slice_get machines.now node ≡ Some machine → get_or told node false ≡ (M.state machine).selects (λ _. [])) →
        length told ≡ length machines.now → result ≡ list_any (λ node. get_or told node false) nodes.now }
{
    for node in nodes {
        if has_selected(machines, *node) {
            return true;
        }
    }
    false
}

/// Whether a machine of this number, if there is one, has selected a line.
fn has_selected<M: Machine>(machines: &[M], node: u32) -> bool
    requires stopped { (node : ℕ) (machine : M) → slice_get machines.now node ≡ Some machine → (M.state machine).act ≡ Act.Stop }
    requires whole { (node : ℕ) (machine : M) → slice_get machines.now node ≡ Some machine → (M.state machine).broken ≡ false }
    ensures { (told : List Bool) → ((node : ℕ) (machine : M) → slice_get machines.now node ≡ Some machine → get_or told node false ≡ (M.state machine).selects (λ _. [])) →
        length told ≡ length machines.now → result ≡ get_or told node false }
{
    let place = node as usize;
    if machines.len() <= place {
        return false;
    }
    machines[place].selected()
}
