//! Laws of the meaning that belong to no single call.
#![tactic(auto, using(crate::proofs::Growing::adds_laws))]

ghost use Rattle.sh_tree.specs.Trees.{ScriptTree};
ghost use Rattle.sh_expand.specs.Outcomes.{Expansions};
ghost use Rattle.sh_eval.specs.Growth.{Adds};
ghost use Rattle.sh_eval.specs.Meaning.{script_means};
ghost use Rattle.sh_eval.specs.Utilities.{Pages};

/// Whatever a script does, it adds to its output and errors and takes nothing back, and the turns that it has used never fall. So what was
/// written when a run stops in the middle is a front of what the script's meaning writes.
pub fn scripts_add()
    ensures { (expansions : Expansions) (pages : Pages) (script : ScriptTree) → Adds (script_means expansions pages script) }
{}
