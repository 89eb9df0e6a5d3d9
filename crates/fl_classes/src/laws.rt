//! What each class says of its commands, in laws: each is the contract of a function that does nothing.
#![tactic(auto, using(crate::proofs::ClassLemmas::class_laws, crate::proofs::PartLemmas::part_laws, crate::proofs::FlowLemmas::flow_laws, crate::proofs::CutLemmas::cut_laws, crate::proofs::OperandLemmas::operand_laws))]

ghost use Rattle.std.specs.Prelude.{◌≡◌, ◌<◌, ◌∷◌, ◌++◌, ℕ, Bool, List, length, map, true};
ghost use Rattle.std.specs.List.{concat, filter};
ghost use Rattle.std.specs.List.Sorted.{IsPermutation};
ghost use Rattle.ps_lines.specs.Lines.{is_cutlist};
ghost use Rattle.ut_args.specs.Classes.{class_of, keeps_closed_of};
ghost use Rattle.ut_args.specs.Inputs.{deals, emptied, is_named, operands_by, operands_of, remaining, with_operands};
ghost use Rattle.ut_args.specs.Invocations.{command_of};
ghost use Rattle.ut_args.specs.declared.classes.Seam.{Seam as Seams};
ghost use Rattle.ut_args.specs.declared.commands.Command.{Command};
ghost use Rattle.ut_args.specs.declared.invocations.Inv.{Inv};
ghost use Rattle.ut_streams.specs.Utilities.{Input};
ghost use Rattle.fl_graph.specs.Kinds.{has_its_class};
ghost use Rattle.fl_graph.specs.Net.{gives};
ghost use Rattle.fl_graph.specs.Valid.{Valid};
ghost use Rattle.fl_graph.specs.declared.kinds.NodeKind.{NodeKind};
ghost use Rattle.fl_classes.specs.Flow.{flow, placed, Solves};
ghost use Rattle.fl_classes.specs.Aggregates.{aggregate_of, joined_maps, map_of};
ghost use Rattle.fl_classes.specs.Kinds.{is_run};
ghost use Rattle.fl_classes.specs.Parts.{parts_of};
ghost use Rattle.fl_classes.specs.Utilities.{names_of, utility_by, utility_of};
ghost use Rattle.fl_classes.specs.Laws.{IsCommutative, IsOfClass, IsParallel, IsStateless, KeepsClosed, is_commutative};

use fl_graph::Graph;

/// Each invocation is as the class that `class` gives it says.
pub fn each_invocation_is_of_its_class()
    ensures { (inv : Inv) → IsOfClass (class_of inv) inv }
{}

/// Each invocation of which `keeps_closed` says so writes a closed text for a closed one, and nothing for nothing.
pub fn invocations_keep_closed()
    ensures { (inv : Inv) → keeps_closed_of inv ≡ true → KeepsClosed inv }
{}

/// What a class says of two texts it says of any list that is cut at ends of lines: the maps of its texts are that of the whole, joined
/// or aggregated from the left, and the maps of an invocation that keeps closed are a cut list again.
pub fn classes_go_over_cut_lists()
    ensures lines { (inv : Inv) (seam : Seams) → IsStateless seam inv → (texts : List (List ℕ)) → is_cutlist texts ≡ true →
        map_of inv (concat texts) ≡ concat (map (map_of inv) texts) }
    ensures parts { (inv : Inv) → IsParallel inv → (first : List ℕ) (texts : List (List ℕ)) → is_cutlist (first ∷ texts) ≡ true →
        aggregate_of inv (map (map_of inv) (first ∷ texts)) ≡ map_of inv (concat (first ∷ texts)) }
    ensures closed { (inv : Inv) → KeepsClosed inv → (texts : List (List ℕ)) → is_cutlist texts ≡ true → is_cutlist (map (map_of inv) texts) ≡ true }
{}

/// The aggregators of `wc`, of `grep -c`, and of `sort` without `-u` are commutative and associative.
#[tactic(auto, using(crate::proofs::OrderLemmas::order_laws))]
pub fn counts_and_sorted_lines_are_joined_in_any_order()
    ensures { (inv : Inv) → is_commutative inv ≡ true → IsCommutative inv }
{}

/// Where an aggregator is commutative and associative, the maps of several texts may come in any order, and be joined in groups.
#[tactic(auto, using(crate::proofs::OrderLemmas::order_laws))]
pub fn a_commutative_aggregate_has_no_order()
    ensures order { (inv : Inv) → IsCommutative inv → (texts others : List (List ℕ)) → IsPermutation texts others →
        aggregate_of inv (map (map_of inv) texts) ≡ aggregate_of inv (map (map_of inv) others) }
    ensures groups { (inv : Inv) → IsCommutative inv → (first second : List ℕ) (texts others : List (List ℕ)) →
        aggregate_of inv (map (map_of inv) ((first ∷ texts) ++ (second ∷ others))) ≡
        joined_maps inv (aggregate_of inv (map (map_of inv) (first ∷ texts))) (aggregate_of inv (map (map_of inv) (second ∷ others))) }
{}

/// An operand that lacks an input changes which inputs there are, and nothing else: with the empty text in its place an invocation
/// writes and selects the same for the same inputs, and these have the names of the other operands. The finish of `wc` and the map of
/// `grep` alone name their operand. A `paste` without `-s` isn't to lack an input: its operands are its columns.
pub fn operands_may_lack_an_input()
    ensures output { (asked : Command) (flags : List Bool) (inputs : List Input) → (deals asked ≡ true → emptied flags (operands_by asked) ≡ operands_by asked) →
        (utility_by (with_operands (emptied flags (operands_by asked)) asked)).output inputs ≡ (utility_by asked).output inputs }
    ensures selects { (asked : Command) (flags : List Bool) (inputs : List Input) →
        (utility_by (with_operands (emptied flags (operands_by asked)) asked)).selects inputs ≡ (utility_by asked).selects inputs }
    ensures utility { (one other : Inv) (flags : List Bool) → command_of other ≡ with_operands (emptied flags (operands_of one)) (command_of one) →
        (deals (command_of one) ≡ true → emptied flags (operands_of one) ≡ operands_of one) →
        utility_of other ≡ record (utility_of one) { part = (utility_of other).part; finish = (utility_of other).finish } }
    ensures names { (one other : Inv) (flags : List Bool) → command_of other ≡ with_operands (emptied flags (operands_of one)) (command_of one) →
        names_of other ≡ filter is_named (remaining flags (operands_of one)) }
{}

/// The parts of a text, joined, are the text, and it is cut at ends of lines.
pub fn parts_cut_the_text_at_ends_of_lines()
    ensures count { (text : List ℕ) (parts : ℕ) → length (parts_of text parts) ≡ parts }
    ensures joined { (text : List ℕ) (parts : ℕ) → 0 < parts → concat (parts_of text parts) ≡ text }
    ensures cut { (text : List ℕ) (parts : ℕ) → 0 < parts → is_cutlist (parts_of text parts) ≡ true }
{}

/// The flow of a valid graph is the only assignment of texts to its edges that meets the equation of each node.
pub fn every_solution_is_the_flow(graph: &Graph)
    requires { Valid graph.now.nodes graph.now.status }
    ensures { (sources : List (List ℕ)) (texts : ℕ → List ℕ) → Solves sources (placed graph.now.nodes) texts →
        (edge : ℕ) → edge < length (gives graph.now.nodes) → flow graph.now.nodes sources edge ≡ texts edge }
{}

/// Each node of a valid graph has a machine: of the classes that validity asks of a map, an aggregate and a finish.
#[tactic(auto, using(crate::proofs::KindLemmas::kind_laws))]
pub fn what_validity_allows_is_run()
    ensures { (kind : NodeKind) → has_its_class kind ≡ true → is_run kind ≡ true }
{}
