//! What comes of a node, and when none of its halves is missing, in laws: each is the contract of a function that does nothing.
ghost use Rattle.std.specs.Prelude.{◌≡◌, ◌≤◌, ◌↔◌, ◌&&◌, ◌++◌, List, ℕ, true, Option, Some};
ghost use Rattle.fl_graph.specs.Net.{count};
ghost use Rattle.fl_graph.specs.Runs.{completed, has_end, text_of};
ghost use Rattle.fl_graph.specs.declared.pieces.Piece.{Piece as Pieces};
ghost use Rattle.fl_nodes.specs.Ends.{EndState};
ghost use Rattle.fl_nodes.specs.Stashes.{has_each, lying, without_all};
ghost use Rattle.fl_nodes.specs.Work.{Moved};
ghost use Rattle.ps_world.specs.declared.error.WorldErr.{WorldErr};

use crate::stashes::EdgeHalf;

/// What came from the outside of a node that reads, where its end tells its text: some rest completes it to that text, and where its end came it
/// is all of the text.
pub fn what_came_is_of_the_text()
    ensures completes { (from now : EndState) (failure : Option WorldErr) (outside : List Pieces) (text : List ℕ) →
        Moved from now failure outside → from.reads ≡ true → from.left ≡ Some text → (rest : List ℕ) × (completed outside rest ≡ text) }
    ensures whole { (from now : EndState) (failure : Option WorldErr) (outside : List Pieces) (text : List ℕ) →
        Moved from now failure outside → from.reads ≡ true → from.left ≡ Some text → has_end outside ≡ true → text ≡ text_of outside }
{}

/// When there is a half for each of some edges: where each edge is wanted as often at most as a half lies at its number, which is once or never.
/// Where they are dealt out in turns, to one node and then to the next, there is one for each edge of all where each turn has its own.
pub fn each_half_is_there_where_none_is_wanted_twice<T: EdgeHalf>()
    ensures counted { (stash : List (Option T)) (edges : List ℕ) → has_each stash edges ≡ true ↔ ((edge : ℕ) → count edge edges ≤ lying stash edge) }
    ensures turns { (stash : List (Option T)) (front behind : List ℕ) →
        has_each stash (front ++ behind) ≡ (has_each stash front && has_each (without_all stash front) behind) }
{}
