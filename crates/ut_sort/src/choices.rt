//! Which line goes next in a merge.
ghost use Rattle.std.specs.Prelude.{◌<◌, ◌+◌, length};
ghost use Rattle.ut_sort.specs.Choices.{Chosen, Leads};
ghost use Rattle.ut_sort.specs.LineOrders.{cmp_by};

use crate::line_orders::LineOrder;
use crate::merging::{Step, step_by};
use crate::sides::{first_line, held_of, is_open};
use crate::texts::Side;

/// What a look at the first lines of the sides comes to.
#[derive(Clone, Copy, Debug, PartialEq, Eq)]
pub(crate) enum Choice {
    /// A side has to have more of its text before.
    Wait,
    /// No line is left.
    Done,
    /// The first line of this side goes next, which has so many bytes.
    Put { port: usize, size: usize },
    /// That of this side is left out.
    Leave { port: usize, size: usize },
}

/// Looks at the first line of each side. With two sides that is one comparison for each line that is put or left out.
pub(crate) fn choose(order: &LineOrder, sides: &[Side]) -> Choice
    ensures { Chosen (cmp_by order.now) order.now.unique sides.now (length sides.now) result }
{
    let mut choice = Choice::Done;
    for port in 0..sides.len() {
        choice = look(order, sides, port, choice);
    }
    choice
}

/// Looks at one more side.
fn look(order: &LineOrder, sides: &[Side], port: usize, before: Choice) -> Choice
    requires within { port < length sides.now }
    requires chosen { Chosen (cmp_by order.now) order.now.unique sides.now port before }
    ensures { Chosen (cmp_by order.now) order.now.unique sides.now (port + 1) result }
{
    match before {
        Choice::Wait => Choice::Wait,
        Choice::Done => begin(order, sides, port),
        Choice::Put { port: first, size } => look_behind(order, sides, first, size, port),
        Choice::Leave { port: other, size } => Choice::Leave { port: other, size },
    }
}

/// Looks at a side where no line is left of those before it.
#[tactic(auto, using(crate::proofs::ChoiceLemmas::begins))]
fn begin(order: &LineOrder, sides: &[Side], port: usize) -> Choice
    requires within { port < length sides.now }
    requires done { Chosen (cmp_by order.now) order.now.unique sides.now port Choice.Done }
    ensures { Chosen (cmp_by order.now) order.now.unique sides.now (port + 1) result }
{
    match first_line(sides, port) {
        Some(size) => Choice::Put { port, size },
        None => {
            if is_open(sides, port) {
                return Choice::Wait;
            }
            Choice::Done
        }
    }
}

/// Looks at a side where the first line of an earlier one leads.
#[tactic(auto, using(crate::proofs::ChoiceLemmas::steps))]
fn look_behind(order: &LineOrder, sides: &[Side], first: usize, size: usize, port: usize) -> Choice
    requires within { port < length sides.now }
    requires leads { Leads (cmp_by order.now) order.now.unique sides.now port first size }
    ensures { Chosen (cmp_by order.now) order.now.unique sides.now (port + 1) result }
{
    let Some(other) = first_line(sides, port) else {
        if is_open(sides, port) {
            return Choice::Wait;
        }
        return Choice::Put { port: first, size };
    };
    let line = &held_of(sides, first)[..size];
    match step_by(order, line, &held_of(sides, port)[..other]) {
        Step::PutLeft => Choice::Put { port: first, size },
        Step::DropRight => Choice::Leave { port, size: other },
        Step::PutRight => Choice::Put { port, size: other },
    }
}
