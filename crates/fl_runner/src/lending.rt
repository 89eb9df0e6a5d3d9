//! The ends of a graph in lists from which each may be taken, and to which it comes back.
ghost use Rattle.std.specs.Prelude.{◌≡◌, ◌≤◌, [], is_some, Some, true, vec_len, vec_capacity};
ghost use Rattle.fl_runner.specs.Lent.{AreAllBack, are_back, lent_of};

use crate::kept::Kept;
use fl_core::Ends;
use std::sync::Wait;

/// Ends each of which is in its place, or with its node.
pub(crate) type Lent<'a, R, W, I, O, H> = Ends<
    Option<Kept<'a, R, H>>,
    Option<Kept<'a, W, H>>,
    Option<Kept<'a, I, H>>,
    Option<Kept<'a, O, H>>,
>;

/// The lists that the ends came from, and to which they come back. They are empty meanwhile, and have room for all.
pub(crate) struct Homes<R, W> {
    pub(crate) readers: Vec<(u32, R)>,
    pub(crate) writers: Vec<(u32, W)>,
}

/// The ends with all of them in their places. The lists that come with them are empty, and have room for as many.
pub(crate) fn lend<'a, R, W, I, O, H: Wait>(
    rt: &'a H,
    ends: Ends<R, W, I, O>,
    readers_room: Vec<(u32, Option<Kept<'a, R, H>>)>,
    writers_room: Vec<(u32, Option<Kept<'a, W, H>>)>,
) -> (Lent<'a, R, W, I, O, H>, Homes<R, W>)
    requires no_readers { readers_room.items ≡ [] }
    requires no_writers { writers_room.items ≡ [] }
    requires readers_fit { vec_len ends.readers ≤ vec_capacity readers_room }
    requires writers_fit { vec_len ends.writers ≤ vec_capacity writers_room }
    ensures readers { result.0.readers.items ≡ lent_of ends.readers.items }
    ensures writers { result.0.writers.items ≡ lent_of ends.writers.items }
    ensures input { result.0.input ≡ Some ends.input }
    ensures out { result.0.out ≡ Some ends.out }
    ensures no_readers { result.1.readers.items ≡ [] }
    ensures no_writers { result.1.writers.items ≡ [] }
    ensures readers_fit { vec_len ends.readers ≤ vec_capacity result.1.readers }
    ensures writers_fit { vec_len ends.writers ≤ vec_capacity result.1.writers }
{
    let Ends {
        mut readers,
        mut writers,
        input,
        out,
    } = ends;
    let lent = Ends {
        readers: lend_each(rt, &mut readers, readers_room),
        writers: lend_each(rt, &mut writers, writers_room),
        input: Some(Kept::new(rt, input)),
        out: Some(Kept::new(rt, out)),
    };
    (lent, Homes { readers, writers })
}

/// Takes all ends out of their list.
fn lend_each<'a, End, H: Wait>(
    rt: &'a H,
    ends: &mut Vec<(u32, End)>,
    room: Vec<(u32, Option<Kept<'a, End, H>>)>,
) -> Vec<(u32, Option<Kept<'a, End, H>>)>
    requires none { room.items ≡ [] }
    requires fit { vec_len ends.old ≤ vec_capacity room }
    ensures lent { result.items ≡ lent_of ends.old.items }
    ensures none { ends.new.items ≡ [] }
    ensures fit { vec_len ends.old ≤ vec_capacity ends.new }
{
    let mut lent = room;
    // The last is taken first.
    ends.reverse();
    while let Some((number, end)) = ends.pop() {
        lent.push_reserved((number, Some(Kept::new(rt, end))));
    }
    lent
}

/// The ends, all of which are back in their places.
pub(crate) fn give_back<'a, R, W, I, O, H: Wait>(
    lent: Lent<'a, R, W, I, O, H>,
    homes: Homes<R, W>,
) -> Ends<R, W, I, O>
    requires back { AreAllBack lent }
    requires no_readers { homes.readers.items ≡ [] }
    requires no_writers { homes.writers.items ≡ [] }
    requires readers_fit { vec_len lent.readers ≤ vec_capacity homes.readers }
    requires writers_fit { vec_len lent.writers ≤ vec_capacity homes.writers }
    ensures readers { lent.entry.readers.items ≡ lent_of result.readers.items }
    ensures writers { lent.entry.writers.items ≡ lent_of result.writers.items }
    ensures input { lent.entry.input ≡ Some result.input }
    ensures out { lent.entry.out ≡ Some result.out }
{
    let Ends {
        readers: lent_readers,
        writers: lent_writers,
        input,
        out,
    } = lent;
    let Homes {
        mut readers,
        mut writers,
    } = homes;
    give_back_each(lent_readers, &mut readers);
    give_back_each(lent_writers, &mut writers);
    Ends {
        readers,
        writers,
        input: back(input),
        out: back(out),
    }
}

/// An end that is back.
fn back<'a, End, H: Wait>(held: Option<Kept<'a, End, H>>) -> End
    requires { is_some held ≡ true }
    ensures { held.entry ≡ Some result }
{
    match held {
        Some(end) => end.into_end(),
        None => unreachable!(),
    }
}

/// Puts all ends back into their list.
fn give_back_each<'a, End, H: Wait>(
    lent: Vec<(u32, Option<Kept<'a, End, H>>)>,
    home: &mut Vec<(u32, End)>,
)
    requires back { are_back lent.items ≡ true }
    requires none { home.old.items ≡ [] }
    requires fit { vec_len lent ≤ vec_capacity home.old }
    ensures { lent.entry.items ≡ lent_of home.new.items }
{
    for entry in lent {
        let (number, end) = entry;
        match end {
            Some(end) => home.push_reserved((number, end.into_end())),
            None => unreachable!(),
        }
    }
}
