//! The ends that are with their nodes.
ghost use Rattle.std.specs.Prelude.{◌≡◌, ◌==◌, ◌<◌, ℕ, None, Some, length, map, true, false, vec_len};
ghost use Rattle.fl_core.specs.EndLists.{end_in, numbers_of};
ghost use Rattle.fl_core.specs.Roles.{AreApart, is_same, is_used};
ghost use Rattle.fl_runner.specs.Lent.{end_with, fits, held_by, held_in, kind_with};
ghost use Rattle.fl_threads.specs.Threads.{EachOf};

use fl_core::{Ends, Role};
use fl_nodes::{Inlet, Own};
use ps_world::{Sink, Source};

/// Takes the end of this role from its place, for its node.
pub(crate) fn take_own<R, W, I, O>(
    lent: &mut Ends<Option<R>, Option<W>, Option<I>, Option<O>>,
    role: Role,
) -> Own<R, W, I, O>
    ensures own { end_with result ≡ held_by role lent.old }
    ensures others { (other : Role) → is_same other role ≡ false → held_by other lent.new ≡ held_by other lent.old }
    ensures readers { numbers_of lent.new.readers.items ≡ numbers_of lent.old.readers.items }
    ensures writers { numbers_of lent.new.writers.items ≡ numbers_of lent.old.writers.items }
{
    match role {
        Role::Nothing => Own::Nothing,
        Role::Input => match lent.input.take() {
            Some(input) => Own::Input(Inlet::new(input)),
            None => Own::Nothing,
        },
        Role::Output => match lent.out.take() {
            Some(out) => Own::Output(out),
            None => Own::Nothing,
        },
        Role::Reader(place) => match take_at(&mut lent.readers, place) {
            Some(reader) => Own::Reader(Inlet::new(reader)),
            None => Own::Nothing,
        },
        Role::Writer(place) => match take_at(&mut lent.writers, place) {
            Some(writer) => Own::Writer(writer),
            None => Own::Nothing,
        },
    }
}

/// Takes the end at this place, where it is there.
fn take_at<End>(lent: &mut Vec<(u32, Option<End>)>, place: usize) -> Option<End>
    ensures end { result ≡ held_in lent.old.items place }
    ensures others { (other : ℕ) → (other == place) ≡ false → end_in lent.new.items other ≡ end_in lent.old.items other }
    ensures numbers { numbers_of lent.new.items ≡ numbers_of lent.old.items }
{
    if place >= lent.len() {
        return None;
    }
    lent[place].1.take()
}

/// Puts the ends of nodes back into the places of their roles, in order.
pub(crate) fn put_owns<R: Source + Drop, W: Sink + Drop, I: Source + Drop, O: Sink + Drop>(
    lent: &mut Ends<Option<R>, Option<W>, Option<I>, Option<O>>,
    roles: &[Role],
    owns: Vec<Own<R, W, I, O>>,
)
    requires apart { AreApart roles.now }
    requires fit { EachOf (λ role own. fits (length lent.old.readers.items) (length lent.old.writers.items) role (kind_with own) ≡ true) roles.now owns.items }
    ensures ends { map (λ role. held_by role lent.new) roles.now ≡ map end_with owns.items }
    ensures others { (role : Role) → is_used roles.now role ≡ false → held_by role lent.new ≡ held_by role lent.old }
    ensures readers { numbers_of lent.new.readers.items ≡ numbers_of lent.old.readers.items }
    ensures writers { numbers_of lent.new.writers.items ≡ numbers_of lent.old.writers.items }
{
    let mut node = 0;
    for own in owns {
        put_own(lent, roles[node], own);
        node += 1;
    }
}

/// Puts an end back into the place of its role.
fn put_own<R: Source + Drop, W: Sink + Drop, I: Source + Drop, O: Sink + Drop>(
    lent: &mut Ends<Option<R>, Option<W>, Option<I>, Option<O>>,
    role: Role,
    own: Own<R, W, I, O>,
)
    requires { fits (length lent.old.readers.items) (length lent.old.writers.items) role (kind_with own) ≡ true }
    ensures end { held_by role lent.new ≡ end_with own }
    ensures others { (other : Role) → is_same other role ≡ false → held_by other lent.new ≡ held_by other lent.old }
    ensures readers { numbers_of lent.new.readers.items ≡ numbers_of lent.old.readers.items }
    ensures writers { numbers_of lent.new.writers.items ≡ numbers_of lent.old.writers.items }
{
    match role {
        Role::Nothing => {}
        Role::Input => match own {
            Own::Input(inlet) => lent.input = Some(inlet.into_end()),
            _ => unreachable!(),
        },
        Role::Output => match own {
            Own::Output(out) => lent.out = Some(out),
            _ => unreachable!(),
        },
        Role::Reader(place) => match own {
            Own::Reader(inlet) => put_at(&mut lent.readers, place, inlet.into_end()),
            // Its role has no place, and it no end.
            _ => {}
        },
        Role::Writer(place) => match own {
            Own::Writer(writer) => put_at(&mut lent.writers, place, writer),
            _ => {}
        },
    }
}

/// Puts an end at this place.
fn put_at<End: Drop>(lent: &mut Vec<(u32, Option<End>)>, place: usize, end: End)
    requires { place < vec_len lent.old }
    ensures end { held_in lent.new.items place ≡ Some end }
    ensures others { (other : ℕ) → (other == place) ≡ false → end_in lent.new.items other ≡ end_in lent.old.items other }
    ensures numbers { numbers_of lent.new.items ≡ numbers_of lent.old.items }
{
    lent[place].1 = Some(end);
}
