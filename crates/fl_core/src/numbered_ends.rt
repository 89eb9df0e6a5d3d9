//! The ends of nodes in lists, as ends by the numbers of nodes.
ghost use Rattle.std.specs.Prelude.{◌≡◌, ◌==◌, ℕ, ◌<◌, false, true, length, is_some};
ghost use Rattle.std.specs.Option.{option_and_then, option_map_or};
ghost use Rattle.ps_world.specs.Counts.{Counts};
ghost use Rattle.fl_net.specs.NodeEnds.{DidRead, DidWrite};
ghost use Rattle.fl_core.specs.EndLists.{end_in, numbers_of, left_by, taken_by, faults_by};
ghost use Rattle.fl_core.specs.Roles.{AreApart, Kept, end_by, is_read, is_written, kept, role_at as role_at_def};

use crate::end_lists::Ends;
use crate::roles::{Role, role_at};
use fl_net::NodeEnds;
use ps_world::{Sink, Source, WorldErr, write_all};

/// The ends of a graph's nodes, and which of them each node has.
pub(crate) struct NumberedEnds<R, W, I, O> {
    pub(crate) ends: Ends<R, W, I, O>,
    pub(crate) roles: Vec<Role>,
    ghost apart: { AreApart roles.items },
}

impl<R: Source, W: Sink, I: Source, O: Sink> NodeEnds for NumberedEnds<R, W, I, O> {
    ghost left = { λ numbered node. left_by R.left I.left (end_by (role_at_def numbered.roles.items node) numbered.ends) };

    ghost taken = { λ numbered node. taken_by W.taken O.taken (end_by (role_at_def numbered.roles.items node) numbered.ends) };

    ghost faults = { λ numbered node. faults_by R.faults W.faults I.faults O.faults (end_by (role_at_def numbered.roles.items node) numbered.ends) };

    ghost reads = { λ numbered node. is_read (end_by (role_at_def numbered.roles.items node) numbered.ends) };

    ghost writes = { λ numbered node. is_written (end_by (role_at_def numbered.roles.items node) numbered.ends) };

    ghost Kept = { Kept R W I O };

    ghost borrows = { λ numbered. kept numbered.roles.items numbered.ends };

    fn read(&mut self, node: u32, buffer: &mut [u8]) -> Result<usize, WorldErr> {
        let role = role_at(self.roles.as_slice(), node);
        read_end(&mut self.ends, role, buffer)
    }

    fn write_all(&mut self, node: u32, bytes: &[u8]) -> Result<(), WorldErr> {
        let role = role_at(self.roles.as_slice(), node);
        write_end(&mut self.ends, role, bytes)
    }
}

/// Reads from the end of a role.
fn read_end<R: Source, W: Sink, I: Source, O: Sink>(
    ends: &mut Ends<R, W, I, O>,
    role: Role,
    buffer: &mut [u8],
) -> Result<usize, WorldErr>
    requires reads { is_read (end_by role ends.old) ≡ true }
    ensures read { DidRead (left_by R.left I.left (end_by role ends.old)) (left_by R.left I.left (end_by role ends.new)) buffer.new result }
    ensures cause { Counts (faults_by R.faults W.faults I.faults O.faults (end_by role ends.old)) (faults_by R.faults W.faults I.faults O.faults (end_by role ends.new)) result }
    ensures others { (other : Role) → (other ≡ role → ⊥) → end_by other ends.new ≡ end_by other ends.old }
    ensures reads { is_read (end_by role ends.new) ≡ true }
    ensures readers { numbers_of ends.new.readers.items ≡ numbers_of ends.old.readers.items }
    ensures writers { numbers_of ends.new.writers.items ≡ numbers_of ends.old.writers.items }
{
    match role {
        Role::Input => ends.input.read(buffer),
        Role::Reader(place) => read_at(ends.readers.as_mut_slice(), place, buffer),
        // No such end is read.
        _ => Err(WorldErr::Memory),
    }
}

/// Reads from the reader at a place.
fn read_at<R: Source>(
    readers: &mut [(u32, R)],
    place: usize,
    buffer: &mut [u8],
) -> Result<usize, WorldErr>
    requires { place < length readers.old }
    ensures read { DidRead (option_and_then R.left (end_in readers.old place)) (option_and_then R.left (end_in readers.new place)) buffer.new result }
    ensures cause { Counts (option_map_or R.faults (end_in readers.old place) 0) (option_map_or R.faults (end_in readers.new place) 0) result }
    ensures others { (other : ℕ) → (other == place) ≡ false → end_in readers.new other ≡ end_in readers.old other }
    ensures there { is_some (end_in readers.new place) ≡ true }
    ensures numbers { numbers_of readers.new ≡ numbers_of readers.old }
{
    readers[place].1.read(buffer)
}

/// Writes all of `bytes` to the end of a role.
fn write_end<R: Source, W: Sink, I: Source, O: Sink>(
    ends: &mut Ends<R, W, I, O>,
    role: Role,
    bytes: &[u8],
) -> Result<(), WorldErr>
    requires writes { is_written (end_by role ends.old) ≡ true }
    ensures written { DidWrite (taken_by W.taken O.taken (end_by role ends.old)) (taken_by W.taken O.taken (end_by role ends.new)) bytes.now result }
    ensures cause { Counts (faults_by R.faults W.faults I.faults O.faults (end_by role ends.old)) (faults_by R.faults W.faults I.faults O.faults (end_by role ends.new)) result }
    ensures others { (other : Role) → (other ≡ role → ⊥) → end_by other ends.new ≡ end_by other ends.old }
    ensures writes { is_written (end_by role ends.new) ≡ true }
    ensures readers { numbers_of ends.new.readers.items ≡ numbers_of ends.old.readers.items }
    ensures writers { numbers_of ends.new.writers.items ≡ numbers_of ends.old.writers.items }
{
    match role {
        Role::Output => write_all(&mut ends.out, bytes),
        Role::Writer(place) => write_at(ends.writers.as_mut_slice(), place, bytes),
        // No such end is written.
        _ => Err(WorldErr::Memory),
    }
}

/// Writes all of `bytes` to the writer at a place.
fn write_at<W: Sink>(writers: &mut [(u32, W)], place: usize, bytes: &[u8]) -> Result<(), WorldErr>
    requires { place < length writers.old }
    ensures written { DidWrite (option_and_then W.taken (end_in writers.old place)) (option_and_then W.taken (end_in writers.new place)) bytes.now result }
    ensures cause { Counts (option_map_or W.faults (end_in writers.old place) 0) (option_map_or W.faults (end_in writers.new place) 0) result }
    ensures others { (other : ℕ) → (other == place) ≡ false → end_in writers.new other ≡ end_in writers.old other }
    ensures there { is_some (end_in writers.new place) ≡ true }
    ensures numbers { numbers_of writers.new ≡ numbers_of writers.old }
{
    write_all(&mut writers[place].1, bytes)
}
