//! The ranges of cut as runs of neighbouring places, all selected or none.
ghost use Rattle.std.specs.Prelude.{◌≡◌, ◌<◌, ◌≤◌, ◌+◌, ℕ, true, IfOk, IfSome};
ghost use Rattle.ut_slices.specs.Cut.{is_selected as is_selected_def, range_has as range_has_def};
ghost use Rattle.ut_slices.specs.Inner.Runs.{in_runs, is_before};

use crate::selections::{Run, Runs};
use ps_lines::Memory;
use std::alloc::Global;
use ut_args::Range;

/// The runs of ranges.
pub(crate) fn runs_of(alloc: Global, ranges: &[Range]) -> Result<Runs, Memory>
    ensures { IfOk result (λ runs. (index : ℕ) → in_runs runs.runs.items runs.rest index ≡ is_selected_def ranges.now index) }
{
    let mut runs = Vec::new(alloc);
    let mut from = 0;
    while let Some(end) = next_end(ranges, from) {
        runs.push(Run {
            selected: is_selected(ranges, from),
            count: end - from,
        })?;
        from = end;
    }
    Ok(Runs {
        runs,
        rest: is_selected(ranges, from),
    })
}

/// Whether some range has the place, counted from 0.
fn is_selected(ranges: &[Range], index: u64) -> bool
    ensures { result ≡ is_selected_def ranges.now index }
{
    let mut left = ranges;
    while let [range, others @ ..] = left {
        if range_has(*range, index) {
            return true;
        }
        left = others;
    }
    false
}

fn range_has(range: Range, index: u64) -> bool
    ensures { result ≡ range_has_def range (index + 1) }
{
    if range.from > 0 && range.from - 1 > index {
        return false;
    }
    match range.to {
        None => true,
        Some(to) => index < to,
    }
}

/// The next place at which a range begins or has ended: up to there all are selected as this one is.
fn next_end(ranges: &[Range], from: u64) -> Option<u64>
    ensures later { IfSome result (λ end. from < end) }
    ensures same { (index : ℕ) → from ≤ index → is_before index result ≡ true → is_selected_def ranges.now index ≡ is_selected_def ranges.now from }
{
    let mut end = None;
    let mut left = ranges;
    while let [range, others @ ..] = left {
        end = end_before(*range, from, end);
        left = others;
    }
    end
}

/// The same of one range, and of what was found for others.
fn end_before(range: Range, from: u64, end: Option<u64>) -> Option<u64>
    requires later { IfSome end (λ end. from < end) }
    ensures later { IfSome result (λ end. from < end) }
    ensures before { (index : ℕ) → is_before index result ≡ true → is_before index end ≡ true }
    ensures same { (index : ℕ) → from ≤ index → is_before index result ≡ true → range_has_def range (index + 1) ≡ range_has_def range (from + 1) }
{
    let begun = earlier(range.from.saturating_sub(1), from, end);
    match range.to {
        None => begun,
        Some(to) => earlier(to, from, begun),
    }
}

/// The earlier of two places, of which the first counts where it stands behind `from`.
fn earlier(place: u64, from: u64, end: Option<u64>) -> Option<u64>
    requires later { IfSome end (λ end. from < end) }
    ensures later { IfSome result (λ end. from < end) }
    ensures before { (index : ℕ) → is_before index result ≡ true → is_before index end ≡ true }
    ensures place { from < place → (index : ℕ) → is_before index result ≡ true → index < place }
{
    if place <= from {
        return end;
    }
    match end {
        None => Some(place),
        Some(end) => Some(end.min(place)),
    }
}
