// The lists that are written, one place a turn.
ghost use Rattle.std.specs.Prelude.{◌≡◌, ℕ, ◌<◌, ◌≤◌, pos, length};
ghost use Rattle.sequences.specs.Filled.{Filled};
ghost use Rattle.deadlines.specs.Parts.Rounds.{NumbersWithin};
ghost use Rattle.deadlines.specs.Parts.Lists.{GapAt, DifferenceAt, RuleTimed};

use graphs::GraphLists;

// The number of each event less that of s.
// Kept: no twin of `table::copy_row`, which writes into a row; one function for both would take a place and a length more.
pub(crate) fn write_gaps(n: usize, s: usize, numbers: &[i64], gaps: &mut [i64])
    requires in_bounds { (s < n) × (n ≤ length numbers.now) × (n ≤ length gaps.old) }
    requires numbers_within { NumbersWithin n numbers.now }
    ensures { Filled (pos 0) n (GapAt numbers.now s) gaps.old gaps.new }
{
    let base = numbers[s];
    // Kept: tried as a zip; the proof did not close: after `iter_mut().zip(..)` no element of the list is known.
    for v in 0..n {
        gaps[v] = numbers[v] - base;
    }
}

// The delay of each rule: the difference of its two times.
pub(crate) fn write_differences(lists: &GraphLists<'_>, times: &[i64], delays: &mut [i64])
    requires lengths { (length lists.now.targets.now ≡ length lists.now.sources.now) × (length lists.now.sources.now ≤ 4096) × (length lists.now.sources.now ≤ length delays.old) }
    requires timed { (i : ℕ) → i < length lists.now.sources.now → RuleTimed lists.now.sources.now lists.now.targets.now times.now i }
    ensures { Filled (pos 0) (length lists.now.sources.now) (DifferenceAt lists.now.sources.now lists.now.targets.now times.now) delays.old delays.new }
{
    for i in 0..lists.sources.len() {
        delays[i] = times[lists.targets[i]] - times[lists.sources[i]];
    }
}
