// The schedule's two lists, written where the caller lends them.
ghost use Rattle.std.specs.Prelude.{◌≡◌, ℕ, ◌<◌, ◌≤◌, pos, ◌-ℤ◌, length, get_or};
ghost use Rattle.integers.specs.Within.{Within};
ghost use Rattle.executions.specs.Steps.{Lesser};
ghost use Rattle.sequences.specs.Filled.{Filled};
ghost use Rattle.separation.specs.Parts.Lists.{TimeAt, DelayAt, RuleTimed};

use graphs::GraphLists;

// x − y. It may pass 32 bits, so both are widened first.
// Kept: a name for two conversions and a difference; the library has no such difference, and it stands plainer than in the loop.
fn difference(x: i32, y: i32) -> i64
    requires { Within 2050048000 x × Within 2050048000 y }
    ensures { result ≡ x -ℤ y }
{
    i64::from(x) - i64::from(y)
}

// The time of each event, U(v) − U(root). `latest` holds U.
// Kept: no twin of `deadlines::write_gaps` and `table::copy_row`: here numbers of 32 bits are widened, and one function for all would ask more of its reader.
pub(crate) fn write_times(n: usize, latest: &[i32], times: &mut [i64])
    requires in_bounds { (1 ≤ n) × (n ≤ 1024) × (length latest.now ≡ 1024) × (n ≤ length times.old) }
    requires within { (v : ℕ) → v < n → Within 2050048000 (get_or latest.now v (pos 0)) }
    ensures { Filled (pos 0) n (TimeAt latest.now) times.old times.new }
{
    let root = latest[0];
    // Kept: tried as a zip; the proof did not close: after `iter_mut().zip(..)` no element of the list is known.
    for v in 0..n {
        times[v] = difference(latest[v], root);
    }
}

// The time from `start` to `end`, but not more than `most`.
// Kept: a name for `min` of a difference, so that the loop says what it writes.
fn capped(start: i64, end: i64, most: i64) -> i64
    requires { Within 4100096000 start × Within 4100096000 end }
    ensures { Lesser (end -ℤ start) most result }
{
    most.min(end - start)
}

// The delay of each rule: the time between its ends, but not more than its most delay.
pub(crate) fn write_delays(lists: &GraphLists<'_>, times: &[i64], delays: &mut [i64])
    requires lengths { (length lists.now.targets.now ≡ length lists.now.sources.now) × (length lists.now.mosts.now ≡ length lists.now.sources.now) × (length lists.now.sources.now ≤ 4096) × (length lists.now.sources.now ≤ length delays.old) }
    requires timed { (i : ℕ) → i < length lists.now.sources.now → RuleTimed lists.now.sources.now lists.now.targets.now lists.now.mosts.now times.now i }
    ensures { Filled (pos 0) (length lists.now.sources.now) (DelayAt lists.now.sources.now lists.now.targets.now lists.now.mosts.now times.now) delays.old delays.new }
{
    for i in 0..lists.sources.len() {
        let start = times[lists.sources[i]];
        let end = times[lists.targets[i]];
        delays[i] = capped(start, end, lists.mosts[i]);
    }
}
