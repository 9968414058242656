// The table of all pairs of events of a small graph: one latest schedule for each event as the source. It stands above the analysis and knows it only by
// what it promises.
//     fill_table    the greatest t(t) − t(s) of every two events s and t, or the refusal with its place
// No caller is trusted. The promise is in specs/Table.antt.
#![tactic(auto)]

ghost use Rattle.std.specs.Prelude.{◌≡◌, ℕ, ◌*◌, ◌<◌, ◌≤◌, pos, length, get_or};
ghost use Rattle.integers.specs.Within.{Within};
ghost use Rattle.graphs.specs.Lists.{graph_in};
ghost use Rattle.table.specs.Table.{TableAnswered};
ghost use Rattle.table.specs.Parts.Rows.{RowCopied, RowAnswered};

use graphs::GraphLists;
use refusals::Refusal;

// What a table is for: the events and the rules of a text.
const MAX_EVENTS: usize = 64;

const MAX_RULES: usize = 1024;

// Row `from` of the table: the time of each event after that of `from`. All other places keep what they held.
// Kept: no twin of `deadlines::write_gaps`, which has no row; one function for both would take a place and a length more.
fn copy_row(n: usize, from: usize, times: &[i64], table: &mut [i64])
    requires in_bounds { (from < n) × (n ≤ 64) × (length times.now ≡ 64) × (n * 64 ≤ length table.old) }
    requires within { (v : ℕ) → v < n → Within 1023000000 (get_or times.now v (pos 0)) }
    ensures { RowCopied n from times.now table.old table.new }
{
    let base = times[from];
    let row = from * 64;
    // Kept: tried as a zip; the proof did not close: after `iter_mut().zip(..)` no element of the list is known.
    for v in 0..n {
        table[row + v] = times[v] - base;
    }
}

// The same, of the latest schedule against `from`; or the refusal.
fn fill_row(lists: &GraphLists<'_>, from: usize, table: &mut [i64]) -> Result<(), Refusal>
    requires { (from < lists.now.events) × (lists.now.events ≤ 64) × (length lists.now.sources.now ≤ 1024) × (lists.now.events * 64 ≤ length table.old) }
    ensures { RowAnswered (graph_in lists.now) from result table.old table.new }
{
    // Kept: two lists of fixed size, on the stack: the project has no heap.
    let mut times = [0i64; MAX_EVENTS];
    let mut delays = [0i64; MAX_RULES];
    separation::schedule(lists, from, from, &mut times, &mut delays)?;
    copy_row(lists.events, from, &times, table);
    Ok(())
}

// The table, 64 places a row. All other places keep what they held; refused, all do.
pub fn fill_table(lists: &GraphLists<'_>, table: &mut [i64]) -> Result<(), Refusal>
    ensures { TableAnswered (graph_in lists.now) table.old result table.new }
{
    refusals::check_counts(lists, MAX_EVENTS, MAX_RULES)?;
    if table.len() < lists.events * 64 {
        return Err(Refusal::ShortList);
    }
    for from in 0..lists.events {
        fill_row(lists, from, table)?;
    }
    Ok(())
}
