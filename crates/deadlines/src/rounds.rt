// Rounds over the rules until nothing changes.
//     settle         the rounds, n at most
//     round          each rule once
//     hold_rule      a rule, both ways
//     hold           one of the two
//     above_floor    whether no number was cut off
// A rule is held by lowering: its target comes at most its most delay after its source, and its source at most −(its least delay) after its target. The
// numbers fall no further than FLOOR, which is below the least possible answer, so that no sum can overflow whatever the graph.
ghost use Rattle.std.specs.Prelude.{◌≡◌, ◌<◌, ◌≤◌, length};
ghost use Rattle.integers.specs.Within.{Within};
ghost use Rattle.graphs.specs.Graph.{source, target, least, most};
ghost use Rattle.graphs.specs.Limits.{Sized, EventGraph};
ghost use Rattle.graphs.specs.Lists.{graph_in};
ghost use Rattle.separation.specs.Promise.{at};
ghost use Rattle.deadlines.specs.Parts.Rounds.{NumbersWithin, ArcHeld, RuleHeld, RulesHeld, FloorChecked};
ghost use Rattle.deadlines.specs.Parts.Gaps.{Settled};

use graphs::GraphLists;

const FLOOR: i64 = -2046000001;

// Lowers the number of `to` to that of `from` and `weight`, but not below the floor. Whether it was lowered.
fn hold(from: usize, to: usize, weight: i64, numbers: &mut [i64]) -> bool
    requires in_bounds { (from < length numbers.old) × (to < length numbers.old) }
    requires within { Within 1000000 weight × Within 2046000001 (at numbers.old from) }
    ensures { ArcHeld from to weight numbers.old numbers.new result }
{
    let bound = (numbers[from] + weight).max(FLOOR);
    if bound < numbers[to] {
        numbers[to] = bound;
        return true;
    }
    false
}

// Holds rule i both ways. Whether a number was lowered.
fn hold_rule(lists: &GraphLists<'_>, i: usize, numbers: &mut [i64]) -> bool
    requires sized { Sized 1000000 (graph_in lists.now) }
    requires rule_known { i < length lists.now.sources.now }
    requires n_in_bounds { (lists.now.events ≤ length numbers.old) × NumbersWithin lists.now.events numbers.old }
    ensures { RuleHeld (source (graph_in lists.now) i) (target (graph_in lists.now) i) (least (graph_in lists.now) i) (most (graph_in lists.now) i) numbers.old numbers.new result }
{
    let source = lists.sources[i];
    let target = lists.targets[i];
    let forth = hold(source, target, lists.mosts[i], numbers);
    let back = hold(target, source, -lists.leasts[i], numbers);
    forth | back
}

// Holds each rule once. Whether a number was lowered.
fn round(lists: &GraphLists<'_>, numbers: &mut [i64]) -> bool
    requires sized { Sized 1000000 (graph_in lists.now) }
    requires n_in_bounds { (lists.now.events ≤ length numbers.old) × NumbersWithin lists.now.events numbers.old }
    ensures { RulesHeld (graph_in lists.now) (length lists.now.sources.now) numbers.old numbers.new result }
{
    // Kept: no `any`, which would end at the first rule that lowers a number.
    let mut changed = false;
    for i in 0..lists.sources.len() {
        changed |= hold_rule(lists, i, numbers);
    }
    changed
}

// Whether the number of each event is above the floor.
fn above_floor(n: usize, numbers: &[i64]) -> bool
    requires { n ≤ length numbers.now }
    ensures { FloorChecked n numbers.now result }
{
    numbers[..n].iter().all(|number| *number > FLOOR)
}

// Rounds until nothing changes: then the numbers meet every rule. False where there are no hard times: the n-th round still changes something, or a number was
// cut off.
pub(crate) fn settle(lists: &GraphLists<'_>, numbers: &mut [i64]) -> bool
    requires event_graph { EventGraph 1000000 (graph_in lists.now) }
    requires n_in_bounds { (lists.now.events ≤ length numbers.old) × NumbersWithin lists.now.events numbers.old }
    ensures { Settled (graph_in lists.now) numbers.old numbers.new result }
{
    for _ in 0..lists.events {
        if !round(lists, numbers) {
            return above_floor(lists.events, numbers);
        }
    }
    false
}
