// The lowest event that lies on a cycle. An event lies on one exactly if, going back along rules from it, one comes to it again: so from each event in
// turn, the lowest first, all events that lead to it are marked. It is asked only where the order of the events shows that there is a cycle.
//     lowest_on_cycle    the lowest event that lies on a cycle
//     on_cycle           whether an event does
//     mark_sources       one step back from an event
ghost use Rattle.std.specs.Prelude.{◌<◌, ◌≤◌, length};
ghost use Rattle.verdicts.specs.Verdict.{LowestIn};
ghost use Rattle.analysis.specs.Parts.Cycles.{Listing};
ghost use Rattle.analysis.specs.Parts.InChains.{MarkedIn, LiesOnIn, LiesOffIn, CycleAtIn};

use crate::MAX_EVENTS;
use crate::chains::Chains;

// Marks the sources of the rules into `event`, and lists those that were not marked. The answer is how many events are listed.
// Kept: the list has its end beside it; it is fixed memory, with no heap.
fn mark_sources(
    chains: &Chains<'_>,
    event: usize,
    seen: &mut [bool],
    list: &mut [u16],
    listed: usize,
) -> usize
    requires in_bounds { (event < chains.now.lists.events) × (chains.now.lists.events ≤ length seen.old) × (length seen.old ≤ 1024) × (length seen.old ≤ length list.old) }
    requires listing { Listing seen.old list.old listed }
    ensures { MarkedIn chains.now event seen.old list.old listed seen.new list.new result }
{
    let mut end = listed;
    for rule in chains.rules_into(event) {
        let source = chains.lists.sources[rule];
        if !seen[source] {
            seen[source] = true;
            list[end] = source as u16;
            end += 1;
        }
    }
    end
}

// Whether event `v` lies on a cycle: whether it is marked once nothing new can be.
fn on_cycle(chains: &Chains<'_>, v: usize) -> bool
    requires { v < chains.now.lists.events }
    ensures { CycleAtIn chains.now v result }
{
    let mut seen = [false; MAX_EVENTS];
    let mut list = [0u16; MAX_EVENTS];
    let mut end = mark_sources(chains, v, &mut seen, &mut list, 0);
    let mut at = 0;
    // Kept: each turn may move the end, which no range does.
    while at < end {
        end = mark_sources(chains, usize::from(list[at]), &mut seen, &mut list, end);
        at += 1;
    }
    seen[v]
}

// The lowest event that lies on a cycle.
pub(crate) fn lowest_on_cycle(chains: &Chains<'_>) -> Option<usize>
    ensures { LowestIn chains.now.lists.events (LiesOffIn chains.now) (LiesOnIn chains.now) result }
{
    (0..chains.lists.events).find(|v| on_cycle(chains, *v))
}
