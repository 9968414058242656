// An order of the events from the sinks to the root, by Kahn's steps: an event is placed when all rules out of it have been served. The time is in
// proportion to the events and the rules.
// Kept: the list of the placed events has its end beside it, as `tail`; it is fixed memory, with no heap.
ghost use Rattle.std.specs.Prelude.{◌+◌, ◌<◌};
ghost use Rattle.analysis.specs.Parts.InChains.{FirstReadyIn, ServingIn, OrderedIn};

use crate::chains::Chains;

// Places the events that wait for no rule, and answers how many they are. What stands beyond the last of them is no event of the order.
fn place_first(chains: &Chains<'_>, waiting: &[u16], order: &mut [u16]) -> usize
    requires { FirstReadyIn chains.now waiting.now order.old }
    ensures { ServingIn chains.now waiting.now order.new result 0 }
{
    let mut tail = 0;
    for (v, left) in waiting[..chains.lists.events].iter().enumerate() {
        if *left == 0 {
            order[tail] = v as u16;
            tail += 1;
        }
    }
    tail
}

// Goes through the rules into the event at place `head`. A source that waits for no rule any more is placed, and the answer is how many are placed. The source
// is written to the next place always, and counts as placed only where nothing is left.
fn serve(
    chains: &Chains<'_>,
    waiting: &mut [u16],
    order: &mut [u16],
    tail: usize,
    head: usize,
) -> usize
    requires head_lt_tail { head < tail }
    requires serving { ServingIn chains.now waiting.old order.old tail head }
    ensures { ServingIn chains.now waiting.new order.new result (head + 1) }
{
    let mut end = tail;
    for rule in chains.rules_into(usize::from(order[head])) {
        let source = chains.lists.sources[rule];
        let left = waiting[source] - 1;
        waiting[source] = left;
        order[end] = source as u16;
        end += usize::from(left == 0);
    }
    end
}

// Serves every placed event, and answers how many are placed in the end.
fn serve_all(chains: &Chains<'_>, waiting: &mut [u16], order: &mut [u16], first: usize) -> usize
    requires { ServingIn chains.now waiting.old order.old first 0 }
    ensures { ServingIn chains.now waiting.new order.new result result }
{
    let mut tail = first;
    let mut head = 0;
    // Kept: each turn may move the end, which no range does.
    while head < tail {
        tail = serve(chains, waiting, order, tail, head);
        head += 1;
    }
    tail
}

// Writes the order into `order` and answers true, or answers false where the graph has a cycle. `waiting` counts the rules by source.
// Kept: a plain yes or no; where it is false, nobody reads what the lists hold.
pub(crate) fn order_events(chains: &Chains<'_>, waiting: &mut [u16], order: &mut [u16]) -> bool
    requires { FirstReadyIn chains.now waiting.old order.old }
    ensures { OrderedIn chains.now order.new result }
{
    let first = place_first(chains, waiting, order);
    let placed = serve_all(chains, waiting, order, first);
    placed == chains.lists.events
}
