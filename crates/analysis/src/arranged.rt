// The analysis of a graph whose counts are right.
//     analyse_within     the whole of it, in working lists of a given size
//     arrange            the order, or the lowest event on a cycle
//     analyse_arranged   what follows once the events are in order
//     find_latest        m and U
//     input_refusal      the refusal of a question that names what is not there, or has a delay out of range
// Kept: `chains` and `order` are two parameters, and no struct: what `ArrangedIn` says of them holds the rank of each event, which is data, and a ghost field
// holds propositions only.
ghost use Rattle.std.specs.Prelude.{◌<◌, ◌≤◌, length};
ghost use Rattle.graphs.specs.Lists.{graph_in};
ghost use Rattle.graphs.specs.Limits.{CountsKept, Sized, EventGraph};
ghost use Rattle.graphs.specs.Refusal.{question_checks_to};
ghost use Rattle.refusals.specs.Numbers.{Refuses};
ghost use Rattle.refusals.specs.Question.{delay_limit};
ghost use Rattle.analysis.specs.Promise.{Analysed};
ghost use Rattle.analysis.specs.Parts.Latest.{LatestFound, DepthsFound};
ghost use Rattle.analysis.specs.Parts.Arranged.{PathsAnalysed, InputKept};
ghost use Rattle.analysis.specs.Parts.InChains.{FirstReadyIn, ArrangedIn, ArrangedOr};

use crate::Depths;
use crate::chains::Chains;
use crate::cycles::lowest_on_cycle;
use crate::latest::find_u;
use crate::order::order_events;
use crate::paths::find_m;
use crate::reach::lowest_unreached;
use crate::rules::take_rules;
use graphs::GraphLists;
use refusals::Refusal;

// m, and then U in its place, into `latest`; and the depths.
fn find_latest(chains: &Chains<'_>, order: &[u16], s: usize, depth: &mut [u16], latest: &mut [i32])
    requires arranged { ArrangedIn chains.now order.now × EventGraph 1001000 (graph_in chains.now.lists) }
    requires in_bounds { (s < chains.now.lists.events) × (chains.now.lists.events ≤ length depth.old) × (chains.now.lists.events ≤ length latest.old) }
    ensures { LatestFound (graph_in chains.now.lists) s latest.old latest.new × DepthsFound (graph_in chains.now.lists) depth.new }
{
    find_m(chains, order, s, latest);
    depth[0] = 0;
    find_u(chains, order, latest, depth);
}

// Refusal 6, or both depths; then `latest` holds U of every event.
fn analyse_arranged(
    chains: &Chains<'_>,
    order: &[u16],
    s: usize,
    t: usize,
    depth: &mut [u16],
    latest: &mut [i32],
) -> Result<Depths, Refusal>
    requires arranged { ArrangedIn chains.now order.now × Sized 1001000 (graph_in chains.now.lists) }
    requires in_bounds { (s < chains.now.lists.events) × (t < chains.now.lists.events) × (chains.now.lists.events ≤ length depth.old) × (chains.now.lists.events ≤ length latest.old) }
    ensures { PathsAnalysed (graph_in chains.now.lists) s t latest.old latest.new result }
{
    // A copy: behind a reference, the writes to the lists could change it, and each turn of a loop would read it again.
    let chains = *chains;
    if let Some(event) = lowest_unreached(&chains, order, depth) {
        return Err(Refusal::Unreached(event));
    }
    find_latest(&chains, order, s, depth, latest);
    Ok(Depths {
        source: usize::from(depth[s]),
        target: usize::from(depth[t]),
    })
}

// The refusal of a question in which something is wrong before any path is looked at.
pub(crate) fn input_refusal(lists: &GraphLists<'_>, limit: usize, s: usize, t: usize) -> Refusal
    requires { InputKept limit (graph_in lists.now) s t → ⊥ }
    ensures { Refuses {T = Unit {0}} (question_checks_to (delay_limit limit) (graph_in lists.now) s t ⊥) (Err result) }
{
    refusals::check_input(lists, limit, s, t).unwrap_err()
}

// Orders the events, from the sinks on; or refusal 5, where the graph has a cycle.
fn arrange(chains: &Chains<'_>, waiting: &mut [u16], order: &mut [u16]) -> Result<(), Refusal>
    requires { FirstReadyIn chains.now waiting.old order.old }
    ensures { ArrangedOr chains.now order.new result }
{
    // A copy, as in `analyse_arranged`.
    let chains = *chains;
    if order_events(&chains, waiting, order) {
        return Ok(());
    }
    let event = lowest_on_cycle(&chains).unwrap();
    Err(Refusal::Cycle(event))
}

// Refusal 2, 3, 5 or 6, or both depths; then `latest` holds U of every event. The working lists have places for EVENTS events and RULES rules.
pub(crate) fn analyse_within<const EVENTS: usize, const RULES: usize>(
    lists: &GraphLists<'_>,
    limit: usize,
    s: usize,
    t: usize,
    latest: &mut [i32],
) -> Result<Depths, Refusal>
    requires counts_kept { CountsKept (graph_in lists.now) × (s < lists.now.events) × (t < lists.now.events) × (lists.now.events ≤ length latest.old) }
    requires room { (lists.now.events ≤ EVENTS) × (EVENTS ≤ 1024) × (length lists.now.sources.now ≤ RULES) × (RULES ≤ 4096) }
    ensures { Analysed limit (graph_in lists.now) s t latest.old latest.new result }
{
    // Kept: working lists of fixed size, on the stack: the project has no heap.
    let mut heads = [0u16; EVENTS];
    let mut nexts = [0u16; RULES];
    let mut waiting = [0u16; EVENTS];
    let mut order = [0u16; EVENTS];
    let mut depth = [0u16; EVENTS];
    let bound = refusals::delay_limit(limit);
    if !take_rules(lists, bound, &mut heads, &mut nexts, &mut waiting) {
        return Err(input_refusal(lists, limit, s, t));
    }
    let chains = Chains {
        lists: *lists,
        heads: &heads,
        nexts: &nexts,
    };
    arrange(&chains, &mut waiting, &mut order)?;
    analyse_arranged(&chains, &order, s, t, &mut depth, latest)
}
