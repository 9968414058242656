// The entry of claims.
ghost use Rattle.graphs.specs.Graph.{graph_of};
ghost use Rattle.claims.specs.Claim.{JudgedAs};
ghost use Rattle.crankforest.specs.Entries.{judged_of};

use claims::Numbers;
use graphs::GraphLists;

// The judgement on a claimed gap between s and t with its two lists: verdict 1, it equals our maximum; 2, it lies below; 3, `event` is broken; 4, the number
// differs.
// Kept: an entry's parameters stay one by one, and its answer numbers: the C interface.
#[unsafe(no_mangle)]
pub extern "C" fn crankforest_judge(
    n: usize,
    sources: &[usize],
    targets: &[usize],
    leasts: &[i64],
    mosts: &[i64],
    s: usize,
    t: usize,
    claimed: i64,
    times: &[i64],
    delays: &[i64],
    place: &mut usize,
    verdict: &mut usize,
    event: &mut usize,
) -> usize
    ensures { JudgedAs (graph_of n sources.now targets.now leasts.now mosts.now) s t claimed times.now delays.now (judged_of result place.new verdict.new event.new) }
{
    let lists = GraphLists {
        events: n,
        sources,
        targets,
        leasts,
        mosts,
    };
    let numbers = Numbers::from(claims::judge(&lists, s, t, claimed, times, delays));
    *place = numbers.place;
    *verdict = numbers.verdict;
    *event = numbers.event;
    numbers.refusal
}
