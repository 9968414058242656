// The entry of the schedule.
ghost use Rattle.graphs.specs.Graph.{graph_of};
ghost use Rattle.separation.specs.Promise.{Answered, ShortLists, Written};
ghost use Rattle.crankforest.specs.Entries.{answer_of};

use graphs::GraphLists;
use separation::Answer;

// The same, and the whole latest schedule against s in the two lent lists.
// Kept: an entry's parameters stay one by one, and its answer numbers: the C interface.
#[unsafe(no_mangle)]
pub extern "C" fn crankforest_schedule(
    n: usize,
    sources: &[usize],
    targets: &[usize],
    leasts: &[i64],
    mosts: &[i64],
    s: usize,
    t: usize,
    times: &mut [i64],
    delays: &mut [i64],
    place: &mut usize,
    separation: &mut i64,
    source_depth: &mut usize,
    target_depth: &mut usize,
) -> usize
    ensures answered { Answered (graph_of n sources.now targets.now leasts.now mosts.now) s t (ShortLists (graph_of n sources.now targets.now leasts.now mosts.now) times.old delays.old) (answer_of result place.new separation.new source_depth.new target_depth.new) }
    ensures written { Written (graph_of n sources.now targets.now leasts.now mosts.now) s (answer_of result place.new separation.new source_depth.new target_depth.new) times.old delays.old times.new delays.new }
{
    let lists = GraphLists {
        events: n,
        sources,
        targets,
        leasts,
        mosts,
    };
    let answer = Answer::from(separation::schedule(&lists, s, t, times, delays));
    *place = answer.place;
    *separation = answer.separation;
    *source_depth = answer.source_depth;
    *target_depth = answer.target_depth;
    answer.refusal
}
