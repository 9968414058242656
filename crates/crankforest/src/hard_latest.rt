// The entry of the schedule under hard deadlines.
ghost use Rattle.graphs.specs.Graph.{graph_of};
ghost use Rattle.separation.specs.Promise.{ShortLists};
ghost use Rattle.deadlines.specs.Promise.{HardAnswered, HardWritten};
ghost use Rattle.crankforest.specs.Entries.{hard_answer_of};

use deadlines::HardAnswer;
use graphs::GraphLists;

// The same, and the schedule that has every event as late against s as hard deadlines allow, in the two lent lists.
// Kept: an entry's parameters stay one by one, and its answer numbers: the C interface.
#[unsafe(no_mangle)]
pub extern "C" fn crankforest_hard_schedule(
    n: usize,
    sources: &[usize],
    targets: &[usize],
    leasts: &[i64],
    mosts: &[i64],
    s: usize,
    t: usize,
    times: &mut [i64],
    delays: &mut [i64],
    place: &mut usize,
    least: &mut i64,
    most: &mut i64,
    source_depth: &mut usize,
    target_depth: &mut usize,
) -> usize
    ensures hard_answered { HardAnswered (graph_of n sources.now targets.now leasts.now mosts.now) s t (ShortLists (graph_of n sources.now targets.now leasts.now mosts.now) times.old delays.old) (hard_answer_of result place.new least.new most.new source_depth.new target_depth.new) }
    ensures hard_written { HardWritten (graph_of n sources.now targets.now leasts.now mosts.now) s (hard_answer_of result place.new least.new most.new source_depth.new target_depth.new) times.old delays.old times.new delays.new }
{
    let lists = GraphLists {
        events: n,
        sources,
        targets,
        leasts,
        mosts,
    };
    let answer = HardAnswer::from(deadlines::hard_schedule(&lists, s, t, times, delays));
    *place = answer.place;
    *least = answer.least;
    *most = answer.most;
    *source_depth = answer.source_depth;
    *target_depth = answer.target_depth;
    answer.refusal
}
