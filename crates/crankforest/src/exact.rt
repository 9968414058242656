// The entry of the exact form.
ghost use Rattle.graphs.specs.Graph.{graph_of};
ghost use Rattle.separation.specs.Promise.{Answered};
ghost use Rattle.crankforest.specs.Entries.{answer_of};

use graphs::GraphLists;
use separation::Answer;

// The greatest t(t) − t(s) over all executions, and both depths.
// Kept: an entry's parameters stay one by one, and its answer numbers: the C interface.
#[unsafe(no_mangle)]
pub extern "C" fn crankforest_exact(
    n: usize,
    sources: &[usize],
    targets: &[usize],
    leasts: &[i64],
    mosts: &[i64],
    s: usize,
    t: usize,
    place: &mut usize,
    separation: &mut i64,
    source_depth: &mut usize,
    target_depth: &mut usize,
) -> usize
    ensures { Answered (graph_of n sources.now targets.now leasts.now mosts.now) s t ⊥ (answer_of result place.new separation.new source_depth.new target_depth.new) }
{
    let lists = GraphLists {
        events: n,
        sources,
        targets,
        leasts,
        mosts,
    };
    let answer = Answer::from(separation::separation(&lists, s, t));
    *place = answer.place;
    *separation = answer.separation;
    *source_depth = answer.source_depth;
    *target_depth = answer.target_depth;
    answer.refusal
}
