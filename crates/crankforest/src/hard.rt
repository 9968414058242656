// The entry under hard deadlines.
ghost use Rattle.graphs.specs.Graph.{graph_of};
ghost use Rattle.deadlines.specs.Promise.{HardAnswered};
ghost use Rattle.crankforest.specs.Entries.{hard_answer_of};

use deadlines::HardAnswer;
use graphs::GraphLists;

// The least and the greatest t(t) − t(s) over all times that meet every rule on its own, and both depths.
// Kept: an entry's parameters stay one by one, and its answer numbers: the C interface.
#[unsafe(no_mangle)]
pub extern "C" fn crankforest_hard(
    n: usize,
    sources: &[usize],
    targets: &[usize],
    leasts: &[i64],
    mosts: &[i64],
    s: usize,
    t: usize,
    place: &mut usize,
    least: &mut i64,
    most: &mut i64,
    source_depth: &mut usize,
    target_depth: &mut usize,
) -> usize
    ensures { HardAnswered (graph_of n sources.now targets.now leasts.now mosts.now) s t ⊥ (hard_answer_of result place.new least.new most.new source_depth.new target_depth.new) }
{
    let lists = GraphLists {
        events: n,
        sources,
        targets,
        leasts,
        mosts,
    };
    let answer = HardAnswer::from(deadlines::hard_separation(&lists, s, t));
    *place = answer.place;
    *least = answer.least;
    *most = answer.most;
    *source_depth = answer.source_depth;
    *target_depth = answer.target_depth;
    answer.refusal
}
