// The latest gaps against an event, and both ends from two of them.
//     latest_gaps    the greatest t(v) − t(s) of every event v over all hard times, and both depths, or the refusal
//     both_ends      the whole answer: the greatest gap of t against s, and minus that of s against t
ghost use Rattle.graphs.specs.Lists.{graph_in};
ghost use Rattle.deadlines.specs.Numbers.{hard_numbers};
ghost use Rattle.deadlines.specs.Parts.Gaps.{GapsAnswered, EndsAnswered};

use crate::lists::write_gaps;
use crate::rounds::settle;
use crate::{HardSeparated, MAX_EVENTS, MAX_RULES};
use analysis::Depths;
use graphs::GraphLists;
use refusals::Refusal;

// The greatest t(v) − t(s) of every event v over all hard times, into `latest`, and the depths of s and t. The rounds start from the ordinary latest times:
// hard times are an execution, so none is later.
fn latest_gaps(
    lists: &GraphLists<'_>,
    s: usize,
    t: usize,
    latest: &mut [i64; MAX_EVENTS],
) -> Result<Depths, Refusal>
    ensures { GapsAnswered (graph_in lists.now) s t latest.new result }
{
    // Kept: working lists of fixed size, on the stack: the project has no heap.
    let mut times = [0i64; MAX_EVENTS];
    let mut delays = [0i64; MAX_RULES];
    let ordinary = separation::schedule(lists, s, t, &mut times, &mut delays)?;
    write_gaps(lists.events, s, &times, latest);
    if !settle(lists, latest) {
        return Err(Refusal::NoHardTimes);
    }
    Ok(Depths {
        source: ordinary.source_depth,
        target: ordinary.target_depth,
    })
}

// The answer; where it is no refusal, `latest` holds the latest gaps against s. Those against t are there where those against s are.
pub(crate) fn both_ends(
    lists: &GraphLists<'_>,
    s: usize,
    t: usize,
    latest: &mut [i64; MAX_EVENTS],
) -> Result<HardSeparated, Refusal>
    ensures { EndsAnswered (graph_in lists.now) s t latest.new (hard_numbers result) }
{
    let depths = latest_gaps(lists, s, t, latest)?;
    // Kept: a list of fixed size, on the stack: the project has no heap.
    let mut against = [0i64; MAX_EVENTS];
    latest_gaps(lists, t, s, &mut against)?;
    Ok(HardSeparated {
        least: -against[s],
        most: latest[t],
        source_depth: depths.source,
        target_depth: depths.target,
    })
}
