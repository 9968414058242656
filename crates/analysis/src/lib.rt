// The analysis of an event graph: U of every event against s, and the depths of s and t. The exact and the coarse form stand on it.
//     analyse    the refusal with its place, or U, written into a lent list, and both depths
// No caller is trusted: every list, length and number gets an answer. The promise is in specs/Promise.antt.
#![tactic(auto)]

ghost use Rattle.graphs.specs.Lists.{graph_in};
ghost use Rattle.analysis.specs.Promise.{Analysed};

mod arranged;
mod chains;
mod cycles;
mod latest;
mod order;
mod paths;
mod reach;
mod rules;

use crate::arranged::{analyse_within, input_refusal};
use graphs::GraphLists;
use refusals::Refusal;

const MAX_EVENTS: usize = 1024;

const MAX_RULES: usize = 4096;

// What a small graph has at most. It has small working lists, which take less time to clear.
const SMALL_EVENTS: usize = 64;

const SMALL_RULES: usize = 1024;

// The depths of the two events of a question.
#[derive(Clone, Copy, Debug, PartialEq, Eq)]
pub struct Depths {
    pub source: usize,
    pub target: usize,
}

// U against s of each of the n events, into `latest`, and the depths of s and t. Delays may be from −limit to limit. Places beyond the n keep what they
// held; refused, the whole list does.
pub fn analyse(
    lists: &GraphLists<'_>,
    limit: usize,
    s: usize,
    t: usize,
    latest: &mut [i32],
) -> Result<Depths, Refusal>
    ensures { Analysed limit (graph_in lists.now) s t latest.old latest.new result }
{
    refusals::check_counts(lists, MAX_EVENTS, MAX_RULES)?;
    if latest.len() < lists.events {
        return Err(Refusal::ShortList);
    }
    if s >= lists.events || t >= lists.events {
        return Err(input_refusal(lists, limit, s, t));
    }
    if lists.events <= SMALL_EVENTS && lists.sources.len() <= SMALL_RULES {
        return analyse_within::<SMALL_EVENTS, SMALL_RULES>(lists, limit, s, t, latest);
    }
    analyse_within::<MAX_EVENTS, MAX_RULES>(lists, limit, s, t, latest)
}
