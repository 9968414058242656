// Rounds with hard deadlines: the greatest and the least separation of two events over all times at which every rule binds on its own.
//     hard_separation    both ends and both depths, or the refusal
//     hard_schedule      the same, with the whole latest schedule written into two lent lists
// No caller is trusted: every list, length and number gets an answer. The promises are in specs/Promise.antt.
#![tactic(auto)]

ghost use Rattle.std.specs.Prelude.{◌≡◌};
ghost use Rattle.graphs.specs.Lists.{graph_in};
ghost use Rattle.separation.specs.Promise.{ShortLists};
ghost use Rattle.deadlines.specs.Numbers.{hard_numbers};
ghost use Rattle.deadlines.specs.Promise.{HardAnswered, HardWritten};

mod gaps;
mod lists;
mod rounds;

use crate::gaps::both_ends;
use crate::lists::{write_differences, write_gaps};
use graphs::GraphLists;
use refusals::Refusal;

const MAX_EVENTS: usize = 1024;

const MAX_RULES: usize = 4096;

// What a question under hard deadlines is answered where nothing is refused: the least and the greatest separation, and the depths of s and t.
#[derive(Clone, Copy, Debug, PartialEq, Eq)]
pub struct HardSeparated {
    pub least: i64,
    pub most: i64,
    pub source_depth: usize,
    pub target_depth: usize,
}

// An answer in numbers, for callers that take no `Result`. `refusal` is 0, or the refusal's number, with its place; refused, all values are 0.
// Kept: the number of a refusal beside the values: the C interface.
#[derive(Clone, Copy, Debug, PartialEq, Eq)]
pub struct HardAnswer {
    pub refusal: usize,
    pub place: usize,
    pub least: i64,
    pub most: i64,
    pub source_depth: usize,
    pub target_depth: usize,
}

impl From<Result<HardSeparated, Refusal>> for HardAnswer {
    ghost from_gives = { λ answer numbers. numbers ≡ hard_numbers answer };

    fn from(answer: Result<HardSeparated, Refusal>) -> HardAnswer {
        match answer {
            Ok(found) => HardAnswer {
                refusal: 0,
                place: 0,
                least: found.least,
                most: found.most,
                source_depth: found.source_depth,
                target_depth: found.target_depth,
            },
            Err(refusal) => HardAnswer {
                refusal: refusal.number(),
                place: refusal.place(),
                least: 0,
                most: 0,
                source_depth: 0,
                target_depth: 0,
            },
        }
    }
}

// The least and the greatest t(t) − t(s) over all times that meet every rule of the graph, and the depths of s and t.
pub fn hard_separation(lists: &GraphLists<'_>, s: usize, t: usize) -> Result<HardSeparated, Refusal>
    ensures { HardAnswered (graph_in lists.now) s t ⊥ (hard_numbers result) }
{
    // Kept: a list of fixed size, on the stack: the project has no heap.
    let mut latest = [0i64; MAX_EVENTS];
    both_ends(lists, s, t, &mut latest)
}

// The same, and the schedule that has every event as late against s as hard deadlines allow: the times of the n events and the delays of the rules. Places
// beyond keep what they held; refused, both lists do.
pub fn hard_schedule(
    lists: &GraphLists<'_>,
    s: usize,
    t: usize,
    times: &mut [i64],
    delays: &mut [i64],
) -> Result<HardSeparated, Refusal>
    ensures hard_answered { HardAnswered (graph_in lists.now) s t (ShortLists (graph_in lists.now) times.old delays.old) (hard_numbers result) }
    ensures hard_written { HardWritten (graph_in lists.now) s (hard_numbers result) times.old delays.old times.new delays.new }
{
    refusals::check_counts(lists, MAX_EVENTS, MAX_RULES)?;
    if times.len() < lists.events || delays.len() < lists.sources.len() {
        return Err(Refusal::ShortList);
    }
    // Kept: a list of fixed size, on the stack: the project has no heap.
    let mut latest = [0i64; MAX_EVENTS];
    let found = both_ends(lists, s, t, &mut latest)?;
    write_gaps(lists.events, 0, &latest, times);
    write_differences(lists, times, delays);
    Ok(found)
}
