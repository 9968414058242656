// The greatest separation of two events of an event graph, exactly, with the schedule that reaches it.
//     separation    the number and both depths, or the refusal
//     schedule      the same, with the whole latest schedule written into two lent lists
//     coarse_separation    the separation of the graph whose delays are rounded outward to steps of q
// No caller is trusted: every list, length and number gets an answer. The promises are in specs/Promise.antt and specs/Coarse.antt.
#![tactic(auto)]

ghost use Rattle.graphs.specs.Lists.{graph_in};
ghost use Rattle.std.specs.Prelude.{◌≡◌};
ghost use Rattle.separation.specs.Numbers.{answer_numbers};
ghost use Rattle.separation.specs.Promise.{Answered, ShortLists, Written};
ghost use Rattle.separation.specs.Coarse.{CoarseAnswered};

mod answers;
mod lists;

use crate::answers::{analysed, analysed_rounded};
use crate::lists::{write_delays, write_times};
use graphs::GraphLists;
use refusals::Refusal;

const MAX_EVENTS: usize = 1024;

const MAX_RULES: usize = 4096;

const MAX_DELAY: usize = 1000000;

// What a question of separation is answered where nothing is refused: the greatest separation, and the depths of s and t.
#[derive(Clone, Copy, Debug, PartialEq, Eq)]
pub struct Separated {
    pub separation: i64,
    pub source_depth: usize,
    pub target_depth: usize,
}

// An answer in numbers, for callers that take no `Result`. `refusal` is 0, or the refusal's number, with its place; refused, all values are 0.
// Kept: the number of a refusal beside the values: the C interface.
#[derive(Clone, Copy, Debug, PartialEq, Eq)]
pub struct Answer {
    pub refusal: usize,
    pub place: usize,
    pub separation: i64,
    pub source_depth: usize,
    pub target_depth: usize,
}

impl From<Result<Separated, Refusal>> for Answer {
    ghost from_gives = { λ answer numbers. numbers ≡ answer_numbers answer };

    fn from(answer: Result<Separated, Refusal>) -> Answer {
        match answer {
            Ok(found) => Answer {
                refusal: 0,
                place: 0,
                separation: found.separation,
                source_depth: found.source_depth,
                target_depth: found.target_depth,
            },
            Err(refusal) => Answer {
                refusal: refusal.number(),
                place: refusal.place(),
                separation: 0,
                source_depth: 0,
                target_depth: 0,
            },
        }
    }
}

// The greatest t(t) − t(s) over all executions of the graph, and the depths of s and t.
pub fn separation(lists: &GraphLists<'_>, s: usize, t: usize) -> Result<Separated, Refusal>
    ensures { Answered (graph_in lists.now) s t ⊥ (answer_numbers result) }
{
    // Kept: a list of fixed size, on the stack: the project has no heap.
    let mut latest = [0i32; MAX_EVENTS];
    analysed(lists, MAX_DELAY, s, t, &mut latest)
}

// The same, and the whole latest schedule against s: the times of the n events and the delays of the rules. Places beyond keep what they held; refused,
// both lists do.
pub fn schedule(
    lists: &GraphLists<'_>,
    s: usize,
    t: usize,
    times: &mut [i64],
    delays: &mut [i64],
) -> Result<Separated, Refusal>
    ensures answered { Answered (graph_in lists.now) s t (ShortLists (graph_in lists.now) times.old delays.old) (answer_numbers result) }
    ensures written { Written (graph_in lists.now) s (answer_numbers result) times.old delays.old times.new delays.new }
{
    refusals::check_counts(lists, MAX_EVENTS, MAX_RULES)?;
    if times.len() < lists.events || delays.len() < lists.sources.len() {
        return Err(Refusal::ShortList);
    }
    // Kept: a list of fixed size, on the stack: the project has no heap.
    let mut latest = [0i32; MAX_EVENTS];
    let found = analysed(lists, MAX_DELAY, s, t, &mut latest)?;
    write_times(lists.events, &latest, times);
    write_delays(lists, times, delays);
    Ok(found)
}

// The coarse form: the greatest t(t) − t(s) over all executions of the graph whose delays are rounded outward to steps of q, and the depths of s and t.
pub fn coarse_separation(
    lists: &GraphLists<'_>,
    s: usize,
    t: usize,
    q: usize,
) -> Result<Separated, Refusal>
    ensures { CoarseAnswered (graph_in lists.now) q s t (answer_numbers result) }
{
    refusals::check_input(lists, MAX_DELAY, s, t)?;
    // Kept: two lists of fixed size, on the stack: the project has no heap.
    let mut low = [0i64; MAX_RULES];
    let mut high = [0i64; MAX_RULES];
    rounding::round_delays(q, lists.leasts, lists.mosts, &mut low, &mut high)?;
    analysed_rounded(lists, &low, &high, s, t)
}
