// Claims: a claimed number for the gap between two events, with a list of event times and one of rule delays, judged by 01's executions.
//     judge    the refusal; or the lowest event at which an execution's rule is broken; or that the number differs; or whether it is our maximum or below it
// No caller is trusted: every list, length and number gets an answer, and no sum wraps. The promises are in specs/Claim.antt.
#![tactic(auto)]

ghost use Rattle.std.specs.Prelude.{◌≡◌, ◌-ℤ◌};
ghost use Rattle.integers.specs.Within.{Within};
ghost use Rattle.graphs.specs.Lists.{graph_in};
ghost use Rattle.claims.specs.Claim.{Judged, numbers_of};
ghost use Rattle.claims.specs.Parts.Verdicts.{NumberJudged};

mod events;
mod lists;
mod rules;

use crate::events::broken_event;
use crate::lists::ClaimLists;
use graphs::GraphLists;
use refusals::Refusal;

const MAX_EVENTS: usize = 1024;

const MAX_RULES: usize = 4096;

// What is said of a claim that isn't refused. `Broken` hands on the event.
#[derive(Clone, Copy, Debug, PartialEq, Eq)]
pub enum Judgement {
    Maximum,
    Below,
    Broken(usize),
    Differs,
}

// A judgement in numbers, for callers that take no `Result`: `verdict` is 1, 2, 3, 4 in the order above, `event` the broken event. What a case has no value
// for is 0.
// Kept: the number of a refusal beside the values: the C interface.
#[derive(Clone, Copy, Debug, PartialEq, Eq)]
pub struct Numbers {
    pub refusal: usize,
    pub place: usize,
    pub verdict: usize,
    pub event: usize,
}

// The numbers of a verdict.
fn verdict_numbers(verdict: usize, event: usize) -> Numbers
    ensures { result ≡ record { refusal = 0; place = 0; verdict = verdict; event = event } }
{
    Numbers {
        refusal: 0,
        place: 0,
        verdict,
        event,
    }
}

impl From<Result<Judgement, Refusal>> for Numbers {
    ghost from_gives = { λ answer numbers. numbers ≡ numbers_of answer };

    fn from(answer: Result<Judgement, Refusal>) -> Numbers {
        match answer {
            Ok(Judgement::Maximum) => verdict_numbers(1, 0),
            Ok(Judgement::Below) => verdict_numbers(2, 0),
            Ok(Judgement::Broken(event)) => verdict_numbers(3, event),
            Ok(Judgement::Differs) => verdict_numbers(4, 0),
            Err(refusal) => Numbers {
                refusal: refusal.number(),
                place: refusal.place(),
                verdict: 0,
                event: 0,
            },
        }
    }
}

// The judgement on a claim whose lists are an execution, in which s happens at `start` and t at `end`.
fn judge_number(start: i64, end: i64, claimed: i64, maximum: i64) -> Judgement
    requires { Within 1023000000 start × Within 1023000000 end }
    ensures { NumberJudged (end -ℤ start) claimed maximum result }
{
    let gap = end - start;
    if gap != claimed {
        Judgement::Differs
    } else if gap < maximum {
        Judgement::Below
    } else {
        Judgement::Maximum
    }
}

// The judgement on the claim that t(t) − t(s) is `claimed` where the events happen at `times` and the rules take `delays`.
pub fn judge(
    lists: &GraphLists<'_>,
    s: usize,
    t: usize,
    claimed: i64,
    times: &[i64],
    delays: &[i64],
) -> Result<Judgement, Refusal>
    ensures { Judged (graph_in lists.now) s t claimed times.now delays.now result }
{
    refusals::check_counts(lists, MAX_EVENTS, MAX_RULES)?;
    if times.len() != lists.events || delays.len() != lists.sources.len() {
        return Err(Refusal::RulesOutside);
    }
    let found = separation::separation(lists, s, t)?;
    let claim = ClaimLists {
        lists: *lists,
        times,
        delays,
    };
    if let Some(event) = broken_event(&claim) {
        return Ok(Judgement::Broken(event));
    }
    Ok(judge_number(times[s], times[t], claimed, found.separation))
}
