// Refusals: why a request is turned down, and those that can be given before any path is looked at: of an entry of a rule list, of the counts, and of a whole
// question. Event graphs and process graphs share the searches.
//     Refusal          the refusals, each with its number and its place
//     unknown_event    the lowest entry with an event that doesn't exist
//     outside_delay    the lowest entry with a delay out of range, or a least delay above the most
//     delays_beyond    whether one of two delays is beyond a bound, or the least is above the most
//     interval_outside the same with the bound of delays that are not rounded
//     delay_limit      the bound of the delays where a caller names a limit
//     check_counts     refusal 21 or 22, where a count of a graph is outside its limits
//     check_input      the first of the refusals 21, 22 and 2 to 4 that applies to a question about two events
// No caller is trusted: a search looks at lists of different lengths as far as both go. The promises are in specs/.
#![tactic(auto)]

ghost use Rattle.std.specs.Prelude.{◌≡◌, min, length};
ghost use Rattle.verdicts.specs.Verdict.{LowestIn};
ghost use Rattle.graphs.specs.Lists.{graph_in};
ghost use Rattle.graphs.specs.Refusal.{count_checks, question_checks_to};
ghost use Rattle.refusals.specs.Numbers.{number_of, place_of, Refuses};
ghost use Rattle.refusals.specs.Faults.{EndsKnown, EndUnknown, DelaysChecked, DelaysBounded, DelaysBeyond, DelaysInside, DelaysOutside};
ghost use Rattle.refusals.specs.Question.{delay_limit};

use graphs::GraphLists;

const MAX_EVENTS: usize = 1024;

const MAX_RULES: usize = 4096;

const MAX_DELAY: u32 = 1000000;

const MAX_ROUNDED: u32 = 1001000;

// Why a request is refused, with the place where a refusal has one.
#[derive(Clone, Copy, Debug, PartialEq, Eq)]
pub enum Refusal {
    // 1: a text is longer than a text may be.
    BytesOutside,
    // 2: the entry names an event that doesn't exist.
    UnknownEvent(usize),
    // 3: a delay of the entry is out of range, or its least delay is above its most.
    DelayOutside(usize),
    // 4, place 0: the event s of a question doesn't exist.
    UnknownSource,
    // 4, place 1: its event t doesn't exist.
    UnknownTarget,
    // 5: the event lies on a cycle.
    Cycle(usize),
    // 6: no path leads to the event.
    Unreached(usize),
    // 7: the offset mark of the template is neither 0 nor 1.
    MarkOutside(usize),
    // 8: the row of a text is broken.
    BrokenRow(usize),
    // 9: no step of rounding has this many ticks.
    StepOutside(usize),
    // 10: no times meet every deadline.
    NoHardTimes,
    // 21: there are no events, or too many.
    EventsOutside,
    // 22: there are too many rules, or their lists differ in length.
    RulesOutside,
    // 23: a lent list is too short.
    ShortList,
    // 24: there are no copies, or the unfolding is too large.
    CopiesOutside,
}

impl Refusal {
    // Its number.
    pub fn number(self) -> usize
        ensures { result ≡ number_of self }
    {
        match self {
            Refusal::BytesOutside => 1,
            Refusal::UnknownEvent(_) => 2,
            Refusal::DelayOutside(_) => 3,
            Refusal::UnknownSource | Refusal::UnknownTarget => 4,
            Refusal::Cycle(_) => 5,
            Refusal::Unreached(_) => 6,
            Refusal::MarkOutside(_) => 7,
            Refusal::BrokenRow(_) => 8,
            Refusal::StepOutside(_) => 9,
            Refusal::NoHardTimes => 10,
            Refusal::EventsOutside => 21,
            Refusal::RulesOutside => 22,
            Refusal::ShortList => 23,
            Refusal::CopiesOutside => 24,
        }
    }

    // Its place: 0 where a refusal has none.
    pub fn place(self) -> usize
        ensures { result ≡ place_of self }
    {
        match self {
            Refusal::UnknownEvent(place)
            | Refusal::DelayOutside(place)
            | Refusal::Cycle(place)
            | Refusal::Unreached(place)
            | Refusal::MarkOutside(place)
            | Refusal::BrokenRow(place)
            | Refusal::StepOutside(place) => place,
            Refusal::UnknownTarget => 1,
            _ => 0,
        }
    }
}

// The lowest entry whose source or target is not below n.
pub fn unknown_event(n: usize, sources: &[usize], targets: &[usize]) -> Option<usize>
    ensures { LowestIn (min (length sources.now) (length targets.now)) (EndsKnown n sources.now targets.now) (EndUnknown n sources.now targets.now) result }
{
    sources
        .iter()
        .zip(targets)
        .position(|(source, target)| *source >= n || *target >= n)
}

// Whether one of two delays is not from −bound to bound, or the least is above the most. A least delay above the bound is above the most, or the most is above
// the bound too.
pub fn delays_beyond(bound: u32, least: i64, most: i64) -> bool
    ensures { DelaysChecked bound least most result }
{
    let bound = i64::from(bound);
    least < -bound || most > bound || most < least
}

// The lowest entry whose delays are beyond the bound.
fn beyond_delay(bound: u32, leasts: &[i64], mosts: &[i64]) -> Option<usize>
    ensures { LowestIn (min (length leasts.now) (length mosts.now)) (DelaysBounded bound leasts.now mosts.now) (DelaysBeyond bound leasts.now mosts.now) result }
{
    // Kept: tried as a zip with `position`, as in `unknown_event`; with the call in the closure the proof did not close.
    for i in 0..leasts.len().min(mosts.len()) {
        if delays_beyond(bound, leasts[i], mosts[i]) {
            return Some(i);
        }
    }
    None
}

// The lowest entry whose delays are outside.
pub fn outside_delay(leasts: &[i64], mosts: &[i64]) -> Option<usize>
    ensures { LowestIn (min (length leasts.now) (length mosts.now)) (DelaysInside leasts.now mosts.now) (DelaysOutside leasts.now mosts.now) result }
{
    beyond_delay(MAX_DELAY, leasts, mosts)
}

// Whether a delay of one interval is out of range, or its least delay is above its most.
pub fn interval_outside(least: i64, most: i64) -> bool
    ensures { DelaysChecked 1000000 least most result }
{
    delays_beyond(MAX_DELAY, least, most)
}

// Refusal 21 where the events are none or more than `max_events`; 22 where the rules are more than `max_rules`, or the four lists differ in length.
pub fn check_counts(
    lists: &GraphLists<'_>,
    max_events: usize,
    max_rules: usize,
) -> Result<(), Refusal>
    ensures { Refuses (count_checks max_events max_rules (graph_in lists.now)) result }
{
    if lists.events == 0 || lists.events > max_events {
        return Err(Refusal::EventsOutside);
    }
    let rules = lists.sources.len();
    if rules > max_rules
        || lists.targets.len() != rules
        || lists.leasts.len() != rules
        || lists.mosts.len() != rules
    {
        return Err(Refusal::RulesOutside);
    }
    Ok(())
}

// The bound of the delays where a caller names a limit: no more than rounded delays can come to.
pub fn delay_limit(limit: usize) -> u32
    ensures { result ≡ delay_limit limit }
{
    limit.min(MAX_ROUNDED as usize) as u32
}

// The first of the refusals 21, 22 and 2 to 4 that applies to a question about s and t. Delays may be from −limit to limit; no list is lent.
// Kept: s and t stay two parameters, here and in each question: the papers name two events, and a struct of two numbers is no plainer.
pub fn check_input(lists: &GraphLists<'_>, limit: usize, s: usize, t: usize) -> Result<(), Refusal>
    ensures { Refuses (question_checks_to (delay_limit limit) (graph_in lists.now) s t ⊥) result }
{
    check_counts(lists, MAX_EVENTS, MAX_RULES)?;
    if let Some(rule) = unknown_event(lists.events, lists.sources, lists.targets) {
        return Err(Refusal::UnknownEvent(rule));
    }
    if let Some(rule) = beyond_delay(delay_limit(limit), lists.leasts, lists.mosts) {
        return Err(Refusal::DelayOutside(rule));
    }
    if s >= lists.events {
        return Err(Refusal::UnknownSource);
    }
    if t >= lists.events {
        return Err(Refusal::UnknownTarget);
    }
    Ok(())
}
