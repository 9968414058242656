// What one rule of a claim says of its target.
ghost use Rattle.std.specs.Prelude.{◌≡◌, ◌+ℤ◌, ◌<◌, length};
ghost use Rattle.graphs.specs.Lists.{graph_in};
ghost use Rattle.separation.specs.Promise.{at};
ghost use Rattle.claims.specs.Parts.Verdicts.{ArrivalJudged, RuleVerdictAt};

use crate::lists::ClaimLists;
use std::cmp::Ordering;

// What a rule says of its target: its delay is inside and the target is met exactly, or is later; or the target is broken.
// Kept: three cases of which one has a value; docs/DECISIONS.md says why it has this form.
#[derive(Clone, Copy, Debug, PartialEq, Eq)]
pub(crate) enum RuleVerdict {
    Meets,
    Early,
    Broken(usize),
}

// How time + delay, a whole number without limit, stands to `end`: a sum that leaves 64 bits lies before every time or past every one.
fn arrives(time: i64, delay: i64, end: i64) -> Ordering
    ensures { ArrivalJudged (time +ℤ delay) end result }
{
    // Kept: no sum in 128 bits: it is no plainer, and was tried: it took 12.9 µs for 4,096 rules where `checked_add` takes 4.9.
    match time.checked_add(delay) {
        Some(sum) => sum.cmp(&end),
        None if delay < 0 => Ordering::Less,
        None => Ordering::Greater,
    }
}

// What rule i says of its target.
pub(crate) fn rule_verdict(claim: &ClaimLists<'_>, i: usize) -> RuleVerdict
    requires { i < length claim.now.lists.sources.now }
    ensures { RuleVerdictAt (graph_in claim.now.lists) (at claim.now.delays.now) (at claim.now.times.now) i result }
{
    let lists = &claim.lists;
    let source = lists.sources[i];
    let target = lists.targets[i];
    let delay = claim.delays[i];
    if delay < lists.leasts[i] || delay > lists.mosts[i] {
        return RuleVerdict::Broken(target);
    }
    match arrives(claim.times[source], delay, claim.times[target]) {
        Ordering::Less => RuleVerdict::Early,
        Ordering::Equal => RuleVerdict::Meets,
        Ordering::Greater => RuleVerdict::Broken(target),
    }
}
