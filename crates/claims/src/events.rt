// The lowest event at which an execution's rule is broken: one pass over the rules and one over the events.
ghost use Rattle.std.specs.Prelude.{◌≡◌, true, false, ◌≤◌, length, get_or};
ghost use Rattle.verdicts.specs.Verdict.{LowestIn};
ghost use Rattle.graphs.specs.Lists.{graph_in};
ghost use Rattle.separation.specs.Promise.{at};
ghost use Rattle.claims.specs.Claim.{RightAt};
ghost use Rattle.claims.specs.Parts.Marks.{RulesMarked};

use crate::MAX_EVENTS;
use crate::lists::ClaimLists;
use crate::rules::{RuleVerdict, rule_verdict};

// How many events come before the lowest that a rule breaks: all of them, where none is broken. `met` is set at each event that a rule meets exactly.
fn mark_rules(claim: &ClaimLists<'_>, met: &mut [bool]) -> usize
    requires { length met.old ≡ 1024 }
    ensures { RulesMarked (graph_in claim.now.lists) (at claim.now.delays.now) (at claim.now.times.now) met.old (length claim.now.lists.sources.now) result met.new }
{
    let mut unbroken = claim.lists.events;
    for i in 0..claim.lists.sources.len() {
        let verdict = rule_verdict(claim, i);
        let RuleVerdict::Broken(event) = verdict else {
            if let RuleVerdict::Meets = verdict {
                met[claim.lists.targets[i]] = true;
            }
            continue;
        };
        unbroken = unbroken.min(event);
    }
    unbroken
}

// The lowest event below `end` that isn't met.
fn lowest_unmet(end: usize, met: &[bool]) -> Option<usize>
    requires { end ≤ length met.now }
    ensures { LowestIn end (λ v. get_or met.now v false ≡ true) (λ v. get_or met.now v false ≡ false) result }
{
    met[..end].iter().position(|met| !*met)
}

// The lowest event at which an execution's rule is broken.
pub(crate) fn broken_event(claim: &ClaimLists<'_>) -> Option<usize>
    ensures { LowestIn claim.now.lists.events (RightAt (graph_in claim.now.lists) (at claim.now.delays.now) (at claim.now.times.now)) (λ v. RightAt (graph_in claim.now.lists) (at claim.now.delays.now) (at claim.now.times.now) v → ⊥) result }
{
    if claim.times[0] != 0 {
        return Some(0);
    }
    // Kept: a list of fixed size, on the stack: the project has no heap.
    let mut met = [false; MAX_EVENTS];
    met[0] = true;
    let unbroken = mark_rules(claim, &mut met);
    lowest_unmet(unbroken, &met).or((unbroken < claim.lists.events).then_some(unbroken))
}
