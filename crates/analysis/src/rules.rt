// The rules, gone through once: each is checked, chained by target and counted by source.
//     take_rules      the whole of it
//     rule_right      the check of one rule
ghost use Rattle.std.specs.Prelude.{◌≡◌, true, false, ◌<◌, ◌≤◌, length};
ghost use Rattle.graphs.specs.Lists.{graph_in};
ghost use Rattle.graphs.specs.Limits.{CountsKept};
ghost use Rattle.analysis.specs.Parts.Rules.{RuleRight, Zeros, RulesTaken};

use graphs::GraphLists;
use refusals::delays_beyond;

// Whether both ends of rule i are events, and its delays are right.
fn rule_right(lists: &GraphLists<'_>, bound: u32, i: usize) -> bool
    requires { CountsKept (graph_in lists.now) × (i < length lists.now.sources.now) }
    ensures yes { result ≡ true → RuleRight bound (graph_in lists.now) i }
    ensures no { result ≡ false → RuleRight bound (graph_in lists.now) i → ⊥ }
{
    if lists.sources[i] >= lists.events || lists.targets[i] >= lists.events {
        return false;
    }
    !delays_beyond(bound, lists.leasts[i], lists.mosts[i])
}

// Chains and counts the rules and answers true, or answers false at the first that is not right.
// Kept: a plain yes or no; where it is false, nobody reads what the lists hold.
pub(crate) fn take_rules(
    lists: &GraphLists<'_>,
    bound: u32,
    heads: &mut [u16],
    nexts: &mut [u16],
    waiting: &mut [u16],
) -> bool
    requires counts_kept { CountsKept (graph_in lists.now) }
    requires zeros { Zeros lists.now.events heads.old × Zeros lists.now.events waiting.old × (length lists.now.sources.now ≤ length nexts.old) }
    ensures { RulesTaken bound (graph_in lists.now) heads.new nexts.new waiting.new result }
{
    for i in 0..lists.sources.len() {
        if !rule_right(lists, bound, i) {
            return false;
        }
        let target = lists.targets[i];
        nexts[i] = heads[target];
        heads[target] = (i + 1) as u16;
        waiting[lists.sources[i]] += 1;
    }
    true
}
