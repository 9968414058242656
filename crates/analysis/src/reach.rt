// The lowest event that the root doesn't reach. Where the graph has no cycle and every event but the root has a rule into it, the root reaches them all; only
// where one has none the events are marked, from the root on, and looked through.
// Kept: a mark is 1 or 0, and no `bool`: it stands in the list that holds the depths afterwards, so that it takes no memory of its own.
ghost use Rattle.std.specs.Prelude.{◌≡◌, true, ◌<◌, ◌≤◌, length, get_or};
ghost use Rattle.verdicts.specs.Verdict.{LowestIn};
ghost use Rattle.graphs.specs.Lists.{graph_in};
ghost use Rattle.graphs.specs.Path.{Reachable};
ghost use Rattle.analysis.specs.Parts.Reach.{Led};
ghost use Rattle.analysis.specs.Parts.InChains.{ArrangedIn, SourceMarkedIn, MarkOfIn, AllMarkedIn};

use crate::chains::Chains;

// Whether every event but the root has a rule into it.
fn all_led(chains: &Chains<'_>) -> bool
    ensures { result ≡ true → Led chains.now.lists.events chains.now.heads.now }
{
    chains.heads[..chains.lists.events]
        .iter()
        .skip(1)
        .all(|head| *head != 0)
}

// Whether the source of a rule into `v` is marked.
fn source_marked(chains: &Chains<'_>, marks: &[u16], v: usize) -> bool
    requires { (v < chains.now.lists.events) × (chains.now.lists.events ≤ length marks.now) }
    ensures { SourceMarkedIn chains.now marks.now v result }
{
    chains
        .rules_into(v)
        .any(|i| marks[chains.lists.sources[i]] != 0)
}

// The mark of `v`, from those of the sources of the rules into it.
fn mark_of(chains: &Chains<'_>, marks: &[u16], v: usize) -> u16
    requires { (v < chains.now.lists.events) × (chains.now.lists.events ≤ length marks.now) }
    ensures { MarkOfIn chains.now marks.now v result }
{
    u16::from(v == 0 || source_marked(chains, marks, v))
}

// Marks the events that the root reaches, from the root on.
fn mark_reached(chains: &Chains<'_>, order: &[u16], marks: &mut [u16])
    requires { ArrangedIn chains.now order.now × (chains.now.lists.events ≤ length marks.old) }
    ensures { AllMarkedIn chains.now marks.new }
{
    for event in order[..chains.lists.events].iter().rev() {
        let v = usize::from(*event);
        marks[v] = mark_of(chains, marks, v);
    }
}

// The lowest event below n without a mark.
fn lowest_unmarked(n: usize, marks: &[u16]) -> Option<usize>
    requires { n ≤ length marks.now }
    ensures { LowestIn n (λ v. 0 < get_or marks.now v 0) (λ v. get_or marks.now v 0 ≡ 0) result }
{
    marks[..n].iter().position(|mark| *mark == 0)
}

// The lowest event that the root doesn't reach.
pub(crate) fn lowest_unreached(
    chains: &Chains<'_>,
    order: &[u16],
    marks: &mut [u16],
) -> Option<usize>
    requires { ArrangedIn chains.now order.now × (chains.now.lists.events ≤ length marks.old) }
    ensures { LowestIn chains.now.lists.events (Reachable (graph_in chains.now.lists)) (λ v. Reachable (graph_in chains.now.lists) v → ⊥) result }
{
    if all_led(chains) {
        return None;
    }
    mark_reached(chains, order, marks);
    lowest_unmarked(chains.lists.events, marks)
}
