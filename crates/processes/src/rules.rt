// The rules of the unfolding, written where the caller lends the lists.
ghost use Rattle.std.specs.Prelude.{◌≡◌, ℕ, ◌+◌, ◌*◌, ◌<◌, ◌≤◌, length};
ghost use Rattle.processes.specs.Lists.{process_in};
ghost use Rattle.processes.specs.Process.{templates};
ghost use Rattle.processes.specs.Parts.Checks.{ProcessKept};
ghost use Rattle.processes.specs.Parts.Writing.{InstanceSource, InstanceDelay, TemplateTurn, InstanceRule, InstancesWritten};

use crate::{Event, Occurrence, ProcessLists};

// The root's number in the event graph.
const ROOT: usize = 0;

// A rule of the unfolding: the numbers of the two events, and the delays.
#[derive(Clone, Copy, Debug, PartialEq, Eq)]
struct Rule {
    source: usize,
    target: usize,
    least: i64,
    most: i64,
}

// Occurrence k of the process event u, of p events.
fn occurrence(p: usize, k: usize, u: Event) -> Occurrence
    requires { k * p + u.0 < 1024 }
    ensures { result.0 ≡ 1 + k * p + u.0 }
{
    Occurrence(1 + k * p + u.0)
}

// The number of the source of a rule at k: the template's source at k or, marked 1, at k − 1; a start rule has the root.
fn source_at(p: usize, k: usize, mark: usize, u: Event) -> usize
    requires { k * p + u.0 < 1024 }
    ensures { InstanceSource p k mark u.0 result }
{
    if mark == 0 {
        return occurrence(p, k, u).0;
    }
    if k == 0 {
        return ROOT;
    }
    occurrence(p, k - 1, u).0
}

// A delay of a rule at k: the template's, or in a start rule its start delay.
fn delay_at(k: usize, mark: usize, delay: i64, start: i64) -> i64
    ensures { InstanceDelay k mark delay start result }
{
    if mark == 1 && k == 0 { start } else { delay }
}

// The rule of template j at k.
fn rule_at(process: &ProcessLists<'_>, k: usize, j: usize) -> Rule
    requires { TemplateTurn (process_in process.now) k j }
    ensures { InstanceRule (process_in process.now) k j result.source result.target result.least result.most }
{
    let mark = process.marks[j];
    Rule {
        source: source_at(process.events, k, mark, Event(process.sources[j])),
        target: occurrence(process.events, k, Event(process.targets[j])).0,
        least: delay_at(k, mark, process.leasts[j], process.start_leasts[j]),
        most: delay_at(k, mark, process.mosts[j], process.start_mosts[j]),
    }
}

// All rules: for k = 0, then 1, and so on, one for each template.
// Kept: four lists that are written side by side, as `unfold` has them.
pub(crate) fn write_rules(
    process: &ProcessLists<'_>,
    copies: usize,
    out_sources: &mut [usize],
    out_targets: &mut [usize],
    out_leasts: &mut [i64],
    out_mosts: &mut [i64],
)
    requires process_kept { ProcessKept (process_in process.now) copies (templates (process_in process.now) * copies) }
    requires copies_in_bounds { (templates (process_in process.now) * copies ≤ length out_sources.old) × (templates (process_in process.now) * copies ≤ length out_targets.old) × (templates (process_in process.now) * copies ≤ length out_leasts.old) × (templates (process_in process.now) * copies ≤ length out_mosts.old) }
    ensures { InstancesWritten (process_in process.now) copies out_sources.old out_targets.old out_leasts.old out_mosts.old out_sources.new out_targets.new out_leasts.new out_mosts.new }
{
    let templates = process.sources.len();
    for k in 0..copies {
        for j in 0..templates {
            let rule = rule_at(process, k, j);
            let i = k * templates + j;
            out_sources[i] = rule.source;
            out_targets[i] = rule.target;
            out_leasts[i] = rule.least;
            out_mosts[i] = rule.most;
        }
    }
}
