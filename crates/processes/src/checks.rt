// The checks on a process graph that are this crate's own: the counts, the offset marks and the start intervals.
ghost use Rattle.std.specs.Prelude.{◌≡◌, length};
ghost use Rattle.verdicts.specs.Verdict.{LowestIn};
ghost use Rattle.refusals.specs.Numbers.{Refuses};
ghost use Rattle.processes.specs.Lists.{process_in};
ghost use Rattle.processes.specs.Parts.Checks.{process_count_checks, MarkKept, MarkBroken, StartKept, StartBroken};

use crate::ProcessLists;
use refusals::Refusal;

const MAX_EVENTS: usize = 1024;

// One less: the root is an event of every unfolding.
const MAX_PROCESS_EVENTS: usize = 1023;

const MAX_RULES: usize = 4096;

// Refusal 21 where the process events are none or too many; 22 where the templates are, or the seven lists differ in length; 24 where K is 0 or the unfolding
// is beyond its limits. No product is taken before its factors are small.
pub(crate) fn check_counts(process: &ProcessLists<'_>, copies: usize) -> Result<(), Refusal>
    ensures { Refuses (process_count_checks (process_in process.now) copies) result }
{
    if process.events == 0 || process.events > MAX_PROCESS_EVENTS {
        return Err(Refusal::EventsOutside);
    }
    let templates = process.sources.len();
    if templates > MAX_RULES
        || process.targets.len() != templates
        || process.leasts.len() != templates
        || process.mosts.len() != templates
        || process.marks.len() != templates
        || process.start_leasts.len() != templates
        || process.start_mosts.len() != templates
    {
        return Err(Refusal::RulesOutside);
    }
    if copies == 0
        || copies >= MAX_EVENTS
        || 1 + process.events * copies > MAX_EVENTS
        || templates * copies > MAX_RULES
    {
        return Err(Refusal::CopiesOutside);
    }
    Ok(())
}

// The lowest template whose offset mark is neither 0 nor 1.
pub(crate) fn broken_mark(marks: &[usize]) -> Option<usize>
    ensures { LowestIn (length marks.now) (MarkKept marks.now) (MarkBroken marks.now) result }
{
    marks.iter().position(|mark| *mark > 1)
}

// The lowest template with mark 1 whose start interval is outside. An entry of another mark is not looked at.
// Kept: two lists are read at the place of the first; of the three zipped, with `position`, the proof did not close.
pub(crate) fn outside_start(
    marks: &[usize],
    start_leasts: &[i64],
    start_mosts: &[i64],
) -> Option<usize>
    requires { (length start_leasts.now ≡ length marks.now) × (length start_mosts.now ≡ length marks.now) }
    ensures { LowestIn (length marks.now) (StartKept marks.now start_leasts.now start_mosts.now) (StartBroken marks.now start_leasts.now start_mosts.now) result }
{
    for (j, mark) in marks.iter().enumerate() {
        if *mark == 1 && refusals::interval_outside(start_leasts[j], start_mosts[j]) {
            return Some(j);
        }
    }
    None
}
