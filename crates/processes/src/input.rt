// The answer to an unfolding: the refusals 21, 22, 24, 23, 2, 3, 7 in this order, or both counts.
ghost use Rattle.std.specs.Prelude.{◌≡◌, length};
ghost use Rattle.verdicts.specs.Verdict.{LowestIn};
ghost use Rattle.processes.specs.Lists.{process_in};
ghost use Rattle.processes.specs.Numbers.{unfolded_numbers};
ghost use Rattle.processes.specs.Process.{templates};
ghost use Rattle.processes.specs.Parts.Checks.{ListsKept, TemplateKept, TemplateBroken, ProcessChecked};

use crate::checks::{broken_mark, check_counts, outside_start};
use crate::{ProcessLists, Unfolding};
use refusals::Refusal;

// The lowest template whose delays are outside or, with mark 1, whose start interval is.
fn outside_interval(process: &ProcessLists<'_>) -> Option<usize>
    requires { ListsKept (process_in process.now) }
    ensures { LowestIn (templates (process_in process.now)) (TemplateKept (process_in process.now)) (TemplateBroken (process_in process.now)) result }
{
    let delays = refusals::outside_delay(process.leasts, process.mosts);
    let starts = outside_start(process.marks, process.start_leasts, process.start_mosts);
    match (delays, starts) {
        (Some(delay), Some(start)) => Some(delay.min(start)),
        (delay, start) => delay.or(start),
    }
}

// The answer, where the shortest lent list has `places` places.
pub(crate) fn check_process(
    process: &ProcessLists<'_>,
    copies: usize,
    places: usize,
) -> Result<Unfolding, Refusal>
    ensures { ProcessChecked (process_in process.now) copies places (unfolded_numbers result) }
{
    check_counts(process, copies)?;
    let rules = process.sources.len() * copies;
    if places < rules {
        return Err(Refusal::ShortList);
    }
    if let Some(template) = refusals::unknown_event(
        process.events,
        process.sources,
        process.targets,
    ) {
        return Err(Refusal::UnknownEvent(template));
    }
    if let Some(template) = outside_interval(process) {
        return Err(Refusal::DelayOutside(template));
    }
    if let Some(template) = broken_mark(process.marks) {
        return Err(Refusal::MarkOutside(template));
    }
    Ok(Unfolding {
        events: 1 + process.events * copies,
        rules,
    })
}
