// Process graphs, and their unfolding into event graphs.
//     unfold    K occurrences of each process event, and the rules between them, written into four lent lists
// No caller is trusted: every list, length and number gets an answer. The promise is in specs/Unfolding.antt.
#![tactic(auto)]

ghost use Rattle.std.specs.Prelude.{◌≡◌};
ghost use Rattle.processes.specs.Lists.{process_in};
ghost use Rattle.processes.specs.Numbers.{unfolded_numbers};
ghost use Rattle.processes.specs.Unfolding.{UnfoldingAnswered, ShortRuleLists, UnfoldingWritten};

mod checks;
mod input;
mod rules;

use crate::input::check_process;
use crate::rules::write_rules;
use refusals::Refusal;

// A process graph as its caller lends it: how many process events it has, and seven lists with one entry a template. Nothing is assumed of it: it may break
// every limit.
// Kept: seven lists beside each other, and an offset mark that is a number: the C interface lends them so, and a mark that is neither 0 nor 1 is refusal 7.
#[derive(Clone, Copy, Debug, PartialEq, Eq)]
pub struct ProcessLists<'a> {
    pub events: usize,
    pub sources: &'a [usize],
    pub targets: &'a [usize],
    pub leasts: &'a [i64],
    pub mosts: &'a [i64],
    pub marks: &'a [usize],
    pub start_leasts: &'a [i64],
    pub start_mosts: &'a [i64],
}

// A process event u, by its number.
#[derive(Clone, Copy, Debug, PartialEq, Eq)]
pub struct Event(pub usize);

// An occurrence u_k, by its number in the event graph.
#[derive(Clone, Copy, Debug, PartialEq, Eq)]
pub struct Occurrence(pub usize);

// What an unfolding is answered where nothing is refused: how many events it has, and how many rules were written.
#[derive(Clone, Copy, Debug, PartialEq, Eq)]
pub struct Unfolding {
    pub events: usize,
    pub rules: usize,
}

// An answer in numbers, for callers that take no `Result`. `refusal` is 0, or the refusal's number, with its place; refused, both counts are 0.
// Kept: the number of a refusal beside the values: the C interface.
#[derive(Clone, Copy, Debug, PartialEq, Eq)]
pub struct Unfolded {
    pub refusal: usize,
    pub place: usize,
    pub events: usize,
    pub rules: usize,
}

impl From<Result<Unfolding, Refusal>> for Unfolded {
    ghost from_gives = { λ answer numbers. numbers ≡ unfolded_numbers answer };

    fn from(answer: Result<Unfolding, Refusal>) -> Unfolded {
        match answer {
            Ok(unfolding) => Unfolded {
                refusal: 0,
                place: 0,
                events: unfolding.events,
                rules: unfolding.rules,
            },
            Err(refusal) => Unfolded {
                refusal: refusal.number(),
                place: refusal.place(),
                events: 0,
                rules: 0,
            },
        }
    }
}

// K = `copies` occurrences of each process event, and for each k below K the rule of every template, written into the four lent lists. The start rule of
// a template with mark 1 has its start interval; a start entry of another mark is not looked at. Places beyond keep what they held; refused, all do.
// Kept: the four lists that are written stay four parameters: a struct of them would need ghost names at each call, and is no plainer.
pub fn unfold(
    process: &ProcessLists<'_>,
    copies: usize,
    out_sources: &mut [usize],
    out_targets: &mut [usize],
    out_leasts: &mut [i64],
    out_mosts: &mut [i64],
) -> Result<Unfolding, Refusal>
    ensures unfolding_answered { UnfoldingAnswered (process_in process.now) copies (ShortRuleLists (process_in process.now) copies out_sources.old out_targets.old out_leasts.old out_mosts.old) (unfolded_numbers result) }
    ensures unfolding_written { UnfoldingWritten (process_in process.now) copies (unfolded_numbers result) out_sources.old out_targets.old out_leasts.old out_mosts.old out_sources.new out_targets.new out_leasts.new out_mosts.new }
{
    let places = out_sources
        .len()
        .min(out_targets.len())
        .min(out_leasts.len())
        .min(out_mosts.len());
    let unfolding = check_process(process, copies, places)?;
    write_rules(
        process,
        copies,
        out_sources,
        out_targets,
        out_leasts,
        out_mosts,
    );
    Ok(unfolding)
}
