// The entry of the unfolding.
ghost use Rattle.processes.specs.Process.{process_of};
ghost use Rattle.processes.specs.Unfolding.{UnfoldingAnswered, ShortRuleLists, UnfoldingWritten};
ghost use Rattle.crankforest.specs.Entries.{unfolded_of};

use processes::{ProcessLists, Unfolded};

// The event graph of a process graph, unfolded `copies` times, in the four lent lists.
// Kept: an entry's parameters stay one by one, and its answer numbers: the C interface.
#[unsafe(no_mangle)]
pub extern "C" fn crankforest_unfold(
    p: usize,
    copies: usize,
    sources: &[usize],
    targets: &[usize],
    leasts: &[i64],
    mosts: &[i64],
    marks: &[usize],
    start_leasts: &[i64],
    start_mosts: &[i64],
    out_sources: &mut [usize],
    out_targets: &mut [usize],
    out_leasts: &mut [i64],
    out_mosts: &mut [i64],
    place: &mut usize,
    events: &mut usize,
    rules: &mut usize,
) -> usize
    ensures unfolding_answered { UnfoldingAnswered (process_of p sources.now targets.now leasts.now mosts.now marks.now start_leasts.now start_mosts.now) copies (ShortRuleLists (process_of p sources.now targets.now leasts.now mosts.now marks.now start_leasts.now start_mosts.now) copies out_sources.old out_targets.old out_leasts.old out_mosts.old) (unfolded_of result place.new events.new rules.new) }
    ensures unfolding_written { UnfoldingWritten (process_of p sources.now targets.now leasts.now mosts.now marks.now start_leasts.now start_mosts.now) copies (unfolded_of result place.new events.new rules.new) out_sources.old out_targets.old out_leasts.old out_mosts.old out_sources.new out_targets.new out_leasts.new out_mosts.new }
{
    let process = ProcessLists {
        events: p,
        sources,
        targets,
        leasts,
        mosts,
        marks,
        start_leasts,
        start_mosts,
    };
    let unfolded = Unfolded::from(processes::unfold(
        &process,
        copies,
        out_sources,
        out_targets,
        out_leasts,
        out_mosts,
    ));
    *place = unfolded.place;
    *events = unfolded.events;
    *rules = unfolded.rules;
    unfolded.refusal
}
