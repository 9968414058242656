// The static library: the entries that C and Rust call. A list is handed over as a pointer and a length. Each entry is thin: it calls the function of its
// form, hands back the refusal's number, 0 for none, and puts the other values where it is told; the firmware's entry hands back one number.
//     crankforest_separation  the firmware's entry: the separation of two events of a text's graph, as one number
//     crankforest_pairs       what the pair program writes for a text
//     crankforest_exact       the separation of two events of a graph
//     crankforest_schedule    the same, with the whole latest schedule
//     crankforest_coarse      the separation with delays rounded outward to steps of q
//     crankforest_hard        the separation where every rule's delays are deadlines of their own
//     crankforest_hard_schedule    the same, with the schedule
//     crankforest_unfold      the event graph of a process graph
//     crankforest_judge       the judgement on a claimed gap with its times and delays
// The promises are those of the functions; specs/Entries.antt says which values the entry's numbers stand for.
#![tactic(auto)]

ghost use Rattle.text.specs.Answers.{Entered};
ghost use Rattle.text.specs.Output.{PairsWritten};
ghost use Rattle.crankforest.specs.Entries.{pairs_answer_of};

mod coarse;
mod exact;
mod hard;
mod hard_latest;
mod judging;
mod latest;
mod unfolding;

pub use coarse::crankforest_coarse;
pub use exact::crankforest_exact;
pub use hard::crankforest_hard;
pub use hard_latest::crankforest_hard_schedule;
pub use judging::crankforest_judge;
pub use latest::crankforest_schedule;
use text::PairsAnswer;
pub use unfolding::crankforest_unfold;

// The greatest t(t) − t(s) over all executions of the text's graph, or −4,000,000,000 minus the refusal's number.
// Kept: one number for both: the C interface.
#[unsafe(no_mangle)]
pub extern "C" fn crankforest_separation(text: &[u8], s: usize, t: usize) -> i64
    ensures { Entered text.now s t result }
{
    match text::text_separation(text, s, t) {
        Ok(found) => found.separation,
        Err(refusal) => -4000000000 - refusal.number() as i64,
    }
}

// What the pair program writes for a text, into a lent list of at least 131,072 places, and the number of bytes. A shorter list is refused.
// Kept: an entry's parameters stay one by one, and its answer numbers: the C interface.
#[unsafe(no_mangle)]
pub extern "C" fn crankforest_pairs(
    text: &[u8],
    out: &mut [u8],
    place: &mut usize,
    bytes: &mut usize,
) -> usize
    ensures { PairsWritten text.now out.old (pairs_answer_of result place.new bytes.new) out.new }
{
    let answer = PairsAnswer::from(text::write_pairs(text, out));
    *place = answer.place;
    *bytes = answer.bytes;
    answer.refusal
}
