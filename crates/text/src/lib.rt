// The text form: records of RFC 4180 in, one rule a row; and the table of all pairs out. It stands above the analysis and knows it only by what it
// promises.
//     read_rules           the rules of a text, written into four lent lists, or the refusal with its place
//     text_separation      the separation of two events of a text's graph
//     write_pairs          what the pair program writes for a text
// No caller is trusted. The grammar is in specs/Grammar.antt, the promises are in specs/Reading.antt, Answers.antt and Output.antt.
#![tactic(auto)]

ghost use Rattle.std.specs.Prelude.{◌≡◌, List, ℕ, ◌≤◌, length, take};
ghost use Rattle.graphs.specs.Graph.{graph_of};
ghost use Rattle.graphs.specs.Lists.{graph_in};
ghost use Rattle.separation.specs.Numbers.{answer_numbers};
ghost use Rattle.text.specs.Reading.{reading_numbers, ReadOff, RulesWritten, ShortForRules};
ghost use Rattle.text.specs.Answers.{TextAnswered};
ghost use Rattle.text.specs.Output.{Output, output_places, output_numbers, PairsWritten};
ghost use Rattle.numerals.specs.Appending.{Appended};

mod lines;
mod rows;
mod rules;
mod scan;

use crate::lines::{put_pairs, put_refusal};
use crate::rules::write_rules;
use crate::scan::{check_counts, scan};
use graphs::GraphLists;
use refusals::Refusal;
use separation::Separated;

// What a text may have.
const MAX_BYTES: usize = 32768;

const MAX_RULES: usize = 1024;

// The places of the table of all pairs.
const ENTRIES: usize = 4096;

// The places that a list for the output needs.
const OUTPUT_PLACES: usize = 131072;

// How many events and rules a text has.
#[derive(Clone, Copy, Debug, PartialEq, Eq)]
pub struct Reading {
    pub events: usize,
    pub rules: usize,
}

// The answer to a writing of the pairs in numbers, for callers that take no `Result`. `refusal` is 0, or 23 for a lent list that is too short, with its
// place; `bytes` counts what was written. A text that is refused is none of its refusals: the line that says so is what was written.
// Kept: the number of a refusal beside the values: the C interface.
#[derive(Clone, Copy, Debug, PartialEq, Eq)]
pub struct PairsAnswer {
    pub refusal: usize,
    pub place: usize,
    pub bytes: usize,
}

impl From<Result<usize, Refusal>> for PairsAnswer {
    ghost from_gives = { λ answer numbers. numbers ≡ output_numbers answer };

    fn from(answer: Result<usize, Refusal>) -> PairsAnswer {
        match answer {
            Ok(bytes) => PairsAnswer {
                refusal: 0,
                place: 0,
                bytes,
            },
            Err(refusal) => PairsAnswer {
                refusal: refusal.number(),
                place: refusal.place(),
                bytes: 0,
            },
        }
    }
}

// Kept: the four lists that are written stay four parameters. `RulesWritten` speaks of each, and a struct of them would need ghost names at each call, and is no plainer.
// The rules of a text, written into the four lent lists. Places beyond keep what they held; refused, all do.
pub fn read_rules(
    text: &[u8],
    sources: &mut [usize],
    targets: &mut [usize],
    leasts: &mut [i64],
    mosts: &mut [i64],
) -> Result<Reading, Refusal>
    ensures read_off { ReadOff text.now (ShortForRules sources.old targets.old leasts.old mosts.old) (reading_numbers result) }
    ensures rules_written { RulesWritten text.now (reading_numbers result) sources.old targets.old leasts.old mosts.old sources.new targets.new leasts.new mosts.new }
{
    if text.len() > MAX_BYTES {
        return Err(Refusal::BytesOutside);
    }
    let found = scan(text)?;
    let places = sources
        .len()
        .min(targets.len())
        .min(leasts.len())
        .min(mosts.len());
    check_counts(found, places)?;
    write_rules(text, sources, targets, leasts, mosts);
    Ok(found)
}

// Room for the rules of a text.
// Kept: four arrays of fixed size, on the stack, with no heap; `GraphLists` lends on four lists.
#[derive(Drop)]
struct TextRules {
    sources: [usize; MAX_RULES],
    targets: [usize; MAX_RULES],
    leasts: [i64; MAX_RULES],
    mosts: [i64; MAX_RULES],
}

impl TextRules {
    fn new() -> TextRules {
        TextRules {
            sources: [0; MAX_RULES],
            targets: [0; MAX_RULES],
            leasts: [0; MAX_RULES],
            mosts: [0; MAX_RULES],
        }
    }

    // The rules of a text, taken into this room.
    fn read(&mut self, text: &[u8]) -> Result<Reading, Refusal>
        ensures read_off { ReadOff text.now (ShortForRules self.old.sources self.old.targets self.old.leasts self.old.mosts) (reading_numbers result) }
        ensures rules_written { RulesWritten text.now (reading_numbers result) self.old.sources self.old.targets self.old.leasts self.old.mosts self.new.sources self.new.targets self.new.leasts self.new.mosts }
    {
        read_rules(
            text,
            &mut self.sources,
            &mut self.targets,
            &mut self.leasts,
            &mut self.mosts,
        )
    }

    // The graph of what was read.
    fn graph(&self, found: Reading) -> GraphLists<'_>
        requires { found.rules ≤ 1024 }
        ensures { graph_in result ≡ graph_of found.events (take found.rules self.now.sources) (take found.rules self.now.targets) (take found.rules self.now.leasts) (take found.rules self.now.mosts) }
    {
        GraphLists {
            events: found.events,
            sources: &self.sources[..found.rules],
            targets: &self.targets[..found.rules],
            leasts: &self.leasts[..found.rules],
            mosts: &self.mosts[..found.rules],
        }
    }
}

// The greatest t(t) − t(s) over all executions of the text's graph, and the depths of s and t.
pub fn text_separation(text: &[u8], s: usize, t: usize) -> Result<Separated, Refusal>
    ensures { TextAnswered text.now s t (answer_numbers result) }
{
    let mut rules = TextRules::new();
    let found = rules.read(text)?;
    separation::separation(&rules.graph(found), s, t)
}

// What the pair program writes for a text, into a lent list that is long enough; gives the number of bytes. The text is read before the table is made, so that
// one that is refused costs no table.
fn put_output(text: &[u8], out: &mut [u8]) -> usize
    requires { output_places ≤ length out.old }
    ensures { (bytes : List ℕ) × Output text.now bytes × Appended out.old 0 bytes out.new result }
{
    let mut rules = TextRules::new();
    let reading = match rules.read(text) {
        Ok(reading) => reading,
        Err(refusal) => return put_refusal(out, refusal),
    };
    // Kept: a list of fixed size, on the stack: the project has no heap.
    let mut entries = [0i64; ENTRIES];
    match table::fill_table(&rules.graph(reading), &mut entries) {
        Ok(()) => put_pairs(out, reading.events, &entries),
        Err(refusal) => put_refusal(out, refusal),
    }
}

// What the pair program writes for a text, into a lent list of at least 131,072 places. A shorter list is refused, and keeps what it held.
pub fn write_pairs(text: &[u8], out: &mut [u8]) -> Result<usize, Refusal>
    ensures { PairsWritten text.now out.old (output_numbers result) out.new }
{
    if out.len() < OUTPUT_PLACES {
        return Err(Refusal::ShortList);
    }
    Ok(put_output(text, out))
}
