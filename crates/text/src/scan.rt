// The whole text read once, and nothing written: is it a text, of how many rules and events, or which row is broken?
ghost use Rattle.std.specs.Prelude.{◌≡◌, suc, max, ◌<◌, ◌≤◌, length};
ghost use Rattle.refusals.specs.Numbers.{Refuses};
ghost use Rattle.text.specs.Reading.{reading_numbers};
ghost use Rattle.text.specs.Parts.Scanning.{reading_checks, Scanned};
ghost use Rattle.text.specs.Parts.Header.{HeaderFound};

use crate::Reading;
use crate::rows::{HEADER, end_at, rule_rows};
use refusals::Refusal;

// What a text may have.
const MAX_EVENTS: usize = 64;

const MAX_RULES: usize = 1024;

// Refusal 21 for too many events, 22 for too many rules, 23 where the rules are more than the places of the lists for them.
pub(crate) fn check_counts(found: Reading, places: usize) -> Result<(), Refusal>
    ensures { Refuses (reading_checks found.events found.rules places) result }
{
    if found.events > MAX_EVENTS {
        return Err(Refusal::EventsOutside);
    }
    if found.rules > MAX_RULES {
        return Err(Refusal::RulesOutside);
    }
    if found.rules > places {
        return Err(Refusal::ShortList);
    }
    Ok(())
}

// Whether the first line is the header.
fn header_stands(text: &[u8]) -> bool
    ensures { HeaderFound text.now result }
{
    text.starts_with(HEADER) && end_at(text, HEADER.len())
}

// The number of events when a rule is read after others.
fn with_rule(events: usize, source: usize, target: usize) -> usize
    requires { (source < 10000000) × (target < 10000000) }
    ensures { result ≡ max (suc source) (max (suc target) events) }
{
    events.max(source + 1).max(target + 1)
}

// The whole text read once.
#[tactic(auto, using(crate::proofs::Progress::counted_none, crate::proofs::Progress::counted_more))]
pub(crate) fn scan(text: &[u8]) -> Result<Reading, Refusal>
    requires { length text.now ≤ 32768 }
    ensures { Scanned text.now (reading_numbers result) }
{
    if !header_stands(text) {
        return Err(Refusal::BrokenRow(1));
    }
    let mut rules = 0;
    let mut events = 1;
    for row in rule_rows(text) {
        let Some(row) = row else {
            return Err(Refusal::BrokenRow(rules + 2));
        };
        events = with_rule(events, row.source, row.target);
        rules += 1;
    }
    Ok(Reading { events, rules })
}
