// One row of a rule: four fields with commas between, then CR LF or the end of the text; and the rows of a text.
ghost use Rattle.std.specs.Prelude.{◌≡◌, ◌+◌, ◌-◌, ◌≤◌, max, length, MatchOption};
ghost use Rattle.std.specs.Iterator.{at_most};
ghost use Rattle.text.specs.Parts.Scanning.{RowAt, RowGiven};
ghost use Rattle.text.specs.Parts.Fields.{EndAt, CommaAt};

use numerals::{byte_at, delay_field, event_field};

// A row of a rule that stands at a place, and where it stops.
#[derive(Clone, Copy, Debug, PartialEq, Eq)]
pub(crate) struct RuleRow {
    pub(crate) source: usize,
    pub(crate) target: usize,
    pub(crate) least: i64,
    pub(crate) most: i64,
    pub(crate) next: usize,
}

// Whether the text ends at a place, or CR LF stands there.
pub(crate) fn end_at(text: &[u8], at: usize) -> bool
    requires { at ≤ length text.now }
    ensures { EndAt text.now at result }
{
    let rest = &text[at..];
    rest.is_empty() || rest.starts_with(b"\r\n")
}

// The place after the comma that stands at `at`.
fn past_comma(text: &[u8], at: usize) -> Option<usize>
    ensures { CommaAt text.now at result }
{
    byte_at(text, at, b',').then(|| at + 1)
}

// The row at `at`.
pub(crate) fn rule_row(text: &[u8], at: usize) -> Option<RuleRow>
    ensures { RowAt text.now at result }
{
    let source = event_field(text, at)?;
    let target = event_field(text, past_comma(text, source.next)?)?;
    let least = delay_field(text, past_comma(text, target.next)?)?;
    let most = delay_field(text, past_comma(text, least.next)?)?;
    if !end_at(text, most.next) {
        return None;
    }
    Some(RuleRow {
        source: source.value,
        target: target.value,
        least: least.value,
        most: most.value,
        next: most.next,
    })
}

// The first line.
pub(crate) const HEADER: &[u8] = b"source,target,least,most";

// What is left of the rows of a text: the next one follows the line that ends at `at`.
#[derive(Clone, Copy, Drop)]
pub(crate) struct Rows<'a> {
    text: &'a [u8],
    at: usize,
    ghost within: { at ≤ max 24 (length text.now) },
}

// The rows after the first line.
pub(crate) fn rule_rows(text: &[u8]) -> Rows<'_>
    ensures { (result.text.now ≡ text.now) × (result.at ≡ 24) }
{
    Rows {
        text,
        at: HEADER.len(),
    }
}

// A row follows where more than an ending is left. `None` stands for what is no row, and ends them.
impl<'a> Iterator for Rows<'a> {
    type Item = Option<RuleRow>;

    ghost next_gives = { λ s given t. MatchOption given (length s.text.now ≤ s.at + 2) (λ row. (t.text.now ≡ s.text.now) × RowGiven s.text.now s.at row t.at) };

    ghost remaining = { λ s. at_most (length s.text.now - s.at) };

    #[inline]
    fn next(&mut self) -> Option<Option<RuleRow>> {
        if self.at + 2 >= self.text.len() {
            return None;
        }
        let row = rule_row(self.text, self.at + 2);
        self.at = row.map_or(self.text.len(), |row| row.next);
        Some(row)
    }
}
