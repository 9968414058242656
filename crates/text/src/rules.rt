// The rules of a text that is right, written into lists.
ghost use Rattle.std.specs.Prelude.{List, ◌<◌, ◌≤◌, length};
ghost use Rattle.text.specs.Grammar.{Rule, Text};
ghost use Rattle.text.specs.Reading.{ListsHold};

use crate::rows::rule_rows;

// Kept: four lists that are written side by side, as `read_rules` has them.
// The rules of the text, in order.
#[tactic(auto, using(crate::proofs::Writing::writing_none))]
pub(crate) fn write_rules(
    text: &[u8],
    sources: &mut [usize],
    targets: &mut [usize],
    leasts: &mut [i64],
    mosts: &mut [i64],
)
    requires { (rs : List Rule) × Text text.now rs × (length rs ≤ length sources.old) × (length rs ≤ length targets.old) × (length rs ≤ length leasts.old) × (length rs ≤ length mosts.old) }
    ensures { (rs : List Rule) → Text text.now rs → ListsHold rs sources.old targets.old leasts.old mosts.old sources.new targets.new leasts.new mosts.new }
{
    for (i, row) in rule_rows(text).enumerate() {
        let row = row.unwrap();
        sources[i] = row.source;
        targets[i] = row.target;
        leasts[i] = row.least;
        mosts[i] = row.most;
    }
}
