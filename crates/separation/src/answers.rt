// What the analysis finds, with the separation read off.
ghost use Rattle.std.specs.Prelude.{◌≡◌, List, ◌≤◌, ℤ, length, take};
ghost use Rattle.graphs.specs.Graph.{graph_of};
ghost use Rattle.graphs.specs.Lists.{graph_in};
ghost use Rattle.separation.specs.Numbers.{answer_numbers};
ghost use Rattle.separation.specs.Parts.Answers.{AnswerAnalysed};

use crate::Separated;
use graphs::GraphLists;
use refusals::Refusal;

// The most that a rounded delay comes to.
const MAX_ROUNDED: usize = 1001000;

// The refusal, or the separation with both depths; then `latest` holds U of every event. Delays may be from −limit to limit.
pub(crate) fn analysed(
    lists: &GraphLists<'_>,
    limit: usize,
    s: usize,
    t: usize,
    latest: &mut [i32],
) -> Result<Separated, Refusal>
    requires { length latest.old ≡ 1024 }
    ensures { AnswerAnalysed limit (graph_in lists.now) s t latest.new (answer_numbers result) }
{
    let depths = analysis::analyse(lists, limit, s, t, latest)?;
    Ok(Separated {
        separation: i64::from(latest[t]),
        source_depth: depths.source,
        target_depth: depths.target,
    })
}

// The same of the rules' front parts of `low` and `high`, which are rounded.
pub(crate) fn analysed_rounded(
    lists: &GraphLists<'_>,
    low: &[i64],
    high: &[i64],
    s: usize,
    t: usize,
) -> Result<Separated, Refusal>
    requires { (length lists.now.sources.now ≤ length low.now) × (length lists.now.sources.now ≤ length high.now) }
    ensures { (us : List ℤ) × AnswerAnalysed 1001000 (graph_of lists.now.events lists.now.sources.now lists.now.targets.now (take (length lists.now.sources.now) low.now) (take (length lists.now.sources.now) high.now)) s t us (answer_numbers result) }
{
    let rules = lists.sources.len();
    let rounded = GraphLists {
        leasts: &low[..rules],
        mosts: &high[..rules],
        ..*lists
    };
    // Kept: a list of fixed size, on the stack: the project has no heap.
    let mut latest = [0i32; 1024];
    analysed(&rounded, MAX_ROUNDED, s, t, &mut latest)
}
