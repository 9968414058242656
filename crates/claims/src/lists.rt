// A claim's lists beside those of the graph they speak of.
ghost use Rattle.std.specs.Prelude.{◌≡◌, length};
ghost use Rattle.graphs.specs.Limits.{Sized};
ghost use Rattle.graphs.specs.Lists.{graph_in};
ghost use Rattle.claims.specs.Parts.Marks.{RootFree};

use graphs::GraphLists;

// A graph whose rules are right and do not lead to the root, with a time for each event and a delay for each rule.
#[derive(Clone, Copy)]
pub(crate) struct ClaimLists<'a> {
    pub(crate) lists: GraphLists<'a>,
    pub(crate) times: &'a [i64],
    pub(crate) delays: &'a [i64],
    ghost sized: { Sized 1000000 (graph_in lists) },
    ghost root_free: { RootFree (graph_in lists) },
    ghost times_length: { length times.now ≡ lists.events },
    ghost delays_length: { length delays.now ≡ length lists.sources.now },
}
