// Event graphs: as a caller lends them, with the definitions in specs/ and their laws in proofs/.
#![tactic(auto)]

// An event graph as its caller lends it: how many events it has, and four lists with one entry a rule. Nothing is assumed of it: it may break every limit.
// Kept: four lists beside each other: the C interface lends them so, and lists that differ in length are a refusal.
#[derive(Clone, Copy, Debug, PartialEq, Eq)]
pub struct GraphLists<'a> {
    pub events: usize,
    pub sources: &'a [usize],
    pub targets: &'a [usize],
    pub leasts: &'a [i64],
    pub mosts: &'a [i64],
}
