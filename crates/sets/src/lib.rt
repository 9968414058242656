// Pruned sets of pairs: a function of a number, carried as the pairs of all paths that no other pair makes needless.
//     Limit::from                        the limit that a number and a flag stand for
//     PrunedSet::unit, PrunedSet::zero   pass-everything and pass-nothing
//     Pair::then                         two pairs composed
//     PrunedSet::value_at                the value of a set at a number
//     prune                              the pruned set of a list of candidates, or that it has too many pairs
//     prune_lists                        the same of candidates in four lists, of numbers and flags
// Nothing is asked of the caller. The definitions are in specs/, their laws in proofs/.
#![tactic(auto)]

ghost use Rattle.std.specs.Prelude.{◌≡◌, ◌↔◌, min, IsTrue};
ghost use Rattle.std.specs.Iterator.{IsFinite};
ghost use Rattle.std.specs.Iterator.Runs.{WholeRun};
ghost use Rattle.sets.specs.Set.{pass_everything, pass_nothing};
ghost use Rattle.sets.specs.Held.{limit, limit_of, pair_of, held, pairs_of, candidates_of, candidates};
ghost use Rattle.sets.specs.Promise.{ComposedTo, Valued, PrunedTo};
ghost use Rattle.sets.specs.Parts.{NearChecked, NumbersSummed, LimitsSummed, PairValued, Left, Chosen, PrunedBy};

// A limit of a pair. In their order `Unlimited` is above every number.
// Kept: no Option, whose order has None below every Some.
#[derive(Clone, Copy, Debug, PartialEq, Eq, PartialOrd, Ord)]
pub enum Limit {
    Number(i64),
    Unlimited,
}

// A pair (l, w).
#[derive(Clone, Copy, Debug, PartialEq, Eq)]
pub struct Pair {
    pub l: Limit,
    pub w: Limit,
}

// The pairs of a set in pruned order, in the first `count` places. The places beyond hold the unit.
// Kept: an array with a count, since unit and zero are fixed values, each set with its pairs in an array (docs/DECISIONS.md, "Limits and sets in code"); no heap.
#[derive(Clone, Debug, Drop, PartialEq, Eq)]
pub struct PrunedSet {
    pub pairs: [Pair; 64],
    pub count: usize,
}

// A number that was to be added is beyond `BOUND` either side of zero; or, where a value was asked for, l and w of a pair are both unlimited.
#[derive(Clone, Copy, Debug, PartialEq, Eq)]
pub struct Outside;

// Pruning leaves more pairs than are allowed.
#[derive(Clone, Copy, Debug, PartialEq, Eq)]
pub struct MorePairs;

// Two numbers within it have a sum of 64 bits.
const BOUND: i64 = 4000000000000000000;

// The number, if it is within `BOUND`.
fn near(a: i64) -> Result<i64, Outside>
    ensures { NearChecked a result }
{
    if (-BOUND..=BOUND).contains(&a) {
        Ok(a)
    } else {
        Err(Outside)
    }
}

// The sum of two numbers, if they are within `BOUND`.
fn sum(a: i64, b: i64) -> Result<i64, Outside>
    ensures { NumbersSummed a b result }
{
    Ok(near(a)? + near(b)?)
}

// The limit that a number and a flag stand for: unlimited where the flag is set, whatever number stands beside it.
impl From<(i64, bool)> for Limit {
    ghost from_gives = { λ given result. limit_of result ≡ limit given.0 given.1 };

    fn from((number, unlimited): (i64, bool)) -> Limit {
        if unlimited {
            Limit::Unlimited
        } else {
            Limit::Number(number)
        }
    }
}

impl Limit {
    // The sum of two limits.
    fn plus(self, other: Limit) -> Result<Limit, Outside>
        ensures { LimitsSummed (limit_of self) (limit_of other) result }
    {
        match (self, other) {
            (Limit::Number(a), Limit::Number(b)) => sum(a, b).map(Limit::Number),
            (Limit::Number(a), Limit::Unlimited) | (Limit::Unlimited, Limit::Number(a)) => {
                near(a).map(|_| Limit::Unlimited)
            }
            (Limit::Unlimited, Limit::Unlimited) => Ok(Limit::Unlimited),
        }
    }
}

impl Pair {
    // The unit, which passes everything.
    pub const UNIT: Pair = Pair {
        l: Limit::Number(0),
        w: Limit::Unlimited,
    };

    // This pair first and then the next.
    pub fn then(self, next: Pair) -> Result<Pair, Outside>
        ensures { ComposedTo (pair_of self) (pair_of next) result }
    {
        Ok(Pair {
            l: self.l.plus(next.l)?,
            w: self.w.plus(next.l)?.min(next.w),
        })
    }

    // The lesser of x + l and w.
    fn value_at(self, x: i64) -> Result<i64, Outside>
        ensures { PairValued (pair_of self) x result }
    {
        match (self.l, self.w) {
            (Limit::Number(l), Limit::Number(w)) => Ok(sum(x, l)?.min(w)),
            (Limit::Number(l), Limit::Unlimited) => sum(x, l),
            (Limit::Unlimited, Limit::Number(w)) => Ok(w),
            (Limit::Unlimited, Limit::Unlimited) => Err(Outside),
        }
    }
}

impl PrunedSet {
    pub const UNIT: PrunedSet = PrunedSet {
        pairs: [Pair::UNIT; 64],
        count: 1,
    };

    pub const ZERO: PrunedSet = PrunedSet {
        pairs: [Pair::UNIT; 64],
        count: 0,
    };

    // Pass-everything, the report's unit.
    pub fn unit() -> PrunedSet
        ensures { result ≡ held pass_everything }
    {
        PrunedSet::UNIT
    }

    // Pass-nothing, the report's zero.
    pub fn zero() -> PrunedSet
        ensures { result ≡ held pass_nothing }
    {
        PrunedSet::ZERO
    }

    // The greatest of the pairs' values at x; none where there is no pair.
    pub fn value_at(&self, x: i64) -> Result<Option<i64>, Outside>
        ensures { Valued (pairs_of self.now) x result }
    {
        let mut greatest = None;
        for pair in &self.pairs[..self.count.min(64)] {
            greatest = greatest.max(Some(pair.value_at(x)?));
        }
        Ok(greatest)
    }
}

// Whether a pair is left to be selected, where `last` is the pair kept last.
#[tactic(auto, using(crate::proofs::Choosing::below_is))]
fn is_left(last: Option<Pair>, pair: Pair) -> bool
    ensures { IsTrue result ↔ Left last (pair_of pair) }
{
    match last {
        None => true,
        Some(kept) => kept.l < pair.l,
    }
}

// Of some pairs the one that is selected next, where `last` is the pair kept last: of those with a greater l than it the one with the greatest w, and among
// these with the greatest l.
fn selected<I: Iterator<Item = Pair> + Drop>(pairs: I, last: Option<Pair>) -> Option<Pair>
    requires can { I.can_next pairs }
    requires finite { IsFinite (I.remaining pairs) }
    ensures { WholeRun I.next_gives pairs (λ p. Chosen (candidates_of p.items) last result) }
{
    pairs
        .filter(|pair| is_left(last, *pair))
        .max_by_key(|pair| (pair.w, pair.l))
}

// The candidate that is selected next.
fn next_pair(candidates: &[Pair], last: Option<Pair>) -> Option<Pair>
    ensures { Chosen (candidates_of candidates.now) last result }
{
    selected(candidates.iter().copied(), last)
}

// The same of candidates in four lists.
fn next_of_lists(
    ls: &[i64],
    l_unlimited: &[bool],
    ws: &[i64],
    w_unlimited: &[bool],
    last: Option<Pair>,
) -> Option<Pair>
    ensures { Chosen (candidates ls.now l_unlimited.now ws.now w_unlimited.now) last result }
{
    let count = ls
        .len()
        .min(l_unlimited.len())
        .min(ws.len())
        .min(w_unlimited.len());
    // Kept: the four lists are read at a place. They were tried zipped, and took twice the time.
    let pairs = (0..count).map(|i| Pair {
        l: Limit::from((ls[i], l_unlimited[i])),
        w: Limit::from((ws[i], w_unlimited[i])),
    });
    selected(pairs, last)
}

// What pruning leaves of the candidates of which `next` gives the one that is selected next, if that is at most `most` pairs, and at most 64.
fn pruned<F: Fn(Option<Pair>) -> Option<Pair>>(next: F, most: usize) -> Result<PrunedSet, MorePairs>
    requires { F.IsAlwaysCallable next }
    ensures { PrunedBy (F.post next) (min most 64) result }
{
    let room = most.min(64);
    let mut set = PrunedSet::zero();
    let mut last = None;
    while let Some(pair) = next(last) {
        if set.count >= room {
            return Err(MorePairs);
        }
        set.pairs[set.count] = pair;
        set.count += 1;
        last = Some(pair);
    }
    Ok(set)
}

// What pruning leaves of the candidates, if that is at most `most` pairs, and at most 64.
pub fn prune(candidates: &[Pair], most: usize) -> Result<PrunedSet, MorePairs>
    ensures { PrunedTo (candidates_of candidates.now) (min most 64) result }
{
    pruned(|last| next_pair(candidates, last), most)
}

// The same of candidates in four lists: candidate i is (ls[i], ws[i]), either of them unlimited where its flag is set, whatever number stands beside it. There
// are as many as the shortest of the lists has entries.
pub fn prune_lists(
    ls: &[i64],
    l_unlimited: &[bool],
    ws: &[i64],
    w_unlimited: &[bool],
    most: usize,
) -> Result<PrunedSet, MorePairs>
    ensures { PrunedTo (candidates ls.now l_unlimited.now ws.now w_unlimited.now) (min most 64) result }
{
    pruned(
        |last| next_of_lists(ls, l_unlimited, ws, w_unlimited, last),
        most,
    )
}
