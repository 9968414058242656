// The rules of a graph, chained by target. `heads[v]` is 1 + the last rule into v, and `nexts[i]` is 1 + the rule before rule i with the same target; 0 ends a
// list.
// Kept: 0 and 1 + a rule, and no `Option`, in fixed memory: 16 bits are enough for 4,096 rules, so that both lists stay in the nearest cache.
ghost use Rattle.std.specs.Prelude.{◌≡◌, suc, ◌<◌, get_or, MatchOption};
ghost use Rattle.std.specs.Iterator.{at_most};
ghost use Rattle.analysis.specs.Parts.Chains.{ChainLists, Falling};
ghost use Rattle.analysis.specs.Parts.Rules.{RulesKept};

use graphs::GraphLists;

// A graph whose rules are right, with its chains.
#[derive(Clone, Copy)]
pub(crate) struct Chains<'a> {
    pub(crate) lists: GraphLists<'a>,
    pub(crate) heads: &'a [u16],
    pub(crate) nexts: &'a [u16],
    ghost kept: { RulesKept lists.events lists.sources.now lists.targets.now },
    ghost chained: { ChainLists lists.events lists.targets.now heads.now nexts.now },
}

impl<'a> Chains<'a> {
    // The rules into event `v`, the last one first.
    #[inline(always)]
    pub(crate) fn rules_into(&self, v: usize) -> RulesInto<'a>
        requires { v < self.now.lists.events }
        ensures { (result.e ≡ get_or self.now.heads.now v 0) × (result.nexts.now ≡ self.now.nexts.now) }
    {
        RulesInto {
            nexts: self.nexts,
            e: self.heads[v],
        }
    }
}

// What is left of a chain: e is 1 + the next rule.
#[derive(Clone, Copy, Drop)]
pub(crate) struct RulesInto<'a> {
    nexts: &'a [u16],
    e: u16,
    ghost falling: { Falling nexts.now e },
}

impl<'a> Iterator for RulesInto<'a> {
    type Item = usize;

    ghost next_gives = { λ s r t. MatchOption r (s.e ≡ 0) (λ i. (s.e ≡ suc i) × (t.nexts.now ≡ s.nexts.now) × (t.e ≡ get_or s.nexts.now i 0)) };

    ghost remaining = { λ s. at_most s.e };

    #[inline(always)]
    fn next(&mut self) -> Option<usize> {
        if self.e == 0 {
            return None;
        }
        let i = usize::from(self.e) - 1;
        self.e = self.nexts[i];
        Some(i)
    }
}
