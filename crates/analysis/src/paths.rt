// The walk that finds m, from the sinks on: an event whose turn comes has its m, and hands it on along the rules into it. Where there is no path to s one
// number stands that no sum of delays comes to.
ghost use Rattle.std.specs.Prelude.{◌≡◌, List, ℕ, ◌<◌, ◌≤◌, ℤ, pos, length, get_or};
ghost use Rattle.integers.specs.Within.{Within};
ghost use Rattle.sequences.specs.Filled.{Filled};
ghost use Rattle.graphs.specs.Lists.{graph_in};
ghost use Rattle.analysis.specs.Parts.Paths.{absent, MPass, MAll};
ghost use Rattle.analysis.specs.Parts.InChains.{MReadyIn, PassReadyIn, PushReadyIn};

use crate::chains::Chains;

// Kept: an `Option<i32>` would take twice the memory of each event in the lent list, which holds U afterwards.
pub(crate) const ABSENT: i32 = 2100000000;

// A delay of a rule, in 32 bits.
pub(crate) fn delay_of(delays: &[i64], i: usize) -> i32
    requires { (i < length delays.now) × Within 1001000 (get_or delays.now i (pos 0)) }
    ensures { result ≡ get_or delays.now i (pos 0) }
{
    delays[i] as i32
}

// No event has an m yet.
fn clear(n: usize, m: &mut [i32])
    requires { n ≤ length m.old }
    ensures { Filled (pos 0) n (λ v x. x ≡ absent) m.old m.new }
{
    m[..n].fill(ABSENT);
}

// Hands m(v) on along the rules into `v`: the source of each has a path of that m less the least delay.
fn push(chains: &Chains<'_>, v: usize, m: &mut [i32])
    requires { (order : List ℕ) × (s : ℕ) × (k : ℕ) × (m₀ : List ℤ) × PushReadyIn chains.now order s k v m₀ m.old }
    ensures { (order : List ℕ) (s k : ℕ) (m₀ : List ℤ) (r : PushReadyIn chains.now order s k v m₀ m.old) → MPass (graph_in chains.now.lists) s r.ready.arranged.rank k 0 m₀ m.new }
{
    let here = m[v];
    for i in chains.rules_into(v) {
        let u = chains.lists.sources[i];
        m[u] = m[u].min(here - delay_of(chains.lists.leasts, i));
    }
}

// Lets each event hand on its m when its turn comes.
fn push_all(chains: &Chains<'_>, order: &[u16], m: &mut [i32])
    requires { (s : ℕ) × (m₀ : List ℤ) × PassReadyIn chains.now order.now s m₀ m.old }
    ensures { (s : ℕ) (m₀ : List ℤ) → PassReadyIn chains.now order.now s m₀ m.old → MAll (graph_in chains.now.lists) s m₀ m.new }
{
    for event in &order[..chains.lists.events] {
        let v = usize::from(*event);
        if m[v] != ABSENT {
            push(chains, v, m);
        }
    }
}

// m of each event into `m`. Places beyond keep what they held.
pub(crate) fn find_m(chains: &Chains<'_>, order: &[u16], s: usize, m: &mut [i32])
    requires { MReadyIn chains.now order.now s m.old }
    ensures { MAll (graph_in chains.now.lists) s m.old m.new }
{
    clear(chains.lists.events, m);
    m[s] = 0;
    push_all(chains, order, m);
}
