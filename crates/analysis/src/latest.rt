// The walk that finds U and the depths, from the root on: an event whose turn comes takes the greatest U(source) + D and the greatest depth over the rules into
// it. `us` holds m before, and U after.
ghost use Rattle.std.specs.Prelude.{◌≡◌, ℕ, ◌<◌, pos, length};
ghost use Rattle.graphs.specs.Lists.{graph_in};
ghost use Rattle.analysis.specs.Parts.Latest.{LatestFound, DepthsFound};
ghost use Rattle.analysis.specs.Parts.InChains.{arrival_in, depth_in, AddableIn, DeepenableIn, ArrivalsIn, GreatestArrivalIn, SettledIn, LatestReadyIn};

use crate::chains::Chains;
use crate::paths::delay_of;

// The greatest U(source) + D, and the greatest depth of a source, and 1.
#[derive(Clone, Copy, Debug, PartialEq, Eq)]
struct Arrival {
    time: i32,
    depth: u16,
}

// U(source) + D of rule i.
fn arrival_by(chains: &Chains<'_>, us: &[i32], i: usize) -> i32
    requires { AddableIn chains.now us.now i }
    ensures { result ≡ arrival_in chains.now us.now i }
{
    us[chains.lists.sources[i]] + delay_of(chains.lists.mosts, i)
}

// The depth of rule i's source, and 1.
fn depth_by(chains: &Chains<'_>, depth: &[u16], i: usize) -> u16
    requires { DeepenableIn chains.now depth.now i }
    ensures { pos result ≡ depth_in chains.now depth.now i }
{
    depth[chains.lists.sources[i]] + 1
}

// The greatest of what the rules into `v` bring. The walk's first rule is taken as it is.
fn pull(chains: &Chains<'_>, us: &[i32], depth: &[u16], v: usize) -> Arrival
    requires { ArrivalsIn chains.now us.now depth.now v }
    ensures { GreatestArrivalIn chains.now us.now depth.now v result.time result.depth }
{
    let mut rules = chains.rules_into(v);
    let first = rules.next().unwrap();
    let mut time = arrival_by(chains, us, first);
    let mut deep = depth_by(chains, depth, first);
    for i in rules {
        time = time.max(arrival_by(chains, us, i));
        deep = deep.max(depth_by(chains, depth, i));
    }
    Arrival { time, depth: deep }
}

// The turn of event `v`: its U and its depth are written down.
fn settle(chains: &Chains<'_>, v: usize, us: &mut [i32], depth: &mut [u16])
    requires arrivals { ArrivalsIn chains.now us.old depth.old v }
    requires v_in_bounds { (v < length us.old) × (v < length depth.old) }
    ensures { SettledIn chains.now v us.old depth.old us.new depth.new }
{
    let here = pull(chains, us, depth, v);
    us[v] = us[v].min(here.time);
    depth[v] = here.depth;
}

// U and the depth of each event. The root's depth stands there already.
pub(crate) fn find_u(chains: &Chains<'_>, order: &[u16], us: &mut [i32], depth: &mut [u16])
    requires { (s : ℕ) × LatestReadyIn chains.now order.now s us.old depth.old }
    ensures { (s : ℕ) → LatestReadyIn chains.now order.now s us.old depth.old → LatestFound (graph_in chains.now.lists) s us.old us.new × DepthsFound (graph_in chains.now.lists) depth.new }
{
    for event in order[..chains.lists.events].iter().rev() {
        let v = usize::from(*event);
        if v != 0 {
            settle(chains, v, us, depth);
        }
    }
}
