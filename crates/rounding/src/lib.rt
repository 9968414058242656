// Rounding outward to steps of q: each least delay goes down to a multiple and each most delay goes up to one, also below zero. The definition of a rounded
// graph is in specs/, what rounding may cost in proofs/.
//     round_down      the greatest multiple that is not above a number
//     round_up        the least multiple that is not below it
//     round_delays    both bounds of each rule's interval, or the refusal with its place
// No caller is trusted: every list, length and number gets an answer. The promises are in specs/Promise.antt.
#![tactic(auto)]

ghost use Rattle.std.specs.Prelude.{◌≡◌, true, false, ◌⊎◌, ℕ, ◌<◌, ◌≤◌, pos, length, get_or, MatchOption};
ghost use Rattle.integers.specs.Within.{Within};
ghost use Rattle.sequences.specs.Filled.{Filled};
ghost use Rattle.rounding.specs.Rounding.{Down, Up};
ghost use Rattle.rounding.specs.Parts.Beside.{Beside};
ghost use Rattle.rounding.specs.Promise.{StepOutside, Roundable, WentDown, WentUp, DelaysRounded};

use refusals::Refusal;

const MAX_STEP: usize = 1000;

const MAX_DELAY: i64 = 1000000;

// What bounds are rounded in steps of.
#[derive(Clone, Copy)]
struct Step {
    ticks: usize,
    ghost some: { 1 ≤ ticks },
    ghost few: { ticks ≤ 1000 },
}

// The step of q ticks: none where q is 0 or above 1,000.
fn step_of(q: usize) -> Option<Step>
    ensures { MatchOption result (StepOutside q q) (λ step. step.ticks ≡ q) }
{
    if (1..=MAX_STEP).contains(&q) {
        Some(Step { ticks: q })
    } else {
        None
    }
}

// The multiple of `step` next to `x` on the side of zero: the division rounds toward zero.
fn toward_zero(x: i64, step: Step) -> i64
    requires { Within 1000000 x }
    ensures { Beside step.ticks x result }
{
    // Kept: no `div_euclid`. The project's own form for this place is floor and ceiling from a division that rounds toward zero.
    let q = step.ticks as i64;
    x / q * q
}

// The greatest multiple of `step` that is not above `x`. Below zero the one on the side of zero may be a step too high.
fn down(x: i64, step: Step) -> i64
    requires { Within 1000000 x }
    ensures { Down step.ticks x result × Within 1000999 result }
{
    let y = toward_zero(x, step);
    if x < y { y - step.ticks as i64 } else { y }
}

// The least multiple of `step` that is not below `x`. Above zero the one on the side of zero may be a step too low.
// Kept: not minus what −x goes down to, which is one line: it divides a negative number wherever x is positive, and that took the coarse form 1.4 times as long.
fn up(x: i64, step: Step) -> i64
    requires { Within 1000000 x }
    ensures { Up step.ticks x result × Within 1000999 result }
{
    let y = toward_zero(x, step);
    if y < x { y + step.ticks as i64 } else { y }
}

// The step of q ticks, where it is one and `x` lies where a delay may.
fn step_for(x: i64, q: usize) -> Option<Step>
    ensures { MatchOption result (Roundable q x → ⊥) (λ step. (step.ticks ≡ q) × Roundable q x) }
{
    if (-MAX_DELAY..=MAX_DELAY).contains(&x) {
        step_of(q)
    } else {
        None
    }
}

// Where `x` goes down to in steps of `step`; a number or a step outside leaves `x` as it is.
// Kept: a twin of `round_up`: both are public, and docs/PROMISES.md names both.
pub fn round_down(x: i64, step: usize) -> i64
    ensures { WentDown step x result }
{
    match step_for(x, step) {
        Some(step) => down(x, step),
        None => x,
    }
}

// Where `x` goes up to in steps of `step`; a number or a step outside leaves `x` as it is.
// Kept: a twin of `round_down`: both are public, and docs/PROMISES.md names both.
pub fn round_up(x: i64, step: usize) -> i64
    ensures { WentUp step x result }
{
    match step_for(x, step) {
        Some(step) => up(x, step),
        None => x,
    }
}

// Whether a lent list of `low` or of `high` places is too short for so many delays.
// Kept: two comparisons with a name, so that `round_delays` reads as the rows of refusals do.
fn too_short(delays: usize, low: usize, high: usize) -> bool
    ensures yes { result ≡ true → (low < delays) ⊎ (high < delays) }
    ensures no { result ≡ false → (delays ≤ low) × (delays ≤ high) }
{
    low < delays || high < delays
}

// Both bounds of each rule's interval, rounded outward.
fn round_lists(step: Step, leasts: &[i64], mosts: &[i64], low: &mut [i64], high: &mut [i64])
    requires in_bounds { (length mosts.now ≡ length leasts.now) × (length leasts.now ≤ length low.old) × (length leasts.now ≤ length high.old) }
    requires inside { (i : ℕ) → i < length leasts.now → Within 1000000 (get_or leasts.now i (pos 0)) × Within 1000000 (get_or mosts.now i (pos 0)) }
    ensures lows { Filled (pos 0) (length leasts.now) (λ i. Down step.ticks (get_or leasts.now i (pos 0))) low.old low.new }
    ensures highs { Filled (pos 0) (length leasts.now) (λ i. Up step.ticks (get_or mosts.now i (pos 0))) high.old high.new }
{
    // Kept: tried as a zip; the proof did not close: after `iter_mut().zip(..)` no element of the list is known.
    for i in 0..leasts.len() {
        low[i] = down(leasts[i], step);
        high[i] = up(mosts[i], step);
    }
}

// Writes both bounds of each rule's interval, rounded outward to steps of q, into `low` and `high`. Places beyond keep what they held; refused, both lists do.
pub fn round_delays(
    q: usize,
    leasts: &[i64],
    mosts: &[i64],
    low: &mut [i64],
    high: &mut [i64],
) -> Result<(), Refusal>
    ensures { DelaysRounded q leasts.now mosts.now low.old high.old low.new high.new result }
{
    if mosts.len() != leasts.len() {
        return Err(Refusal::RulesOutside);
    }
    if too_short(leasts.len(), low.len(), high.len()) {
        return Err(Refusal::ShortList);
    }
    if let Some(entry) = refusals::outside_delay(leasts, mosts) {
        return Err(Refusal::DelayOutside(entry));
    }
    let Some(step) = step_of(q) else {
        return Err(Refusal::StepOutside(q));
    };
    round_lists(step, leasts, mosts, low, high);
    Ok(())
}
