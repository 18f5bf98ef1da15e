// The place that decides a limit: back through operands with the same limit, and through shifts.
ghost use Rattle.std.specs.Prelude.{◌≡◌, map, ◌-◌, ◌<◌};
ghost use Rattle.model.specs.Word.{header_of};
ghost use Rattle.model_texts.specs.Trace.{equals, step_word, follow, decider, lowering, seek, lowerer};

use crate::cut::{has, is_shift_in, limit_at, pick, uses_in};
use recipes_kinds::step::step_of;

// How far behind the inputs a place stands, 0 for an input.
fn behind(inputs: usize, p: usize) -> usize
    ensures { result ≡ p - inputs }
{
    if p < inputs { 0 } else { p - inputs }
}

// The step word of a place, 0 past them all.
pub fn step_word(steps: &[u64], inputs: usize, p: usize) -> u64
    ensures { result ≡ step_word steps.now inputs p }
{
    let i = behind(inputs, p);
    if i < steps.len() { steps[i] } else { 0 }
}

// Whether an operand x counts and has the limit of the place p.
fn is_equal(known: &[u64], v: usize, p: usize, used: bool, x: usize) -> bool
    requires { v < 4 }
    ensures { result ≡ equals (map header_of known.now) v p used x }
{
    used & has(known, v, x) & (limit_at(known, v, x) == limit_at(known, v, p))
}

// One step back from the place p: to what a shift lowered, or to an operand with the same limit, if there is one.
pub fn follow(known: &[u64], v: usize, steps: &[u64], inputs: usize, p: usize) -> usize
    requires { v < 4 }
    ensures { result ≡ follow (map header_of known.now) v steps.now inputs p }
{
    let word = step_word(steps, inputs, p);
    let s = step_of(word);
    let u = uses_in(word);
    let last = pick(is_equal(known, v, p, u.b, s.b), s.b, p);
    let to_first = is_shift_in(word, v) | is_equal(known, v, p, u.a, s.a);
    let first = pick(to_first, s.a, last);
    pick(p < inputs, p, first)
}

// The place that decides the limit of the place p in the variable v.
pub fn decider(known: &[u64], v: usize, steps: &[u64], inputs: usize, p: usize) -> usize
    requires { v < 4 }
    ensures { result ≡ decider (map header_of known.now) v steps.now inputs p }
{
    let mut place = p;
    for _ in 0..64usize {
        place = follow(known, v, steps, inputs, place);
    }
    place
}

// Whether the place p is a shift that lowers the limit of the variable v.
#[tactic(auto, unfolding(model_texts::specs::Trace::lowering))]
fn is_lowering(v: usize, steps: &[u64], inputs: usize, p: usize) -> bool
    ensures { result ≡ lowering v steps.now inputs p }
{
    let word = step_word(steps, inputs, p);
    !(p < inputs) & (is_shift_in(word, v) & (0 < step_of(word).n))
}

// One step back, but not past a shift that lowers the limit.
fn seek(known: &[u64], v: usize, steps: &[u64], inputs: usize, p: usize) -> usize
    requires { v < 4 }
    ensures { result ≡ seek (map header_of known.now) v steps.now inputs p }
{
    pick(
        is_lowering(v, steps, inputs, p),
        p,
        follow(known, v, steps, inputs, p),
    )
}

// The nearest shift that lowers the limit on the way back from the place p, where there is one. Not one with `decider`
// over a closure: what a step answers would be said again in its contract, for a loop of one line.
pub fn lowerer(known: &[u64], v: usize, steps: &[u64], inputs: usize, p: usize) -> usize
    requires { v < 4 }
    ensures { result ≡ lowerer (map header_of known.now) v steps.now inputs p }
{
    let mut place = p;
    for _ in 0..64usize {
        place = seek(known, v, steps, inputs, place);
    }
    place
}
