// Which places leave terms out, and the first of those that a place is made of.
ghost use Rattle.std.specs.Prelude.{◌≡◌, map, ◌<◌, length};
ghost use Rattle.model.specs.Word.{header_of};
ghost use Rattle.model_texts.specs.Whole.{needs_first, needs_second, passes, leaves_out, first_next, first_out};

use crate::cut::{has, limit_at, pick};
use crate::decide::step_word;
use crate::far::found_at;
use crate::full::full_at;
use model::Family;
use recipes_kinds::step::{family_of, step_of};
use shape::limits::least;

// Whether a step is made of its first operand: not where it is a power of 0.
#[tactic(auto, unfolding(model_texts::specs::Whole::needs_first))]
pub fn needs_first(f: Family) -> bool
    ensures { result ≡ needs_first f }
{
    match f {
        Family::Constant | Family::One => false,
        Family::Power(e) => e != 0,
        Family::Same | Family::Sum | Family::Product | Family::Quotient | Family::Series => true,
        Family::Shift(_, _) | Family::Substitution(_) | Family::Term(_) | Family::Order(_, _) => {
            true
        }
    }
}

// And of its second: what is put for a variable counts where the polynomial has more than one row there.
#[tactic(auto, unfolding(model_texts::specs::Whole::needs_second))]
pub fn needs_second(f: Family, p: usize) -> bool
    ensures { result ≡ needs_second f p }
{
    match f {
        Family::Sum | Family::Product | Family::Quotient => true,
        Family::Substitution(_) => p != 1,
        Family::Constant | Family::One | Family::Same | Family::Series => false,
        Family::Power(_) | Family::Shift(_, _) | Family::Term(_) | Family::Order(_, _) => false,
    }
}

// Whether the full length of the place p passes its limit in the variable v.
#[tactic(auto, unfolding(model_texts::specs::Whole::passes))]
pub fn passes(known: &[u64], full: &[usize], p: usize, v: usize) -> bool
    requires { (p < 64) × (v < 4) }
    ensures { result ≡ passes (map header_of known.now) full.now p v }
{
    let f = full_at(full, p, v);
    has(known, v, p) & ((f == 0) | (limit_at(known, v, p) < f))
}

// In some variable.
#[tactic(auto, unfolding(model_texts::specs::Whole::leaves_out))]
fn leaves_out(known: &[u64], full: &[usize], p: usize) -> bool
    requires { p < 64 }
    ensures { result ≡ leaves_out (map header_of known.now) full.now p }
{
    let a = passes(known, full, p, 0) | passes(known, full, p, 1);
    a | (passes(known, full, p, 2) | passes(known, full, p, 3))
}

// The first place that leaves terms out, of the next place and all that it is made of; `found`: those of the places
// before it.
fn first_next(known: &[u64], steps: &[u64], inputs: usize, full: &[usize], found: &[usize]) -> usize
    requires { length found.now < 64 }
    ensures { result ≡ first_next (map header_of known.now) steps.now inputs full.now found.now }
{
    let p = found.len();
    if p < inputs {
        return 64;
    }
    let s = step_of(step_word(steps, inputs, p));
    let rows = full_at(full, s.a, s.variable);
    let own = pick(leaves_out(known, full, p), p, 64);
    let first = pick(needs_first(family_of(0, s)), found_at(found, s.a, 64), 64);
    let second = pick(
        needs_second(family_of(0, s), rows),
        found_at(found, s.b, 64),
        64,
    );
    least(own, least(first, second))
}

// The first place that leaves terms out, of the place p and all that it is made of; 64 for none. Why its loop is not
// shared with `furthest` is said there.
pub fn first_out(known: &[u64], steps: &[u64], inputs: usize, full: &[usize], p: usize) -> usize
    requires { p < 64 }
    ensures { result ≡ first_out (map header_of known.now) steps.now inputs full.now p }
{
    let mut found = [0usize; 64];
    for k in 0..p {
        found[k] = first_next(known, steps, inputs, full, &found[..k]);
    }
    first_next(known, steps, inputs, full, &found[..p])
}
