// The place that goes furthest of all that a place is made from.
ghost use Rattle.std.specs.Prelude.{◌≡◌, map, ◌<◌, get_or};
ghost use Rattle.model.specs.Word.{header_of};
ghost use Rattle.model_texts.specs.Trace.{farther, furthest_next, furthest};

use crate::cut::{has, limit_at, pick, uses_in};
use crate::decide::step_word;
use recipes_kinds::step::step_of;

// Of two places the one that goes further, the first only where it counts.
fn farther(known: &[u64], v: usize, counts: bool, x: usize, y: usize) -> usize
    requires { v < 4 }
    ensures { result ≡ farther (map header_of known.now) v counts x y }
{
    pick(
        counts & (limit_at(known, v, y) <= limit_at(known, v, x)),
        x,
        y,
    )
}

// What was found for the place p; `none` past those found.
pub fn found_at(found: &[usize], p: usize, none: usize) -> usize
    ensures { result ≡ get_or found.now p none }
{
    if p < found.len() { found[p] } else { none }
}

// The place that goes furthest of all that the next place is made from; `found`: those of the places before it.
fn furthest_next(known: &[u64], v: usize, steps: &[u64], inputs: usize, found: &[usize]) -> usize
    requires { v < 4 }
    ensures { result ≡ furthest_next (map header_of known.now) v steps.now inputs found.now }
{
    let p = found.len();
    let word = step_word(steps, inputs, p);
    let s = step_of(word);
    let u = uses_in(word);
    let here = has(known, v, p);
    let last = farther(
        known,
        v,
        here & u.b & has(known, v, s.b),
        found_at(found, s.b, 0),
        p,
    );
    let first = farther(
        known,
        v,
        here & u.a & has(known, v, s.a),
        found_at(found, s.a, 0),
        last,
    );
    pick(p < inputs, p, first)
}

// The place that goes furthest of all that the place p is made from. Its loop is not shared with `first_out` and
// `first_mixed`: what a closure finds next would be said again in its contract, for a loop of one line.
pub fn furthest(known: &[u64], v: usize, steps: &[u64], inputs: usize, p: usize) -> usize
    requires fact_1 { v < 4 }
    requires fact_2 { p < 64 }
    ensures { result ≡ furthest (map header_of known.now) v steps.now inputs p }
{
    let mut found = [0usize; 64];
    for k in 0..p {
        found[k] = furthest_next(known, v, steps, inputs, &found[..k]);
    }
    furthest_next(known, v, steps, inputs, &found[..p])
}
