// The first `subst_var` of what was cut, of all that a place is made of.
ghost use Rattle.std.specs.Prelude.{◌≡◌, map, ◌<◌, length};
ghost use Rattle.model.specs.Word.{header_of};
ghost use Rattle.model_forecast.specs.Mixed.{mixes, mixed_next, first_mixed, mixed_text};
ghost use Rattle.report_lines.specs.Puts.{Puts};

use model_recipes::Step;
use recipes_kinds::step::{family_of, step_of};
use report_lines::put::{put, tell};
use report_trace::cut::pick;
use report_trace::decide::step_word;
use report_trace::far::found_at;
use report_trace::full::full_at;
use report_trace::whole::{first_out, needs_first, needs_second};
use shape::limits::least;

// Whether a step puts something for a variable of what was cut.
fn mixes(known: &[u64], steps: &[u64], inputs: usize, full: &[usize], s: Step) -> bool
    requires { s.a < 64 }
    ensures { result ≡ mixes (map header_of known.now) steps.now inputs full.now s }
{
    let first = first_out(known, steps, inputs, full, s.a);
    (s.kind == Step::SUBSTITUTION) & (first < 64)
}

// The first such place, of the next place and all that it is made of; `found`: those of the places before it.
fn mixed_next(known: &[u64], steps: &[u64], inputs: usize, full: &[usize], found: &[usize]) -> usize
    ensures { result ≡ mixed_next (map header_of known.now) steps.now inputs full.now found.now }
{
    let p = found.len();
    if p < inputs {
        return 64;
    }
    let s = step_of(step_word(steps, inputs, p));
    let rows = full_at(full, s.a, s.variable);
    let own = pick(mixes(known, steps, inputs, full, s), p, 64);
    let first = pick(needs_first(family_of(0, s)), found_at(found, s.a, 64), 64);
    let second = pick(
        needs_second(family_of(0, s), rows),
        found_at(found, s.b, 64),
        64,
    );
    least(own, least(first, second))
}

// Of the place p; 64 for none. Why its loop is not shared with `first_out` is said at `furthest`.
pub fn first_mixed(known: &[u64], steps: &[u64], inputs: usize, full: &[usize], p: usize) -> usize
    requires { p < 64 }
    ensures { result ≡ first_mixed (map header_of known.now) steps.now inputs full.now p }
{
    let mut found = [0usize; 64];
    for k in 0..p {
        found[k] = mixed_next(known, steps, inputs, full, &found[..k]);
    }
    mixed_next(known, steps, inputs, full, &found[..p])
}

pub fn put_mixed(m: usize, at: usize, to: &mut [u8]) -> usize
    ensures { Puts (mixed_text m) at to.old to.new result }
{
    if 64 <= m {
        return at;
    }
    let a = tell(b"Place ", m, at, to);
    let b = put(
        b" (subst_var) puts something for a variable of a table that was cut:\n",
        a,
        to,
    );
    put(
        b"the figures shown may be wrong, and not only incomplete.\n",
        b,
        to,
    )
}
