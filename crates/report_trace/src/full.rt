// Full lengths: how long every place would be with no limits anywhere. 0 stands for without end.
ghost use Rattle.std.specs.Prelude.{◌≡◌, map, ◌*◌, ◌<◌, ◌≤◌, take};
ghost use Rattle.model.specs.Word.{header_of};
ghost use Rattle.model_texts.specs.Full.{many, counted, sum_full, product_full, quotient_full, series_full, power_full};
ghost use Rattle.model_texts.specs.Full.{shift_full, substitution_full, full_after, full_at, step_full, full_next, fulls};

use crate::cut::pick;
use crate::decide::step_word;
use model::Family;
use recipes_kinds::gate::head_at;
use recipes_kinds::step::{family_of, step_of};
use shape::limits::{least, most};

// Stands for itself and all that is longer: 2^32.
pub const MANY: usize = 4294967296;

fn counted(n: usize) -> usize
    ensures { result ≡ counted n }
{
    least(MANY, n)
}

#[tactic(auto, unfolding(model_texts::specs::Full::sum_full))]
fn sum_full(a: usize, b: usize) -> usize
    ensures { result ≡ sum_full a b }
{
    if (a == 0) | (b == 0) {
        return 0;
    }
    most(a, b)
}

#[tactic(auto, unfolding(model_texts::specs::Full::product_full))]
fn product_full(a: usize, b: usize) -> usize
    requires { (a ≤ many) × (b ≤ many) }
    ensures { result ≡ product_full a b }
{
    if (a == 0) | (b == 0) {
        return 0;
    }
    counted(a + b - 1)
}

#[tactic(auto, unfolding(model_texts::specs::Full::quotient_full))]
fn quotient_full(a: usize, b: usize) -> usize
    ensures { result ≡ quotient_full a b }
{
    if b == 1 { a } else { 0 }
}

#[tactic(auto, unfolding(model_texts::specs::Full::series_full))]
fn series_full(a: usize) -> usize
    ensures { result ≡ series_full a }
{
    if a == 1 { 1 } else { 0 }
}

#[tactic(auto, unfolding(model_texts::specs::Full::power_full))]
fn power_full(e: u32, a: usize) -> usize
    requires { a ≤ many }
    ensures { result ≡ power_full e a }
{
    if e == 0 {
        return 1;
    }
    if a == 0 {
        return 0;
    }
    counted((e as usize) * (a - 1) + 1)
}

// What is longer than can be counted stays so.
#[tactic(auto, unfolding(model_texts::specs::Full::shift_full))]
fn shift_full(n: usize, a: usize) -> usize
    ensures { result ≡ shift_full n a }
{
    if (a == 0) | (a == MANY) {
        return a;
    }
    if n < a { a - n } else { 1 }
}

// p - 1 powers of b on top of a.
#[tactic(auto, unfolding(model_texts::specs::Full::substitution_full))]
fn substitution_full(p: usize, a: usize, b: usize) -> usize
    requires { (p ≤ many) × ((a ≤ many) × (b ≤ many)) }
    ensures { result ≡ substitution_full p a b }
{
    if (p == 1) | (b == 1) {
        return a;
    }
    if (a == 0) | ((p == 0) | (b == 0)) {
        return 0;
    }
    counted(a + (p - 1) * (b - 1))
}

// The full length of the variable k after an operation.
#[tactic(auto, unfolding(model_texts::specs::Full::full_after))]
fn full_after(f: Family, k: usize, p: usize, a: usize, b: usize) -> usize
    requires { (p ≤ many) × ((a ≤ many) × (b ≤ many)) }
    ensures { result ≡ full_after f k p a b }
{
    match f {
        Family::Constant | Family::One => 1,
        Family::Same | Family::Term(_) | Family::Order(_, _) => a,
        Family::Sum => sum_full(a, b),
        Family::Product => product_full(a, b),
        Family::Quotient => quotient_full(a, b),
        Family::Series => series_full(a),
        Family::Power(e) => power_full(e, a),
        Family::Shift(v, n) => pick(k == v, shift_full(n, a), a),
        Family::Substitution(v) => substitution_full(p, pick(k == v, 1, a), b),
    }
}

// The full length of the place x in the variable v; 1 past those known.
pub fn full_at(full: &[usize], x: usize, v: usize) -> usize
    requires { (x < 64) × (v < 4) }
    ensures { result ≡ full_at full.now x v }
{
    let i = 4 * x + v;
    if i < full.len() { counted(full[i]) } else { 1 }
}

// That of a step.
fn step_full(full: &[usize], word: u64, v: usize) -> usize
    requires { v < 4 }
    ensures { result ≡ step_full full.now word v }
{
    let s = step_of(word);
    let p = full_at(full, s.a, s.variable);
    let a = full_at(full, s.a, v);
    let b = full_at(full, s.b, v);
    full_after(family_of(0, s), v, p, a, b)
}

// The next full length, four to a place; `full`: those before it.
#[tactic(auto, unfolding(model_texts::specs::Full::full_next))]
fn full_next(known: &[u64], steps: &[u64], inputs: usize, full: &[usize]) -> usize
    ensures { result ≡ full_next (map header_of known.now) steps.now inputs full.now }
{
    let p = full.len() / 4;
    let v = full.len() % 4;
    if p < inputs {
        return head_at(known, p).lengths[v];
    }
    step_full(full, step_word(steps, inputs, p), v)
}

// The full lengths of n places.
pub fn fulls(known: &[u64], steps: &[u64], inputs: usize, n: usize) -> [usize; 256]
    requires { n ≤ 64 }
    ensures { take (4 * n) result ≡ fulls (map header_of known.now) steps.now inputs n }
{
    let mut full = [0usize; 256];
    for k in 0..4 * n {
        full[k] = full_next(known, steps, inputs, &full[..k]);
    }
    full
}
