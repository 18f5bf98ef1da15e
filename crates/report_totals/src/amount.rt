// The total of a recipe's answer: the inputs' sums, and the same steps on numbers.
ghost use Rattle.std.specs.Prelude.{◌≡◌, ◌+◌, ◌<◌, ◌≤◌, length, get_or, take};
ghost use Rattle.std.specs.Float.{nan};
ghost use Rattle.lists.specs.Table.{table};
ghost use Rattle.model_forecast.specs.Totals.{amount_of, amount_step, input_sum, amounts, answer_amount};
ghost use Rattle.report_inputs.specs.Held.{Held};

use crate::power::number_power;
use gates::stored_of;
use model_recipes::Step;
use readings_sums::sum_to;
use recipes_check::total_of;
use recipes_kinds::step::step_of;
use shape_words::word::header_of;

// What stands for a total that does not follow.
fn unknown() -> f64
    ensures { result ≡ nan }
{
    0.0 / 0.0
}

// By kind: the total of a step's result, x and y those of its operands.
#[tactic(auto, unfolding(model_forecast::specs::Totals::amount_of))]
fn amount_of(s: Step, x: f64, y: f64) -> f64
    ensures { result ≡ amount_of s x y }
{
    let kind = s.kind;
    let n = s.n;
    match kind {
        Step::CONSTANT => n as f64,
        Step::NEGATE => -x,
        Step::ADD => x + y,
        Step::SUBTRACT => x - y,
        Step::MULTIPLY => x * y,
        Step::POWER => number_power(n, x),
        Step::SHIFT_DOWN => x,
        _ => unknown(),
    }
}

// The total found for a place.
fn amount_at(found: &[f64], p: usize) -> f64
    ensures { result ≡ get_or found.now p nan }
{
    if p < found.len() {
        return found[p];
    }
    unknown()
}

// The total of a step, after places whose totals are found.
fn amount_step(word: u64, found: &[f64]) -> f64
    ensures { result ≡ amount_step word found.now }
{
    let s = step_of(word);
    let x = amount_at(found, s.a);
    let y = amount_at(found, s.b);
    amount_of(s, x, y)
}

// The sum of the input i.
fn input_sum(headers: &[u64], xs: &[f64], i: usize) -> f64
    requires fact_1 { Held headers.now (length xs.now) }
    requires fact_2 { i < length headers.now }
    ensures { result ≡ input_sum headers.now xs.now i }
{
    let from = total_of(&headers[..i]);
    let n = stored_of(header_of(headers[i]));
    sum_to(&xs[from..], n)
}

// The sums of the inputs.
fn input_sums(headers: &[u64], xs: &[f64]) -> [f64; 64]
    requires { Held headers.now (length xs.now) }
    ensures { (length result ≡ 64) × (take (length headers.now) result
        ≡ table (length headers.now) (input_sum headers.now xs.now)) }
{
    let mut sums = [0.0f64; 64];
    for i in 0..headers.len() {
        sums[i] = input_sum(headers, xs, i);
    }
    sums
}

// The totals of all places.
fn amounts(headers: &[u64], xs: &[f64], steps: &[u64]) -> [f64; 64]
    requires fact_1 { Held headers.now (length xs.now) }
    requires fact_2 { length headers.now + length steps.now ≤ 64 }
    ensures { take (length headers.now + length steps.now) result
        ≡ amounts headers.now xs.now steps.now }
{
    let inputs = headers.len();
    let mut found = input_sums(headers, xs);
    for (i, word) in steps.iter().enumerate() {
        let at = inputs + i;
        found[at] = amount_step(*word, &found[..at]);
    }
    found
}

// The total of the answer.
pub fn answer_amount(headers: &[u64], xs: &[f64], steps: &[u64]) -> f64
    requires fact_1 { Held headers.now (length xs.now) }
    requires fact_2 { (1 ≤ length steps.now) × (length headers.now + length steps.now ≤ 64) }
    ensures { result ≡ answer_amount headers.now xs.now steps.now }
{
    let n = headers.len() + steps.len();
    let found = amounts(headers, xs, steps);
    amount_at(&found[..n], n - 1)
}
