// The first place that stands in the way of a total.
ghost use Rattle.std.specs.Prelude.{◌≡◌, ◌+◌, ◌<◌, ◌≤◌, length, take};
ghost use Rattle.model_forecast.specs.Totals.{bar_of, bar_step, bars, answer_bar};

use model_recipes::Step;
use recipes_kinds::step::step_of;
use report_trace::cut::pick;
use report_trace::far::found_at;
use shape::limits::least;

// By kind: of a step at the place p, x and y those of its operands.
#[tactic(auto, unfolding(model_forecast::specs::Totals::bar_of))]
fn bar_of(s: Step, p: usize, x: usize, y: usize) -> usize
    ensures { result ≡ bar_of s p x y }
{
    match s.kind {
        Step::CONSTANT => 64,
        Step::NEGATE => x,
        Step::ADD | Step::SUBTRACT | Step::MULTIPLY => least(x, y),
        Step::POWER => pick(s.n == 0, 64, x),
        Step::SHIFT_DOWN => x,
        _ => p,
    }
}

// The same of a step word, after places that are found.
fn bar_step(word: u64, found: &[usize]) -> usize
    ensures { result ≡ bar_step word found.now }
{
    let s = step_of(word);
    let x = found_at(found, s.a, 64);
    let y = found_at(found, s.b, 64);
    bar_of(s, found.len(), x, y)
}

// Of all places.
fn bars(headers: &[u64], steps: &[u64]) -> [usize; 64]
    requires { length headers.now + length steps.now ≤ 64 }
    ensures { take (length headers.now + length steps.now) result ≡ bars headers.now steps.now }
{
    let inputs = headers.len();
    let mut found = [64usize; 64];
    for (i, word) in steps.iter().enumerate() {
        let at = inputs + i;
        found[at] = bar_step(*word, &found[..at]);
    }
    found
}

// Of the answer; 64 where its total is known.
pub fn answer_bar(headers: &[u64], steps: &[u64]) -> usize
    requires { (1 ≤ length steps.now) × (length headers.now + length steps.now ≤ 64) }
    ensures { result ≡ answer_bar headers.now steps.now }
{
    let n = headers.len() + steps.len();
    let found = bars(headers, steps);
    found_at(&found[..n], n - 1, 64)
}
