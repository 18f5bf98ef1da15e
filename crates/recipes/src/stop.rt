// A step that stops a run (document 02, W13): how it is found, and what is left then.
ghost use Rattle.std.specs.Prelude.{◌≡◌, ◌≤◌, ◌<◌, ltb, length, get_or};
ghost use Rattle.std.specs.Float.{nan};
ghost use Rattle.model_recipes.specs.Run.{zero_pool, zero_words};
ghost use Rattle.shape_operands.specs.Lent.{source};
ghost use Rattle.recipes.specs.Stopping.{constant_at, stops_by, Headed};

use exponential_head::in_range;
use model_recipes::Step;

// The first coefficient of a value that begins at `from`, among the coefficients or in the pool.
fn constant_at(input: bool, from: usize, coefficients: &[f64], pool: &[f64]) -> f64
    requires { from < length (source input coefficients.now pool.now) }
    ensures { result ≡ get_or (source input coefficients.now pool.now) from nan }
{
    if input {
        coefficients[from]
    } else {
        pool[from]
    }
}

// Whether a step stops the run: an exponential of an operand whose constant has none. `pool` ends where the step's
// value begins.
pub fn is_stop(s: Step, inputs: usize, starts: &[usize], coefficients: &[f64], pool: &[f64]) -> bool
    requires { s.kind ≡ 11 → Headed s inputs starts.now coefficients.now pool.now }
    ensures { result ≡ stops_by s (constant_at inputs starts.now coefficients.now pool.now s.a) }
{
    if s.kind != Step::EXP {
        return false;
    }
    let a = s.a;
    let constant = constant_at(a < inputs, starts[a], coefficients, pool);
    !in_range(constant)
}

// What a stop leaves: +0.0 in the announced pool, 0 in a word for each step.
pub fn leave_zeros(total: usize, count: usize, pool: &mut [f64], words: &mut [u64])
    requires { (total ≤ length pool.old) × (count ≤ length words.old) }
    ensures values { pool.new ≡ zero_pool total pool.old }
    ensures words { words.new ≡ zero_words count words.old }
{
    blocks::clear(&mut pool[..total]);
    words[..count].fill(0);
}
