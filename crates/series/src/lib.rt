// exp and log of a polynomial (document 01, port order 6). The entries take any words, heads and buffers.
#![tactic(auto)]

pub mod kernel;

ghost use Rattle.model.specs.Promises.{ExpPromise, LogPromise};

use model::Answer;

// exp, `head` its value at the constant term: refusals 1, 2, 5, 6.
pub fn exp(word: u64, a: &[f64], head: f64, out: &mut [f64], scratch: &mut [f64]) -> Answer
    ensures { ExpPromise word a.now head out.old scratch.old result out.new scratch.new }
{
    kernel::series(false, word, a, head, out, scratch)
}

// log, `head` its value at the constant term: refusals 1, 2, 5, 6. Division by zero, infinities and NaN go as IEEE 754
// says and refuse nothing.
pub fn log(word: u64, a: &[f64], head: f64, out: &mut [f64], scratch: &mut [f64]) -> Answer
    ensures { LogPromise word a.now head out.old scratch.old result out.new scratch.new }
{
    kernel::series(true, word, a, head, out, scratch)
}
