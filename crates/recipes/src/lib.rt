// Recipes (document 01): the check and the run. They take any words, any number of them, and any buffers.
#![tactic(auto)]

pub mod admit;
mod running;
mod stop;

ghost use Rattle.model_recipes.specs.Recipe.{recipe_of};
ghost use Rattle.model_recipes.specs.Promises.{CheckPromise, RunPromise};

use admit::{admit, run_admitted};
use model_recipes::{CheckAnswer, RunAnswer, Totals};
use recipes_check::{judge, largest_of, total_of};

// What a run of the recipe in an edition takes, or why there is none: refusals 7, 1, 3, 4, 5.
pub fn check(headers: &[u64], steps: &[u64], edition: u64) -> CheckAnswer
    ensures { CheckPromise (recipe_of edition headers.now steps.now) result }
{
    let mut known = [0u64; 64];
    judge(headers, steps, edition, &mut known)?;
    let from = headers.len();
    let to = from + steps.len();
    let pool = total_of(&known[from..to]);
    let largest = largest_of(&known[from..to]);
    Ok(Totals {
        pool,
        largest,
        inputs: total_of(headers),
    })
}

// The values of the steps, end to end at announced counts in the pool, and their true headers in `words`: refusals of
// the check, then 2, 5, 6, then 12 at the first step that stops the run.
// Done, the first 8 times the largest announced count of scratch are +0.0. After a stop they are too, and so is the
// announced pool, and the words of the steps are 0.
pub fn run(
    headers: &[u64],
    coefficients: &[f64],
    steps: &[u64],
    edition: u64,
    pool: &mut [f64],
    words: &mut [u64],
    scratch: &mut [f64],
) -> RunAnswer
    ensures { RunPromise (recipe_of edition headers.now steps.now) coefficients.now
        pool.old words.old scratch.old result pool.new words.new
        scratch.new }
{
    let mut known = [0u64; 64];
    admit(
        headers,
        steps,
        edition,
        coefficients.len(),
        pool.len(),
        words.len(),
        scratch.len(),
        &mut known,
    )?;
    let ended = run_admitted(
        headers,
        coefficients,
        steps,
        edition,
        &mut known,
        pool,
        words,
        scratch,
    );
    ended.stop
}
