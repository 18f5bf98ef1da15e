// Whether a recipe is run, and the run of one that is admitted.
ghost use Rattle.std.specs.Prelude.{◌≡◌, OnOk, OnErr, map, ◌++◌, ◌-◌, ◌≤◌, length, take, drop};
ghost use Rattle.model.specs.Word.{word_of};
ghost use Rattle.model.specs.Passes.{Says};
ghost use Rattle.model.specs.Refusals.{cleared};
ghost use Rattle.model_recipes.specs.Recipe.{recipe_of, announced_steps, total, largest};
ghost use Rattle.model_recipes.specs.Run.{step_values, laid, zero_pool, zero_words, run_stop};
ghost use Rattle.recipes.specs.Running.{Admitted};
ghost use Rattle.recipes.specs.Admission.{Admits};

use crate::running::{place, run_steps};
use crate::stop::leave_zeros;
use model::Refusal;
use recipes_check::{judge, largest_of, note_inputs, total_of};

// Why a run is refused: the check, then tests 2, 5, 6 by the lengths of the buffers. Where it is not, the words that
// all places announce stand in `known`.
pub fn admit(
    headers: &[u64],
    steps: &[u64],
    edition: u64,
    coefficients: usize,
    pool: usize,
    words: usize,
    scratch: usize,
    known: &mut [u64],
) -> Result<(), Refusal>
    requires { 64 ≤ length known.old }
    ensures { Says (Admits (recipe_of edition headers.now steps.now) coefficients pool words scratch known.old
        known.new) result }
{
    judge(headers, steps, edition, known)?;
    if coefficients < total_of(headers) {
        return Err(Refusal::by(2));
    }
    let from = headers.len();
    let to = from + steps.len();
    let total = total_of(&known[from..to]);
    if !((total <= pool) & (steps.len() <= words)) {
        return Err(Refusal::by(5));
    }
    if scratch < 8 * largest_of(&known[from..to]) {
        return Err(Refusal::by(6));
    }
    Ok(())
}

// How a run of a recipe that was judged ends: what stopped it, if anything did, and where the last value begins.
#[derive(Clone, Copy)]
pub struct Ended {
    pub stop: Result<(), Refusal>,
    pub last: usize,
}

// The run of a recipe that was judged, `known` the words that its places announce: step values end to end in the pool,
// true header words one a step, the scratch's first 8 times the largest count at +0.0. A step that stops it leaves
// +0.0 for every value and 0 for every word.
pub fn run_admitted(
    headers: &[u64],
    coefficients: &[f64],
    steps: &[u64],
    edition: u64,
    known: &mut [u64],
    pool: &mut [f64],
    words: &mut [u64],
    scratch: &mut [f64],
) -> Ended
    requires fact_1 { Admitted (recipe_of edition headers.now steps.now) coefficients.now known.old (length pool.old)
        (length scratch.old) }
    requires fact_2 { length steps.now ≤ length words.old }
    ensures stop { Says (λ r. r ≡ run_stop (recipe_of edition headers.now steps.now) coefficients.now) result.stop }
    ensures values { OnOk result.stop (pool.new
        ≡ laid (announced_steps (recipe_of edition headers.now steps.now))
        (step_values (recipe_of edition headers.now steps.now) coefficients.now)
        ++ drop (total (announced_steps (recipe_of edition headers.now steps.now))) pool.old) }
    ensures words { OnOk result.stop (words.new ≡ map (λ v. word_of v.head)
        (step_values (recipe_of edition headers.now steps.now) coefficients.now)
        ++ drop (length steps.now) words.old) }
    ensures no_values { OnErr result.stop (pool.new
        ≡ zero_pool (total (announced_steps (recipe_of edition headers.now steps.now))) pool.old) }
    ensures no_words { OnErr result.stop (words.new ≡ zero_words (length steps.now) words.old) }
    ensures cleared { scratch.new
        ≡ cleared (largest (announced_steps (recipe_of edition headers.now steps.now))) scratch.old }
    ensures last { result.last ≡ total (take (length steps.now - 1)
        (announced_steps (recipe_of edition headers.now steps.now))) }
    ensures spent { length known.new ≡ length known.old }
{
    let from = headers.len();
    let to = from + steps.len();
    let total = total_of(&known[from..to]);
    let room = 8 * largest_of(&known[from..to]);
    let mut starts = [0usize; 64];
    place(headers, &known[from..to], &mut starts);
    let made = run_steps(
        headers,
        coefficients,
        steps,
        edition,
        known,
        &starts,
        pool,
        &mut scratch[..room],
    );
    blocks::clear(&mut scratch[..room]);
    let last = starts[to - 1];
    if made < steps.len() {
        leave_zeros(total, steps.len(), pool, words);
        let place = (from + made) as u8;
        return Ended {
            stop: Err(Refusal::at(12, place)),
            last,
        };
    }
    note_inputs(&known[from..to], words);
    Ended { stop: Ok(()), last }
}
