// Running a recipe that was read off a sheet.
ghost use Rattle.std.specs.Prelude.{◌≡◌, ◌≤◌, length};
ghost use Rattle.model_recipes.specs.Recipe.{recipe_of};
ghost use Rattle.sheet_solving.specs.Running.{Opening, Running, RunningIn};
ghost use Rattle.sheet_solving.specs.Solves.{Lent, Ends, Ended};

use crate::{Solved, floats, places};
use model::Refusal;
use recipes::admit::run_admitted;
use recipes_check::{note_inputs, total_of};
use sheet_limits::judge_own;
use sheet_reading::{fill_floats, fill_words, step_count};

// A recipe that the check and the limits let pass, with memory for its run: `known` holds the words that its places
// announce, and `coefficients` is as long as its inputs take.
fn run_in(
    text: &[u8],
    headers: &[u64],
    steps: &[u64],
    edition: u64,
    known: &mut [u64],
    coefficients: &mut [f64],
    pool: &mut [f64],
    words: &mut [u64],
    scratch: &mut [f64],
) -> Result<Solved, Refusal>
    requires { RunningIn text.now (recipe_of edition headers.now steps.now) known.old (length coefficients.old) (length pool.old)
        (length words.old) (length scratch.old) }
    ensures ends { Ends text.now headers.now steps.now pool.old pool.new result }
    ensures spent_known { length known.new ≡ length known.old }
    ensures spent_coefficients { length coefficients.new ≡ length coefficients.old }
    ensures spent_words { length words.new ≡ length words.old }
    ensures spent_scratch { length scratch.new ≡ length scratch.old }
{
    let n = steps.len();
    fill_floats(text, 1 + headers.len(), coefficients);
    let ran = run_admitted(
        headers,
        coefficients,
        steps,
        edition,
        known,
        pool,
        words,
        scratch,
    );
    ran.stop?;
    Ok(Solved::done(headers.len(), n, words[n - 1], ran.last))
}

// The same with memory of its own but for the pool; `known` are the words that the places announce, `given` how many
// coefficients the inputs have.
fn run_judged(
    text: &[u8],
    headers: &[u64],
    steps: &[u64],
    edition: u64,
    known: &[u64],
    given: usize,
    pool: &mut [f64],
) -> Result<Solved, Refusal>
    requires fact_1 { Running text.now (recipe_of edition headers.now steps.now) known.now given }
    requires fact_2 { 2048 ≤ length pool.old }
    ensures { Ends text.now headers.now steps.now pool.old pool.new result }
{
    let mut coefficients = floats();
    let mut announced = places();
    let mut words = places();
    let mut scratch = floats();
    note_inputs(known, &mut announced);
    run_in(
        text,
        headers,
        steps,
        edition,
        &mut announced,
        &mut coefficients[..given],
        pool,
        &mut words,
        &mut scratch,
    )
}

// A sheet that is read, with its input headers and its edition.
pub fn run_read(
    text: &[u8],
    headers: &[u64],
    edition: u64,
    steps: &mut [u64],
    known: &mut [u64],
    pool: &mut [f64],
) -> Result<Solved, Refusal>
    requires fact_1 { Opening text.now headers.now edition }
    requires fact_2 { Lent (length steps.old) (length known.old) (length pool.old) }
    ensures { Ended text.now headers.now steps.new known.new pool.old pool.new result }
{
    let n = step_count(text);
    let end = headers.len() + n;
    let given = total_of(headers);
    fill_words(text, 1 + headers.len() + given, &mut steps[..n]);
    judge_own(headers, &steps[..n], edition, known)?;
    run_judged(
        text,
        headers,
        &steps[..n],
        edition,
        &known[..end],
        given,
        pool,
    )
}
