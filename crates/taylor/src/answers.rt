// Answers as words, and what a reading writes.
ghost use Rattle.std.specs.Prelude.{◌≡◌, ◌<◌};
ghost use Rattle.taylor.specs.Face.{word_of_refusal, word_of_answer, word_of_reading, value_after, variable_of};
ghost use Rattle.taylor.specs.Face.{word_of_linear, constant_after, factor_after, word_of_check, pool_after};
ghost use Rattle.taylor.specs.Face.{largest_after, inputs_after, word_of_run};
ghost use Rattle.taylor.specs.Face.{word_of_count, count_after, word_of_written, length_after};

use model::{Answer, CountReading, LinearReading, Reading, Refusal};
use model_recipes::{CheckAnswer, RunAnswer};
use npy_files::Written;

// A refusal as one word.
fn refusal_word(r: Refusal) -> u64
    ensures { result ≡ word_of_refusal r }
{
    (r.number as u64)
        + 256 * (r.place as u64)
        + 65536 * (r.variable as u64)
        + 16777216 * (r.cause as u64)
}

// An answer as one word.
pub fn word_of(r: Answer) -> u64
    ensures { result ≡ word_of_answer r }
{
    match r {
        Ok(w) => w,
        Err(e) => refusal_word(e),
    }
}

// A float that was read, written through `value`; a refusal writes nothing.
pub fn put(r: Reading, value: &mut f64) -> u64
    ensures answer { result ≡ word_of_reading r }
    ensures value { value.new ≡ value_after r value.old }
{
    match r {
        Ok(x) => {
            *value = x;
            0
        }
        Err(e) => refusal_word(e),
    }
}

// A number of places that was read, written through `count`; a refusal writes nothing.
pub fn put_count(r: CountReading, count: &mut u64) -> u64
    ensures answer { result ≡ word_of_count r }
    ensures count { count.new ≡ count_after r count.old }
{
    match r {
        Ok(k) => {
            *count = k as u64;
            0
        }
        Err(e) => refusal_word(e),
    }
}

// c and m of the linear test, written through `c` and `m`; a refusal writes nothing.
pub fn put_linear(r: LinearReading, c: &mut f64, m: &mut f64) -> u64
    requires { variable_of r < 4 }
    ensures answer { result ≡ word_of_linear r }
    ensures constant { c.new ≡ constant_after r c.old }
    ensures factor { m.new ≡ factor_after r m.old }
{
    match r {
        Ok(l) => {
            *c = l.c;
            *m = l.m;
            if l.yes { 1 + (l.variable as u64) } else { 0 }
        }
        Err(e) => refusal_word(e) + 4294967296,
    }
}

// The totals of a recipe that is accepted, written through `pool`, `largest` and `inputs`; a refusal writes nothing.
pub fn put_totals(r: CheckAnswer, pool: &mut u64, largest: &mut u64, inputs: &mut u64) -> u64
    ensures answer { result ≡ word_of_check r }
    ensures pool { pool.new ≡ pool_after r pool.old }
    ensures largest { largest.new ≡ largest_after r largest.old }
    ensures inputs { inputs.new ≡ inputs_after r inputs.old }
{
    match r {
        Ok(t) => {
            *pool = t.pool as u64;
            *largest = t.largest as u64;
            *inputs = t.inputs as u64;
            0
        }
        Err(e) => refusal_word(e),
    }
}

// How a run ended, as one word: 0 for done.
pub fn word_of_run(r: RunAnswer) -> u64
    ensures { result ≡ word_of_run r }
{
    match r {
        Ok(()) => 0,
        Err(e) => refusal_word(e),
    }
}

// The length of a file that was written, written through `length`; a refusal writes nothing.
pub fn put_written(r: Written, length: &mut u64) -> u64
    ensures answer { result ≡ word_of_written r }
    ensures length { length.new ≡ length_after r length.old }
{
    match r {
        Ok(n) => {
            *length = n as u64;
            0
        }
        Err(e) => refusal_word(e),
    }
}
