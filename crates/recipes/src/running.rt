// The steps of a run, one after the other. `known` holds a header word a place: the true one of every place that has
// its value, the announced one of the others. `starts` says where each value begins, an input's among the coefficients,
// a step's in the pool.
ghost use Rattle.std.specs.Prelude.{◌≡◌, map, ◌++◌, ◌+◌, ◌≤◌, length, take, drop};
ghost use Rattle.lists.specs.Part.{Kept};
ghost use Rattle.model.specs.declared.Family.TheVariants.{One};
ghost use Rattle.model.specs.Header.{no_header};
ghost use Rattle.model.specs.Announced.{announced};
ghost use Rattle.model.specs.Word.{header_of, word_of};
ghost use Rattle.model.specs.Refusals.{padded};
ghost use Rattle.model_recipes.specs.Recipe.{recipe_of, input_heads, announced_steps, total};
ghost use Rattle.model_recipes.specs.Run.{step_values, laid};
ghost use Rattle.recipes_kinds.specs.Known.{Known};
ghost use Rattle.shape_operands.specs.Lent.{Lent};
ghost use Rattle.shape_words.specs.Rules.{Ruled};
ghost use Rattle.recipes_steps.specs.Ready.{value_of};
ghost use Rattle.recipes.specs.Standing.{value_in, lying_at, StepIn, Begun, Placing};
ghost use Rattle.recipes.specs.Running.{Admitted};
ghost use Rattle.recipes.specs.Stopping.{Stood};

use crate::stop::is_stop;
use gates::stored_of;
use model::{Family, Header};
use model_recipes::Step;
use recipes_kinds::step::{is_idle, step_of};
use recipes_steps::perform::{constant_to, perform};
use shape::announce::announced_of;
use shape_words::word::{header_of, pack};

// Where each of these values begins, end to end.
fn note_starts(headers: &[u64], starts: &mut [usize])
    requires fact_1 { Known (input_heads headers.now) }
    requires fact_2 { (length headers.now ≤ length starts.old) × (length headers.now ≤ 64) }
    ensures { Begun headers.now (length headers.now) starts.old starts.new }
{
    let mut from = 0;
    for (i, word) in headers.iter().enumerate() {
        starts[i] = from;
        from += stored_of(header_of(*word));
    }
}

// Where each value begins: an input's among the coefficients, a step's in the pool; `announced` are the words that the
// steps announce. No other function places a value.
pub fn place(headers: &[u64], announced: &[u64], starts: &mut [usize])
    requires fact_1 { Known (input_heads headers.now) }
    requires fact_2 { Known (map header_of announced.now) }
    requires fact_3 { (length headers.now + length announced.now ≤ length starts.old) × (length headers.now + length announced.now ≤ 64) }
    ensures { Placing (input_heads headers.now) (map header_of announced.now) starts.new }
{
    let inputs = headers.len();
    note_starts(headers, starts);
    note_starts(announced, &mut starts[inputs..]);
}

// The value of a step in edition 0 to the pool from `at` on, with +0.0 up to `room` places; answers its header word.
fn plain_word(
    s: Step,
    inputs: usize,
    known: &[u64],
    starts: &[usize],
    coefficients: &[f64],
    pool: &mut [f64],
    at: usize,
    room: usize,
    scratch: &mut [f64],
) -> u64
    requires fact_1 { StepIn s inputs known.now starts.now (length coefficients.now) at room }
    requires fact_2 { Lent room at (length pool.old) (length scratch.old) }
    ensures word { result ≡ word_of (value_of s (lying_at inputs known.now starts.now coefficients.now
        (take at pool.old) s.a) (lying_at inputs known.now starts.now
        coefficients.now (take at pool.old) s.b)).head }
    ensures kept { Kept at (at + room)
        (padded room (value_of s (lying_at inputs known.now starts.now coefficients.now
        (take at pool.old) s.a) (lying_at inputs known.now starts.now
        coefficients.now (take at pool.old) s.b)).coeffs)
        pool.old pool.new }
    ensures spent { length scratch.new ≡ length scratch.old }
{
    if s.kind == Step::CONSTANT {
        constant_to(s.n, pool, at, room);
        return pack(Header::none());
    }
    let a = s.a;
    let b = s.b;
    perform(
        s,
        known[a],
        a < inputs,
        starts[a],
        known[b],
        b < inputs,
        starts[b],
        coefficients,
        pool,
        at,
        room,
        scratch,
    )
}

// The header word of one with the limits of the word `a`.
fn one_word(a: u64) -> u64
    requires { Ruled (header_of a) }
    ensures { result ≡ word_of (announced One (header_of a) no_header) }
{
    pack(announced_of(Family::One, header_of(a), Header::none()))
}

// The value of a step in an edition to the pool from `at` on, with +0.0 up to `room` places; answers its header word.
fn step_word(
    edition: u64,
    s: Step,
    inputs: usize,
    known: &[u64],
    starts: &[usize],
    coefficients: &[f64],
    pool: &mut [f64],
    at: usize,
    room: usize,
    scratch: &mut [f64],
) -> u64
    requires fact_1 { StepIn s inputs known.now starts.now (length coefficients.now) at room }
    requires fact_2 { Lent room at (length pool.old) (length scratch.old) }
    ensures word { result ≡ word_of (value_in edition s (lying_at inputs known.now starts.now coefficients.now
        (take at pool.old) s.a) (lying_at inputs known.now starts.now
        coefficients.now (take at pool.old) s.b)).head }
    ensures kept { Kept at (at + room)
        (padded room (value_in edition s (lying_at inputs known.now starts.now coefficients.now
        (take at pool.old) s.a) (lying_at inputs known.now starts.now
        coefficients.now (take at pool.old) s.b)).coeffs)
        pool.old pool.new }
    ensures spent { length scratch.new ≡ length scratch.old }
{
    if (s.kind == Step::POWER) & is_idle(edition, s.n) {
        let a = s.a;
        constant_to(1, pool, at, room);
        return one_word(known[a]);
    }
    plain_word(
        s,
        inputs,
        known,
        starts,
        coefficients,
        pool,
        at,
        room,
        scratch,
    )
}

// The steps in order, up to one that stops the run; answers how many were made. `known` holds the words that all places
// announce, `starts` where each value begins.
pub fn run_steps(
    headers: &[u64],
    coefficients: &[f64],
    steps: &[u64],
    edition: u64,
    known: &mut [u64],
    starts: &[usize],
    pool: &mut [f64],
    scratch: &mut [f64],
) -> usize
    requires fact_1 { Admitted (recipe_of edition headers.now steps.now) coefficients.now known.old (length pool.old)
        (length scratch.old) }
    requires fact_2 { Placing (input_heads headers.now) (announced_steps (recipe_of edition headers.now steps.now)) starts.now }
    requires fact_3 { 64 ≤ length starts.now }
    ensures made { Stood (recipe_of edition headers.now steps.now) coefficients.now result }
    ensures words { result ≡ length steps.now → take (length steps.now) (drop (length headers.now) known.new)
        ≡ map (λ v. word_of v.head) (step_values (recipe_of edition headers.now steps.now)
        coefficients.now) }
    ensures values { result ≡ length steps.now → pool.new
        ≡ laid (announced_steps (recipe_of edition headers.now steps.now))
        (step_values (recipe_of edition headers.now steps.now) coefficients.now)
        ++ drop (total (announced_steps (recipe_of edition headers.now steps.now))) pool.old }
    ensures behind { drop (total (announced_steps (recipe_of edition headers.now steps.now))) pool.new
        ≡ drop (total (announced_steps (recipe_of edition headers.now steps.now))) pool.old }
    ensures spent { length scratch.new ≡ length scratch.old }
{
    let inputs = headers.len();
    for (i, word) in steps.iter().enumerate() {
        let s = step_of(*word);
        let p = inputs + i;
        let at = starts[p];
        if is_stop(s, inputs, starts, coefficients, &pool[..at]) {
            return i;
        }
        let room = stored_of(header_of(known[p]));
        known[p] = step_word(
            edition,
            s,
            inputs,
            known,
            starts,
            coefficients,
            pool,
            at,
            room,
            scratch,
        );
    }
    steps.len()
}
