// A sheet read, judged and run: how it ends, and where its last value lies.
#![tactic(auto)]

mod run;

ghost use Rattle.std.specs.Prelude.{◌≡◌, length};
ghost use Rattle.model.specs.Word.{header_of};
ghost use Rattle.shape_words.specs.Rules.{Ruled};
ghost use Rattle.sheet_solving.specs.Solves.{solved_by, Buffers, Solves};

use gates::stored_of;
use model::Refusal;
use run::run_read;
use shape_words::word::header_of;
use sheet_reading::{edition_of, input_count, read};

// Memory for the coefficients of all inputs, for a pool, or for the scratch.
pub fn floats() -> [f64; 2048]
    ensures { length result ≡ 2048 }
{
    [0.0f64; 2048]
}

// Memory for a word of each place.
pub fn places() -> [u64; 64]
    ensures { length result ≡ 64 }
{
    [0u64; 64]
}

// A sheet that is not refused: how many inputs and steps it has, the header word of the last value, where in the pool
// its coefficients lie, and how many they are.
#[derive(Clone, Copy)]
pub struct Solved {
    pub inputs: usize,
    pub steps: usize,
    pub header: u64,
    pub from: usize,
    pub count: usize,
}

impl Solved {
    fn done(inputs: usize, steps: usize, header: u64, from: usize) -> Solved
        requires { Ruled (header_of header) }
        ensures { result ≡ solved_by inputs steps header from }
    {
        Solved {
            inputs,
            steps,
            header,
            from,
            count: stored_of(header_of(header)),
        }
    }
}

// How a sheet ends. Where it is not refused, its input headers, its steps and the words that its places announce stand
// at the front of `headers`, `steps` and `known`, and the coefficients of the last value in `pool`. Where it is
// refused, `pool` is as it was, but that a run which stops leaves +0.0 in its announced places; and what lies in the
// other three is not said: they are filled as the sheet is read.
pub fn solve(
    text: &[u8],
    headers: &mut [u64],
    steps: &mut [u64],
    known: &mut [u64],
    pool: &mut [f64],
) -> Result<Solved, Refusal>
    requires { Buffers (length headers.old) (length steps.old) (length known.old) (length pool.old) }
    ensures { Solves text.now headers.old steps.old known.old
        pool.old headers.new steps.new known.new pool.new result }
{
    read(text, headers)?;
    let edition = edition_of(text);
    let inputs = input_count(text);
    run_read(text, &headers[..inputs], edition, steps, known, pool)
}
