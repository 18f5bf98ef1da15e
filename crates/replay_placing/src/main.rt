// Puts the stored recipes of standard input to the check of the second placing, and prints a line for each answer.
// tests/placing.py worked out cases and stored output from document 02; none is from this code.
//
// A case is words of 16 hex digits, each with one byte behind it. The first says, from its low end: how many headers (8
// bits) and steps (8) there are, and the edition. Then come the headers, the steps.
// No contract can say what is read or printed.
#![tactic(auto)]

ghost use Rattle.std.specs.Prelude.{◌≡◌, length};

use model_placing::ReuseAnswer;
use recipes_reuse::check_reuse;
use replay_input::{each_case, read_full, show_refusal};
use shape::limits::least;
use sheet_reading::fill_words;
use sheet_text::line::word_at;
use std::io;
use std::io::Read;

// How many headers and steps a case has at most.
const HEADERS: usize = 32;

const STEPS: usize = 128;

fn show_number(rt: &impl Print, n: u64) -> io::Result<()> {
    print!(rt; " {n}")
}

fn show(rt: &impl Print, r: ReuseAnswer) -> io::Result<()> {
    match r {
        Ok(t) => {
            rt.write_all(b"accepted")?;
            show_number(rt, t.pool as u64)?;
            show_number(rt, t.largest as u64)?;
            show_number(rt, t.inputs as u64)?;
            show_number(rt, t.last as u64)?;
        }
        Err(e) => show_refusal(rt, e)?,
    }
    rt.write_all(b"\n")
}

// The rest of a case whose first word is w, in lent memory.
fn go_on(
    rt: &impl Print,
    input: &mut impl Read,
    w: u64,
    rest: &mut [u8],
    headers: &mut [u64],
    steps: &mut [u64],
) -> io::Result<()>
    requires { (65536 ≡ length rest.old) × ((32 ≡ length headers.old) × (128 ≡ length steps.old)) }
{
    let h = least((w % 256) as usize, HEADERS);
    let s = least((w / 256 % 256) as usize, STEPS);
    let end = 17 * (h + s);
    read_full(input, &mut rest[..end])?;
    fill_words(rest, 0, &mut headers[..h]);
    fill_words(rest, h, &mut steps[..s]);
    show(rt, check_reuse(&headers[..h], &steps[..s], w / 65536))
}

// One case, from the text of its first word.
fn run(rt: &impl Print, input: &mut impl Read, begin: &[u8]) -> io::Result<()> {
    let mut rest = [0u8; 65536];
    let mut headers = [0u64; 32];
    let mut steps = [0u64; 128];
    go_on(
        rt,
        input,
        word_at(begin, 0),
        &mut rest,
        &mut headers,
        &mut steps,
    )
}

fn main(rt: HostRuntime) -> io::Result<()> {
    each_case(&mut rt.reader(), &mut [0u8; 17], |input, begin| {
        run(&rt, input, begin)
    })
}
