// Runs the stored recipes of standard input through the check and the run, and prints a line for each: both answers,
// and all that the lent buffers then hold. tests/stored says where cases and stored output are from; none is from this
// code.
//
// A case is words of 16 hex digits, each with one byte behind it. The first says, from its low end: how many headers (8
// bits), coefficients (16) and steps (8) there are, and how many words are lent (8); the second how many places of pool
// (16) and of scratch (16) are lent, and the edition (32). Then come the headers, the coefficients, the steps. Every
// lent buffer is full of a
// sentinel.
// No contract can say what is read or printed; the functions that do neither (alike.rt, and `sheet`'s that read words)
// say what they answer.
#![tactic(auto)]

mod alike;
mod show;

ghost use Rattle.std.specs.Prelude.{◌≡◌, length};

use replay_input::{each_case, read_full};
use shape::limits::least;
use sheet_reading::{fill_floats, fill_words};
use sheet_text::line::word_at;
use show::{show_check, show_floats, show_run, show_words};
use std::io;
use std::io::Read;

// How many headers, coefficients and steps a case has at most.
const HEADERS: usize = 32;

const COEFFICIENTS: usize = 1024;

const STEPS: usize = 128;

// How many places of pool, words and scratch are lent at most.
const POOL: usize = 8192;

const WORDS: usize = 128;

const SCRATCH: usize = 40000;

// A case in its buffers.
fn act(
    rt: &impl Print,
    headers: &[u64],
    coefficients: &[f64],
    steps: &[u64],
    edition: u64,
    pool: &mut [f64],
    words: &mut [u64],
    scratch: &mut [f64],
) -> io::Result<()> {
    show_check(rt, recipes::check(headers, steps, edition))?;
    show_run(
        rt,
        recipes::run(headers, coefficients, steps, edition, pool, words, scratch),
    )?;
    rt.write_all(b" pool")?;
    show_floats(rt, pool)?;
    rt.write_all(b" words")?;
    show_words(rt, words)?;
    rt.write_all(b" scratch")?;
    show_floats(rt, scratch)?;
    rt.write_all(b"\n")
}

// A case that is read; w and v are its first two words.
fn lend(
    rt: &impl Print,
    w: u64,
    v: u64,
    headers: &[u64],
    coefficients: &[f64],
    steps: &[u64],
) -> io::Result<()> {
    let p = least((v % 65536) as usize, POOL);
    let n = least((w / 4294967296 % 256) as usize, WORDS);
    let s = least((v / 65536 % 65536) as usize, SCRATCH);
    let mut pool = [1.0000000000000002f64; 8192];
    let mut words = [4607182418800017409u64; 128];
    let mut scratch = [1.0000000000000002f64; 40000];
    act(
        rt,
        headers,
        coefficients,
        steps,
        v / 4294967296,
        &mut pool[..p],
        &mut words[..n],
        &mut scratch[..s],
    )
}

// The rest of a case whose first two words are w and v, in lent memory.
fn go_on(
    rt: &impl Print,
    input: &mut impl Read,
    w: u64,
    v: u64,
    rest: &mut [u8],
    headers: &mut [u64],
    coefficients: &mut [f64],
    steps: &mut [u64],
) -> io::Result<()>
    requires { (65536 ≡ length rest.old) × ((32 ≡ length headers.old) × ((1024 ≡ length coefficients.old) × (128 ≡ length steps.old))) }
{
    let h = least((w % 256) as usize, HEADERS);
    let c = least((w / 256 % 65536) as usize, COEFFICIENTS);
    let s = least((w / 16777216 % 256) as usize, STEPS);
    let end = 17 * (h + c + s);
    read_full(input, &mut rest[..end])?;
    fill_words(rest, 0, &mut headers[..h]);
    fill_floats(rest, h, &mut coefficients[..c]);
    fill_words(rest, h + c, &mut steps[..s]);
    lend(rt, w, v, &headers[..h], &coefficients[..c], &steps[..s])
}

// One case, from the text of its first two words.
fn run(rt: &impl Print, input: &mut impl Read, begin: &[u8]) -> io::Result<()> {
    let mut rest = [0u8; 65536];
    let mut headers = [0u64; 32];
    let mut coefficients = [0.0f64; 1024];
    let mut steps = [0u64; 128];
    go_on(
        rt,
        input,
        word_at(begin, 0),
        word_at(begin, 17),
        &mut rest,
        &mut headers,
        &mut coefficients,
        &mut steps,
    )
}

fn main(rt: HostRuntime) -> io::Result<()> {
    each_case(&mut rt.reader(), &mut [0u8; 34], |input, begin| {
        run(&rt, input, begin)
    })
}
