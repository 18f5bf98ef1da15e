// Runs the stored cases of standard input through every entry, and prints a line for each: what came out. tests/stored
// says where cases and stored output are from; none is from this code.
//
// A case is words of 16 hex digits, each with one byte behind it. The first says, from its low end: the operation (8
// bits), how many coefficients a and b have (8 each), how many places of result (8) and of scratch (16) are lent, how
// many numbers follow (8). Then come the headers of a and b, the numbers, the coefficients of a and those of b. Result
// and scratch are lent full of a sentinel.
// No contract can say what is read or printed; the functions that do neither (tally.rt, text.rt, and `sheet_reading`'s
// and `sheet_text`'s that read words) say what they answer.
#![tactic(auto)]

mod show;
mod tally;
mod text;

ghost use Rattle.std.specs.Prelude.{◌≡◌, [], ◌∷◌, length};

use replay_input::{each_case, read_full};
use shape::limits::least;
use sheet_reading::fill_floats;
use sheet_text::line::word_at;
use show::{show_all, show_answer, show_count, show_linear, show_number, show_reading};
use std::io;
use std::io::Read;
use text::numbers_of;

// How many numbers a case has at most; how many coefficients or places of result; how many places of scratch.
const NUMBERS: usize = 7;

const PLACES: usize = 64;

const SCRATCH: usize = 512;

// Four limits or indices.
fn four(p: u64, q: u64, r: u64, s: u64) -> [usize; 4]
    ensures { result ≡ p ∷ q ∷ r ∷ s ∷ [] }
{
    [p as usize, q as usize, r as usize, s as usize]
}

fn show_unknown(rt: &impl Print) -> io::Result<()> {
    rt.write_all(b"unknown")
}

// A number that is read off a polynomial.
fn read(rt: &impl Print, op: u64, head: u64, a: &[f64], x: [u64; 7]) -> io::Result<()> {
    if op == 20 {
        show_reading(
            rt,
            readings::coefficient(head, a, four(x[0], x[1], x[2], x[3])),
        )?;
    } else if op == 21 {
        show_reading(rt, readings::constant_term(head, a))?;
    } else if op == 22 {
        show_reading(rt, readings::evaluate_all_one(head, a))?;
    } else if op == 23 {
        show_linear(rt, readings::extract_linear(head, a))?;
    } else if op == 24 {
        let total = sheet_bits::float_of(x[1]);
        show_reading(rt, readings::tail(head, a, x[0] as usize, total))?;
    } else if op == 25 {
        show_count(rt, readings::least(head, a, sheet_bits::float_of(x[0])))?;
    } else {
        show_unknown(rt)?;
    }
    Ok(())
}

// A constructor under limits.
fn construct_with(rt: &impl Print, op: u64, x: [u64; 7], out: &mut [f64]) -> io::Result<()> {
    if op == 10 {
        let l = four(x[1], x[2], x[3], x[4]);
        show_answer(rt, readings::zero_with(x[0] as usize, l, out))?;
    } else if op == 12 {
        let c = (x[0] % 4294967296) as u32;
        let l = four(x[2], x[3], x[4], x[5]);
        show_answer(rt, readings::from_u32_with(c, x[1] as usize, l, out))?;
    } else {
        let l = four(x[3], x[4], x[5], x[6]);
        let c = sheet_bits::float_of(x[1]);
        show_answer(
            rt,
            readings::var_with_degrees_p1(x[0] as usize, c, x[2] as usize, l, out),
        )?;
    }
    Ok(())
}

// A constructor.
fn construct(rt: &impl Print, op: u64, x: [u64; 7], out: &mut [f64]) -> io::Result<()> {
    if (op == 10) | (op == 12) | (op == 15) {
        construct_with(rt, op, x, out)?;
    } else if op == 11 {
        show_answer(rt, readings::from_u32((x[0] % 4294967296) as u32, out))?;
    } else if op == 13 {
        show_answer(rt, readings::var_at_zero(x[0] as usize, x[1] as usize, out))?;
    } else if op == 14 {
        let c = sheet_bits::float_of(x[1]);
        show_answer(rt, readings::var(x[0] as usize, c, x[2] as usize, out))?;
    } else if op == 16 {
        show_answer(rt, readings::zero(out))?;
    } else if op == 17 {
        show_answer(rt, readings::one(out))?;
    } else {
        show_unknown(rt)?;
    }
    Ok(())
}

// A polynomial that is made from one or two others.
fn combine(
    rt: &impl Print,
    op: u64,
    ah: u64,
    a: &[f64],
    bh: u64,
    b: &[f64],
    x: [u64; 7],
    out: &mut [f64],
    scratch: &mut [f64],
) -> io::Result<()> {
    if op == 0 {
        show_answer(rt, sums::negate(ah, a, out))?;
    } else if op == 1 {
        show_answer(rt, sums::add(ah, a, bh, b, out, scratch))?;
    } else if op == 2 {
        show_answer(rt, sums::subtract(ah, a, bh, b, out, scratch))?;
    } else if op == 3 {
        show_answer(
            rt,
            readings::taylor_polynomial(ah, a, x[0] as usize, x[1] as usize, out),
        )?;
    } else if op == 4 {
        show_answer(
            rt,
            readings::coefficients_of_term(ah, a, x[0] as usize, x[1] as usize, out),
        )?;
    } else if op == 5 {
        show_answer(rt, product::multiply(ah, a, bh, b, out, scratch))?;
    } else if op == 6 {
        show_answer(rt, quotient::divide(ah, a, bh, b, out, scratch))?;
    } else {
        show_unknown(rt)?;
    }
    Ok(())
}

// A polynomial that is made from another and its value at the constant term.
fn expand(
    rt: &impl Print,
    op: u64,
    head: u64,
    a: &[f64],
    x: [u64; 7],
    out: &mut [f64],
    scratch: &mut [f64],
) -> io::Result<()> {
    let value = sheet_bits::float_of(x[0]);
    if op == 7 {
        show_answer(rt, series::exp(head, a, value, out, scratch))?;
    } else {
        show_answer(rt, series::log(head, a, value, out, scratch))?;
    }
    Ok(())
}

// A polynomial with one variable changed.
fn change_variable(
    rt: &impl Print,
    op: u64,
    head: u64,
    a: &[f64],
    x: [u64; 7],
    out: &mut [f64],
) -> io::Result<()> {
    let v = x[0] as usize;
    let n = x[1] as usize;
    if op == 31 {
        show_answer(rt, change::derivative(head, a, v, n, out))?;
    } else if op == 32 {
        show_answer(rt, change::taylor_expansion_of_coeff(head, a, v, n, out))?;
    } else if op == 33 {
        show_answer(rt, change::shift_down(head, a, v, n, out))?;
    } else {
        show_unknown(rt)?;
    }
    Ok(())
}

// The places lent for a result, and what became of the scratch.
fn show_buffers(rt: &impl Print, out: &[f64], scratch: &[f64]) -> io::Result<()> {
    show_all(rt, out)?;
    show_number(rt, tally::cleared(scratch) as u64)?;
    show_number(rt, tally::untouched(scratch) as u64)
}

// A polynomial.
fn make(
    rt: &impl Print,
    op: u64,
    ah: u64,
    a: &[f64],
    bh: u64,
    b: &[f64],
    x: [u64; 7],
    out: &mut [f64],
    scratch: &mut [f64],
) -> io::Result<()> {
    if op < 7 {
        combine(rt, op, ah, a, bh, b, x, out, scratch)?;
    } else if op < 9 {
        expand(rt, op, ah, a, x, out, scratch)?;
    } else if op < 30 {
        construct(rt, op, x, out)?;
    } else if op == 30 {
        let e = (x[0] % 4294967296) as u32;
        show_answer(rt, power::pow(ah, a, e, out, scratch))?;
    } else if op == 34 {
        show_answer(
            rt,
            substitution::subst_var(ah, a, bh, b, x[0] as usize, out, scratch),
        )?;
    } else {
        change_variable(rt, op, ah, a, x, out)?;
    }
    Ok(())
}

// A polynomial, and the buffers.
fn make_and_show(
    rt: &impl Print,
    op: u64,
    ah: u64,
    a: &[f64],
    bh: u64,
    b: &[f64],
    x: [u64; 7],
    out: &mut [f64],
    scratch: &mut [f64],
) -> io::Result<()> {
    make(rt, op, ah, a, bh, b, x, out, scratch)?;
    show_buffers(rt, out, scratch)
}

// A case whose first word is w.
fn act(
    rt: &impl Print,
    w: u64,
    ah: u64,
    a: &[f64],
    bh: u64,
    b: &[f64],
    x: [u64; 7],
) -> io::Result<()> {
    let op = w % 256;
    if (20 <= op) & (op < 30) {
        read(rt, op, ah, a, x)?;
    } else {
        let lent = least((w / 16777216 % 256) as usize, PLACES);
        let room = least((w / 4294967296 % 65536) as usize, SCRATCH);
        let mut out = [1.0000000000000002f64; 64];
        let mut scratch = [1.0000000000000002f64; 512];
        make_and_show(
            rt,
            op,
            ah,
            a,
            bh,
            b,
            x,
            &mut out[..lent],
            &mut scratch[..room],
        )?;
    }
    rt.write_all(b"\n")
}

// The rest of a case whose first word is w and whose headers are read, in lent memory.
fn go_on(
    rt: &impl Print,
    input: &mut impl Read,
    w: u64,
    ah: u64,
    bh: u64,
    rest: &mut [u8],
    a: &mut [f64],
    b: &mut [f64],
) -> io::Result<()>
    requires { (4096 ≡ length rest.old) × ((64 ≡ length a.old) × (64 ≡ length b.old)) }
{
    let na = least((w / 256 % 256) as usize, PLACES);
    let nb = least((w / 65536 % 256) as usize, PLACES);
    let n = least((w / 281474976710656 % 256) as usize, NUMBERS);
    let end = 17 * (n + na + nb);
    read_full(input, &mut rest[..end])?;
    fill_floats(rest, n, &mut a[..na]);
    fill_floats(rest, n + na, &mut b[..nb]);
    act(rt, w, ah, &a[..na], bh, &b[..nb], numbers_of(rest, n))
}

// One case, from the text of its first three words.
fn run(rt: &impl Print, input: &mut impl Read, begin: &[u8]) -> io::Result<()> {
    let mut rest = [0u8; 4096];
    let mut a = [0.0f64; 64];
    let mut b = [0.0f64; 64];
    let w = word_at(begin, 0);
    go_on(
        rt,
        input,
        w,
        word_at(begin, 17),
        word_at(begin, 34),
        &mut rest,
        &mut a,
        &mut b,
    )
}

fn main(rt: HostRuntime) -> io::Result<()> {
    each_case(&mut rt.reader(), &mut [0u8; 51], |input, begin| {
        run(&rt, input, begin)
    })
}
