// How many tubes cover a wanted chance, or why no place shown reaches it.
#![tactic(auto)]

ghost use Rattle.std.specs.Prelude.{◌≡◌, map, ◌<◌, length};
ghost use Rattle.model.specs.Header.{stored};
ghost use Rattle.model.specs.Gates.{good_total};
ghost use Rattle.model.specs.Word.{header_of};
ghost use Rattle.model_forecast.specs.Covered.{covered_text, first_passing, cut_by_text, short_text, uncovered_text, cover_text, wanted_text, chance_text};
ghost use Rattle.report_lines.specs.Puts.{Puts};

use decimals::put_float;
use model_forecast::Given;
use readings_sums::least_at;
use report_lines::put::{put, put_either, put_number, tell};
use report_lines::why::put_place_kind;
use report_trace::decide::decider;
use report_trace::whole::{first_out, passes};
use shape_words::word::header_of;

// k tubes cover the chance q.
fn put_covered(k: usize, q: f64, at: usize, to: &mut [u8]) -> usize
    ensures { Puts (covered_text k q) at to.old to.new result }
{
    let a = put_number(k, at, to);
    let b = put_either(
        k == 1,
        b" tube covers a chance of ",
        b" tubes cover a chance of ",
        a,
        to,
    );
    let c = put_float(q, b, to);
    put(b".\n", c, to)
}

// The first variable in which the place o leaves terms out.
fn first_passing(known: &[u64], full: &[usize], o: usize) -> usize
    requires { o < 64 }
    ensures is { result ≡ first_passing (map header_of known.now) full.now o }
    ensures small { result < 4 }
{
    if passes(known, full, o, 0) {
        return 0;
    }
    if passes(known, full, o, 1) {
        return 1;
    }
    if passes(known, full, o, 2) {
        return 2;
    }
    3
}

// By which place the table was cut at the place o.
fn put_cut_by(
    known: &[u64],
    steps: &[u64],
    inputs: usize,
    full: &[usize],
    o: usize,
    at: usize,
    to: &mut [u8],
) -> usize
    requires { o < 64 }
    ensures { Puts (cut_by_text (map header_of known.now) steps.now inputs full.now o) at
        to.old to.new result }
{
    let v = first_passing(known, full, o);
    let by = decider(known, v, steps, inputs, o);
    let a = tell(b"The table was cut at place ", o, at, to);
    let b = put(b", by the limit of ", a, to);
    let c = put_place_kind(inputs, by, b, to);
    put(b";\na larger limit belongs there.\n", c, to)
}

// Why the answer, at the place p, does not reach a chance.
fn put_short(
    known: &[u64],
    steps: &[u64],
    inputs: usize,
    full: &[usize],
    p: usize,
    at: usize,
    to: &mut [u8],
) -> usize
    requires { p < 64 }
    ensures { Puts (short_text (map header_of known.now) steps.now inputs full.now p) at
        to.old to.new result }
{
    let first = first_out(known, steps, inputs, full, p);
    if 64 <= first {
        return put(
            b"No limit left anything out: the answer itself does not reach it.\n",
            at,
            to,
        );
    }
    put_cut_by(known, steps, inputs, full, first, at, to)
}

fn put_uncovered(
    known: &[u64],
    steps: &[u64],
    inputs: usize,
    full: &[usize],
    p: usize,
    q: f64,
    at: usize,
    to: &mut [u8],
) -> usize
    requires { p < 64 }
    ensures { Puts (uncovered_text (map header_of known.now) steps.now inputs full.now p q) at
        to.old to.new result }
{
    let a = put(b"No number of tubes shown covers a chance of ", at, to);
    let b = put_float(q, a, to);
    let c = put(b".\n", b, to);
    put_short(known, steps, inputs, full, p, c, to)
}

// Of an answer of one variable, at the place p: parts are taken of the total.
fn put_cover(
    known: &[u64],
    steps: &[u64],
    inputs: usize,
    full: &[usize],
    p: usize,
    header: u64,
    xs: &[f64],
    total: f64,
    q: f64,
    at: usize,
    to: &mut [u8],
) -> usize
    requires fact_1 { p < 64 }
    requires fact_2 { length xs.now ≡ stored (header_of header) }
    ensures { Puts (cover_text (map header_of known.now) steps.now inputs full.now p (header_of header)
        xs.now total q) at to.old to.new result }
{
    let h = header_of(header);
    let lengths = h.lengths;
    let n = lengths[0];
    let k = least_at(xs, n, q * total);
    if k < n {
        return put_covered(k, q, at, to);
    }
    put_uncovered(known, steps, inputs, full, p, q, at, to)
}

// Whether a total is finite and above zero.
pub fn is_total(total: f64) -> bool
    ensures { result ≡ good_total total }
{
    let infinity = f64::from_bits(0x7ff0000000000000);
    (0.0 < total) & (total < infinity)
}

// Of any answer.
fn put_wanted(
    known: &[u64],
    steps: &[u64],
    inputs: usize,
    full: &[usize],
    p: usize,
    header: u64,
    xs: &[f64],
    total: f64,
    q: f64,
    at: usize,
    to: &mut [u8],
) -> usize
    requires fact_1 { p < 64 }
    requires fact_2 { length xs.now ≡ stored (header_of header) }
    ensures { Puts (wanted_text (map header_of known.now) steps.now inputs full.now p (header_of header)
        xs.now total q) at to.old to.new result }
{
    let h = header_of(header);
    if h.vars != 1 {
        return put(
            b"How many tubes cover a chance is told for an answer of one variable only.\n",
            at,
            to,
        );
    }
    if is_total(total) {
        return put_cover(known, steps, inputs, full, p, header, xs, total, q, at, to);
    }
    put(
        b"With no total above zero, no number of tubes covers a chance.\n",
        at,
        to,
    )
}

// Where a chance is asked for.
pub fn put_chance(
    known: &[u64],
    steps: &[u64],
    inputs: usize,
    full: &[usize],
    p: usize,
    header: u64,
    xs: &[f64],
    total: f64,
    chance: Given,
    at: usize,
    to: &mut [u8],
) -> usize
    requires fact_1 { p < 64 }
    requires fact_2 { length xs.now ≡ stored (header_of header) }
    ensures { Puts (chance_text (map header_of known.now) steps.now inputs full.now p (header_of header)
        xs.now total chance) at to.old to.new result }
{
    match chance {
        None => at,
        Some(q) => put_wanted(known, steps, inputs, full, p, header, xs, total, q, at, to),
    }
}
