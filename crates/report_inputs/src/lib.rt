// What was put in, shown back: of each input its place, its sum, whether it fills a limit, and its first coefficients.
#![tactic(auto)]

ghost use Rattle.std.specs.Prelude.{◌≡◌, ◌<◌, ◌≤◌, length};
ghost use Rattle.model.specs.Header.{stored};
ghost use Rattle.model_texts.specs.Report.{joined};
ghost use Rattle.model_figures.specs.Inputs.{fills_in, fills_some, fill_text, first_text, firsts_text, input_lines, input_text, inputs_text};
ghost use Rattle.shape_words.specs.Rules.{Ruled};
ghost use Rattle.report_lines.specs.Puts.{Puts};
ghost use Rattle.report_inputs.specs.Held.{Held};

use decimals::put_float;
use gates::stored_of;
use model::Header;
use readings_sums::sum_to;
use recipes_check::total_of;
use report_figures::cell::put_cell;
use report_lines::put::{put, put_either, put_if, tell};
use shape::limits::least;
use shape_words::word::header_of;

// Whether as many rows are stored as a limit lets.
fn is_full(h: Header, v: usize) -> bool
    requires { v < 4 }
    ensures { result ≡ fills_in h v }
{
    (v < h.vars) & (h.lengths[v] == h.limits[v])
}

fn fills(h: Header) -> bool
    ensures { result ≡ fills_some h }
{
    (is_full(h, 0) | is_full(h, 1)) | (is_full(h, 2) | is_full(h, 3))
}

fn put_fill(h: Header, at: usize, to: &mut [u8]) -> usize
    ensures { Puts (fill_text h) at to.old to.new result }
{
    if h.vars == 0 {
        return put(b", a constant\n", at, to);
    }
    put_either(
        fills(h),
        b", fills its limit\n",
        b", below its limit\n",
        at,
        to,
    )
}

// Coefficient k of the m that are shown.
fn put_first(xs: &[f64], m: usize, k: usize, at: usize, to: &mut [u8]) -> usize
    requires { (k < length xs.now) × (k < 4) }
    ensures { Puts (first_text xs.now m k) at to.old to.new result }
{
    if k + 1 < m {
        return put_cell(2 + 15 * k, 15, xs[k], at, to);
    }
    put_float(xs[k], at, to)
}

// The first m.
fn put_shown(xs: &[f64], m: usize, at: usize, to: &mut [u8]) -> usize
    requires { (m ≤ length xs.now) × (m ≤ 4) }
    ensures { Puts (joined (first_text xs.now m) m) at to.old to.new result }
{
    let mut next = at;
    for k in 0..m {
        next = put_first(xs, m, k, next, to);
    }
    next
}

fn put_firsts(xs: &[f64], m: usize, at: usize, to: &mut [u8]) -> usize
    requires { (m ≤ length xs.now) × (m ≤ 4) }
    ensures { Puts (firsts_text xs.now m) at to.old to.new result }
{
    let a = put(b"  ", at, to);
    let b = put_shown(xs, m, a, to);
    put(b"\n", b, to)
}

// The input at the place i, its coefficients at the front of `xs`.
fn put_lines(i: usize, h: Header, xs: &[f64], at: usize, to: &mut [u8]) -> usize
    requires fact_1 { Ruled h }
    requires fact_2 { stored h ≤ length xs.now }
    ensures { Puts (input_lines i h xs.now) at to.old to.new result }
{
    let n = stored_of(h);
    let a = tell(b"place ", i, at, to);
    let b = put(b": sum ", a, to);
    let c = put_float(sum_to(xs, n), b, to);
    let d = put_fill(h, c, to);
    put_firsts(xs, least(4, n), d, to)
}

fn put_input(headers: &[u64], xs: &[f64], i: usize, at: usize, to: &mut [u8]) -> usize
    requires fact_1 { Held headers.now (length xs.now) }
    requires fact_2 { i < length headers.now }
    ensures { Puts (input_text headers.now xs.now i) at to.old to.new result }
{
    let from = total_of(&headers[..i]);
    put_lines(i, header_of(headers[i]), &xs[from..], at, to)
}

fn put_each(headers: &[u64], xs: &[f64], at: usize, to: &mut [u8]) -> usize
    requires { Held headers.now (length xs.now) }
    ensures { Puts (joined (input_text headers.now xs.now) (length headers.now)) at
        to.old to.new result }
{
    let mut next = at;
    for i in 0..headers.len() {
        next = put_input(headers, xs, i, next, to);
    }
    next
}

// Every input; their coefficients lie end to end in `xs`.
pub fn put_inputs(headers: &[u64], xs: &[f64], at: usize, to: &mut [u8]) -> usize
    requires { Held headers.now (length xs.now) }
    ensures { Puts (inputs_text headers.now xs.now) at to.old to.new result }
{
    let next = put_if(
        0 < headers.len(),
        b"What was put in: of each input its sum, and its first coefficients.\n",
        at,
        to,
    );
    put_each(headers, xs, next, to)
}
