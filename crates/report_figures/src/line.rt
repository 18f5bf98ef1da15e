// A line for each stored place.
ghost use Rattle.std.specs.Prelude.{◌≡◌, ◌<◌, ◌≤◌, length};
ghost use Rattle.model.specs.Header.{stored};
ghost use Rattle.model.specs.Word.{header_of};
ghost use Rattle.model_texts.specs.Report.{joined};
ghost use Rattle.shape_words.specs.Lengths.{Lengths};
ghost use Rattle.report_lines.specs.Puts.{Puts};
ghost use Rattle.model_figures.specs.Cells.{cell};
ghost use Rattle.model_figures.specs.Figures.{part_text, index_text, heading_text, sums_text, sum_line, plain_line, figure_text, figures_text};

use crate::cell::{put_cell, put_gap};
use decimals::put_float;
use model::Header;
use readings_sums::{sum_to, tail_at};
use report_lines::put::{put, put_either, put_if, put_number};
use shape_words::places::index_of;
use shape_words::word::header_of;

// Number v of an index, if there is such a variable.
fn put_part(vars: usize, i: [usize; 4], v: usize, at: usize, to: &mut [u8]) -> usize
    requires { v < 4 }
    ensures { Puts (part_text vars i v) at to.old to.new result }
{
    if v < vars {
        let next = put_if(0 < v, b" ", at, to);
        return put_number(i[v], next, to);
    }
    at
}

fn put_parts(vars: usize, i: [usize; 4], at: usize, to: &mut [u8]) -> usize
    ensures { Puts (joined (part_text vars i) 4) at to.old to.new result }
{
    let mut next = at;
    for v in 0..4 {
        next = put_part(vars, i, v, next, to);
    }
    next
}

// The index of the place p, in brackets.
fn put_index(h: Header, p: usize, at: usize, to: &mut [u8]) -> usize
    requires { Lengths h.lengths }
    ensures { Puts (index_text h p) at to.old to.new result }
{
    let lengths = h.lengths;
    let i = index_of(lengths, p);
    let a = put(b"[", at, to);
    let b = put_parts(h.vars, i, a, to);
    put(b"]", b, to)
}

// The same in a column of n, the first one.
fn put_place(n: usize, h: Header, p: usize, at: usize, to: &mut [u8]) -> usize
    requires fact_1 { Lengths h.lengths }
    requires fact_2 { n ≤ 80 }
    ensures { Puts (cell 0 n (index_text h p)) at to.old to.new result }
{
    let next = put_index(h, p, at, to);
    put_gap(0, n, at, next, to)
}

// The running sum up to the place p, and the tail as a part of the total, if there are parts.
fn put_sums(
    h: Header,
    xs: &[f64],
    total: f64,
    parts: bool,
    p: usize,
    at: usize,
    to: &mut [u8],
) -> usize
    requires fact_1 { Lengths h.lengths }
    requires fact_2 { p < length xs.now }
    ensures { Puts (sums_text h xs.now total parts p) at to.old to.new result }
{
    let sum = sum_to(xs, p + 1);
    if parts {
        let lengths = h.lengths;
        let next = put_cell(29, 20, sum, at, to);
        return put_float(tail_at(xs, lengths[0], p, total), next, to);
    }
    put_float(sum, at, to)
}

// The line of a place, of one variable.
fn put_sum_line(
    h: Header,
    xs: &[f64],
    total: f64,
    parts: bool,
    p: usize,
    at: usize,
    to: &mut [u8],
) -> usize
    requires fact_1 { Lengths h.lengths }
    requires fact_2 { p < length xs.now }
    ensures { Puts (sum_line h xs.now total parts p) at to.old to.new result }
{
    let a = put_place(9, h, p, at, to);
    let b = put_cell(9, 20, xs[p], a, to);
    let c = put_sums(h, xs, total, parts, p, b, to);
    put(b"\n", c, to)
}

// Of any other number of variables.
fn put_plain(h: Header, xs: &[f64], p: usize, at: usize, to: &mut [u8]) -> usize
    requires fact_1 { Lengths h.lengths }
    requires fact_2 { p < length xs.now }
    ensures { Puts (plain_line h xs.now p) at to.old to.new result }
{
    let a = put_place(15, h, p, at, to);
    let b = put_float(xs[p], a, to);
    put(b"\n", b, to)
}

fn put_figure(
    h: Header,
    xs: &[f64],
    total: f64,
    parts: bool,
    p: usize,
    at: usize,
    to: &mut [u8],
) -> usize
    requires fact_1 { Lengths h.lengths }
    requires fact_2 { p < length xs.now }
    ensures { Puts (figure_text h xs.now total parts p) at to.old to.new result }
{
    if h.vars == 1 {
        return put_sum_line(h, xs, total, parts, p, at, to);
    }
    put_plain(h, xs, p, at, to)
}

// A line for each place.
fn put_lines(h: Header, xs: &[f64], total: f64, parts: bool, at: usize, to: &mut [u8]) -> usize
    requires { Lengths h.lengths }
    ensures { Puts (joined (figure_text h xs.now total parts) (length xs.now)) at
        to.old to.new result }
{
    let mut next = at;
    for p in 0..xs.len() {
        next = put_figure(h, xs, total, parts, p, next, to);
    }
    next
}

fn put_heading(vars: usize, parts: bool, at: usize, to: &mut [u8]) -> usize
    ensures { Puts (heading_text vars parts) at to.old to.new result }
{
    if vars == 1 {
        return put_either(
            parts,
            b"failures chance or count     this many or fewer  more than this many\n",
            b"failures chance or count     this many or fewer\n",
            at,
            to,
        );
    }
    put(b"index          coefficient\n", at, to)
}

// The figures of a polynomial: all its stored places; parts of the total, where there are parts.
pub fn put_figures(
    header: u64,
    xs: &[f64],
    total: f64,
    parts: bool,
    at: usize,
    to: &mut [u8],
) -> usize
    requires { length xs.now ≡ stored (header_of header) }
    ensures { Puts (figures_text (header_of header) xs.now total parts) at to.old to.new result }
{
    let h = header_of(header);
    let next = put_heading(h.vars, parts, at, to);
    put_lines(h, xs, total, parts, next, to)
}
