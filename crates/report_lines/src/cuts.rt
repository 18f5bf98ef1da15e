// A line for each input that fills its limit, each limit that is below an operand's, and each full length that passes
// its limit.
ghost use Rattle.std.specs.Prelude.{map, ◌<◌, ◌≤◌};
ghost use Rattle.model.specs.Word.{header_of};
ghost use Rattle.model_texts.specs.Report.{joined, falls_text, fills_text, need_text, needs_front, fills_line, falls_line, needs_line, cut_text, cuts_text};
ghost use Rattle.report_lines.specs.Puts.{Puts};

use crate::put::{put, tell};
use crate::why::{put_break, put_limit_has, put_variable, source_of};
use recipes_kinds::gate::head_at;
use report_trace::cut::{cut_operand, has, is_cut, limit_at};
use report_trace::decide::{follow, step_word};
use report_trace::full::{MANY, full_at};
use report_trace::whole::passes;

// The limit falls from that of one operand to that of another.
fn put_falls(
    limit: usize,
    operand: usize,
    lower: usize,
    other: usize,
    at: usize,
    to: &mut [u8],
) -> usize
    ensures { Puts (falls_text limit operand lower other) at to.old to.new result }
{
    let a = tell(b": limit falls from ", limit, at, to);
    let b = tell(b" (place ", operand, a, to);
    let c = tell(b") to ", lower, b, to);
    let d = tell(b" (place ", other, c, to);
    put(b")\n", d, to)
}

#[tactic(auto, using(crate::specs::Puts::puts_then), unfolding(model_texts::specs::Report::fills_text, lists::specs::Bytes::bytes))]
fn put_filled(limit: usize, at: usize, to: &mut [u8]) -> usize
    ensures { Puts (fills_text limit) at to.old to.new result }
{
    let next = tell(b": fills its limit of ", limit, at, to);
    put(b" and may have been cut before\n", next, to)
}

// How long a place would be.
fn put_need(full: usize, at: usize, to: &mut [u8]) -> usize
    ensures { Puts (need_text full) at to.old to.new result }
{
    if full == 0 {
        return put(b": may go on without end", at, to);
    }
    if full == MANY {
        return put(b": needs more than 4000000000", at, to);
    }
    tell(b": needs ", full, at, to)
}

// The variable, and how long it would be.
fn put_needs_front(
    p: usize,
    v: usize,
    full: usize,
    lowered: bool,
    at: usize,
    to: &mut [u8],
) -> usize
    ensures { Puts (needs_front p v full lowered) at to.old to.new result }
{
    let a = put_variable(p, v, at, to);
    let b = put_need(full, a, to);
    put_break((full == 0) | (full == MANY) | lowered, b, to)
}

// Where an input fills its limit.
fn put_fills(known: &[u64], p: usize, v: usize, at: usize, to: &mut [u8]) -> usize
    requires { v < 4 }
    ensures { Puts (fills_line (map header_of known.now) p v) at to.old to.new result }
{
    let limit = limit_at(known, v, p);
    if has(known, v, p) & (head_at(known, p).lengths[v] == limit) {
        let next = put_variable(p, v, at, to);
        return put_filled(limit, next, to);
    }
    at
}

// Where a limit is below that of an operand.
fn put_fall(
    known: &[u64],
    steps: &[u64],
    inputs: usize,
    p: usize,
    v: usize,
    at: usize,
    to: &mut [u8],
) -> usize
    requires { v < 4 }
    ensures { Puts (falls_line (map header_of known.now) steps.now inputs p v) at to.old to.new result }
{
    let word = step_word(steps, inputs, p);
    if is_cut(known, v, word, p) {
        let operand = cut_operand(known, v, word, p);
        let limit = limit_at(known, v, operand);
        let lower = limit_at(known, v, p);
        let other = follow(known, v, steps, inputs, p);
        let next = put_variable(p, v, at, to);
        return put_falls(limit, operand, lower, other, next, to);
    }
    at
}

// Where a full length passes its limit.
fn put_needs(
    known: &[u64],
    steps: &[u64],
    inputs: usize,
    full: &[usize],
    p: usize,
    v: usize,
    at: usize,
    to: &mut [u8],
) -> usize
    requires { (p < 64) × (v < 4) }
    ensures { Puts (needs_line (map header_of known.now) steps.now inputs full.now p v) at
        to.old to.new result }
{
    if passes(known, full, p, v) {
        let lowered = limit_at(known, v, p) < source_of(known, steps, inputs, p, v);
        let a = put_needs_front(p, v, full_at(full, p, v), lowered, at, to);
        let b = put(b"its limit is ", a, to);
        return put_limit_has(known, steps, inputs, p, v, b, to);
    }
    at
}

fn put_cut(
    known: &[u64],
    steps: &[u64],
    inputs: usize,
    full: &[usize],
    p: usize,
    v: usize,
    at: usize,
    to: &mut [u8],
) -> usize
    requires { (p < 64) × (v < 4) }
    ensures { Puts (cut_text (map header_of known.now) steps.now inputs full.now p v) at
        to.old to.new result }
{
    if p < inputs {
        return put_fills(known, p, v, at, to);
    }
    let next = put_fall(known, steps, inputs, p, v, at, to);
    put_needs(known, steps, inputs, full, p, v, next, to)
}

// Of a place, variable by variable.
fn put_cuts_at(
    known: &[u64],
    steps: &[u64],
    inputs: usize,
    full: &[usize],
    p: usize,
    at: usize,
    to: &mut [u8],
) -> usize
    requires { p < 64 }
    ensures { Puts (cuts_text (map header_of known.now) steps.now inputs full.now p) at
        to.old to.new result }
{
    let mut next = at;
    for v in 0..4 {
        next = put_cut(known, steps, inputs, full, p, v, next, to);
    }
    next
}

// Of n places.
pub fn put_cuts(
    known: &[u64],
    steps: &[u64],
    inputs: usize,
    full: &[usize],
    n: usize,
    at: usize,
    to: &mut [u8],
) -> usize
    requires { n ≤ 64 }
    ensures { Puts (joined (cuts_text (map header_of known.now) steps.now inputs full.now) n)
        at to.old to.new result }
{
    let mut next = at;
    for p in 0..n {
        next = put_cuts_at(known, steps, inputs, full, p, next, to);
    }
    next
}
