// What decides a limit.
ghost use Rattle.std.specs.Prelude.{◌≡◌, map, ◌<◌};
ghost use Rattle.model.specs.Word.{header_of};
ghost use Rattle.model_texts.specs.Report.{variable_text, place_kind_text, lowered_text, break_text, source, limit_text, decider_text, limit_has};
ghost use Rattle.report_lines.specs.Puts.{Puts};

use crate::put::{put, put_either, put_if, put_number, tell};
use recipes_kinds::step::step_of;
use report_trace::cut::limit_at;
use report_trace::decide::{decider, lowerer, step_word};

// The variable v of the place p.
pub fn put_variable(p: usize, v: usize, at: usize, to: &mut [u8]) -> usize
    ensures { Puts (variable_text p v) at to.old to.new result }
{
    let next = tell(b"place ", p, at, to);
    tell(b" variable ", v, next, to)
}

// A place, and whether it is an input or a step.
pub fn put_place_kind(inputs: usize, p: usize, at: usize, to: &mut [u8]) -> usize
    ensures { Puts (place_kind_text inputs p) at to.old to.new result }
{
    let next = tell(b"place ", p, at, to);
    put_either(p < inputs, b" (input)", b" (step)", next, to)
}

// A new line where one would be too long.
pub fn put_break(broken: bool, at: usize, to: &mut [u8]) -> usize
    ensures { Puts (break_text broken) at to.old to.new result }
{
    put_either(broken, b",\n  ", b", ", at, to)
}

// A limit that shifts have lowered, the nearest of them the given step, which lowers it by n.
fn put_lowered(limit: usize, from: usize, step: usize, n: usize, at: usize, to: &mut [u8]) -> usize
    ensures { Puts (lowered_text limit from step n) at to.old to.new result }
{
    if limit < from {
        let a = tell(b" (", from, at, to);
        let b = tell(b", less ", from - limit, a, to);
        let c = tell(b" by place ", step, b, to);
        let d = put_if(n < from - limit, b" and before", c, to);
        return put(b")", d, to);
    }
    at
}

// The limit that the place p has its own from.
pub fn source_of(known: &[u64], steps: &[u64], inputs: usize, p: usize, v: usize) -> usize
    requires { v < 4 }
    ensures { result ≡ source (map header_of known.now) steps.now inputs p v }
{
    limit_at(known, v, decider(known, v, steps, inputs, p))
}

// The limit of the place p, and what shifts took off it.
pub fn put_limit(
    known: &[u64],
    steps: &[u64],
    inputs: usize,
    p: usize,
    v: usize,
    at: usize,
    to: &mut [u8],
) -> usize
    requires { v < 4 }
    ensures { Puts (limit_text (map header_of known.now) steps.now inputs p v) at to.old to.new result }
{
    let limit = limit_at(known, v, p);
    let from = source_of(known, steps, inputs, p, v);
    let step = lowerer(known, v, steps, inputs, p);
    let n = step_of(step_word(steps, inputs, step)).n;
    let next = put_number(limit, at, to);
    put_lowered(limit, from, step, n as usize, next, to)
}

// The place that decides it.
pub fn put_decider(
    known: &[u64],
    steps: &[u64],
    inputs: usize,
    p: usize,
    v: usize,
    at: usize,
    to: &mut [u8],
) -> usize
    requires { v < 4 }
    ensures { Puts (decider_text (map header_of known.now) steps.now inputs p v) at to.old to.new result }
{
    let by = decider(known, v, steps, inputs, p);
    let next = put(b"as ", at, to);
    put_place_kind(inputs, by, next, to)
}

// The limit and the place that has it.
pub fn put_limit_has(
    known: &[u64],
    steps: &[u64],
    inputs: usize,
    p: usize,
    v: usize,
    at: usize,
    to: &mut [u8],
) -> usize
    requires { v < 4 }
    ensures { Puts (limit_has (map header_of known.now) steps.now inputs p v) at to.old to.new result }
{
    let a = put_limit(known, steps, inputs, p, v, at, to);
    let b = put(b", ", a, to);
    let c = put_decider(known, steps, inputs, p, v, b, to);
    put(b" has\n", c, to)
}
