// What decides each limit of the answer, and whether the answer is whole.
ghost use Rattle.std.specs.Prelude.{map, ◌<◌};
ghost use Rattle.model.specs.Word.{header_of};
ghost use Rattle.model_texts.specs.Report.{joined, further_text, end_front, end_line, end_text, verdict_text};
ghost use Rattle.report_lines.specs.Puts.{Puts};

use crate::put::{put, tell};
use crate::why::{put_break, put_decider, put_limit, source_of};
use report_trace::cut::{has, limit_at};
use report_trace::far::furthest;
use report_trace::whole::first_out;

// Which place went further, if one did.
fn put_further(
    known: &[u64],
    steps: &[u64],
    inputs: usize,
    p: usize,
    v: usize,
    at: usize,
    to: &mut [u8],
) -> usize
    requires { (v < 4) × (p < 64) }
    ensures { Puts (further_text (map header_of known.now) steps.now inputs p v) at to.old to.new result }
{
    let far = furthest(known, v, steps, inputs, p);
    let limit = limit_at(known, v, far);
    if source_of(known, steps, inputs, p, v) < limit {
        let next = tell(b";\n  place ", far, at, to);
        return tell(b" went to ", limit, next, to);
    }
    at
}

// The variable and where it ends.
fn put_end_front(
    known: &[u64],
    steps: &[u64],
    inputs: usize,
    p: usize,
    v: usize,
    at: usize,
    to: &mut [u8],
) -> usize
    requires { v < 4 }
    ensures { Puts (end_front (map header_of known.now) steps.now inputs p v) at to.old to.new result }
{
    let a = tell(b"variable ", v, at, to);
    let b = put(b" of the answer ends at ", a, to);
    put_limit(known, steps, inputs, p, v, b, to)
}

fn put_end_line(
    known: &[u64],
    steps: &[u64],
    inputs: usize,
    p: usize,
    v: usize,
    at: usize,
    to: &mut [u8],
) -> usize
    requires { (v < 4) × (p < 64) }
    ensures { Puts (end_line (map header_of known.now) steps.now inputs p v) at to.old to.new result }
{
    let lowered = limit_at(known, v, p) < source_of(known, steps, inputs, p, v);
    let a = put_end_front(known, steps, inputs, p, v, at, to);
    let b = put_break(lowered, a, to);
    let c = put_decider(known, steps, inputs, p, v, b, to);
    let d = put(b" does", c, to);
    let e = put_further(known, steps, inputs, p, v, d, to);
    put(b"\n", e, to)
}

fn put_end(
    known: &[u64],
    steps: &[u64],
    inputs: usize,
    p: usize,
    v: usize,
    at: usize,
    to: &mut [u8],
) -> usize
    requires { (v < 4) × (p < 64) }
    ensures { Puts (end_text (map header_of known.now) steps.now inputs p v) at to.old to.new result }
{
    if has(known, v, p) {
        return put_end_line(known, steps, inputs, p, v, at, to);
    }
    at
}

// What decides each limit of the answer, at the place p.
pub fn put_ends(
    known: &[u64],
    steps: &[u64],
    inputs: usize,
    p: usize,
    at: usize,
    to: &mut [u8],
) -> usize
    requires { p < 64 }
    ensures { Puts (joined (end_text (map header_of known.now) steps.now inputs p) 4) at to.old to.new result }
{
    let mut next = at;
    for v in 0..4 {
        next = put_end(known, steps, inputs, p, v, next, to);
    }
    next
}

// Whether the answer, at the place p, is whole, and else the first place that leaves terms out.
pub fn put_verdict(
    known: &[u64],
    steps: &[u64],
    inputs: usize,
    full: &[usize],
    p: usize,
    at: usize,
    to: &mut [u8],
) -> usize
    requires { p < 64 }
    ensures { Puts (verdict_text (map header_of known.now) steps.now inputs full.now p) at
        to.old to.new result }
{
    let first = first_out(known, steps, inputs, full, p);
    if 64 <= first {
        return put(
            b"*** WHOLE: with each input as it is stored, no limit left anything out. ***\n",
            at,
            to,
        );
    }
    let next = tell(
        b"*** CUT: what lies past the limits of place ",
        first,
        at,
        to,
    );
    put(b" is left out. ***\n", next, to)
}
