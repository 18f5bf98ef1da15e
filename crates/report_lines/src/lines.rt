// A line for each place.
ghost use Rattle.std.specs.Prelude.{map, ◌<◌};
ghost use Rattle.model.specs.Word.{header_of};
ghost use Rattle.model_texts.specs.Report.{joined, pair_text, shape_text, kind_text, fields_text, step_text, what_text, place_text};
ghost use Rattle.report_lines.specs.Puts.{Puts};

use crate::put::{put, put_if, tell, tell_if};
use model::Header;
use model_recipes::Step;
use recipes_kinds::gate::head_at;
use recipes_kinds::step::step_of;
use report_trace::cut::uses_in;
use report_trace::decide::step_word;

// The limit and the stored length of the variable v, if there is one.
fn put_pair(h: Header, v: usize, at: usize, to: &mut [u8]) -> usize
    requires { v < 4 }
    ensures { Puts (pair_text h v) at to.old to.new result }
{
    if v < h.vars {
        let next = tell(b" ", h.limits[v], at, to);
        return tell(b"/", h.lengths[v], next, to);
    }
    at
}

fn put_pairs(h: Header, at: usize, to: &mut [u8]) -> usize
    ensures { Puts (joined (pair_text h) 4) at to.old to.new result }
{
    let mut next = at;
    for v in 0..4 {
        next = put_pair(h, v, next, to);
    }
    next
}

// The number of variables, and of each the limit and the stored length.
#[tactic(auto, using(crate::specs::Puts::puts_then), unfolding(model_texts::specs::Report::shape_text, lists::specs::Bytes::bytes))]
fn put_shape(h: Header, at: usize, to: &mut [u8]) -> usize
    ensures { Puts (shape_text h) at to.old to.new result }
{
    let a = tell(b"; vars ", h.vars, at, to);
    let b = put_if(0 < h.vars, b":", a, to);
    let c = put_pairs(h, b, to);
    put(b"\n", c, to)
}

// The name of a kind.
pub fn put_kind(kind: usize, at: usize, to: &mut [u8]) -> usize
    ensures { Puts (kind_text kind) at to.old to.new result }
{
    match kind {
        Step::CONSTANT => put(b"constant", at, to),
        Step::NEGATE => put(b"negate", at, to),
        Step::ADD => put(b"add", at, to),
        Step::SUBTRACT => put(b"subtract", at, to),
        Step::MULTIPLY => put(b"multiply", at, to),
        Step::DIVIDE => put(b"divide", at, to),
        Step::POWER => put(b"power", at, to),
        Step::DERIVATIVE => put(b"derivative", at, to),
        Step::EXPANSION => put(b"taylor_expansion_of_coeff", at, to),
        Step::SHIFT_DOWN => put(b"shift_down", at, to),
        Step::SUBSTITUTION => put(b"subst_var", at, to),
        Step::EXP => put(b"exp", at, to),
        _ => at,
    }
}

// The fields that a step's kind uses.
fn put_fields(word: u64, at: usize, to: &mut [u8]) -> usize
    ensures { Puts (fields_text word) at to.old to.new result }
{
    let s = step_of(word);
    let u = uses_in(word);
    let a = tell_if(u.a, b" ", s.a, at, to);
    let b = tell_if(u.b, b" ", s.b, a, to);
    let c = tell_if(u.variable, b" v", s.variable, b, to);
    tell_if(u.n, b" n", s.n as usize, c, to)
}

fn put_step(word: u64, at: usize, to: &mut [u8]) -> usize
    ensures { Puts (step_text word) at to.old to.new result }
{
    let next = put_kind(step_of(word).kind, at, to);
    put_fields(word, next, to)
}

// What a place is.
fn put_what(steps: &[u64], inputs: usize, p: usize, at: usize, to: &mut [u8]) -> usize
    ensures { Puts (what_text steps.now inputs p) at to.old to.new result }
{
    if p < inputs {
        return put(b"input", at, to);
    }
    put_step(step_word(steps, inputs, p), at, to)
}

fn put_place(
    known: &[u64],
    steps: &[u64],
    inputs: usize,
    p: usize,
    at: usize,
    to: &mut [u8],
) -> usize
    ensures { Puts (place_text (map header_of known.now) steps.now inputs p) at to.old to.new result }
{
    let a = tell(b"place ", p, at, to);
    let b = put(b": ", a, to);
    let c = put_what(steps, inputs, p, b, to);
    put_shape(head_at(known, p), c, to)
}

// A line for each of n places.
pub fn put_places(
    known: &[u64],
    steps: &[u64],
    inputs: usize,
    n: usize,
    at: usize,
    to: &mut [u8],
) -> usize
    ensures { Puts (joined (place_text (map header_of known.now) steps.now inputs) n) at to.old to.new result }
{
    let mut next = at;
    for p in 0..n {
        next = put_place(known, steps, inputs, p, next, to);
    }
    next
}
