// Where a step's limit is below that of an operand, and not by a shift.
ghost use Rattle.std.specs.Prelude.{◌≡◌, cond, map, ◌<◌};
ghost use Rattle.model.specs.Word.{header_of};
ghost use Rattle.model_texts.specs.Trace.{uses_in, has, limit_at, cut_from, shifts_in, is_cut, cut_operand};

use model_recipes::Uses;
use recipes_kinds::gate::{head_at, is_shift};
use recipes_kinds::step::{step_of, uses_of};

// x where the test passed, else y.
pub fn pick(test: bool, x: usize, y: usize) -> usize
    ensures { result ≡ cond test x y }
{
    if test { x } else { y }
}

// Which fields a step word's kind uses.
pub fn uses_in(word: u64) -> Uses
    ensures { result ≡ uses_in word }
{
    uses_of(step_of(word).kind)
}

// Whether a place has the variable v.
pub fn has(known: &[u64], v: usize, p: usize) -> bool
    ensures { result ≡ has (map header_of known.now) v p }
{
    v < head_at(known, p).vars
}

pub fn limit_at(known: &[u64], v: usize, p: usize) -> usize
    requires { v < 4 }
    ensures { result ≡ limit_at (map header_of known.now) v p }
{
    head_at(known, p).limits[v]
}

// Whether an operand x counts, and the place p ends before it.
fn is_cut_from(known: &[u64], v: usize, p: usize, used: bool, x: usize) -> bool
    requires { v < 4 }
    ensures { result ≡ cut_from (map header_of known.now) v p used x }
{
    used & has(known, v, x) & (limit_at(known, v, p) < limit_at(known, v, x))
}

// Whether a step is a shift in the variable v: its limit is its operand's, less n.
#[tactic(auto, unfolding(model_texts::specs::Trace::shifts_in))]
pub fn is_shift_in(word: u64, v: usize) -> bool
    ensures { result ≡ shifts_in v word }
{
    let s = step_of(word);
    is_shift(s) & (s.variable == v)
}

// Whether the limit of the place p, whose step word is given, is below that of an operand, and not by a shift.
#[tactic(auto, unfolding(model_texts::specs::Trace::is_cut))]
pub fn is_cut(known: &[u64], v: usize, word: u64, p: usize) -> bool
    requires { v < 4 }
    ensures { result ≡ is_cut (map header_of known.now) v word p }
{
    let s = step_of(word);
    let u = uses_in(word);
    let stays = has(known, v, p) & !is_shift_in(word, v);
    stays & (is_cut_from(known, v, p, u.a, s.a) | is_cut_from(known, v, p, u.b, s.b))
}

// The operand that it is cut from.
#[tactic(auto, unfolding(model_texts::specs::Trace::cut_operand))]
pub fn cut_operand(known: &[u64], v: usize, word: u64, p: usize) -> usize
    requires { v < 4 }
    ensures { result ≡ cut_operand (map header_of known.now) v word p }
{
    let s = step_of(word);
    pick(is_cut_from(known, v, p, uses_in(word).a, s.a), s.a, s.b)
}
