// What a step announces, and why it is refused: from the words that the places before it announce.
ghost use Rattle.std.specs.Prelude.{◌≡◌, true, cond, map, ◌<◌, ◌≤◌, ltb, length};
ghost use Rattle.model.specs.Header.{limit};
ghost use Rattle.model.specs.Word.{header_of};
ghost use Rattle.model.specs.Passes.{Says};
ghost use Rattle.model_recipes.specs.Recipe.{head_at, announced_step};
ghost use Rattle.model_recipes.specs.Check.{lowers, step_refusal};
ghost use Rattle.recipes_kinds.specs.Known.{Known};

use gates::stored_of;
use model::{Header, Refusal};
use model_recipes::Step;
use shape::announce::announced_of;
use shape_words::word::header_of;

// The header that the place p announces; past the places known no variables.
pub fn head_at(known: &[u64], p: usize) -> Header
    ensures { result ≡ head_at (map header_of known.now) p }
{
    if p < known.len() {
        header_of(known[p])
    } else {
        Header::none()
    }
}

// The header that a step announces in an edition.
pub fn announce(edition: u64, word: u64, known: &[u64]) -> Header
    requires { Known (map header_of known.now) }
    ensures { result ≡ announced_step edition word (map header_of known.now) }
{
    let s = crate::step::step_of(word);
    announced_of(
        crate::step::family_of(edition, s),
        head_at(known, s.a),
        head_at(known, s.b),
    )
}

// Whether a step is one of the three shifts.
pub fn is_shift(s: Step) -> bool
    ensures { result ≡ lowers s }
{
    (Step::DERIVATIVE <= s.kind) & (s.kind <= Step::SHIFT_DOWN)
}

// Test 3: a shift's variable is one of its operand's.
fn has_variable(s: Step, a: Header) -> bool
    ensures { result ≡ cond (lowers s) (ltb s.variable a.vars) true }
{
    if is_shift(s) {
        s.variable < a.vars
    } else {
        true
    }
}

// Test 4: a shift's n is below the limit.
fn below_limit(s: Step, a: Header) -> bool
    requires { s.variable < 4 }
    ensures { result ≡ cond (lowers s) (ltb s.n (limit a s.variable)) true }
{
    let v = s.variable;
    let l = a.limits;
    if is_shift(s) {
        (s.n as usize) < l[v]
    } else {
        true
    }
}

// Why a step is refused in an edition: 7, 3, 4, 5. Its place is the number of places before it.
pub fn gate(edition: u64, word: u64, known: &[u64]) -> Result<(), Refusal>
    requires fact_1 { Known (map header_of known.now) }
    requires fact_2 { length known.now ≤ 64 }
    ensures { Says (λ r. r ≡ step_refusal edition word (map header_of known.now)) result }
{
    let at = known.len();
    let place = at as u8;
    if !crate::step::is_formed(word, at) {
        return Err(Refusal::at(7, place));
    }
    let s = crate::step::step_of(word);
    let a = head_at(known, s.a);
    if !has_variable(s, a) {
        return Err(Refusal::at(3, place));
    }
    if !below_limit(s, a) {
        return Err(Refusal::at(4, place));
    }
    if Header::COUNT < stored_of(announce(edition, word, known)) {
        return Err(Refusal::at(5, place));
    }
    Ok(())
}
