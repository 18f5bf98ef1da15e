// Why a step is refused, by the number of its refusal.
ghost use Rattle.std.specs.Prelude.{map, ◌≡◌};
ghost use Rattle.model.specs.Word.{header_of};
ghost use Rattle.model_recipes.specs.Check.{named_before, zero_unless};
ghost use Rattle.model_faults.specs.StepWord.{late_text, unused_text, operand_text, fields_cause, formed_cause};
ghost use Rattle.model_faults.specs.StepCount.{has_text, variable_cause, limit_cause, count_cause};
ghost use Rattle.model_faults.specs.StepStop.{stop_cause};
ghost use Rattle.model_faults.specs.Fault.{step_cause};
ghost use Rattle.recipes_kinds.specs.Known.{Known};
ghost use Rattle.report_lines.specs.Puts.{Puts};

use gates::stored_of;
use recipes_kinds::gate::{announce, head_at};
use recipes_kinds::step::{is_named, step_of, uses_of};
use report_lines::put::{put, tell};
use report_say::{say, say_two};

// An operand of the step at the place p names the place x, which is no earlier one.
fn put_late(x: usize, p: usize, at: usize, to: &mut [u8]) -> usize
    ensures { Puts (late_text x p) at to.old to.new result }
{
    if p == 0 {
        return say(b" is place ", x, b"; there is no earlier place.\n", at, to);
    }
    if x == p {
        return say(b" is place ", x, b" itself; name an earlier one.\n", at, to);
    }
    say(b" is place ", x, b"; name an earlier one.\n", at, to)
}

// A field that the kind k does not use says x.
fn put_unused(x: usize, k: usize, at: usize, to: &mut [u8]) -> usize
    ensures { Puts (unused_text x k) at to.old to.new result }
{
    say_two(b" is ", x, b"; kind ", k, b" uses none: write 0.\n", at, to)
}

// What an operand that is wrong says.
fn put_operand(used: bool, x: usize, p: usize, k: usize, at: usize, to: &mut [u8]) -> usize
    ensures { Puts (operand_text used x p k) at to.old to.new result }
{
    if used {
        put_late(x, p, at, to)
    } else {
        put_unused(x, k, at, to)
    }
}

// 7: the fields behind the operands.
fn put_fields_cause(word: u64, at: usize, to: &mut [u8]) -> usize
    ensures { Puts (fields_cause word) at to.old to.new result }
{
    let s = step_of(word);
    let k = s.kind;
    let u = uses_of(k);
    if !(u.variable | (s.variable == 0)) {
        let next = put(b"the variable", at, to);
        return put_unused(s.variable, k, next, to);
    }
    let n = s.n as usize;
    if !(u.n | (n == 0)) {
        let next = put(b"n", at, to);
        return put_unused(n, k, next, to);
    }
    let spare = (word & 16383) as usize;
    if spare != 0 {
        return say(b"its last 14 bits are ", spare, b"; write zeros.\n", at, to);
    }
    at
}

// 7: the step word at the place p.
pub fn put_formed_cause(word: u64, p: usize, at: usize, to: &mut [u8]) -> usize
    ensures { Puts (formed_cause word p) at to.old to.new result }
{
    let s = step_of(word);
    let k = s.kind;
    let u = uses_of(k);
    if !u.kind {
        return say(b"there is no kind ", k, b"; take 0 to 11.\n", at, to);
    }
    if !is_named(p, u.a, s.a) {
        let next = put(b"operand a", at, to);
        return put_operand(u.a, s.a, p, k, next, to);
    }
    if !is_named(p, u.b, s.b) {
        let next = put(b"operand b", at, to);
        return put_operand(u.b, s.b, p, k, next, to);
    }
    put_fields_cause(word, at, to)
}

// An operand has m variables.
fn put_has(m: usize, at: usize, to: &mut [u8]) -> usize
    ensures { Puts (has_text m) at to.old to.new result }
{
    if m == 0 {
        return put(b" has none.\n", at, to);
    }
    say(b" has ", m, b", counted from 0.\n", at, to)
}

// 3: the step's variable is none of its operand's.
fn put_variable_cause(word: u64, known: &[u64], at: usize, to: &mut [u8]) -> usize
    ensures { Puts (variable_cause word (map header_of known.now)) at to.old to.new result }
{
    let s = step_of(word);
    let h = head_at(known, s.a);
    let a = tell(b"it names variable ", s.variable, at, to);
    let b = tell(b"; place ", s.a, a, to);
    put_has(h.vars, b, to)
}

// 4: its n is not below the limit.
fn put_limit_cause(word: u64, known: &[u64], at: usize, to: &mut [u8]) -> usize
    ensures { Puts (limit_cause word (map header_of known.now)) at to.old to.new result }
{
    let s = step_of(word);
    let h = head_at(known, s.a);
    let v = s.variable;
    let limits = h.limits;
    let next = tell(b"n is ", s.n as usize, at, to);
    say_two(
        b", not below ",
        limits[v],
        b", the limit of variable ",
        v,
        b".\n",
        next,
        to,
    )
}

// 5: it announces too many coefficients.
fn put_count_cause(word: u64, known: &[u64], at: usize, to: &mut [u8]) -> usize
    requires { Known (map header_of known.now) }
    ensures { Puts (count_cause word (map header_of known.now)) at to.old to.new result }
{
    let count = stored_of(announce(0, word, known));
    say(
        b"it takes ",
        count,
        b" coefficients; 4096 are the most.\n",
        at,
        to,
    )
}

// 12: the first coefficient of its operand has no exponential.
fn put_stop_cause(word: u64, at: usize, to: &mut [u8]) -> usize
    ensures { Puts (stop_cause word) at to.old to.new result }
{
    let s = step_of(word);
    say(
        b"the first coefficient of place ",
        s.a,
        b" is not from -8 to 8;\nwhere that is meant, divide that place by n, take exp, then the power n of it.\n",
        at,
        to,
    )
}

// The step at the place p is refused by `number`; known what the places before it announce.
pub fn put_step_cause(
    number: u8,
    word: u64,
    p: usize,
    known: &[u64],
    at: usize,
    to: &mut [u8],
) -> usize
    requires { Known (map header_of known.now) }
    ensures { Puts (step_cause number word p (map header_of known.now)) at to.old to.new result }
{
    if number == 7 {
        return put_formed_cause(word, p, at, to);
    }
    if number == 3 {
        return put_variable_cause(word, known, at, to);
    }
    if number == 4 {
        return put_limit_cause(word, known, at, to);
    }
    if number == 12 {
        return put_stop_cause(word, at, to);
    }
    put_count_cause(word, known, at, to)
}
