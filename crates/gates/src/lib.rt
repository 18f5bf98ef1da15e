// Gates: whether a call is refused, by which number, from header words, lengths of buffers, variables and limits alone;
// and how an entry opens: the gate, and the headers and counts that it works out on its way.
#![tactic(auto)]

ghost use Rattle.std.specs.Prelude.{◌≡◌, ◌*◌, ◌||◌, leb, ltb};
ghost use Rattle.model.specs.Header.{limit, stored};
ghost use Rattle.model.specs.Word.{header_of};
ghost use Rattle.model.specs.Gates.{ask_word, full, read_gate, no_missing, index_gate, sole_gate, good_total, tail_gate, one_gate, work_gate, in_gate};
ghost use Rattle.model.specs.Faults.{good_limit, limits_fault};
ghost use Rattle.model.specs.Gates.{ask_limits, with_gate, var_with_gate, var_gate, var_header};
ghost use Rattle.model.specs.Header.{zero_with, var_with};
ghost use Rattle.model.specs.Refusals.{ask, no_refusal, fits, roomy};
ghost use Rattle.model.specs.declared.Family.TheVariants.{Product};
ghost use Rattle.shape_words.specs.Rules.{Ruled};
ghost use Rattle.model.specs.Passes.{Passes, Nothing, Is};
ghost use Rattle.gates.specs.Open.{telling, AreHeaders, OpensOne, Opens};

use model::{Family, Fault, Header, Refusal};
use shape::announce::{announced_of, product_header};
use shape_words::places::{count_of, is_inside};
use shape_words::word::{bad_word, header_of, is_good};

// The stored count of a header.
pub fn stored_of(h: Header) -> usize
    requires { Ruled h }
    ensures { result ≡ stored h }
{
    let n = h.lengths;
    count_of(n)
}

// Test 2: as many coefficients are given as are stored.
fn is_full(h: Header, given: usize) -> bool
    requires { Ruled h }
    ensures { result ≡ leb (stored h) given }
{
    stored_of(h) <= given
}

// Test 5: the announced count is 4,096 at most, and so many places are lent.
fn is_fitting(h: Header, lent: usize) -> bool
    requires { Ruled h }
    ensures { result ≡ fits h lent }
{
    let n = stored_of(h);
    (n <= Header::COUNT) & (n <= lent)
}

// Test 5, where it is the last.
fn fits_gate(h: Header, lent: usize) -> Result<(), Refusal>
    requires { Ruled h }
    ensures { Passes (ask (fits h lent) 5 no_refusal) Nothing result }
{
    if !is_fitting(h, lent) {
        return Err(Refusal::by(5));
    }
    Ok(())
}

// Test 6: scratch for eight times the announced count.
fn is_roomy(h: Header, lent: usize) -> bool
    requires { Ruled h }
    ensures { result ≡ roomy h lent }
{
    8 * stored_of(h) <= lent
}

// Tests 5 and 6.
fn room_gate(told: Header, lent: usize, scratch: usize) -> Result<(), Refusal>
    requires { Ruled told }
    ensures { Passes (ask (fits told lent) 5 (ask (roomy told scratch) 6 no_refusal)) Nothing result }
{
    fits_gate(told, lent)?;
    if !is_roomy(told, scratch) {
        return Err(Refusal::by(6));
    }
    Ok(())
}

// Tests 3, 4 and 5: a variable v of the operand, a number d below its limit.
fn below_gate(a: Header, v: usize, d: usize, told: Header, lent: usize) -> Result<(), Refusal>
    requires operand { Ruled a }
    requires announced { Ruled told }
    ensures { Passes (ask (ltb v a.vars) 3 (ask (ltb d (limit a v)) 4 (ask (fits told lent) 5 no_refusal))) Nothing result }
{
    if a.vars <= v {
        return Err(Refusal::by(3));
    }
    let l = a.limits;
    if l[v] <= d {
        return Err(Refusal::by(4));
    }
    fits_gate(told, lent)
}

// The header of a word: refusal 1. Each caller takes it in, and takes in those that hand its header on: else the header
// goes through memory, and what of it nobody asks for is made all the same.
#[inline(always)]
fn word_gate(word: u64) -> Result<Header, Refusal>
    ensures { Passes (ask_word word no_refusal) (Is (header_of word)) result }
{
    if !is_good(word) {
        return Err(bad_word(word, Refusal::NOWHERE));
    }
    Ok(header_of(word))
}

// The header of a word, under which `given` coefficients are lent: refusals 1, 2.
#[inline(always)]
#[tactic(auto, unfolding(model::specs::Gates::read_gate))]
pub fn read_gate(word: u64, given: usize) -> Result<Header, Refusal>
    ensures { Passes (read_gate word given) (Is (header_of word)) result }
{
    let h = word_gate(word)?;
    if !is_full(h, given) {
        return Err(Refusal::by(2));
    }
    Ok(h)
}

// Whether the index of every missing variable is 0.
fn no_missing(h: Header, i: [usize; 4]) -> bool
    ensures { result ≡ no_missing h i }
{
    let v = h.vars;
    ((0 < v) | (i[0] == 0))
        & ((1 < v) | (i[1] == 0))
        & ((2 < v) | (i[2] == 0))
        & ((3 < v) | (i[3] == 0))
}

// A coefficient at an index: refusals 1, 2, 3, 4.
#[tactic(auto, unfolding(model::specs::Gates::index_gate, model::specs::Gates::read_gate))]
pub fn index_gate(word: u64, given: usize, i: [usize; 4]) -> Result<Header, Refusal>
    ensures { Passes (index_gate word given i) (Is (header_of word)) result }
{
    let h = read_gate(word, given)?;
    if !no_missing(h, i) {
        return Err(Refusal::by(3));
    }
    let l = h.limits;
    if !is_inside(l, i) {
        return Err(Refusal::by(4));
    }
    Ok(h)
}

// A number read off a polynomial of one variable: refusals 1, 2, 3.
#[inline(always)]
#[tactic(auto, unfolding(model::specs::Gates::sole_gate, model::specs::Gates::read_gate))]
pub fn sole_gate(word: u64, given: usize) -> Result<Header, Refusal>
    ensures { Passes (sole_gate word given) (Is (header_of word)) result }
{
    let h = read_gate(word, given)?;
    if h.vars != 1 {
        return Err(Refusal::by(3));
    }
    Ok(h)
}

// Whether a total is finite and above zero.
fn is_total(total: f64) -> bool
    ensures { result ≡ good_total total }
{
    let infinity = f64::from_bits(0x7ff0000000000000);
    (0.0 < total) & (total < infinity)
}

// The tail of one variable from k on, as a part of a total: refusals 1, 2, 3, 4.
#[tactic(auto, unfolding(model::specs::Gates::tail_gate, model::specs::Gates::sole_gate))]
pub fn tail_gate(word: u64, given: usize, k: usize, total: f64) -> Result<Header, Refusal>
    ensures { Passes (tail_gate word given k total) (Is (header_of word)) result }
{
    let h = sole_gate(word, given)?;
    let l = h.limits;
    if l[0] <= k {
        return Err(Refusal::by(4));
    }
    if !is_total(total) {
        return Err(Refusal::by(4));
    }
    Ok(h)
}

// An entry that is not refused, as it opens: the operands' headers, the announced header and the stored counts. Where
// there is one operand, b has no variables.
#[derive(Clone, Copy)]
pub struct Opened {
    pub a: Header,
    pub b: Header,
    pub told: Header,
    pub na: usize,
    pub nb: usize,
    pub n: usize,
}

impl Opened {
    fn telling(a: Header, b: Header, told: Header) -> Opened
        requires left { Ruled a }
        requires right { Ruled b }
        requires announced { Ruled told }
        ensures { result ≡ telling a b told }
    {
        Opened {
            a,
            b,
            told,
            na: stored_of(a),
            nb: stored_of(b),
            n: stored_of(told),
        }
    }
}

// One operand and no scratch: refusals 1, 2, 5.
#[tactic(auto, unfolding(model::specs::Gates::one_gate, model::specs::Gates::read_gate))]
pub fn open_one(f: Family, word: u64, given: usize, lent: usize) -> Result<Opened, Refusal>
    ensures { OpensOne (one_gate f word given lent) f word result }
{
    let a = read_gate(word, given)?;
    let none = Header::none();
    let told = announced_of(f, a, none);
    fits_gate(told, lent)?;
    Ok(Opened::telling(a, none, told))
}

// One operand and scratch: refusals 1, 2, 5, 6.
#[tactic(auto, unfolding(model::specs::Gates::work_gate, model::specs::Gates::read_gate))]
pub fn open_work(
    f: Family,
    word: u64,
    given: usize,
    lent: usize,
    scratch: usize,
) -> Result<Opened, Refusal>
    ensures { OpensOne (work_gate f word given lent scratch) f word result }
{
    let a = read_gate(word, given)?;
    let none = Header::none();
    let told = announced_of(f, a, none);
    room_gate(told, lent, scratch)?;
    Ok(Opened::telling(a, none, told))
}

// One operand, a variable v and a number d below its limit: refusals 1, 2, 3, 4, 5.
#[tactic(auto, unfolding(model::specs::Gates::in_gate, model::specs::Gates::read_gate))]
pub fn open_in(
    f: Family,
    v: usize,
    d: usize,
    word: u64,
    given: usize,
    lent: usize,
) -> Result<Opened, Refusal>
    ensures { OpensOne (in_gate f v d word given lent) f word result }
{
    let a = read_gate(word, given)?;
    let none = Header::none();
    let told = announced_of(f, a, none);
    below_gate(a, v, d, told, lent)?;
    Ok(Opened::telling(a, none, told))
}

// Tests 1 and 2 of two operands, and their headers.
#[inline(always)]
fn read_both(ah: u64, am: usize, bh: u64, bm: usize) -> Result<(Header, Header), Refusal>
    ensures { Passes (ask_word ah (ask_word bh (ask (full ah am) 2 (ask (full bh bm) 2 no_refusal))))
        (AreHeaders ah bh) result }
{
    let a = word_gate(ah)?;
    let b = word_gate(bh)?;
    if !(is_full(a, am) & is_full(b, bm)) {
        return Err(Refusal::by(2));
    }
    Ok((a, b))
}

// Two operands, ah and bh their words, am and bm the coefficients given: refusals 1, 2, 5, 6.
#[tactic(auto, unfolding(model::specs::Gates::pair_gate))]
pub fn open_pair(
    f: Family,
    ah: u64,
    am: usize,
    bh: u64,
    bm: usize,
    lent: usize,
    scratch: usize,
) -> Result<Opened, Refusal>
    ensures { Opens f ah am bh bm lent scratch result }
{
    let (a, b) = read_both(ah, am, bh, bm)?;
    let told = announced_of(f, a, b);
    room_gate(told, lent, scratch)?;
    Ok(Opened::telling(a, b, told))
}

// The same for a product, whose header is made directly. It has one caller: the compiler takes it in there, and what is
// told stays in registers.
#[tactic(auto, unfolding(model::specs::Gates::pair_gate))]
pub fn open_product(
    ah: u64,
    am: usize,
    bh: u64,
    bm: usize,
    lent: usize,
    scratch: usize,
) -> Result<Opened, Refusal>
    ensures { Opens Product ah am bh bm lent scratch result }
{
    let (a, b) = read_both(ah, am, bh, bm)?;
    let told = product_header(a, b);
    room_gate(told, lent, scratch)?;
    Ok(Opened::telling(a, b, told))
}

// A limit is 1 to 64.
fn good_limit(l: usize) -> bool
    ensures { result ≡ good_limit l }
{
    (1 <= l) & (l <= Header::LIMIT)
}

// Whether limit k, where it is one of the first `vars`, is a limit.
fn is_given(vars: usize, k: usize, l: usize) -> bool
    ensures { result ≡ (leb vars k || good_limit l) }
{
    (vars <= k) | good_limit(l)
}

// The first thing that is wrong with the first `vars` of the limits: too many, else a limit. The tests are chained from
// the last to the first.
fn limits_fault(vars: usize, l: [usize; 4]) -> Fault
    ensures { result ≡ limits_fault vars l }
{
    let l3 = Fault::unless(is_given(vars, 3, l[3]), Fault::of(3, 6), Fault::none());
    let l2 = Fault::unless(is_given(vars, 2, l[2]), Fault::of(2, 6), l3);
    let l1 = Fault::unless(is_given(vars, 1, l[1]), Fault::of(1, 6), l2);
    let l0 = Fault::unless(is_given(vars, 0, l[0]), Fault::of(0, 6), l1);
    Fault::unless(vars <= Header::VARS, Fault::of(4, 6), l0)
}

// The limits that a constructor is given: refusal 1.
fn limits_gate(vars: usize, limits: [usize; 4]) -> Result<(), Refusal>
    ensures { Passes (ask_limits vars limits no_refusal) Nothing result }
{
    let f = limits_fault(vars, limits);
    if f.cause != 0 {
        return Err(Refusal::of_fault(f, Refusal::NOWHERE));
    }
    Ok(())
}

// The header of a constant that carries limits: refusals 1, 5.
#[tactic(auto, unfolding(model::specs::Gates::with_gate))]
pub fn with_gate(vars: usize, limits: [usize; 4], lent: usize) -> Result<Header, Refusal>
    ensures { Passes (with_gate vars limits lent) (Is (zero_with vars limits)) result }
{
    limits_gate(vars, limits)?;
    let h = Header::zero_with(vars, limits);
    fits_gate(h, lent)?;
    Ok(h)
}

// The header of the variable v under limits that are given: refusals 1, 3, 5.
#[tactic(auto, unfolding(model::specs::Gates::var_with_gate))]
pub fn var_with_gate(
    v: usize,
    vars: usize,
    limits: [usize; 4],
    lent: usize,
) -> Result<Header, Refusal>
    ensures { Passes (var_with_gate v vars limits lent) (Is (var_with v vars limits)) result }
{
    limits_gate(vars, limits)?;
    if vars <= v {
        return Err(Refusal::by(3));
    }
    let h = Header::var_with_degrees_p1(v, vars, limits);
    fits_gate(h, lent)?;
    Ok(h)
}

// The header of the variable v, every variable up to it under one limit: refusals 1, 3, 5.
#[tactic(auto, unfolding(model::specs::Gates::var_gate))]
pub fn var_gate(v: usize, limit: usize, lent: usize) -> Result<Header, Refusal>
    ensures { Passes (var_gate v limit lent) (Is (var_header v limit)) result }
{
    if !good_limit(limit) {
        return Err(Refusal::of_fault(Fault::of(0, 6), Refusal::NOWHERE));
    }
    if 3 < v {
        return Err(Refusal::by(3));
    }
    let h = Header::var(v, limit);
    fits_gate(h, lent)?;
    Ok(h)
}
