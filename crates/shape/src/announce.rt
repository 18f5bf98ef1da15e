// The header that each family of operations announces, from its operands' headers alone (document 01, 'Announced limits
// and lengths').
ghost use Rattle.std.specs.Prelude.{◌≡◌, cond, ℕ, ◌+◌, ◌-◌, ◌*◌, ◌≤◌, min, eqb};
ghost use Rattle.model.specs.declared.Family.TheVariants.{Power, Product, Substitution};
ghost use Rattle.model.specs.Cap.{cap_after};
ghost use Rattle.model.specs.Announced.{less_in, limit_after, length_after, single, paired, announced};
ghost use Rattle.shape_words.specs.Rules.{Ruled};
ghost use Rattle.shape_words.specs.Lengths.{Small};

use crate::limits::{cut_to, least, lower_cap, min_cap, min_degrees_p1, most, sum_shape};
use model::{Family, Header};

// x less d where k is the variable v, 1 at least.
fn less_in(v: usize, d: usize, k: usize, x: usize) -> usize
    ensures { result ≡ less_in v d k x }
{
    if k != v {
        return x;
    }
    if d < x { x - d } else { 1 }
}

// The limit of variable k after an operation on one operand, whose limit is l.
fn limit_after(f: Family, k: usize, l: usize) -> usize
    ensures { result ≡ limit_after f k l }
{
    match f {
        Family::Constant => l,
        Family::Same => l,
        Family::Sum => l,
        Family::Product => l,
        Family::Quotient => l,
        Family::Series => l,
        Family::Power(_) => l,
        Family::Shift(v, n) => less_in(v, n, k, l),
        Family::Substitution(_) => l,
        Family::Term(_) => l,
        Family::Order(_, _) => l,
        Family::One => l,
    }
}

fn quotient_length(l: usize, a: usize, b: usize) -> usize
    ensures { result ≡ cond (eqb b 1) a l }
{
    if b == 1 { a } else { l }
}

fn series_length(l: usize, a: usize) -> usize
    ensures { result ≡ cond (eqb a 1) 1 l }
{
    if a == 1 { 1 } else { l }
}

// At most 63 * (2^32 - 1) + 1 before the limit cuts it.
fn power_length(e: u32, l: usize, a: usize) -> usize
    requires { (1 ≤ a) × (a ≤ 64) }
    ensures { result ≡ min l (e * (a - 1) + 1) }
{
    least(l, (e as usize) * (a - 1) + 1)
}

// In the variable v itself the first summand is 1, elsewhere the length a.
fn substitution_length(v: usize, k: usize, l: usize, p: usize, a: usize, b: usize) -> usize
    requires { Small p a b }
    ensures { result ≡ length_after (Substitution v) k l p a b }
{
    let more = (p - 1) * (b - 1);
    if k == v {
        least(l, 1 + more)
    } else {
        least(l, a + more)
    }
}

fn order_length(v: usize, n: usize, k: usize, a: usize) -> usize
    ensures { result ≡ cond (eqb k v) (min a (n + 1)) a }
{
    if k != v {
        return a;
    }
    if n < a { n + 1 } else { a }
}

fn term_length(v: usize, k: usize, a: usize) -> usize
    ensures { result ≡ cond (eqb k v) 1 a }
{
    if k == v { 1 } else { a }
}

// The length of variable k of the result.
fn length_after(f: Family, k: usize, l: usize, p: usize, a: usize, b: usize) -> usize
    requires { Small p a b }
    ensures { result ≡ length_after f k l p a b }
{
    match f {
        Family::Constant => 1,
        Family::Same => a,
        Family::Sum => most(a, b),
        Family::Product => least(l, a + b - 1),
        Family::Quotient => quotient_length(l, a, b),
        Family::Series => series_length(l, a),
        Family::Power(e) => power_length(e, l, a),
        Family::Shift(v, n) => less_in(v, n, k, a),
        Family::Substitution(v) => substitution_length(v, k, l, p, a, b),
        Family::Term(v) => term_length(v, k, a),
        Family::Order(v, n) => order_length(v, n, k, a),
        Family::One => 1,
    }
}

// Limit and length of one variable after an operation on one operand.
fn single_length(f: Family, k: usize, l: usize, a: usize) -> usize
    requires { (1 ≤ a) × (a ≤ 64) }
    ensures { result ≡ length_after f k (limit_after f k l) 1 a 1 }
{
    length_after(f, k, limit_after(f, k, l), 1, a, 1)
}

// The length of one variable after an operation on two operands, cut to the limit l.
fn paired_length(f: Family, k: usize, l: usize, p: usize, a: usize, b: usize) -> usize
    requires fact_1 { Small p a b }
    requires fact_2 { 1 ≤ l }
    ensures { result ≡ length_after f k l p (min l a) (min l b) }
{
    length_after(f, k, l, p, least(l, a), least(l, b))
}

// The cap after an operation on one operand, whose cap is c.
fn cap_after(f: Family, c: usize) -> usize
    ensures { result ≡ cap_after f c }
{
    match f {
        Family::Constant => c,
        Family::Same => c,
        Family::Sum => c,
        Family::Product => c,
        Family::Quotient => c,
        Family::Series => c,
        Family::Power(_) => c,
        Family::Shift(_, n) => lower_cap(n, c),
        Family::Substitution(_) => c,
        Family::Term(_) => c,
        Family::Order(_, _) => c,
        Family::One => c,
    }
}

// One operand.
fn single_header(f: Family, a: Header) -> Header
    requires { Ruled a }
    ensures { result ≡ single f a }
{
    let l = a.limits;
    let n = a.lengths;
    Header {
        vars: a.vars,
        limits: [
            limit_after(f, 0, l[0]),
            limit_after(f, 1, l[1]),
            limit_after(f, 2, l[2]),
            limit_after(f, 3, l[3]),
        ],
        lengths: [
            single_length(f, 0, l[0], n[0]),
            single_length(f, 1, l[1], n[1]),
            single_length(f, 2, l[2], n[2]),
            single_length(f, 3, l[3], n[3]),
        ],
        cap: cap_after(f, a.cap),
    }
}

// Two operands, cut to the smaller limits.
fn paired_header(f: Family, p: usize, a: Header, b: Header) -> Header
    requires fact_1 { Ruled a }
    requires fact_2 { Ruled b }
    requires fact_3 { (1 ≤ p) × (p ≤ 64) }
    ensures { result ≡ paired f p a b }
{
    let l = min_degrees_p1(a, b);
    let n = a.lengths;
    let m = b.lengths;
    Header {
        vars: most(a.vars, b.vars),
        limits: l,
        lengths: [
            paired_length(f, 0, l[0], p, n[0], m[0]),
            paired_length(f, 1, l[1], p, n[1], m[1]),
            paired_length(f, 2, l[2], p, n[2], m[2]),
            paired_length(f, 3, l[3], p, n[3], m[3]),
        ],
        cap: min_cap(a.cap, b.cap),
    }
}

// A product's, with no choice by family: what `multiply` asks for at every call.
pub fn product_header(a: Header, b: Header) -> Header
    requires fact_1 { Ruled a }
    requires fact_2 { Ruled b }
    ensures { result ≡ announced Product a b }
{
    let l = min_degrees_p1(a, b);
    let n = a.lengths;
    let m = b.lengths;
    Header {
        vars: most(a.vars, b.vars),
        limits: l,
        lengths: sum_shape(l, cut_to(l, n), cut_to(l, m)),
        cap: min_cap(a.cap, b.cap),
    }
}

// Substitution for the variable v: a polynomial that lacks it comes back unchanged.
fn substitution_header(v: usize, a: Header, b: Header) -> Header
    requires fact_1 { Ruled a }
    requires fact_2 { Ruled b }
    ensures { result ≡ announced (Substitution v) a b }
{
    if a.vars <= v {
        return a;
    }
    let n = a.lengths;
    paired_header(Family::Substitution(v), n[v], a, b)
}

// A power of zero is one, with no variables.
fn power_header(e: u32, a: Header) -> Header
    requires { Ruled a }
    ensures { result ≡ announced (Power e) a a }
{
    if e == 0 {
        Header::none()
    } else {
        single_header(Family::Power(e), a)
    }
}

// The announced header; b does not matter where there is one operand.
pub fn announced_of(f: Family, a: Header, b: Header) -> Header
    requires fact_1 { Ruled a }
    requires fact_2 { Ruled b }
    ensures { result ≡ announced f a b }
{
    match f {
        Family::Constant => Header::none(),
        Family::Same => single_header(f, a),
        Family::Sum => paired_header(f, 1, a, b),
        Family::Product => paired_header(f, 1, a, b),
        Family::Quotient => paired_header(f, 1, a, b),
        Family::Series => single_header(f, a),
        Family::Power(e) => power_header(e, a),
        Family::Shift(_, _) => single_header(f, a),
        Family::Substitution(v) => substitution_header(v, a, b),
        Family::Term(_) => single_header(f, a),
        Family::Order(_, _) => single_header(f, a),
        Family::One => single_header(f, a),
    }
}
