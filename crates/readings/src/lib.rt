// Constructors and readings (document 01, port order 2, and 'Tail'; document 02, W1, W6). Each takes any words, numbers
// and buffers.
#![tactic(auto)]

pub mod line;

ghost use Rattle.model.specs.Promises.{ZeroPromise, OnePromise, FromU32Promise, ZeroWithPromise, FromU32WithPromise, VarWithDegreesP1Promise};
ghost use Rattle.model.specs.Promises.{VarPromise, VarAtZeroPromise, CoefficientPromise, ConstantTermPromise, EvaluateAllOnePromise};
ghost use Rattle.model.specs.Promises.{ExtractLinearPromise, TailPromise, LeastPromise, TaylorPolynomialPromise, CoefficientsOfTermPromise};

use gates::stored_of;
use model::{Answer, CountReading, Family, Header, LinearReading, Reading, Refusal};
use readings_sums::{least_at, sum_to, tail_at};
use shape_words::word::pack;

// +0.0, with no variables: refusal 5.
pub fn zero(out: &mut [f64]) -> Answer
    ensures { ZeroPromise out.old result out.new }
{
    readings_short::constant_with(0.0, 0, [1, 1, 1, 1], out)
}

// 1.0, with no variables: refusal 5.
pub fn one(out: &mut [f64]) -> Answer
    ensures { OnePromise out.old result out.new }
{
    readings_short::constant_with(1.0, 0, [1, 1, 1, 1], out)
}

// c, with no variables: refusal 5.
pub fn from_u32(c: u32, out: &mut [f64]) -> Answer
    ensures { FromU32Promise c out.old result out.new }
{
    readings_short::constant_with(c as f64, 0, [1, 1, 1, 1], out)
}

// +0.0 under the first `vars` of the limits: refusals 1, 5.
pub fn zero_with(vars: usize, limits: [usize; 4], out: &mut [f64]) -> Answer
    ensures { ZeroWithPromise vars limits out.old result out.new }
{
    readings_short::constant_with(0.0, vars, limits, out)
}

// c under the first `vars` of the limits: refusals 1, 5.
pub fn from_u32_with(c: u32, vars: usize, limits: [usize; 4], out: &mut [f64]) -> Answer
    ensures { FromU32WithPromise c vars limits out.old result out.new }
{
    readings_short::constant_with(c as f64, vars, limits, out)
}

// x + v under the first `vars` of the limits: refusals 1, 3, 5.
pub fn var_with_degrees_p1(
    v: usize,
    x: f64,
    vars: usize,
    limits: [usize; 4],
    out: &mut [f64],
) -> Answer
    ensures { VarWithDegreesP1Promise v x vars limits out.old result out.new }
{
    let h = gates::var_with_gate(v, vars, limits, out.len())?;
    readings_short::write_short(h, x, out)
}

// x + v, every variable up to v under one limit: refusals 1, 3, 5.
pub fn var(v: usize, x: f64, limit: usize, out: &mut [f64]) -> Answer
    ensures { VarPromise v x limit out.old result out.new }
{
    let h = gates::var_gate(v, limit, out.len())?;
    readings_short::write_short(h, x, out)
}

// v itself, every variable up to it under one limit: refusals 1, 3, 5.
pub fn var_at_zero(v: usize, limit: usize, out: &mut [f64]) -> Answer
    ensures { VarAtZeroPromise v limit out.old result out.new }
{
    var(v, 0.0, limit, out)
}

// The coefficient at an index, +0.0 past a stored length: refusals 1, 2, 3, 4.
pub fn coefficient(head: u64, a: &[f64], index: [usize; 4]) -> Reading
    ensures { CoefficientPromise head a.now index result }
{
    let h = gates::index_gate(head, a.len(), index)?;
    let lengths = h.lengths;
    if !shape_words::places::is_inside(lengths, index) {
        return Ok(0.0);
    }
    let k = shape_words::places::place_of(lengths, index);
    Ok(a[k])
}

// The coefficient at the index 0, 0, 0, 0: refusals 1, 2.
pub fn constant_term(head: u64, a: &[f64]) -> Reading
    ensures { ConstantTermPromise head a.now result }
{
    let _h = gates::read_gate(head, a.len())?;
    Ok(a[0])
}

// The value where every variable is 1: refusals 1, 2.
pub fn evaluate_all_one(head: u64, a: &[f64]) -> Reading
    ensures { EvaluateAllOnePromise head a.now result }
{
    let h = gates::read_gate(head, a.len())?;
    Ok(sum_to(a, stored_of(h)))
}

// Whether the polynomial is c + m * v: refusals 1, 2.
pub fn extract_linear(head: u64, a: &[f64]) -> LinearReading
    ensures { ExtractLinearPromise head a.now result }
{
    let h = gates::read_gate(head, a.len())?;
    let count = stored_of(h);
    let n = h.lengths;
    Ok(line::linear_of(&a[..count], n))
}

// One variable: a total less the sum of the stored coefficients 0 to k, over the total; refusals 1, 2, 3, 4.
pub fn tail(head: u64, a: &[f64], k: usize, total: f64) -> Reading
    ensures { TailPromise head a.now k total result }
{
    let h = gates::tail_gate(head, a.len(), k, total)?;
    let n = h.lengths;
    Ok(tail_at(a, n[0], k, total))
}

// One variable: the least k whose running sum, of the stored coefficients 0 to k, is at least q; refusals 1, 2, 3, 11.
pub fn least(head: u64, a: &[f64], q: f64) -> CountReading
    ensures { LeastPromise head a.now q result }
{
    let h = gates::sole_gate(head, a.len())?;
    let n = h.lengths;
    let k = least_at(a, n[0], q);
    if n[0] <= k {
        return Err(Refusal::by(11));
    }
    Ok(k)
}

// The powers of v up to `order`: refusals 1, 2, 3, 4, 5.
pub fn taylor_polynomial(head: u64, a: &[f64], v: usize, order: usize, out: &mut [f64]) -> Answer
    ensures { TaylorPolynomialPromise head a.now v order out.old result out.new }
{
    let o = gates::open_in(Family::Order(v, order), v, order, head, a.len(), out.len())?;
    let h = o.a;
    let r = o.told;
    let n = h.lengths;
    let c = r.lengths;
    blocks::load(&a[..o.na], n, c, &mut out[..o.n]);
    Ok(pack(r))
}

// The row `order` of v, a zero past the stored length: refusals 1, 2, 3, 4, 5.
pub fn coefficients_of_term(head: u64, a: &[f64], v: usize, order: usize, out: &mut [f64]) -> Answer
    ensures { CoefficientsOfTermPromise head a.now v order out.old result out.new }
{
    let o = gates::open_in(Family::Term(v), v, order, head, a.len(), out.len())?;
    let x = readings_row::take_term(&a[..o.na], o.a, o.told, v, order, &mut out[..o.n]);
    Ok(pack(x))
}
