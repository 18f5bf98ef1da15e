// The face for C, Rust and Python: every entry under its name with `taylor_` before it, its answer as one word.
// A header word's low five bits are zero, a refusal's are not (specs/Face.antt, specs/Apart.antt). Four limits or four
// indices are four words.
#![tactic(auto)]

mod answers;
mod settings;

ghost use Rattle.taylor.specs.Face.{FileRead};
ghost use Rattle.taylor.specs.Promises.{TaylorZeroPromise, TaylorOnePromise, TaylorFromU32Promise, TaylorZeroWithPromise};
ghost use Rattle.taylor.specs.Promises.{TaylorFromU32WithPromise, TaylorVarWithDegreesP1Promise, TaylorVarPromise, TaylorVarAtZeroPromise};
ghost use Rattle.taylor.specs.Promises.{TaylorCoefficientPromise, TaylorConstantTermPromise, TaylorEvaluateAllOnePromise};
ghost use Rattle.taylor.specs.Promises.{TaylorExtractLinearPromise, TaylorTailPromise, TaylorLeastPromise, TaylorTaylorPolynomialPromise};
ghost use Rattle.taylor.specs.Promises.{TaylorCoefficientsOfTermPromise, TaylorNegatePromise, TaylorAddPromise, TaylorSubtractPromise};
ghost use Rattle.taylor.specs.Promises.{TaylorMultiplyPromise, TaylorDividePromise, TaylorExpPromise, TaylorLogPromise, TaylorPowPromise};
ghost use Rattle.taylor.specs.Promises.{TaylorDerivativePromise, TaylorTaylorExpansionOfCoeffPromise, TaylorShiftDownPromise};
ghost use Rattle.taylor.specs.Promises.{TaylorSubstVarPromise, TaylorCheckPromise, TaylorRunPromise, TaylorNpyWritePromise};
ghost use Rattle.taylor.specs.Promises.{TaylorNpyWrite2Promise, TaylorExpConstantPromise};

use answers::{put, put_count, put_linear, put_totals, put_written, word_of, word_of_run};

// +0.0, with no variables: refusal 5.
#[unsafe(no_mangle)]
pub extern "C" fn taylor_zero(out: &mut [f64]) -> u64
    ensures { TaylorZeroPromise out.old result out.new }
{
    word_of(readings::zero(out))
}

// 1.0, with no variables: refusal 5.
#[unsafe(no_mangle)]
pub extern "C" fn taylor_one(out: &mut [f64]) -> u64
    ensures { TaylorOnePromise out.old result out.new }
{
    word_of(readings::one(out))
}

// c, with no variables: refusal 5.
#[unsafe(no_mangle)]
pub extern "C" fn taylor_from_u32(c: u32, out: &mut [f64]) -> u64
    ensures { TaylorFromU32Promise c out.old result out.new }
{
    word_of(readings::from_u32(c, out))
}

// +0.0 under the first `vars` of the limits: refusals 1, 5.
#[unsafe(no_mangle)]
pub extern "C" fn taylor_zero_with(
    vars: u64,
    l0: u64,
    l1: u64,
    l2: u64,
    l3: u64,
    out: &mut [f64],
) -> u64
    ensures { TaylorZeroWithPromise vars l0 l1 l2 l3 out.old result out.new }
{
    word_of(readings::zero_with(
        vars as usize,
        [l0 as usize, l1 as usize, l2 as usize, l3 as usize],
        out,
    ))
}

// c under the first `vars` of the limits: refusals 1, 5.
#[unsafe(no_mangle)]
pub extern "C" fn taylor_from_u32_with(
    c: u32,
    vars: u64,
    l0: u64,
    l1: u64,
    l2: u64,
    l3: u64,
    out: &mut [f64],
) -> u64
    ensures { TaylorFromU32WithPromise c vars l0 l1 l2 l3 out.old result out.new }
{
    word_of(readings::from_u32_with(
        c,
        vars as usize,
        [l0 as usize, l1 as usize, l2 as usize, l3 as usize],
        out,
    ))
}

// x + v under the first `vars` of the limits: refusals 1, 3, 5.
#[unsafe(no_mangle)]
pub extern "C" fn taylor_var_with_degrees_p1(
    v: u64,
    x: f64,
    vars: u64,
    l0: u64,
    l1: u64,
    l2: u64,
    l3: u64,
    out: &mut [f64],
) -> u64
    ensures { TaylorVarWithDegreesP1Promise v x vars l0 l1 l2 l3 out.old result out.new }
{
    word_of(readings::var_with_degrees_p1(
        v as usize,
        x,
        vars as usize,
        [l0 as usize, l1 as usize, l2 as usize, l3 as usize],
        out,
    ))
}

// x + v, every variable up to v under one limit: refusals 1, 3, 5.
#[unsafe(no_mangle)]
pub extern "C" fn taylor_var(v: u64, x: f64, limit: u64, out: &mut [f64]) -> u64
    ensures { TaylorVarPromise v x limit out.old result out.new }
{
    word_of(readings::var(v as usize, x, limit as usize, out))
}

// v itself, every variable up to it under one limit: refusals 1, 3, 5.
#[unsafe(no_mangle)]
pub extern "C" fn taylor_var_at_zero(v: u64, limit: u64, out: &mut [f64]) -> u64
    ensures { TaylorVarAtZeroPromise v limit out.old result out.new }
{
    word_of(readings::var_at_zero(v as usize, limit as usize, out))
}

// The coefficient at an index, +0.0 past a stored length: refusals 1, 2, 3, 4.
#[unsafe(no_mangle)]
pub extern "C" fn taylor_coefficient(
    head: u64,
    a: &[f64],
    i0: u64,
    i1: u64,
    i2: u64,
    i3: u64,
    value: &mut f64,
) -> u64
    ensures { TaylorCoefficientPromise head a.now i0 i1 i2 i3 value.old result value.new }
{
    put(
        readings::coefficient(
            head,
            a,
            [i0 as usize, i1 as usize, i2 as usize, i3 as usize],
        ),
        value,
    )
}

// The coefficient at the index 0, 0, 0, 0: refusals 1, 2.
#[unsafe(no_mangle)]
pub extern "C" fn taylor_constant_term(head: u64, a: &[f64], value: &mut f64) -> u64
    ensures { TaylorConstantTermPromise head a.now value.old result value.new }
{
    put(readings::constant_term(head, a), value)
}

// The value where every variable is 1: refusals 1, 2.
#[unsafe(no_mangle)]
pub extern "C" fn taylor_evaluate_all_one(head: u64, a: &[f64], value: &mut f64) -> u64
    ensures { TaylorEvaluateAllOnePromise head a.now value.old result value.new }
{
    put(readings::evaluate_all_one(head, a), value)
}

// Whether the polynomial is c + m * v: 0 for no, 1 + v for yes; refusals 1, 2, each plus 2^32.
#[unsafe(no_mangle)]
pub extern "C" fn taylor_extract_linear(head: u64, a: &[f64], c: &mut f64, m: &mut f64) -> u64
    ensures { TaylorExtractLinearPromise head a.now c.old m.old result c.new m.new }
{
    put_linear(readings::extract_linear(head, a), c, m)
}

// One variable: a total less the sum of the stored coefficients 0 to k, over the total; refusals 1, 2, 3, 4.
#[unsafe(no_mangle)]
pub extern "C" fn taylor_tail(head: u64, a: &[f64], k: u64, total: f64, value: &mut f64) -> u64
    ensures { TaylorTailPromise head a.now k total value.old result value.new }
{
    put(readings::tail(head, a, k as usize, total), value)
}

// One variable: the least k whose running sum, of the stored coefficients 0 to k, is at least q; refusals 1, 2, 3, 11.
#[unsafe(no_mangle)]
pub extern "C" fn taylor_least(head: u64, a: &[f64], q: f64, k: &mut u64) -> u64
    ensures { TaylorLeastPromise head a.now q k.old result k.new }
{
    put_count(readings::least(head, a, q), k)
}

// The powers of v up to `order`: refusals 1, 2, 3, 4, 5.
#[unsafe(no_mangle)]
pub extern "C" fn taylor_taylor_polynomial(
    head: u64,
    a: &[f64],
    v: u64,
    order: u64,
    out: &mut [f64],
) -> u64
    ensures { TaylorTaylorPolynomialPromise head a.now v order out.old result out.new }
{
    word_of(readings::taylor_polynomial(head, a, v as usize, order as usize, out))
}

// The row `order` of v, a zero past the stored length: refusals 1, 2, 3, 4, 5.
#[unsafe(no_mangle)]
pub extern "C" fn taylor_coefficients_of_term(
    head: u64,
    a: &[f64],
    v: u64,
    order: u64,
    out: &mut [f64],
) -> u64
    ensures { TaylorCoefficientsOfTermPromise head a.now v order out.old result out.new }
{
    word_of(readings::coefficients_of_term(head, a, v as usize, order as usize, out))
}

// The polynomial with every coefficient negated: refusals 1, 2, 5.
#[unsafe(no_mangle)]
pub extern "C" fn taylor_negate(head: u64, a: &[f64], out: &mut [f64]) -> u64
    ensures { TaylorNegatePromise head a.now out.old result out.new }
{
    word_of(sums::negate(head, a, out))
}

// a + b, cut to the smaller limits: refusals 1, 2, 5, 6.
#[unsafe(no_mangle)]
pub extern "C" fn taylor_add(
    ah: u64,
    a: &[f64],
    bh: u64,
    b: &[f64],
    out: &mut [f64],
    scratch: &mut [f64],
) -> u64
    ensures { TaylorAddPromise ah a.now bh b.now out.old
        scratch.old result out.new scratch.new }
{
    word_of(sums::add(ah, a, bh, b, out, scratch))
}

// a - b, cut to the smaller limits: refusals 1, 2, 5, 6.
#[unsafe(no_mangle)]
pub extern "C" fn taylor_subtract(
    ah: u64,
    a: &[f64],
    bh: u64,
    b: &[f64],
    out: &mut [f64],
    scratch: &mut [f64],
) -> u64
    ensures { TaylorSubtractPromise ah a.now bh b.now out.old
        scratch.old result out.new scratch.new }
{
    word_of(sums::subtract(ah, a, bh, b, out, scratch))
}

// a * b, cut to the smaller limits: refusals 1, 2, 5, 6.
#[unsafe(no_mangle)]
pub extern "C" fn taylor_multiply(
    ah: u64,
    a: &[f64],
    bh: u64,
    b: &[f64],
    out: &mut [f64],
    scratch: &mut [f64],
) -> u64
    ensures { TaylorMultiplyPromise ah a.now bh b.now out.old
        scratch.old result out.new scratch.new }
{
    word_of(product::multiply(ah, a, bh, b, out, scratch))
}

// a / b, cut to the smaller limits: refusals 1, 2, 5, 6.
#[unsafe(no_mangle)]
pub extern "C" fn taylor_divide(
    ah: u64,
    a: &[f64],
    bh: u64,
    b: &[f64],
    out: &mut [f64],
    scratch: &mut [f64],
) -> u64
    ensures { TaylorDividePromise ah a.now bh b.now out.old
        scratch.old result out.new scratch.new }
{
    word_of(quotient::divide(ah, a, bh, b, out, scratch))
}

// exp, `value` its value at the constant term: refusals 1, 2, 5, 6.
#[unsafe(no_mangle)]
pub extern "C" fn taylor_exp(
    head: u64,
    a: &[f64],
    value: f64,
    out: &mut [f64],
    scratch: &mut [f64],
) -> u64
    ensures { TaylorExpPromise head a.now value out.old scratch.old result
        out.new scratch.new }
{
    word_of(series::exp(head, a, value, out, scratch))
}

// log, `value` its value at the constant term: refusals 1, 2, 5, 6.
#[unsafe(no_mangle)]
pub extern "C" fn taylor_log(
    head: u64,
    a: &[f64],
    value: f64,
    out: &mut [f64],
    scratch: &mut [f64],
) -> u64
    ensures { TaylorLogPromise head a.now value out.old scratch.old result
        out.new scratch.new }
{
    word_of(series::log(head, a, value, out, scratch))
}

// a to the power e: refusals 1, 2, 5, 6.
#[unsafe(no_mangle)]
pub extern "C" fn taylor_pow(
    head: u64,
    a: &[f64],
    e: u32,
    out: &mut [f64],
    scratch: &mut [f64],
) -> u64
    ensures { TaylorPowPromise head a.now e out.old scratch.old result out.new scratch.new }
{
    word_of(power::pow(head, a, e, out, scratch))
}

// The n-th derivative in v: refusals 1, 2, 3, 4, 5.
#[unsafe(no_mangle)]
pub extern "C" fn taylor_derivative(head: u64, a: &[f64], v: u64, n: u64, out: &mut [f64]) -> u64
    ensures { TaylorDerivativePromise head a.now v n out.old result out.new }
{
    word_of(change::derivative(head, a, v as usize, n as usize, out))
}

// The derivative without its factor n!: refusals 1, 2, 3, 4, 5.
#[unsafe(no_mangle)]
pub extern "C" fn taylor_taylor_expansion_of_coeff(
    head: u64,
    a: &[f64],
    v: u64,
    n: u64,
    out: &mut [f64],
) -> u64
    ensures { TaylorTaylorExpansionOfCoeffPromise head a.now v n out.old result out.new }
{
    word_of(change::taylor_expansion_of_coeff(head, a, v as usize, n as usize, out))
}

// The coefficients of v moved down by n, the sum of those that would leave added at 0: refusals 1, 2, 3, 4, 5.
#[unsafe(no_mangle)]
pub extern "C" fn taylor_shift_down(head: u64, a: &[f64], v: u64, n: u64, out: &mut [f64]) -> u64
    ensures { TaylorShiftDownPromise head a.now v n out.old result out.new }
{
    word_of(change::shift_down(head, a, v as usize, n as usize, out))
}

// a with b for its variable v, cut to the smaller limits; a itself where it has no such variable: refusals 1, 2, 5, 6.
#[unsafe(no_mangle)]
pub extern "C" fn taylor_subst_var(
    ah: u64,
    a: &[f64],
    bh: u64,
    b: &[f64],
    v: u64,
    out: &mut [f64],
    scratch: &mut [f64],
) -> u64
    ensures { TaylorSubstVarPromise ah a.now bh b.now v out.old
        scratch.old result out.new scratch.new }
{
    word_of(substitution::subst_var(ah, a, bh, b, v as usize, out, scratch))
}

// Whether a recipe of an edition can be run, from words alone: the pool total, the largest announced step count and the
// input
// coefficient total; refusals 1, 3, 4, 5, 7.
#[unsafe(no_mangle)]
pub extern "C" fn taylor_check(
    headers: &[u64],
    steps: &[u64],
    edition: u64,
    pool: &mut u64,
    largest: &mut u64,
    inputs: &mut u64,
) -> u64
    ensures { TaylorCheckPromise headers.now steps.now edition pool.old
        largest.old inputs.old result pool.new largest.new inputs.new }
{
    put_totals(
        recipes::check(headers, steps, edition),
        pool,
        largest,
        inputs,
    )
}

// The steps of a recipe of an edition, their values end to end in the pool and their header words in `words`: refusals
// 1 to 7, and 12 at a step that stops the run, which leaves +0.0 in the announced pool and 0 in the words of the steps;
// 0 when done.
#[unsafe(no_mangle)]
pub extern "C" fn taylor_run(
    headers: &[u64],
    coefficients: &[f64],
    steps: &[u64],
    edition: u64,
    pool: &mut [f64],
    words: &mut [u64],
    scratch: &mut [f64],
) -> u64
    ensures { TaylorRunPromise headers.now coefficients.now steps.now
        edition pool.old words.old scratch.old result pool.new words.new
        scratch.new }
{
    word_of_run(recipes::run(headers, coefficients, steps, edition, pool, words, scratch))
}

// The values of a NumPy array file, in row order, at the front of `out`: refusals 10, 5, 10.
#[unsafe(no_mangle)]
pub extern "C" fn taylor_npy_read(file: &[u8], out: &mut [f64]) -> u64
    ensures { FileRead file.now out.old result out.new }
{
    word_of(npy::read(file, out))
}

// The NumPy array file of a polynomial, version 1.0, its shape the stored lengths, at the front of `file`, and through
// `written` how many bytes it has: refusals 1, 2, 5; 0 when done.
#[unsafe(no_mangle)]
pub extern "C" fn taylor_npy_write(head: u64, a: &[f64], file: &mut [u8], written: &mut u64) -> u64
    ensures { TaylorNpyWritePromise head a.now file.old written.old result
        file.new written.new }
{
    put_written(npy::write(head, a, file), written)
}

// The same, version 2.0.
#[unsafe(no_mangle)]
pub extern "C" fn taylor_npy_write_2(
    head: u64,
    a: &[f64],
    file: &mut [u8],
    written: &mut u64,
) -> u64
    ensures { TaylorNpyWrite2Promise head a.now file.old written.old result
        file.new written.new }
{
    put_written(npy::write_2(head, a, file), written)
}

// e^x for x from -8 to 8, within 2^-40, relative, of the sum of the series' first 120 terms: refusal 12.
#[unsafe(no_mangle)]
pub extern "C" fn taylor_exp_constant(x: f64, value: &mut f64) -> u64
    ensures { TaylorExpConstantPromise x value.old result value.new }
{
    put(exponential::exp_constant(x), value)
}
