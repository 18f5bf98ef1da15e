// Steps of one operand. Where it is negated or shifted, the value is made in scratch and copied to the pool; a power is
// made in the pool; an exponential, which needs the scratch to work in, is made in memory of its own and copied.
#![tactic(auto)]

ghost use Rattle.std.specs.Prelude.{◌≡◌, ◌+◌, ◌*◌, ◌≤◌, ◌<◌, length};
ghost use Rattle.lists.specs.Part.{Kept};
ghost use Rattle.model.specs.Header.{stored};
ghost use Rattle.model.specs.Refusals.{padded};
ghost use Rattle.model.specs.Poly.{poly};
ghost use Rattle.model.specs.Power.{power_poly};
ghost use Rattle.model_exponential.specs.Step.{exponential_poly};
ghost use Rattle.shape_words.specs.Rules.{Ruled};
ghost use Rattle.power.specs.Room.{Loaded};
ghost use Rattle.shape_operands.specs.Lent.{source, lying, Aside, Lent};
ghost use Rattle.recipes_singles.specs.Change.{changed_poly, Changing};
ghost use Rattle.recipes_singles.specs.Power.{Powering};
ghost use Rattle.recipes_singles.specs.Exponential.{Exponential};

use gates::stored_of;
use model::Header;

// The value with +0.0 past it: h is the header of `a`, r the announced one; answers the true one.
fn changed(
    kind: usize,
    v: usize,
    n: usize,
    a: &[f64],
    h: Header,
    r: Header,
    to: &mut [f64],
) -> Header
    requires { Changing kind v n h r (length a.now) (length to.old) }
    ensures head { result ≡ (changed_poly kind v n (poly h a.now)).head }
    ensures places { to.new ≡ padded (stored r) (changed_poly kind v n (poly h a.now)).coeffs }
{
    if kind == 1 {
        let count = a.len();
        sums_negation::negate_into(a, count, to);
        return r;
    }
    if kind == 9 {
        change::kernel::shift_rows(a, h, r, v, n, to);
        return r;
    }
    change::kernel::take_rows(kind == 8, a, h, r, v, n, to)
}

// The same of an operand where it lies: x is its header, h the announced one.
fn change_from<'a>(
    kind: usize,
    v: usize,
    d: usize,
    x: Header,
    input: bool,
    from: usize,
    h: Header,
    coefficients: &'a [f64],
    pool: &'a [f64],
    to: &mut [f64],
) -> Header
    requires fact_1 { Changing kind v d x h (stored x) (length to.old) }
    requires fact_2 { from + stored x ≤ length (source input coefficients.now pool.now) }
    ensures head { result ≡ (changed_poly kind v d (lying input coefficients.now pool.now from x)).head }
    ensures places { to.new ≡ padded (stored h)
        (changed_poly kind v d (lying input coefficients.now pool.now from x)).coeffs }
{
    let given = stored_of(x);
    let a = shape_operands::stretch(input, coefficients, pool, from, given);
    changed(kind, v, d, a, x, h, to)
}

// The value to the pool, n places from `at` on.
pub fn change_to(
    kind: usize,
    v: usize,
    d: usize,
    x: Header,
    input: bool,
    from: usize,
    h: Header,
    n: usize,
    coefficients: &[f64],
    pool: &mut [f64],
    at: usize,
    scratch: &mut [f64],
) -> Header
    requires fact_1 { Changing kind v d x h (stored x) n }
    requires fact_2 { Aside x input from at n (length coefficients.now) (length pool.old) }
    requires fact_3 { Lent n at (length pool.old) (length scratch.old) }
    ensures head { result ≡ (changed_poly kind v d (lying input coefficients.now pool.old from x)).head }
    ensures kept { Kept at (at + n)
        (padded n (changed_poly kind v d (lying input coefficients.now pool.old from x)
        ).coeffs) pool.old pool.new }
    ensures spent { length scratch.new ≡ length scratch.old }
{
    let r = change_from(
        kind,
        v,
        d,
        x,
        input,
        from,
        h,
        coefficients,
        pool,
        &mut scratch[..n],
    );
    product::kernel::keep(scratch, n, pool, at);
    r
}

// The base of a power into the work, from where it lies.
fn load_base<'a>(
    e: u32,
    x: Header,
    input: bool,
    from: usize,
    coefficients: &'a [f64],
    pool: &'a [f64],
    work: &mut [f64],
)
    requires fact_1 { Ruled x }
    requires fact_2 { (0 < e → stored x ≤ length work.old) }
    requires fact_3 { from + stored x ≤ length (source input coefficients.now pool.now) }
    ensures { Loaded e (lying input coefficients.now pool.now from x).coeffs work.new }
{
    let given = stored_of(x);
    let a = shape_operands::stretch(input, coefficients, pool, from, given);
    power::kernel::load_base(a, e, work);
}

// The power to the pool, n places from `at` on.
pub fn power_to(
    e: u32,
    x: Header,
    input: bool,
    from: usize,
    h: Header,
    n: usize,
    coefficients: &[f64],
    pool: &mut [f64],
    at: usize,
    scratch: &mut [f64],
) -> Header
    requires fact_1 { Powering e x h n }
    requires fact_2 { Aside x input from at n (length coefficients.now) (length pool.old) }
    requires fact_3 { Lent n at (length pool.old) (length scratch.old) }
    ensures head { result ≡ (power_poly e (lying input coefficients.now pool.old from x)).head }
    ensures kept { Kept at (at + n)
        (padded n (power_poly e (lying input coefficients.now pool.old from x)).coeffs)
        pool.old pool.new }
    ensures spent { length scratch.new ≡ length scratch.old }
{
    let limits = h.limits;
    let la = x.lengths;
    let room = 8 * n;
    load_base(e, x, input, from, coefficients, pool, &mut scratch[..room]);
    let end = at + n;
    let r = power::kernel::power_loaded(&mut scratch[..room], la, e, limits, n, &mut pool[at..end]);
    Header::with_lengths(h, r)
}

// Memory for the value of an exponential.
fn block() -> [f64; 4096]
    ensures { length result ≡ 4096 }
{
    [0.0f64; 4096]
}

// The exponential of an operand where it lies, the head by its constant: x is its header, h the announced one, n its
// count.
fn exp_from<'a>(
    x: Header,
    input: bool,
    from: usize,
    h: Header,
    n: usize,
    coefficients: &'a [f64],
    pool: &'a [f64],
    to: &mut [f64],
    work: &mut [f64],
)
    requires fact_1 { Exponential x h n }
    requires fact_2 { from + stored x ≤ length (source input coefficients.now pool.now) }
    requires fact_3 { (length to.old ≡ n) × (length work.old ≡ 8 * n) }
    ensures to_after { to.new ≡ (exponential_poly (lying input coefficients.now pool.now from x)).coeffs }
    ensures spent { length work.new ≡ length work.old }
{
    let given = stored_of(x);
    let a = shape_operands::stretch(input, coefficients, pool, from, given);
    let head = exponential_head::exp_head(a[0]);
    let la = x.lengths;
    let r = h.lengths;
    series_exp::exp_into(head, a, la, r, n, to, work);
}

// The exponential to the pool, n places from `at` on.
pub fn exp_to(
    x: Header,
    input: bool,
    from: usize,
    h: Header,
    n: usize,
    coefficients: &[f64],
    pool: &mut [f64],
    at: usize,
    scratch: &mut [f64],
) -> Header
    requires fact_1 { Exponential x h n }
    requires fact_2 { Aside x input from at n (length coefficients.now) (length pool.old) }
    requires fact_3 { Lent n at (length pool.old) (length scratch.old) }
    ensures head { result ≡ (exponential_poly (lying input coefficients.now pool.old from x)).head }
    ensures kept { Kept at (at + n)
        (padded n (exponential_poly (lying input coefficients.now pool.old from x)).coeffs)
        pool.old pool.new }
    ensures spent { length scratch.new ≡ length scratch.old }
{
    let room = 8 * n;
    let mut value = block();
    exp_from(
        x,
        input,
        from,
        h,
        n,
        coefficients,
        pool,
        &mut value[..n],
        &mut scratch[..room],
    );
    product::kernel::keep(&value, n, pool, at);
    h
}
