// One step, of any kind.
ghost use Rattle.std.specs.Prelude.{◌≡◌, [], ◌∷◌, ◌+◌, ◌≤◌, length, take};
ghost use Rattle.lists.specs.Part.{Kept};
ghost use Rattle.model.specs.Word.{header_of, word_of};
ghost use Rattle.model.specs.Constructed.{whole_f};
ghost use Rattle.model.specs.Refusals.{padded};
ghost use Rattle.shape_operands.specs.Lent.{lying, Lent};
ghost use Rattle.recipes_steps.specs.Ready.{value_of, Placed, Ready, Making};
ghost use Rattle.recipes_steps.specs.Beside.{Beside};

use gates::stored_of;
use model::Header;
use model_recipes::Step;
use recipes_kinds::step::family_of;
use shape::announce::announced_of;
use shape_operands::Operand;
use shape_words::word::{header_of, pack};

// A constant to the pool at the place `at`, then +0.0 up to `room` places.
pub fn constant_to(n: u32, pool: &mut [f64], at: usize, room: usize)
    requires { (1 ≤ room) × (at + room ≤ length pool.old) }
    ensures { Kept at (at + room) (padded room (whole_f n ∷ [])) pool.old pool.new }
{
    pool[at] = n as f64;
    shape_operands::pad(pool, at + 1, at + room);
}

// The value of a step of any other kind to the pool, n places from `at` on: x and y are the true headers of its
// operands, h what they announce, n its count.
fn value_to(
    s: Step,
    x: Header,
    xi: bool,
    xf: usize,
    y: Header,
    yi: bool,
    yf: usize,
    h: Header,
    n: usize,
    coefficients: &[f64],
    pool: &mut [f64],
    at: usize,
    scratch: &mut [f64],
) -> Header
    requires fact_1 { Making s x y h n }
    requires fact_2 { Beside x xi xf y yi yf at n (length coefficients.now) (length pool.old) }
    requires fact_3 { Lent n at (length pool.old) (length scratch.old) }
    ensures head { result ≡ (value_of s (lying xi coefficients.now pool.old xf x)
        (lying yi coefficients.now pool.old yf y)).head }
    ensures kept { Kept at (at + n)
        (padded n (value_of s (lying xi coefficients.now pool.old xf x)
        (lying yi coefficients.now pool.old yf y)).coeffs)
        pool.old pool.new }
    ensures spent { length scratch.new ≡ length scratch.old }
{
    let kind = s.kind;
    if kind == Step::POWER {
        return recipes_singles::power_to(s.n, x, xi, xf, h, n, coefficients, pool, at, scratch);
    }
    if (kind != Step::NEGATE) & (kind <= Step::DIVIDE) {
        return recipes_pairs::pair_to(
            kind,
            x,
            xi,
            xf,
            y,
            yi,
            yf,
            h,
            n,
            coefficients,
            pool,
            at,
            scratch,
        );
    }
    if kind == Step::SUBSTITUTION {
        let p = Operand {
            head: x,
            count: stored_of(x),
            input: xi,
            from: xf,
        };
        let q = Operand {
            head: y,
            count: stored_of(y),
            input: yi,
            from: yf,
        };
        return substitution::kernel::substitute_to(
            s.variable,
            p,
            q,
            h,
            n,
            coefficients,
            coefficients,
            pool,
            at,
            scratch,
        );
    }
    if kind == Step::EXP {
        return recipes_singles::exp_to(x, xi, xf, h, n, coefficients, pool, at, scratch);
    }
    recipes_singles::change_to(
        kind,
        s.variable,
        s.n as usize,
        x,
        xi,
        xf,
        h,
        n,
        coefficients,
        pool,
        at,
        scratch,
    )
}

// The value of such a step to the pool, then +0.0 up to `room` places; answers its header word. The operands have the
// header words xw and yw; those that lie in the pool do not overlap the part that is written.
pub fn perform_beside(
    s: Step,
    xw: u64,
    xi: bool,
    xf: usize,
    yw: u64,
    yi: bool,
    yf: usize,
    coefficients: &[f64],
    pool: &mut [f64],
    at: usize,
    room: usize,
    scratch: &mut [f64],
) -> u64
    requires fact_1 { Ready s (header_of xw) (header_of yw) room }
    requires fact_2 { Beside (header_of xw) xi xf (header_of yw) yi yf at room (length coefficients.now) (length pool.old) }
    requires fact_3 { Lent room at (length pool.old) (length scratch.old) }
    ensures word { result ≡ word_of (value_of s (lying xi coefficients.now pool.old xf (header_of xw))
        (lying yi coefficients.now pool.old yf (header_of yw))).head }
    ensures kept { Kept at (at + room)
        (padded room (value_of s (lying xi coefficients.now pool.old xf (header_of xw))
        (lying yi coefficients.now pool.old yf (header_of yw))).coeffs)
        pool.old pool.new }
    ensures spent { length scratch.new ≡ length scratch.old }
{
    let x = header_of(xw);
    let y = header_of(yw);
    let h = announced_of(family_of(0, s), x, y);
    let n = stored_of(h);
    let r = value_to(
        s,
        x,
        xi,
        xf,
        y,
        yi,
        yf,
        h,
        n,
        coefficients,
        pool,
        at,
        scratch,
    );
    shape_operands::pad(pool, at + n, at + room);
    pack(r)
}

// The same of operands that lie before that part.
pub fn perform(
    s: Step,
    xw: u64,
    xi: bool,
    xf: usize,
    yw: u64,
    yi: bool,
    yf: usize,
    coefficients: &[f64],
    pool: &mut [f64],
    at: usize,
    room: usize,
    scratch: &mut [f64],
) -> u64
    requires fact_1 { Ready s (header_of xw) (header_of yw) room }
    requires fact_2 { Placed (header_of xw) xi xf (header_of yw) yi yf at (length coefficients.now) }
    requires fact_3 { Lent room at (length pool.old) (length scratch.old) }
    ensures word { result ≡ word_of (value_of s (lying xi coefficients.now (take at pool.old) xf (header_of xw))
        (lying yi coefficients.now (take at pool.old) yf (header_of yw))).head }
    ensures kept { Kept at (at + room)
        (padded room (value_of s (lying xi coefficients.now (take at pool.old) xf (header_of xw))
        (lying yi coefficients.now (take at pool.old) yf (header_of yw))).coeffs)
        pool.old pool.new }
    ensures spent { length scratch.new ≡ length scratch.old }
{
    perform_beside(
        s,
        xw,
        xi,
        xf,
        yw,
        yi,
        yf,
        coefficients,
        pool,
        at,
        room,
        scratch,
    )
}
