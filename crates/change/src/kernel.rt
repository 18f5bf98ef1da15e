// The rows of one variable. All places that share the numbers of the variables before v are a part: rows of `s` places,
// one after the other.
ghost use Rattle.std.specs.Prelude.{◌≡◌, ◌+◌, ◌*◌, ◌≤◌, length};
ghost use Rattle.lists.specs.Table.{table};
ghost use Rattle.model.specs.Header.{stored};
ghost use Rattle.model.specs.Refusals.{padded};
ghost use Rattle.model.specs.declared.Family.TheVariants.{Shift};
ghost use Rattle.model.specs.Poly.{poly, held};
ghost use Rattle.model.specs.Answers.{answered, out_after};
ghost use Rattle.model.specs.Gates.{announced_one};
ghost use Rattle.model.specs.Shifts.{shift_down_poly, shift_gate};
ghost use Rattle.product_linear.specs.Rows.{Rows};
ghost use Rattle.change.specs.Room.{Shifted, PartRoom};
ghost use Rattle.change.specs.Drop.{kept_at, dropped_at, dropped_flat};
ghost use Rattle.change_factors.specs.Scale.{scaled_poly};

use model::{Answer, Family, Header};
use shape_words::word::pack;

// The rows from m on, the first of them with the sum of those before it.
fn kept_rows(a: &[f64], s: usize, m: usize, to: &mut [f64])
    requires { (s ≤ length to.old) × (m * s + length to.old ≡ length a.now) }
    ensures { to.new ≡ table (length to.old) (kept_at s m a.now) }
{
    let next = change_sums::front_row(a, m, &mut to[..s]);
    blocks::copy(&a[next..], &mut to[s..]);
}

// One part: the sum of all m rows, or the rows from m on.
fn drop_part(all: bool, a: &[f64], s: usize, m: usize, to: &mut [f64])
    requires { PartRoom all s m (length a.now) (length to.old) }
    ensures { to.new ≡ table (length to.old) (dropped_at all s m a.now) }
{
    if all {
        change_sums::sum_rows(a, m, to);
        return;
    }
    kept_rows(a, s, m, to);
}

// Part by part, each of `width` places in `a` and of `step` in `to`.
fn drop_parts(all: bool, a: &[f64], s: usize, m: usize, width: usize, step: usize, to: &mut [f64])
    requires fact_1 { Rows s width step (length a.now) (length to.old) }
    requires fact_2 { PartRoom all s m width step }
    ensures { to.new ≡ table (length to.old) (dropped_flat all s m width step a.now) }
{
    let mut from = 0;
    let mut at = 0;
    // Stays a while: tried as `for t in 0..to.len() / step`, and up to a fifth slower on small parts by the division.
    while at < to.len() {
        drop_part(all, &a[from..from + width], s, m, &mut to[at..at + step]);
        from += width;
        at += step;
    }
}

// The rows of v moved down by n: h is the header of `a`, r the announced one.
pub fn shift_rows(a: &[f64], h: Header, r: Header, v: usize, n: usize, to: &mut [f64])
    requires { Shifted h r v n (length a.now) (length to.old) }
    ensures { to.new ≡ (shift_down_poly v n (poly h a.now)).coeffs }
{
    let l = h.lengths;
    let c = r.lengths;
    let strides = shape_words::places::strides_of(l);
    let s = strides[v];
    if l[v] <= n + 1 {
        drop_parts(true, a, s, l[v], l[v] * s, c[v] * s, to);
        return;
    }
    drop_parts(false, a, s, n, l[v] * s, c[v] * s, to);
}

// The derivative, or the expansion of the coefficient n where `plain`, with +0.0 past it: h is the header of `a`, r the
// announced one; answers the true one.
pub fn take_rows(
    plain: bool,
    a: &[f64],
    h: Header,
    r: Header,
    v: usize,
    n: usize,
    to: &mut [f64],
) -> Header
    requires { Shifted h r v n (length a.now) (length to.old) }
    ensures head { result ≡ (scaled_poly plain v n (poly h a.now)).head }
    ensures places { to.new ≡ padded (stored r) (scaled_poly plain v n (poly h a.now)).coeffs }
{
    let l = h.lengths;
    if l[v] <= n {
        blocks::clear(to);
        return Header::with_lengths(r, [1, 1, 1, 1]);
    }
    let c = r.lengths;
    let strides = shape_words::places::strides_of(l);
    let s = strides[v];
    change_factors::scale_rows(
        plain,
        a,
        change_factors::first_factor(plain, n),
        n,
        s,
        l[v] * s,
        c[v] * s,
        to,
    );
    r
}

// The derivative, or the expansion of the coefficient n where `plain`: refusals 1, 2, 3, 4, 5.
pub fn scaled(plain: bool, head: u64, a: &[f64], v: usize, n: usize, out: &mut [f64]) -> Answer
    ensures answer { result ≡ answered (shift_gate head a.now v n out.old) (scaled_poly plain v n (held head a.now)) }
    ensures written { out.new ≡ out_after (shift_gate head a.now v n out.old)
        (announced_one (Shift v n) head) (scaled_poly plain v n (held head a.now)) out.old }
{
    let o = gates::open_in(Family::Shift(v, n), v, n, head, a.len(), out.len())?;
    let h = o.a;
    let r = o.told;
    let given = o.na;
    let count = o.n;
    let x = take_rows(plain, &a[..given], h, r, v, n, &mut out[..count]);
    Ok(pack(x))
}
