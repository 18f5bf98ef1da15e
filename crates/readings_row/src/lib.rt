// One row of a variable taken out of a block.
#![tactic(auto)]

ghost use Rattle.std.specs.Prelude.{◌≡◌, ◌<◌, length, set};
ghost use Rattle.lists.specs.Table.{table};
ghost use Rattle.model.specs.Header.{count, stored};
ghost use Rattle.model.specs.Places.{index};
ghost use Rattle.model.specs.Refusals.{padded};
ghost use Rattle.model.specs.Poly.{poly, block, read_at};
ghost use Rattle.model.specs.Readings.{coefficients_of_term};
ghost use Rattle.readings_row.specs.Rows.{Picking};
ghost use Rattle.readings_row.specs.Stretches.{Stretched, stretch_at};
ghost use Rattle.readings_row.specs.Term.{Termed};

use blocks::copy;
use model::Header;

// Every `step`-th place from `from` on.
fn pick_every(a: &[f64], from: usize, step: usize, to: &mut [f64])
    requires { Stretched from 1 step (length a.now) (length to.old) }
    ensures { to.new ≡ table (length to.old) (stretch_at a.now from 1 step) }
{
    let mut at = from;
    for x in to.iter_mut() {
        *x = a[at];
        at += step;
    }
}

// Stretches of `width` places, `step` apart, from `from` on.
fn pick_stretches(a: &[f64], from: usize, width: usize, step: usize, to: &mut [f64])
    requires { Stretched from width step (length a.now) (length to.old) }
    ensures { to.new ≡ table (length to.old) (stretch_at a.now from width step) }
{
    let mut k = 0;
    let mut at = from;
    // Stays a while: tried as `for q in 0..to.len() / width`, and a tenth to a half slower by the division.
    while k < to.len() {
        copy(&a[at..at + width], &mut to[k..k + width]);
        k += width;
        at += step;
    }
}

// The row `order` of v, where the lengths c cut nothing: its places lie in stretches as long as v's stride.
fn pick_whole(a: &[f64], n: [usize; 4], v: usize, order: usize, to: &mut [f64])
    requires { Picking n (set n v 1) v order (length a.now) (length to.old) }
    ensures { to.new ≡ table (count (set n v 1)) (λ k. read_at (block n a.now) (set (index (set n v 1) k) v order)) }
{
    let s = shape_words::places::strides_of(n);
    let width = s[v];
    let step = n[v] * width;
    if width == 1 {
        pick_every(a, order, step, to);
    } else {
        pick_stretches(a, order * width, width, step, to);
    }
}

// The row `order` of v inside the lengths c, row by row of the last variable.
fn pick_rows(a: &[f64], n: [usize; 4], c: [usize; 4], v: usize, order: usize, to: &mut [f64])
    requires { Picking n c v order (length a.now) (length to.old) }
    ensures { to.new ≡ table (count c) (λ k. read_at (block n a.now) (set (index c k) v order)) }
{
    let width = c[3];
    let mut i = [0usize; 4];
    for row in 0..c[0] * c[1] * c[2] {
        let mut j = i;
        j[v] = order;
        let from = shape_words::places::place_of(n, j);
        let at = row * width;
        copy(&a[from..from + width], &mut to[at..at + width]);
        let next = shape_words::places::next_row(c, i);
        i = next;
    }
}

// The row `order` of the variable v of a block with the lengths n, which stores it; c are the lengths of what is
// written, 1 in v.
pub fn pick(a: &[f64], n: [usize; 4], c: [usize; 4], v: usize, order: usize, to: &mut [f64])
    requires { Picking n c v order (length a.now) (length to.old) }
    ensures { to.new ≡ table (count c) (λ k. read_at (block n a.now) (set (index c k) v order)) }
{
    let mut row = n;
    row[v] = 1;
    if blocks::is_same(row, c) {
        pick_whole(a, n, v, order, to);
    } else {
        pick_rows(a, n, c, v, order, to);
    }
}

// The row `order` of the variable v, with +0.0 past it: h is the header of `a`, r the announced one; answers the true
// one.
pub fn take_term(a: &[f64], h: Header, r: Header, v: usize, order: usize, to: &mut [f64]) -> Header
    requires { Termed h r v (length a.now) (length to.old) }
    ensures head { result ≡ (coefficients_of_term v order (poly h a.now)).head }
    ensures places { to.new ≡ padded (stored r) (coefficients_of_term v order (poly h a.now)).coeffs }
{
    let n = h.lengths;
    if n[v] <= order {
        blocks::clear(to);
        return Header::with_lengths(r, [1, 1, 1, 1]);
    }
    let c = r.lengths;
    pick(a, n, c, v, order, to);
    r
}
