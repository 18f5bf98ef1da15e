// The smaller limits of two operands, lengths cut to limits, the lengths of a sum and of a product; caps.
ghost use Rattle.std.specs.Prelude.{◌≡◌, min, max};
ghost use Rattle.model.specs.Cap.{min_cap, lower_cap};
ghost use Rattle.model.specs.Limits.{min_limit, min_degrees_p1, cut_to, max_shape, sum_shape};
ghost use Rattle.shape_words.specs.Lengths.{Lengths};

use model::Header;

pub fn least(a: usize, b: usize) -> usize
    ensures { result ≡ min a b }
{
    if a <= b { a } else { b }
}

pub fn most(a: usize, b: usize) -> usize
    ensures { result ≡ max a b }
{
    if a <= b { b } else { a }
}

// The smaller limit of variable k, l among v variables and m among w; the other's, where one operand lacks it.
fn min_limit(v: usize, w: usize, k: usize, l: usize, m: usize) -> usize
    ensures { result ≡ min_limit v w k l m }
{
    if v <= k {
        return m;
    }
    if w <= k {
        return l;
    }
    least(l, m)
}

pub fn min_degrees_p1(a: Header, b: Header) -> [usize; 4]
    ensures { result ≡ min_degrees_p1 a b }
{
    let v = a.vars;
    let w = b.vars;
    let l = a.limits;
    let m = b.limits;
    [
        min_limit(v, w, 0, l[0], m[0]),
        min_limit(v, w, 1, l[1], m[1]),
        min_limit(v, w, 2, l[2], m[2]),
        min_limit(v, w, 3, l[3], m[3]),
    ]
}

// The lengths n cut to the limits l.
pub fn cut_to(l: [usize; 4], n: [usize; 4]) -> [usize; 4]
    ensures { result ≡ cut_to l n }
{
    [
        least(l[0], n[0]),
        least(l[1], n[1]),
        least(l[2], n[2]),
        least(l[3], n[3]),
    ]
}

// The lengths of a sum of operands that are cut already.
pub fn max_shape(n: [usize; 4], m: [usize; 4]) -> [usize; 4]
    ensures { result ≡ max_shape n m }
{
    [
        most(n[0], m[0]),
        most(n[1], m[1]),
        most(n[2], m[2]),
        most(n[3], m[3]),
    ]
}

// The lengths of a product of operands that are cut already to the limits l.
pub fn sum_shape(l: [usize; 4], n: [usize; 4], m: [usize; 4]) -> [usize; 4]
    requires fact_1 { Lengths n }
    requires fact_2 { Lengths m }
    ensures { result ≡ sum_shape l n m }
{
    [
        least(l[0], n[0] + m[0] - 1),
        least(l[1], n[1] + m[1] - 1),
        least(l[2], n[2] + m[2] - 1),
        least(l[3], n[3] + m[3] - 1),
    ]
}

// The smaller cap present, 0 for none.
pub fn min_cap(a: usize, b: usize) -> usize
    ensures { result ≡ min_cap a b }
{
    if a == 0 {
        return b;
    }
    if b == 0 {
        return a;
    }
    least(a, b)
}

// A cap less n, 1 at least; none stays none.
pub fn lower_cap(n: usize, c: usize) -> usize
    ensures { result ≡ lower_cap n c }
{
    if c == 0 {
        return 0;
    }
    if n < c { c - n } else { 1 }
}
