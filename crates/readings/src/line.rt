// Whether a block is linear, and in which variable: the readings ask, and the product.
ghost use Rattle.std.specs.Prelude.{◌≡◌, ◌&&◌, length, leb};
ghost use Rattle.model.specs.Header.{count};
ghost use Rattle.model.specs.Poly.{block};
ghost use Rattle.model.specs.Linear.{zeros_but, linear};
ghost use Rattle.shape_words.specs.Lengths.{Lengths};

use model::Linear;

// Whether every place but the first and the one at s holds a zero.
fn zeros_but(a: &[f64], s: usize) -> bool
    ensures { result ≡ zeros_but a.now s (length a.now) }
{
    for (k, x) in a.iter().enumerate() {
        if !((k == 0) | (k == s) | (*x == 0.0)) {
            return false;
        }
    }
    true
}

// Two rows at least, of which row 1 begins at s, and nothing but their first places.
fn fits_in(a: &[f64], len: usize, s: usize) -> bool
    ensures { result ≡ (leb 2 len && zeros_but a.now s (length a.now)) }
{
    if 2 <= len {
        return zeros_but(a, s);
    }
    false
}

// The first variable in which the block with the lengths n is linear.
pub fn linear_of(a: &[f64], n: [usize; 4]) -> Linear
    requires fact_1 { Lengths n }
    requires fact_2 { length a.now ≡ count n }
    ensures { result ≡ linear (block n a.now) }
{
    let s = shape_words::places::strides_of(n);
    for v in 0..4 {
        let t = s[v];
        if fits_in(a, n[v], t) {
            return Linear {
                yes: true,
                c: a[0],
                m: a[t],
                variable: v,
            };
        }
    }
    Linear::none()
}
