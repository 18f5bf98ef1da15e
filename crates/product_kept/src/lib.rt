// A right factor that leaves the left operand's header as it is: the same variables, limits and cap, and in each
// variable one row, or all rows of the left operand stored.
#![tactic(auto)]

ghost use Rattle.std.specs.Prelude.{◌≡◌};
ghost use Rattle.product_kept.specs.Kept.{keeps_length, keeps_header};

use model::Header;

// In one variable: l and n are the left operand's limit and length, limit and m the right one's.
fn keeps_length(l: usize, n: usize, limit: usize, m: usize) -> bool
    ensures { result ≡ keeps_length l n limit m }
{
    (limit == l) & (1 <= m) & ((m == 1) | ((n == l) & (m <= l)))
}

// Whether a product by y has the header x.
pub fn keeps_header(x: Header, y: Header) -> bool
    ensures { result ≡ keeps_header x y }
{
    let l = x.limits;
    let n = x.lengths;
    let k = y.limits;
    let m = y.lengths;
    (x.vars == y.vars)
        & (x.cap == y.cap)
        & keeps_length(l[0], n[0], k[0], m[0])
        & keeps_length(l[1], n[1], k[1], m[1])
        & keeps_length(l[2], n[2], k[2], m[2])
        & keeps_length(l[3], n[3], k[3], m[3])
}
