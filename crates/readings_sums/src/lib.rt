// Sums of stored coefficients from +0.0 upwards, and what is read off them, on buffers that are long enough.
#![tactic(auto)]

ghost use Rattle.std.specs.Prelude.{◌≡◌, ◌+◌, ◌≤◌, min, length};
ghost use Rattle.model.specs.Readings.{sum_to};
ghost use Rattle.model.specs.Tail.{tail_of};
ghost use Rattle.model.specs.Least.{least_of};

// The sum of the first n places.
pub fn sum_to(a: &[f64], n: usize) -> f64
    requires { n ≤ length a.now }
    ensures { result ≡ sum_to a.now n }
{
    let mut sum = 0.0;
    for i in 0..n {
        sum += a[i];
    }
    sum
}

// How many of n places the numbers 0 to k name.
fn places_to(n: usize, k: usize) -> usize
    ensures { result ≡ min n (k + 1) }
{
    if k < n {
        return k + 1;
    }
    n
}

// The tail of n places from k on, as a part of a total.
pub fn tail_at(a: &[f64], n: usize, k: usize, total: f64) -> f64
    requires { min n (k + 1) ≤ length a.now }
    ensures { result ≡ tail_of a.now n k total }
{
    let many = places_to(n, k);
    (total - sum_to(a, many)) / total
}

// The least of n places whose running sum is at least q; n where there is none.
pub fn least_at(a: &[f64], n: usize, q: f64) -> usize
    requires { n ≤ length a.now }
    ensures { result ≡ least_of a.now n q }
{
    let mut sum = 0.0;
    for k in 0..n {
        sum += a[k];
        if q <= sum {
            return k;
        }
    }
    n
}
