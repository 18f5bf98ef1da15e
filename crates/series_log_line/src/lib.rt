// log in one long variable, place by place: it has an order of operations of its own.
#![tactic(auto)]

ghost use Rattle.std.specs.Prelude.{◌≡◌, cond, ◌+◌, ◌-◌, ◌*◌, ◌≤◌, ◌<◌, length, get_or, [], ◌∷◌, ltb};
ghost use Rattle.std.specs.Float.{nan};
ghost use Rattle.lists.specs.Grow.{grow};
ghost use Rattle.model.specs.Refusals.{zero_f};
ghost use Rattle.series_log_line.specs.Line.{NextRoom, LineRoom, first_turn, line_sum, next_place};

// The first turn at the row k: the first j that x, m long, reaches, 1 at least.
pub fn first_turn(k: usize, m: usize) -> usize
    requires { k < 64 }
    ensures { result ≡ first_turn m k }
{
    let lo = product_lines::from(k, m);
    if lo < 1 { 1 } else { lo }
}

// What x, m places long, stores at k: +0.0 past them.
fn stored_or_zero(xs: &[f64], m: usize, k: usize) -> f64
    requires { m ≤ length xs.now }
    ensures { result ≡ cond (ltb k m) (get_or xs.now k nan) zero_f }
{
    if k < m { xs[k] } else { 0.0 }
}

// The sum at the next place, k: (x_(k - j) * done_j) * j, j ascending from the first turn.
fn log_sum(xs: &[f64], m: usize, done: &[f64]) -> f64
    requires { NextRoom m (length xs.now) (length done.now) }
    ensures { result ≡ line_sum m xs.now done.now }
{
    let k = done.len();
    let lo = first_turn(k, m);
    let mut sum = 0.0;
    for j in lo..k {
        sum = sum + xs[k - j] * done[j] * (j as f64);
    }
    sum
}

// The next place of one long variable, from those before it.
fn log_next(xs: &[f64], m: usize, done: &[f64]) -> f64
    requires { NextRoom m (length xs.now) (length done.now) }
    ensures { result ≡ next_place m xs.now done.now }
{
    let k = done.len();
    let d = k as f64;
    let s = log_sum(xs, m, done);
    let x = stored_or_zero(xs, m, k);
    (x * d - s) / xs[0] / d
}

// One long variable: every place after the head.
pub fn log_line(head: f64, xs: &[f64], m: usize, to: &mut [f64])
    requires { LineRoom m (length xs.now) (length to.old) }
    ensures { to.new ≡ grow (length to.old - 1) (next_place m xs.now) (head ∷ []) }
{
    to[0] = head;
    for k in 1..to.len() {
        let z = log_next(xs, m, &to[..k]);
        to[k] = z;
    }
}
