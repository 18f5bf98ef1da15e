// What every kernel does with lent memory: copy, clear, cut, join. Each writes all of the part that it is lent.
#![tactic(auto)]

ghost use Rattle.std.specs.Prelude.{◌≡◌, ℕ, ◌≤◌, ◌<◌, length, get_or, take};
ghost use Rattle.std.specs.Float.{nan};
ghost use Rattle.lists.specs.Table.{table};
ghost use Rattle.model.specs.Header.{count};
ghost use Rattle.model.specs.Places.{index};
ghost use Rattle.model.specs.Refusals.{zeros};
ghost use Rattle.model.specs.Negate.{negated_at};
ghost use Rattle.model.specs.Poly.{block, read_at};
ghost use Rattle.model.specs.Add.{join, join_at, first_joined, turned, place_joined};
ghost use Rattle.model.specs.Add.{joined as joinedPlaces};
ghost use Rattle.blocks.specs.Combine.{Combining, line_sum};
ghost use Rattle.blocks.specs.Two.{Two, Holds, cut_places};
ghost use Rattle.lists.specs.Four.{at};
ghost use Rattle.shape_words.specs.Lengths.{Sizes};
ghost use Rattle.blocks.specs.Rows.{Cutting, Joining, CuttingRows, JoiningRows, line_joined, along_row};
ghost use Rattle.blocks.specs.Same.{same_lengths};
ghost use Rattle.blocks.specs.Merge.{merge, Merged};

// The lengths of two blocks, one inside the other.
#[derive(Clone, Copy)]
struct Nested {
    of: [usize; 4],
    to: [usize; 4],
}

// The front of `from`, for a few places: the library's copy is a call, which takes longer than they do.
fn copy_few(from: &[f64], to: &mut [f64])
    requires { length to.old ≤ length from.now }
    ensures { to.new ≡ take (length to.old) from.now }
{
    for (k, x) in to.iter_mut().enumerate() {
        *x = from[k];
    }
}

// The front of `from`.
pub fn copy(from: &[f64], to: &mut [f64])
    requires { length to.old ≤ length from.now }
    ensures { to.new ≡ take (length to.old) from.now }
{
    let n = to.len();
    if n < 16 {
        copy_few(from, to);
    } else {
        to.copy_from_slice(&from[..n]);
    }
}

// Every place at +0.0.
pub fn clear(to: &mut [f64])
    ensures { to.new ≡ zeros (length to.old) }
{
    to.fill(0.0);
}

// Every place negated.
pub fn turn(to: &mut [f64])
    ensures { to.new ≡ table (length to.old) (negated_at to.old) }
{
    for x in to.iter_mut() {
        *x = -*x;
    }
}

// x + y, or x - y.
pub fn joined(minus: bool, x: f64, y: f64) -> f64
    ensures { result ≡ join minus x y }
{
    if !minus { x + y } else { x - y }
}

// Each place of `to` joined with that of `with`, as far as it reaches.
fn join_line(minus: bool, with: &[f64], to: &mut [f64])
    requires { length with.now ≤ length to.old }
    ensures { to.new ≡ table (length to.old) (line_joined minus with.now to.old) }
{
    for (k, x) in with.iter().enumerate() {
        to[k] = joined(minus, to[k], *x);
    }
}

// Whether the lengths are the same.
pub fn is_same(n: [usize; 4], m: [usize; 4]) -> bool
    ensures { result ≡ same_lengths n m }
{
    n == m
}

// The last two variables taken as one.
fn merged(n: [usize; 4]) -> [usize; 4]
    requires { Sizes n }
    ensures { result ≡ merge n }
{
    [1, n[0], n[1], n[2] * n[3]]
}

// The same places with the longest rows: the variables after the last one that is cut are taken together with it.
fn longest_rows(n: [usize; 4], c: [usize; 4]) -> Nested
    requires fact_1 { Sizes n }
    requires fact_2 { Sizes c }
    ensures { Merged n c result.of result.to }
{
    let mut rows = Nested { of: n, to: c };
    for _ in 0..3 {
        if rows.of[3] != rows.to[3] {
            break;
        }
        rows = Nested {
            of: merged(rows.of),
            to: merged(rows.to),
        };
    }
    rows
}

// Row by row, the places of a block with the lengths n that lie inside the lengths c.
fn load_rows(a: &[f64], n: [usize; 4], c: [usize; 4], to: &mut [f64])
    requires { CuttingRows n c (length a.now) (length to.old) }
    ensures { to.new ≡ table (count c) (λ k. read_at (block n a.now) (index c k)) }
{
    let width = c[3];
    let mut i = [0usize; 4];
    for row in 0..c[0] * c[1] * c[2] {
        let from = shape_words::places::place_of(n, i);
        let at = row * width;
        copy(&a[from..from + width], &mut to[at..at + width]);
        let next = shape_words::places::next_row(c, i);
        i = next;
    }
}

// The places of a block with the lengths n that lie inside the lengths c.
pub fn load(a: &[f64], n: [usize; 4], c: [usize; 4], to: &mut [f64])
    requires { Cutting n c (length a.now) (length to.old) }
    ensures { to.new ≡ table (count c) (λ k. read_at (block n a.now) (index c k)) }
{
    if is_same(n, c) {
        copy(a, to);
        return;
    }
    let rows = longest_rows(n, c);
    load_rows(a, rows.of, rows.to, to);
}

// One row of a block with greater lengths, from the index i on, joined with what a block with the lengths n stores
// there.
fn join_row(minus: bool, a: &[f64], n: [usize; 4], i: [usize; 4], to: &mut [f64])
    requires fact_1 { Sizes n }
    requires fact_2 { (count n ≤ length a.now) × (at n 3 ≤ length to.old) }
    requires fact_3 { at i 3 ≡ 0 }
    ensures { to.new ≡ table (length to.old)
        (λ k. join_at minus (get_or to.old k nan) (block n a.now) (along_row i k)) }
{
    if shape_words::places::is_inside(n, i) {
        let from = shape_words::places::place_of(n, i);
        let width = n[3];
        join_line(minus, &a[from..from + width], to);
    }
}

// Row by row, each place of `to`, a block with the lengths r, joined with what a block with the lengths n stores there.
fn join_rows(minus: bool, a: &[f64], n: [usize; 4], r: [usize; 4], to: &mut [f64])
    requires { JoiningRows n r (length a.now) (length to.old) }
    ensures { to.new ≡ table (count r) (λ k. join_at minus (get_or to.old k nan) (block n a.now) (index r k)) }
{
    let width = r[3];
    let mut i = [0usize; 4];
    for row in 0..r[0] * r[1] * r[2] {
        let at = row * width;
        join_row(minus, a, n, i, &mut to[at..at + width]);
        let next = shape_words::places::next_row(r, i);
        i = next;
    }
}

// Each place of `to`, a block with the lengths r, joined with what a block with the lengths n stores there.
pub fn join_block(minus: bool, a: &[f64], n: [usize; 4], r: [usize; 4], to: &mut [f64])
    requires { Joining n r (length a.now) (length to.old) }
    ensures { to.new ≡ table (count r) (λ k. join_at minus (get_or to.old k nan) (block n a.now) (index r k)) }
{
    let rows = longest_rows(n, r);
    join_rows(minus, a, rows.of, rows.to, to);
}

// a with its first place joined with b's.
fn first_joined(minus: bool, a: &[f64], b: &[f64], to: &mut [f64])
    requires fact_1 { (0 < length a.now) × (0 < length b.now) }
    requires fact_2 { length to.old ≡ length a.now }
    ensures { to.new ≡ first_joined minus a.now b.now }
{
    copy(a, to);
    to[0] = joined(minus, a[0], b[0]);
}

// b less a, or with it, at the first place, all of it negated then: a left operand of count 1.
fn turned_joined(minus: bool, a: &[f64], b: &[f64], to: &mut [f64])
    requires fact_1 { (0 < length a.now) × (0 < length b.now) }
    requires fact_2 { length to.old ≡ length b.now }
    ensures { to.new ≡ turned minus (first_joined minus b.now a.now) }
{
    first_joined(minus, b, a, to);
    if minus {
        turn(to);
    }
}

// Each place of `a` added to +0.0, then joined with that of `b`.
fn join_lines(minus: bool, a: &[f64], b: &[f64], to: &mut [f64])
    requires { (length a.now ≡ length to.old) × (length b.now ≡ length to.old) }
    ensures { to.new ≡ table (length to.old) (line_sum minus a.now b.now) }
{
    for (k, y) in to.iter_mut().enumerate() {
        let x = joined(false, 0.0, a[k]);
        *y = joined(minus, x, b[k]);
    }
}

// Two blocks with more than one place, place by place: in one pass where they have the same lengths.
fn join_both(
    minus: bool,
    a: &[f64],
    n: [usize; 4],
    b: &[f64],
    m: [usize; 4],
    r: [usize; 4],
    to: &mut [f64],
)
    requires { Combining n m r (length a.now) (length b.now) (length to.old) }
    ensures { to.new ≡ table (count r) (place_joined minus (block n a.now) (block m b.now) r) }
{
    if is_same(n, m) {
        join_lines(minus, a, b, to);
        return;
    }
    clear(to);
    join_block(false, a, n, r, to);
    join_block(minus, b, m, r, to);
}

// The sum or the difference of two blocks that are cut already, with the lengths n and m; r are the lengths of the
// result.
pub fn combine(
    minus: bool,
    a: &[f64],
    n: [usize; 4],
    b: &[f64],
    m: [usize; 4],
    r: [usize; 4],
    to: &mut [f64],
)
    requires { Combining n m r (length a.now) (length b.now) (length to.old) }
    ensures { to.new ≡ joinedPlaces minus r (block n a.now) (block m b.now) }
{
    if b.len() == 1 {
        first_joined(minus, a, b, to);
        return;
    }
    if a.len() == 1 {
        turned_joined(minus, a, b, to);
        return;
    }
    join_both(minus, a, n, b, m, r, to);
}

// Two operands with the lengths la and lb, cut to the lengths ca and cb: one at the front of `work`, the other from n
// on.
pub fn load_two(
    a: &[f64],
    la: [usize; 4],
    ca: [usize; 4],
    b: &[f64],
    lb: [usize; 4],
    cb: [usize; 4],
    n: usize,
    work: &mut [f64],
)
    requires { Two la ca lb cb n (length a.now) (length b.now) (length work.old) }
    ensures { Holds n (cut_places la ca a.now) (cut_places lb cb b.now) work.new }
{
    let na = shape_words::places::count_of(ca);
    load(a, la, ca, &mut work[..na]);
    let nb = shape_words::places::count_of(cb);
    load(b, lb, cb, &mut work[n..n + nb]);
}
