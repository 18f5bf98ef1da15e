// Values of an array file in either order (document 02, W2 and W12), at the places of a polynomial: last index fastest.
#![tactic(auto)]

ghost use Rattle.std.specs.Prelude.{◌≡◌, ◌+◌, ◌*◌, ◌≤◌, length};
ghost use Rattle.lists.specs.Table.{table};
ghost use Rattle.model.specs.Header.{count};
ghost use Rattle.shape_words.specs.Lengths.{Lengths, Inside};
ghost use Rattle.npy_files.specs.Values.{bytes_of, value_at, column_place};
ghost use Rattle.npy_columns.specs.Places.{SamePlaces};
ghost use Rattle.npy_columns.specs.Lines.{width_of, order_of, line_of, Along, ColumnsFit, columns_of, values_of};

use npy_bytes::{fill, fill_4, float_of_4, little_4, little_8};
use shape_words::places::{next_row, place_of};
use sheet_bits::float_of;

// Value number v behind the place `at`, of WIDTH bytes.
fn value<const WIDTH: usize>(file: &[u8], at: usize, v: usize) -> f64
    requires { at + bytes_of (width_of WIDTH) * v + bytes_of (width_of WIDTH) ≤ length file.now }
    ensures { result ≡ value_at (width_of WIDTH) file.now at v }
{
    if WIDTH == 4 {
        float_of_4(little_4(file, at + 4 * v))
    } else {
        float_of(little_8(file, at + 8 * v))
    }
}

// Values `step` values apart, from value number `from` on.
fn line<const WIDTH: usize>(file: &[u8], at: usize, from: usize, step: usize, out: &mut [f64])
    requires { Along (width_of WIDTH) at from step (length out.old) (length file.now) }
    ensures { out.new ≡ table (length out.old) (line_of (width_of WIDTH) file.now at from step) }
{
    let mut v = from;
    for x in out.iter_mut() {
        *x = value::<WIDTH>(file, at, v);
        v += step;
    }
}

// Which value stands at an index where the first one is the fastest: the place of the transposed index.
fn column_of(n: [usize; 4], i: [usize; 4]) -> usize
    requires fact_1 { Lengths n }
    requires fact_2 { Inside n i }
    ensures { result ≡ column_place n i }
{
    place_of([n[3], n[2], n[1], n[0]], [i[3], i[2], i[1], i[0]])
}

// Row by row, each from the index that it begins with.
fn rows<const WIDTH: usize>(file: &[u8], at: usize, n: [usize; 4], out: &mut [f64])
    requires fact_1 { Lengths n }
    requires fact_2 { ColumnsFit (width_of WIDTH) at (count n) (length file.now) (length out.old) }
    ensures { out.new ≡ table (count n) (columns_of (width_of WIDTH) file.now at n) }
{
    let long = n[3];
    // so many rows, and so far apart the values of one
    let step = n[0] * n[1] * n[2];
    let mut i = [0usize; 4];
    for r in 0..step {
        let p = r * long;
        let from = column_of(n, i);
        line::<WIDTH>(file, at, from, step, &mut out[p..p + long]);
        let next = next_row(n, i);
        i = next;
    }
}

// A last length of 1 is put first: the same places, and longer rows.
fn roll(n: [usize; 4]) -> [usize; 4]
    requires { Lengths n }
    ensures { SamePlaces n result }
{
    if n[3] != 1 {
        return n;
    }
    [1, n[0], n[1], n[2]]
}

// All values of a file in column order, of WIDTH bytes each.
fn fill_columns<const WIDTH: usize>(file: &[u8], at: usize, n: [usize; 4], out: &mut [f64])
    requires fact_1 { Lengths n }
    requires fact_2 { ColumnsFit (width_of WIDTH) at (count n) (length file.now) (length out.old) }
    ensures { out.new ≡ table (count n) (columns_of (width_of WIDTH) file.now at n) }
{
    let a = roll(n);
    let b = roll(a);
    let c = roll(b);
    rows::<WIDTH>(file, at, c, out);
}

// All values of a file, of `width` bytes each; columns where `order` is 2. Numbers and no enums: the contract reads
// them so, by `width_of` and `order_of`.
pub fn fill_as(width: usize, order: usize, file: &[u8], at: usize, n: [usize; 4], out: &mut [f64])
    requires fact_1 { Lengths n }
    requires fact_2 { ColumnsFit (width_of width) at (count n) (length file.now) (length out.old) }
    ensures { out.new ≡ table (count n) (values_of (width_of width) (order_of order) file.now at n) }
{
    if order == 2 {
        if width == 4 {
            fill_columns::<4>(file, at, n, out);
        } else {
            fill_columns::<8>(file, at, n, out);
        }
        return;
    }
    if width == 4 {
        fill_4(file, at, out);
        return;
    }
    fill(file, at, out);
}
