// Bytes of array files as numbers and floats, and back.
#![tactic(auto)]

ghost use Rattle.std.specs.Prelude.{true, ◌≡◌, ◌+◌, ◌*◌, ◌^◌, ◌≤◌, ◌<◌, length};
ghost use Rattle.lists.specs.Table.{table};
ghost use Rattle.std.specs.Float.Ieee.{of_bits};
ghost use Rattle.std.specs.Float.{binary32};
ghost use Rattle.npy_grammar.specs.Text.{eight, four};
ghost use Rattle.npy_files.specs.Frame.{little, starts_with};
ghost use Rattle.npy_files.specs.Values.{value_at};
ghost use Rattle.npy_files.specs.Writes.{low_bytes, data_out};
ghost use Rattle.npy_bytes.specs.Plain.{Plain};
ghost use Rattle.sheet_text.specs.Put.{Put};

use sheet_bits::{float_of, word_of};
use sheet_text::print::put_bytes;

// Whether a file starts with these bytes.
pub fn starts_with(file: &[u8], word: &[u8]) -> bool
    ensures { result ≡ starts_with word.now file.now }
{
    file.starts_with(word)
}

fn wide(b: u8) -> u64
    ensures { (result ≡ b) × (result ≤ 255) }
{
    b as u64
}

// The number in two bytes.
pub fn little_2(file: &[u8], at: usize) -> u64
    requires { at + 2 ≤ length file.now }
    ensures { (result ≡ little 2 file.now at) × (result ≤ 65535) }
{
    wide(file[at]) + 256 * wide(file[at + 1])
}

// A byte above the k bits of a number.
fn joined(low: u64, b: u8, k: u64) -> u64
    requires { (low < 2 ^ k) × (k ≤ 56) }
    ensures { (result ≡ b * 2 ^ k + low) × (result < 2 ^ (k + 8)) }
{
    low | (wide(b) << k)
}

// The number in four bytes.
pub fn little_4(file: &[u8], at: usize) -> u64
    requires { at + 4 ≤ length file.now }
    ensures { (result ≡ little 4 file.now at) × (result < 4294967296) }
{
    let b = joined(wide(file[at]), file[at + 1], 8);
    let c = joined(b, file[at + 2], 16);
    joined(c, file[at + 3], 24)
}

// The word in eight bytes. The bytes are joined one by one: the compiler makes one load of that, and vectors of loops
// over it.
pub fn little_8(file: &[u8], at: usize) -> u64
    requires { at + 8 ≤ length file.now }
    ensures { result ≡ little 8 file.now at }
{
    let b = joined(wide(file[at]), file[at + 1], 8);
    let c = joined(b, file[at + 2], 16);
    let d = joined(c, file[at + 3], 24);
    let e = joined(d, file[at + 4], 32);
    let f = joined(e, file[at + 5], 40);
    let g = joined(f, file[at + 6], 48);
    joined(g, file[at + 7], 56)
}

// Whether no word of n has an exponent of all ones, as NaNs and infinities have. No test a word: one behind the loop.
fn is_plain(file: &[u8], at: usize, n: usize) -> bool
    requires { at + 8 * n ≤ length file.now }
    ensures { result ≡ true → Plain file.now at n }
{
    let mut seen: u64 = 0;
    for k in 0..n {
        seen |= little_8(file, at + 8 * k) % 9223372036854775808 + 4503599627370496;
    }
    seen < 9223372036854775808
}

// Words that are plain, as the floats they are.
fn take_words(file: &[u8], at: usize, out: &mut [f64])
    requires fact_1 { at + 8 * length out.old ≤ length file.now }
    requires fact_2 { Plain file.now at (length out.old) }
    ensures { out.new ≡ table (length out.old) (value_at eight file.now at) }
{
    for (k, x) in out.iter_mut().enumerate() {
        *x = f64::from_bits(little_8(file, at + 8 * k));
    }
}

// Any words: each is tested for a NaN.
fn judge_words(file: &[u8], at: usize, out: &mut [f64])
    requires { at + 8 * length out.old ≤ length file.now }
    ensures { out.new ≡ table (length out.old) (value_at eight file.now at) }
{
    for (k, x) in out.iter_mut().enumerate() {
        *x = float_of(little_8(file, at + 8 * k));
    }
}

// The floats from a place on, as many as `out` has places.
pub fn fill(file: &[u8], at: usize, out: &mut [f64])
    requires { at + 8 * length out.old ≤ length file.now }
    ensures { out.new ≡ table (length out.old) (value_at eight file.now at) }
{
    if is_plain(file, at, out.len()) {
        take_words(file, at, out);
    } else {
        judge_words(file, at, out);
    }
}

// The float that an f32's word means. A NaN's pattern becomes a NaN.
pub fn float_of_4(word: u64) -> f64
    requires { word < 4294967296 }
    ensures { result ≡ of_bits binary32 word }
{
    if 2139095040 < word % 2147483648 {
        return 0.0 / 0.0;
    }
    f32::from_bits(word as u32) as f64
}

// The same of f32s. Not one with `judge_words`: a width would have to choose the float, the bytes and their place, and
// only the line of the loop is shared.
pub fn fill_4(file: &[u8], at: usize, out: &mut [f64])
    requires { at + 4 * length out.old ≤ length file.now }
    ensures { out.new ≡ table (length out.old) (value_at four file.now at) }
{
    for (k, x) in out.iter_mut().enumerate() {
        *x = float_of_4(little_4(file, at + 4 * k));
    }
}

// The bytes of floats; answers the place behind them.
pub fn put_data(xs: &[f64], at: usize, to: &mut [u8]) -> usize
    requires { at + 8 * length xs.now ≤ length to.old }
    ensures { Put at (data_out xs.now) to.old to.new result }
{
    let mut next = at;
    for x in xs {
        next = put_bytes(&word_of(*x).to_le_bytes(), next, to);
    }
    next
}
