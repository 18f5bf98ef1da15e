// The 128 bytes before the data of an array file that is written (document 02, W2 and W12). Each function
// answers the place behind its text.
#![tactic(auto)]

ghost use Rattle.std.specs.Prelude.{◌≡◌, List, ℕ, ◌+◌, ◌≤◌, length, take, drop};
ghost use Rattle.npy_files.specs.Writes.{followed, listed, closing, tuple_out, dict_out, start_out};
ghost use Rattle.npy_writing.specs.Front.{Shaped, PutShort, PutFront};

use sheet_text::print::{put_byte, put_bytes, put_decimal, put_spaces};

// The numbers of a shape behind the first, a comma and a space before each.
fn put_rest(vars: usize, n: [usize; 4], at: usize, to: &mut [u8]) -> usize
    requires fact_1 { Shaped vars n }
    requires fact_2 { (1 ≤ vars) × (at + 12 ≤ length to.old) }
    ensures { PutShort 12 at (followed (drop 1 (take vars n))) to.old to.new result }
{
    let mut next = at;
    for k in 1..vars {
        next = put_bytes(b", ", next, to);
        next = put_decimal(n[k] as u64, next, to);
    }
    next
}

// The numbers of a shape, a comma and a space between.
fn put_numbers(vars: usize, n: [usize; 4], at: usize, to: &mut [u8]) -> usize
    requires fact_1 { Shaped vars n }
    requires fact_2 { at + 14 ≤ length to.old }
    ensures { PutShort 14 at (listed (take vars n)) to.old to.new result }
{
    if vars == 0 {
        return at;
    }
    let next = put_decimal(n[0] as u64, at, to);
    put_rest(vars, n, next, to)
}

// The comma of a tuple of one number.
fn put_closing(vars: usize, at: usize, to: &mut [u8]) -> usize
    requires { at + 1 ≤ length to.old }
    ensures { (n : List ℕ) → length n ≡ 4 → vars ≤ 4 → PutShort 1 at (closing (take vars n)) to.old to.new result }
{
    if vars == 1 {
        return put_byte(44, at, to);
    }
    at
}

// The shape.
fn put_tuple(vars: usize, n: [usize; 4], at: usize, to: &mut [u8]) -> usize
    requires fact_1 { Shaped vars n }
    requires fact_2 { at + 17 ≤ length to.old }
    ensures { PutShort 17 at (tuple_out (take vars n)) to.old to.new result }
{
    let a = put_byte(40, at, to);
    let b = put_numbers(vars, n, a, to);
    let c = put_closing(vars, b, to);
    put_byte(41, c, to)
}

// The dictionary.
fn put_dict(vars: usize, n: [usize; 4], at: usize, to: &mut [u8]) -> usize
    requires fact_1 { Shaped vars n }
    requires fact_2 { at + 70 ≤ length to.old }
    ensures { PutShort 70 at (dict_out (take vars n)) to.old to.new result }
{
    let a = put_bytes(
        b"{'descr': '<f8', 'fortran_order': False, 'shape': ",
        at,
        to,
    );
    let b = put_tuple(vars, n, a, to);
    put_bytes(b", }", b, to)
}

// The opening bytes, the version and the header's length, of version 1.0 or the newer one, 2.0.
fn put_start(newer: bool, to: &mut [u8]) -> usize
    requires { 12 ≤ length to.old }
    ensures { PutShort 12 0 (start_out newer) to.old to.new result }
{
    if newer {
        return put_bytes(&[147, 78, 85, 77, 80, 89, 2, 0, 116, 0, 0, 0], 0, to);
    }
    put_bytes(&[147, 78, 85, 77, 80, 89, 1, 0, 118, 0], 0, to)
}

// All that stands before the data.
pub fn put_front(newer: bool, vars: usize, n: [usize; 4], to: &mut [u8]) -> usize
    requires fact_1 { Shaped vars n }
    requires fact_2 { 128 ≤ length to.old }
    ensures { PutFront newer (take vars n) to.old to.new result }
{
    let a = put_start(newer, to);
    let b = put_dict(vars, n, a, to);
    let c = put_spaces(127 - b, b, to);
    put_byte(10, c, to)
}
