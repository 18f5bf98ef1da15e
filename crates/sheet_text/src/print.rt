// Printing into lent memory. Each function puts its text from a place on and answers the place behind it.
ghost use Rattle.std.specs.Prelude.{◌≡◌, [], ◌∷◌, map, ◌+◌, ◌*◌, ◌≤◌, ◌<◌, length};
ghost use Rattle.std.specs.Float.Ieee.{to_bits};
ghost use Rattle.std.specs.Float.{binary64};
ghost use Rattle.lists.specs.Table.{table};
ghost use Rattle.model_texts.specs.Hex.{digit_for, hex_digit, hex_line, hex_lines};
ghost use Rattle.model_texts.specs.Printed.{last_digit, decimal};
ghost use Rattle.sheet_text.specs.Put.{Put};

pub fn put_byte(b: u8, at: usize, to: &mut [u8]) -> usize
    requires { at < length to.old }
    ensures { Put at (b ∷ []) to.old to.new result }
{
    to[at] = b;
    at + 1
}

pub fn put_bytes(bytes: &[u8], at: usize, to: &mut [u8]) -> usize
    requires { at + length bytes.now ≤ length to.old }
    ensures { Put at bytes.now to.old to.new result }
{
    let end = at + bytes.len();
    to[at..end].copy_from_slice(bytes);
    end
}

pub fn put_spaces(n: usize, at: usize, to: &mut [u8]) -> usize
    requires { at + n ≤ length to.old }
    ensures { Put at (table n (λ k. 32)) to.old to.new result }
{
    to[at..at + n].fill(32);
    at + n
}

// The last decimal digit of n.
fn last_digit(n: u64) -> u8
    ensures { result ≡ last_digit n }
{
    48 + (n % 10) as u8
}

// A number in decimal: the digits before the last one, then the last one.
pub fn put_decimal(n: u64, at: usize, to: &mut [u8]) -> usize
    requires { at + length (decimal n) ≤ length to.old }
    ensures { Put at (decimal n) to.old to.new result }
{
    if n < 10 {
        return put_byte(last_digit(n), at, to);
    }
    let next = put_decimal(n / 10, at, to);
    put_byte(last_digit(n), next, to)
}

// The digit that says d.
pub fn digit_for(d: u8) -> u8
    requires { d < 16 }
    ensures { result ≡ digit_for d }
{
    if d < 10 { 48 + d } else { 87 + d }
}

// Digit number k of a word, most significant first.
pub fn hex_digit(word: u64, k: u64) -> u8
    requires { k < 16 }
    ensures { result ≡ hex_digit word k }
{
    digit_for(((word >> (60 - 4 * k)) % 16) as u8)
}

pub fn put_word(word: u64, at: usize, to: &mut [u8]) -> usize
    requires { at + 16 ≤ length to.old }
    ensures { Put at (table 16 (hex_digit word)) to.old to.new result }
{
    for k in 0..16 {
        to[at + k] = hex_digit(word, k as u64);
    }
    at + 16
}

// The line of a word.
pub fn put_line(word: u64, at: usize, to: &mut [u8]) -> usize
    requires { at + 17 ≤ length to.old }
    ensures { Put at (hex_line word) to.old to.new result }
{
    let end = put_word(word, at, to);
    put_byte(10, end, to)
}

// A line for each float.
pub fn put_floats(xs: &[f64], at: usize, to: &mut [u8]) -> usize
    requires { at + 17 * length xs.now ≤ length to.old }
    ensures { Put at (hex_lines (map (to_bits binary64) xs.now)) to.old to.new result }
{
    let mut next = at;
    for x in xs {
        next = put_line(sheet_bits::word_of(*x), next, to);
    }
    next
}
