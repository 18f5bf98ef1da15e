// Billionths as a text, and a word that is not printed in decimal.
ghost use Rattle.std.specs.Prelude.{◌≡◌, ◌∷◌, ◌+◌, ◌*◌, ◌<◌};
ghost use Rattle.report_lines.specs.Puts.{Puts};
ghost use Rattle.model_texts.specs.Printed.{decimal};
ghost use Rattle.model_decimals.specs.Text.{trimmed_places, point_text, rounded_text, bits_text};

use crate::part::Billionths;
use report_lines::put::{put, put_either, put_if, put_number};
use sheet_text::print::{put_decimal, put_word};

// A 1 and the nine digits of a part, without the zeros at their end.
fn trimmed(part: u64) -> u64
    requires { (0 < part) × (part < 1000000000) }
    ensures { decimal result ≡ 49 ∷ trimmed_places 9 part }
{
    let mut m = 1000000000 + part;
    // No `for`: the number of turns is how often 10 divides, which only the divisions say.
    while m % 10 == 0 {
        m = m / 10;
    }
    m
}

// The point and the digits behind it.
fn put_point(part: u64, at: usize, to: &mut [u8]) -> usize
    requires { part < 1000000000 }
    ensures { Puts (point_text part) at to.old to.new result }
{
    if part == 0 {
        return at;
    }
    let mut digits = [0u8; 20];
    let end = put_decimal(trimmed(part), 0, &mut digits);
    digits[0] = 46;
    put(&digits[..end], at, to)
}

// With the sign, and ~ in front where they are not the very number.
pub fn put_billionths(minus: bool, n: Billionths, at: usize, to: &mut [u8]) -> usize
    requires { n.part < 1000000000 }
    ensures { Puts (rounded_text minus (n.whole * 1000000000 + n.part) n.exact) at to.old to.new result }
{
    let whole = n.whole;
    let part = n.part;
    let exact = n.exact;
    if !exact & ((whole == 0) & (part == 0)) {
        return put_either(minus, b">-0.000000001", b"<0.000000001", at, to);
    }
    let marked = put_if(!exact, b"~", at, to);
    let signed = put_if(minus, b"-", marked, to);
    let next = put_number(whole as usize, signed, to);
    put_point(part, next, to)
}

// The hex digits of a word, and that they are its bits.
pub fn put_bits(word: u64, at: usize, to: &mut [u8]) -> usize
    ensures { Puts (bits_text word) at to.old to.new result }
{
    let mut digits = [0u8; 16];
    let end = put_word(word, 0, &mut digits);
    let next = put(b"bits 0x", at, to);
    put(&digits[..end], next, to)
}
