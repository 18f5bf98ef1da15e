// Floats as people read them: in decimal, at most nine digits behind the point, to the nearest, and ~ in front where
// that is not the float itself (docs/REFERENCE.md, section 10).
#![tactic(auto)]

pub mod part;
pub mod print;
pub mod value;

ghost use Rattle.report_lines.specs.Puts.{Puts};
ghost use Rattle.model_decimals.specs.Text.{float_word_text, float_text};

use crate::print::{put_billionths, put_bits};
use crate::value::number_of;
use report_lines::put::{put, put_if};
use sheet_bits::word_of;

// The text of the float that a word is.
pub fn put_float_of(word: u64, at: usize, to: &mut [u8]) -> usize
    ensures { Puts (float_word_text word) at to.old to.new result }
{
    let exponent = (word >> 52) % 2048;
    let low = word % 4503599627370496;
    if exponent == 2047 {
        if low == 0 {
            let next = put_if(9223372036854775808 <= word, b"-", at, to);
            return put(b"inf", next, to);
        }
        return put(b"nan", at, to);
    }
    if 1085 < exponent {
        return put_bits(word, at, to);
    }
    put_billionths(
        9223372036854775808 <= word,
        number_of(exponent, low),
        at,
        to,
    )
}

// The text of a float.
pub fn put_float(x: f64, at: usize, to: &mut [u8]) -> usize
    ensures { Puts (float_text x) at to.old to.new result }
{
    put_float_of(word_of(x), at, to)
}
