// An answer of `recipe` (document 01), read for the program `to_npy` (document 02, W2).
#![tactic(auto)]

ghost use Rattle.std.specs.Prelude.{◌≡◌, ◌+◌, ◌*◌, ◌≤◌, length};
ghost use Rattle.std.specs.Float.Ieee.{of_bits};
ghost use Rattle.std.specs.Float.{binary64};
ghost use Rattle.lists.specs.Every.{every};
ghost use Rattle.lists.specs.Table.{table};
ghost use Rattle.model_texts.specs.Hex.{is_line, word_at};
ghost use Rattle.npy_answers.specs.Answer.{is_decimal, lines_start, is_answer, is_numeral, is_refusal};

use gates::stored_of;
use npy_bytes::starts_with;
use shape_words::word::{header_of, is_good};
use sheet_text::line::{byte_at, is_line, word_at};

fn is_decimal(b: u8) -> bool
    ensures { result ≡ is_decimal b }
{
    (48 <= b) & (b <= 57)
}

// Where the lines of words begin: behind `done `, one digit or two, and a newline; 0 where a text does not
// begin so, and no Option: its contract names the number.
pub fn lines_start(text: &[u8]) -> usize
    ensures { result ≡ lines_start text.now }
{
    if !(starts_with(text, b"done ") & is_decimal(byte_at(text, 5))) {
        return 0;
    }
    if byte_at(text, 6) == 10 {
        return 7;
    }
    if is_decimal(byte_at(text, 6)) & (byte_at(text, 7) == 10) {
        return 8;
    }
    0
}

// Whether n lines stand behind the first one, which begins at `start`.
fn all_lines(text: &[u8], start: usize, n: usize) -> bool
    requires { (start ≤ 8) × (n ≤ 4096) }
    ensures { result ≡ every (λ k. is_line text.now (start + 17 * k)) n 1 }
{
    for k in 0..n {
        if !is_line(text, start + 17 * (1 + k)) {
            return false;
        }
    }
    true
}

// Whether a text is an answer that is done.
pub fn is_answer(text: &[u8]) -> bool
    ensures { result ≡ is_answer text.now }
{
    let start = lines_start(text);
    if start == 0 {
        return false;
    }
    if !is_line(text, start) {
        return false;
    }
    let head = word_at(text, start);
    if !is_good(head) {
        return false;
    }
    let count = stored_of(header_of(head));
    if text.len() != start + 17 * (1 + count) {
        return false;
    }
    all_lines(text, start, count)
}

// The floats behind the first line, which begins at `start`, as many as `to` has places.
pub fn fill_values(text: &[u8], start: usize, to: &mut [f64])
    requires { (start ≤ 8) × (length to.old ≤ 4096) }
    ensures { to.new ≡ table (length to.old) (λ j. of_bits binary64 (word_at text.now (start + 17 * (1 + j)))) }
{
    for (k, x) in to.iter_mut().enumerate() {
        *x = sheet_bits::float_of(word_at(text, start + 17 * (1 + k)));
    }
}

// Whether n bytes from the ninth on are digits and spaces.
fn all_numerals(text: &[u8], n: usize) -> bool
    requires { n ≤ 64 }
    ensures { result ≡ every (is_numeral text.now) n 8 }
{
    for k in 0..n {
        let b = byte_at(text, 8 + k);
        if !(is_decimal(b) | (b == 32)) {
            return false;
        }
    }
    true
}

// Whether a text is the line of a refusal.
pub fn is_refusal(text: &[u8]) -> bool
    ensures { result ≡ is_refusal text.now }
{
    if !starts_with(text, b"refused ") {
        return false;
    }
    let n = text.len();
    if n < 9 {
        return false;
    }
    if 64 < n {
        return false;
    }
    if byte_at(text, n - 1) != 10 {
        return false;
    }
    all_numerals(text, n - 9)
}
