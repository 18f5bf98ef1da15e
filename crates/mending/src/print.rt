// What is printed of a sheet that can be mended: a line for each line whose digits change, and the mended sheet. Each
// function puts its text from a place on and answers the place behind it.
ghost use Rattle.std.specs.Prelude.{◌≡◌, ◌+◌, ◌*◌, ◌≤◌, ◌<◌, eqb, length};
ghost use Rattle.lists.specs.Every.{every};
ghost use Rattle.lists.specs.Table.{table};
ghost use Rattle.model_texts.specs.Hex.{byte_at, hex_digit};
ghost use Rattle.model_texts.specs.Report.{joined};
ghost use Rattle.model_mending.specs.Mended.{change_text, new_line};
ghost use Rattle.sheet_text.specs.Put.{Put};
ghost use Rattle.mending.specs.Changes.{line_byte, one_text, may_text};

use crate::lines::{line_end, old_word};
use crate::words::mended_word;
use sheet_text::line::byte_at;
use sheet_text::print::{hex_digit, put_byte, put_decimal, put_line};

// Byte number k of the line of a word: its digits, then the newline.
fn line_byte(word: u64, k: usize) -> u8
    requires { k < 17 }
    ensures { result ≡ line_byte word k }
{
    if k < 16 {
        hex_digit(word, k as u64)
    } else {
        10
    }
}

// How many bytes of a line are its digits: a carriage return behind them is no change of digits.
const DIGITS: usize = 16;

// Whether the 16 digits of a word stand at a place.
fn same_digits(text: &[u8], at: usize, word: u64) -> bool
    requires { at ≤ 4294967296 }
    ensures { result ≡ every (λ j. eqb (byte_at text.now (at + j)) (hex_digit word j)) 16 0 }
{
    for k in 0..DIGITS {
        if byte_at(text, at + k) != line_byte(word, k) {
            return false;
        }
    }
    true
}

// The 16 digits that stand at a place of the text.
fn put_digits(text: &[u8], from: usize, at: usize, to: &mut [u8]) -> usize
    requires fact_1 { from ≤ 4294967296 }
    requires fact_2 { at + 16 ≤ length to.old }
    ensures { Put at (table 16 (λ j. byte_at text.now (from + j))) to.old to.new result }
{
    for k in 0..16 {
        to[at + k] = byte_at(text, from + k);
    }
    at + 16
}

// The line of a change: the number of the line, from 1, the digits that stand at `from`, the new word.
fn put_change(text: &[u8], line: usize, from: usize, word: u64, at: usize, to: &mut [u8]) -> usize
    requires fact_1 { (line < 2113) × (from ≤ 4294967296) }
    requires fact_2 { at + 39 ≤ length to.old }
    ensures { Put at (one_text text.now line from word) to.old to.new result }
{
    let a = put_decimal((line + 1) as u64, at, to);
    let b = put_byte(32, a, to);
    let c = put_digits(text, from, b, to);
    let d = put_byte(32, c, to);
    put_line(word, d, to)
}

// The line of a change, where the digits change.
fn put_changed(text: &[u8], line: usize, from: usize, word: u64, at: usize, to: &mut [u8]) -> usize
    requires fact_1 { (line < 2113) × (from ≤ 4294967296) }
    requires fact_2 { at + 39 ≤ length to.old }
    ensures { Put at (may_text text.now line from word) to.old to.new result }
{
    if same_digits(text, from, word) {
        return at;
    }
    put_change(text, line, from, word, at, to)
}

// A line for each of `lines` lines whose digits change, from the front of `to` on.
pub fn put_changes(text: &[u8], inputs: usize, count: usize, lines: usize, to: &mut [u8]) -> usize
    requires fact_1 { (inputs ≤ 16) × ((count ≤ 2048) × (lines ≤ 2113)) }
    requires fact_2 { 117221 ≤ length to.old }
    ensures { Put 0 (joined (change_text text.now inputs count) lines) to.old to.new result }
{
    let mut from = 0;
    let mut next = 0;
    for k in 0..lines {
        let word = mended_word(inputs, count, k, old_word(text, from));
        next = put_changed(text, k, from, word, next, to);
        from = line_end(text, from) + 1;
    }
    next
}

// The mended sheet, of `lines` lines.
pub fn put_sheet(
    text: &[u8],
    inputs: usize,
    count: usize,
    lines: usize,
    at: usize,
    to: &mut [u8],
) -> usize
    requires fact_1 { (inputs ≤ 16) × ((count ≤ 2048) × (lines ≤ 2113)) }
    requires fact_2 { at + 17 * lines ≤ length to.old }
    ensures { Put at (joined (new_line text.now inputs count) lines) to.old to.new result }
{
    let mut from = 0;
    let mut next = at;
    for k in 0..lines {
        next = put_line(
            mended_word(inputs, count, k, old_word(text, from)),
            next,
            to,
        );
        from = line_end(text, from) + 1;
    }
    next
}
