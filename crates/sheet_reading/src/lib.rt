// Reading a sheet in order, as far as its words are well formed.
#![tactic(auto)]

ghost use Rattle.std.specs.Prelude.{◌≡◌, ◌+◌, ◌≤◌, length};
ghost use Rattle.std.specs.Float.Ieee.{of_bits};
ghost use Rattle.std.specs.Float.{binary64};
ghost use Rattle.lists.specs.Every.{every};
ghost use Rattle.lists.specs.Table.{table};
ghost use Rattle.model.specs.Passes.{Says};
ghost use Rattle.model_texts.specs.Sheet.{lined, word_on, input_count, step_count, sheet_edition};
ghost use Rattle.sheet_reading.specs.Headers.{HeadersRead};
ghost use Rattle.sheet_reading.specs.Reading.{Read, sizes_test, rest_refusal};

use model::Refusal;
use recipes_check::total_of;
use shape_words::word::{bad_word, is_good};
use sheet_text::line::{is_line, word_at};

// How many inputs word one says.
pub fn input_count(text: &[u8]) -> usize
    ensures { result ≡ input_count text.now }
{
    ((word_at(text, 0) >> 56) & 255) as usize
}

// How many steps word one says.
pub fn step_count(text: &[u8]) -> usize
    ensures { result ≡ step_count text.now }
{
    ((word_at(text, 0) >> 48) & 255) as usize
}

// Which edition word one says.
pub fn edition_of(text: &[u8]) -> u64
    ensures { result ≡ sheet_edition text.now }
{
    (word_at(text, 0) >> 44) & 15
}

// Whether word one's edition, sizes and zeros are right.
fn is_sized(text: &[u8]) -> bool
    ensures { result ≡ sizes_test text.now }
{
    let inputs = input_count(text);
    let steps = step_count(text);
    (edition_of(text) <= 1)
        & ((inputs <= 16)
            & (1 <= steps)
            & (inputs + steps <= 64)
            & (word_at(text, 0) % 17592186044416 == 0))
}

// The input headers, as many as `headers` has places, each tested as soon as its line is read.
fn read_headers(text: &[u8], headers: &mut [u64]) -> Result<(), Refusal>
    requires { length headers.old ≤ 16 }
    ensures { Says (HeadersRead text.now (length headers.old) headers.new) result }
{
    for i in 0..headers.len() {
        let at = 17 * (1 + i);
        if !is_line(text, at) {
            return Err(Refusal::by(8));
        }
        let word = word_at(text, at);
        if !is_good(word) {
            return Err(bad_word(word, i as u8));
        }
        headers[i] = word;
    }
    Ok(())
}

// Whether n lines stand from the line `from` on.
fn all_lined(text: &[u8], n: usize, from: usize) -> bool
    requires { n + from ≤ 16777216 }
    ensures { result ≡ every (lined text.now) n from }
{
    for k in 0..n {
        if !is_line(text, 17 * (from + k)) {
            return false;
        }
    }
    true
}

// After the headers: n lines more, from the line `from` on, and no byte behind them.
fn rest_refusal(text: &[u8], n: usize, from: usize) -> Result<(), Refusal>
    requires { n + from ≤ 16777216 }
    ensures { Says (λ r. r ≡ rest_refusal text.now n from) result }
{
    if !all_lined(text, n, from) {
        return Err(Refusal::by(8));
    }
    if 17 * (from + n) < text.len() {
        return Err(Refusal::by(8));
    }
    Ok(())
}

// Why a text is no sheet. Where it is one, its input headers stand at the front of `headers`.
pub fn read(text: &[u8], headers: &mut [u64]) -> Result<(), Refusal>
    requires { 16 ≤ length headers.old }
    ensures { Says (Read text.now headers.old headers.new) result }
{
    if !is_line(text, 0) {
        return Err(Refusal::by(8));
    }
    if !is_sized(text) {
        return Err(Refusal::by(7));
    }
    let inputs = input_count(text);
    read_headers(text, &mut headers[..inputs])?;
    let rest = total_of(&headers[..inputs]) + step_count(text);
    rest_refusal(text, rest, 1 + inputs)
}

// The words from the line `from` on, as many as `to` has places.
pub fn fill_words(text: &[u8], from: usize, to: &mut [u64])
    requires { from + length to.old ≤ 16777216 }
    ensures { to.new ≡ table (length to.old) (λ j. word_on text.now (from + j)) }
{
    for (k, place) in to.iter_mut().enumerate() {
        *place = word_at(text, 17 * (from + k));
    }
}

// The floats from the line `from` on, as many as `to` has places.
pub fn fill_floats(text: &[u8], from: usize, to: &mut [f64])
    requires { from + length to.old ≤ 16777216 }
    ensures { to.new ≡ table (length to.old) (λ j. of_bits binary64 (word_on text.now (from + j))) }
{
    for (k, place) in to.iter_mut().enumerate() {
        *place = sheet_bits::float_of(word_at(text, 17 * (from + k)));
    }
}
