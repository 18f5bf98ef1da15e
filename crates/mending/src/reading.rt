// Reading an old sheet as far as its last step: whether its lines are right, and its mended input headers.
ghost use Rattle.std.specs.Prelude.{◌≡◌, ◌+◌, ◌≤◌, length};
ghost use Rattle.lists.specs.Every.{every};
ghost use Rattle.model_recipes.specs.Check.{right_sizes};
ghost use Rattle.model_mending.specs.Lines.{old_lined};
ghost use Rattle.model_mending.specs.Mended.{inputs_in, steps_in};
ghost use Rattle.mending.specs.Headers.{HeadersRead};
ghost use Rattle.mending.specs.Reading.{Readable};

use crate::lines::{is_old_line, line_at, line_end, old_word};
use crate::words::mended_header;
use recipes_check::total_of;
use shape_words::word::is_good;

// How many inputs word one says.
pub fn input_count(text: &[u8]) -> usize
    ensures { result ≡ inputs_in text.now }
{
    ((old_word(text, 0) >> 56) & 255) as usize
}

// How many steps word one says.
pub fn step_count(text: &[u8]) -> usize
    ensures { result ≡ steps_in text.now }
{
    ((old_word(text, 0) >> 48) & 255) as usize
}

// Whether word one's sizes are right.
fn is_sized(text: &[u8]) -> bool
    ensures { result ≡ right_sizes (inputs_in text.now) (steps_in text.now) }
{
    let inputs = input_count(text);
    let steps = step_count(text);
    (inputs <= 16) & (1 <= steps) & (inputs + steps <= 64)
}

// The input headers, mended, as many as `headers` has places; whether each stands on a line and is right.
fn read_headers(text: &[u8], headers: &mut [u64]) -> bool
    requires { length headers.old ≤ 16 }
    ensures { HeadersRead text.now (length headers.old) headers.new result }
{
    for i in 0..headers.len() {
        let at = line_at(text, 1 + i);
        let word = mended_header(old_word(text, at));
        if !(is_old_line(text, at) & is_good(word)) {
            return false;
        }
        headers[i] = word;
    }
    true
}

// Whether n lines stand from the line `from` on.
fn all_lined(text: &[u8], n: usize, from: usize) -> bool
    requires { n + from ≤ 16777216 }
    ensures { result ≡ every (old_lined text.now) n from }
{
    let mut at = line_at(text, from);
    for _ in 0..n {
        if !is_old_line(text, at) {
            return false;
        }
        at = line_end(text, at) + 1;
    }
    true
}

// Whether all lines up to the last step are right. Where they are, the mended input headers stand at the front of
// `headers`.
pub fn is_readable(text: &[u8], headers: &mut [u64]) -> bool
    requires { 16 ≤ length headers.old }
    ensures { Readable text.now headers.old headers.new result }
{
    if !(is_old_line(text, 0) & is_sized(text)) {
        return false;
    }
    let inputs = input_count(text);
    if !read_headers(text, &mut headers[..inputs]) {
        return false;
    }
    let rest = total_of(&headers[..inputs]) + step_count(text);
    all_lined(text, rest, 1 + inputs)
}
