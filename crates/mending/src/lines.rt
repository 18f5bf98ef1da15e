// Lines of an old sheet: 16 hex digits of either case, at most one carriage return, a newline. A byte past the end
// counts as 0.
ghost use Rattle.std.specs.Prelude.{◌≡◌, ◌≤◌};
ghost use Rattle.model_texts.specs.Hex.{byte_at, word_at};
ghost use Rattle.model_mending.specs.Lines.{lowered, low, end_at, is_old_line, line_at};

use sheet_text::line::{byte_at, digit_of, is_digit};

// 'A' to 'F' as 'a' to 'f'; any other byte as it is.
fn lower(b: u8) -> u8
    ensures { result ≡ lowered b }
{
    if (65 <= b) & (b <= 70) { b + 32 } else { b }
}

// A byte in lower case.
fn low_at(text: &[u8], at: usize) -> u8
    ensures { result ≡ byte_at (low text.now) at }
{
    lower(byte_at(text, at))
}

// Where the newline of a line that begins at a place has to stand.
pub fn line_end(text: &[u8], at: usize) -> usize
    requires { at ≤ 4294967296 }
    ensures { result ≡ end_at text.now at }
{
    if byte_at(text, at + 16) == 13 {
        at + 17
    } else {
        at + 16
    }
}

// Whether a line begins at a place.
pub fn is_old_line(text: &[u8], at: usize) -> bool
    requires { at ≤ 4294967296 }
    ensures { result ≡ is_old_line text.now at }
{
    for k in 0..16 {
        if !is_digit(low_at(text, at + k)) {
            return false;
        }
    }
    byte_at(text, line_end(text, at)) == 10
}

// The word of the 16 digits from a place on, most significant first.
pub fn old_word(text: &[u8], at: usize) -> u64
    requires { at ≤ 4294967296 }
    ensures { result ≡ word_at (low text.now) at }
{
    let mut word = 0;
    for k in at..at + 16 {
        word = 16 * word + digit_of(low_at(text, k));
    }
    word
}

// Where the line k begins, counted from 0.
pub fn line_at(text: &[u8], k: usize) -> usize
    requires { k ≤ 16777216 }
    ensures { result ≡ line_at text.now k }
{
    let mut at = 0;
    for _ in 0..k {
        at = line_end(text, at) + 1;
    }
    at
}
