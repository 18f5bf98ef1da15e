// The file of a store: 544 lines of 16 lower-case hex digits, each ended by a newline.
ghost use Rattle.std.specs.Prelude.{◌≡◌, ◌≤◌, length};
ghost use Rattle.model_texts.specs.Hex.{hex_line};
ghost use Rattle.report_lines.specs.Puts.{Puts};
ghost use Rattle.settings_text.specs.Text.{is_store, store_words, taken_words, store_text};

use report_lines::put::put;
use sheet_text::line::{is_line, word_at};
use sheet_text::print::put_word;

// Whether a text is such a file. Whether calls leave its words is the store's own test.
fn is_store(text: &[u8]) -> bool
    ensures { result ≡ is_store text.now }
{
    if text.len() != 9248 {
        return false;
    }
    for k in 0..544 {
        if !is_line(text, 17 * k) {
            return false;
        }
    }
    true
}

// The words of such a file.
fn read_store(text: &[u8], words: &mut [u64])
    requires { 544 ≤ length words.old }
    ensures { words.new ≡ store_words text.now words.old }
{
    for (k, word) in words[..544].iter_mut().enumerate() {
        *word = word_at(text, 17 * k);
    }
}

// The words of a text that is such a file; whether it is.
pub fn take_store(text: &[u8], words: &mut [u64]) -> bool
    requires { 544 ≤ length words.old }
    ensures { (result ≡ is_store text.now) × (words.new ≡ taken_words text.now words.old) }
{
    if !is_store(text) {
        return false;
    }
    read_store(text, words);
    true
}

// The line of a word.
fn put_hex_line(word: u64, at: usize, to: &mut [u8]) -> usize
    ensures { Puts (hex_line word) at to.old to.new result }
{
    let mut digits = [0u8; 16];
    let end = put_word(word, 0, &mut digits);
    let next = put(&digits[..end], at, to);
    put(b"\n", next, to)
}

// The file of a store's words.
pub fn put_store(words: &[u64], at: usize, to: &mut [u8]) -> usize
    requires { 544 ≤ length words.now }
    ensures { Puts (store_text words.now) at to.old to.new result }
{
    let mut next = at;
    for k in 0..544 {
        next = put_hex_line(words[k], next, to);
    }
    next
}
