// Arguments of the program: words, whole numbers, and a chance as people type it or as the 16 hex digits of its word.
ghost use Rattle.std.specs.Prelude.{◌≡◌, cond, ◌-◌, eqb};
ghost use Rattle.settings_command.specs.Argument.{is_number, pushed, number_of, whole_of, is_bits, chance_of, is_text, call_of};
ghost use Rattle.settings_command.specs.Argument.{folder_length};
ghost use Rattle.model_texts.specs.Hex.{is_digit};
ghost use Rattle.io.specs.Counts.{IsPrefixLen};

use crate::asked::Call;
use model_decimals::Read;
use sheet_bits::word_of;
use sheet_text::line::word_at;

// Whether a text is another one.
fn is_text(text: &[u8], other: &[u8]) -> bool
    ensures { result ≡ is_text text.now other.now }
{
    text == other
}

// Whether a text is 1 to 18 decimal digits.
fn is_number(text: &[u8]) -> bool
    ensures { result ≡ is_number text.now }
{
    let n = text.len();
    ((1 <= n) & (n <= 18)) && text.iter().all(|b| (48 <= *b) & (*b <= 57))
}

// What a decimal digit says, 0 for a byte below.
fn low(b: u8) -> u64
    ensures { result ≡ b - 48 }
{
    b.saturating_sub(48) as u64
}

// One digit more at the low end. 18 digits never come near the bound.
fn push(value: u64, b: u8) -> u64
    ensures { result ≡ pushed b value }
{
    if value < 100000000000000000 {
        return 10 * value + low(b);
    }
    value
}

// The number that such digits say.
fn number(text: &[u8]) -> u64
    ensures { result ≡ number_of text.now }
{
    let mut value = 0;
    for b in text {
        value = push(value, *b);
    }
    value
}

fn is_hex(b: u8) -> bool
    ensures { result ≡ is_digit b }
{
    ((48 <= b) & (b <= 57)) | ((97 <= b) & (b <= 102))
}

// Whether a text is 0x and 16 hex digits.
fn is_bits(text: &[u8]) -> bool
    ensures { result ≡ is_bits text.now }
{
    if text.len() != 18 {
        return false;
    }
    ((text[0] == b'0') & (text[1] == b'x')) && text[2..].iter().all(|b| is_hex(*b))
}

// A whole number of 1 to 18 digits.
pub fn whole_of(text: &[u8]) -> Option<u64>
    ensures { result ≡ whole_of text.now }
{
    if is_number(text) {
        Some(number(text))
    } else {
        None
    }
}

// The word of a chance: its bits, or those of the float nearest to what was typed.
pub fn chance_of(text: &[u8]) -> Option<u64>
    ensures { result ≡ chance_of text.now }
{
    if is_bits(text) {
        return Some(word_at(text, 2));
    }
    let read = decimals_reading::read(text);
    match read {
        Some(x) => Some(word_of(x)),
        None => None,
    }
}

// Which call a name is, with as many words as it takes.
pub fn call_of(name: &[u8], count: usize) -> Option<Call>
    ensures { result ≡ call_of name.now count }
{
    if is_text(name, b"fresh") & (count == 3) {
        return Some(Call::Fresh);
    }
    if is_text(name, b"list") & (count == 3) {
        return Some(Call::Departments);
    }
    if is_text(name, b"versions") & (count == 4) {
        return Some(Call::Versions);
    }
    if is_text(name, b"save") & (count == 8) {
        return Some(Call::Save);
    }
    if is_text(name, b"back") & (count == 6) {
        return Some(Call::Back);
    }
    None
}

// Where the folder's part ends once a byte more is seen, the place `next` behind it.
fn behind_slash(b: u8, next: usize, n: usize) -> usize
    ensures { result ≡ cond (eqb b 47) next n }
{
    if b == 47 { next } else { n }
}

// How many bytes of a file's name are its folder's, the last / among them.
pub fn folder_length(path: &[u8]) -> usize
    ensures is { result ≡ folder_length path.now }
    ensures within { IsPrefixLen result path.now }
{
    let mut n = 0;
    for (k, b) in path.iter().enumerate() {
        n = behind_slash(*b, k + 1, n);
    }
    n
}
