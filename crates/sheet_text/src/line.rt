// Lines of a text: 16 lower-case hex digits and a newline. A byte past the end counts as 0.
ghost use Rattle.std.specs.Prelude.{◌≡◌, ◌≤◌, ◌<◌, replicate};
ghost use Rattle.model_texts.specs.Hex.{is_digit, digit_of, byte_at, is_line, word_at};

// Memory for the lines of the longest sheet, and one byte that would be too many.
pub fn sheet_memory() -> [u8; 1115218]
    ensures { result ≡ replicate 1115218 0 }
{
    [0u8; 1115218]
}

pub fn is_digit(b: u8) -> bool
    ensures { result ≡ is_digit b }
{
    ((48 <= b) & (b <= 57)) | ((97 <= b) & (b <= 102))
}

// What a digit says, 0 for any other byte.
pub fn digit_of(b: u8) -> u64
    ensures { result ≡ digit_of b }
{
    if (48 <= b) & (b <= 57) {
        return (b as u64) - 48;
    }
    if (97 <= b) & (b <= 102) {
        return (b as u64) - 87;
    }
    0
}

pub fn byte_at(text: &[u8], at: usize) -> u8
    ensures { result ≡ byte_at text.now at }
{
    if at < text.len() { text[at] } else { 0 }
}

// Whether a line begins at a place.
pub fn is_line(text: &[u8], at: usize) -> bool
    requires { at ≤ 4294967296 }
    ensures { result ≡ is_line text.now at }
{
    for k in 0..16 {
        if !is_digit(byte_at(text, at + k)) {
            return false;
        }
    }
    byte_at(text, at + 16) == 10
}

// The word of the 16 digits from a place on, most significant first.
pub fn word_at(text: &[u8], at: usize) -> u64
    requires { at ≤ 4294967296 }
    ensures { result ≡ word_at text.now at }
{
    let mut word = 0;
    for k in at..at + 16 {
        word = 16 * word + digit_of(byte_at(text, k));
    }
    word
}
