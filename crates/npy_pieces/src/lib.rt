// Bytes, runs, words and numbers of a text, from the place `at` on.
#![tactic(auto)]

ghost use Rattle.std.specs.Prelude.{◌≡◌, ◌≤◌, ◌-◌, length, drop};
ghost use Rattle.npy_grammar.specs.Reading.{strip, eat, eats, peek, past_number, cap, digits_at, number_at};
ghost use Rattle.npy_pieces.specs.Places.{passes, At};

// Whether a byte is of a class: 0 blanks, 1 what may stand before the brace, 2 padding, else digits. Numbers, and no
// enum: the contract of `skip` names them.
fn is_of(class: u8, b: u8) -> bool
    ensures { result ≡ passes class b }
{
    if class == 0 {
        return (b == 32) | (b == 9) | (b == 10) | (b == 12) | (b == 13);
    }
    if class == 1 {
        return (b == 32) | (b == 9);
    }
    if class == 2 {
        return b == 32;
    }
    (48 <= b) & (b <= 57)
}

// The byte at a place, 0 past the end. No twin of the one of sheet_text: the contract says `peek` of what is left.
pub fn byte_at(text: &[u8], at: usize) -> u8
    requires { at ≤ length text.now }
    ensures { result ≡ peek (drop at text.now) }
{
    if at < text.len() { text[at] } else { 0 }
}

// Past all bytes of a class.
pub fn skip(text: &[u8], at: usize, class: u8) -> usize
    requires { at ≤ length text.now }
    ensures { At text.now result (strip (passes class) (drop at text.now)) }
{
    for k in at..text.len() {
        if !is_of(class, text[k]) {
            return k;
        }
    }
    text.len()
}

// Past one byte.
pub fn eat_byte(text: &[u8], at: usize, x: u8) -> usize
    requires { at ≤ length text.now }
    ensures { At text.now result (eat x (drop at text.now)) }
{
    if at < text.len() {
        if text[at] == x {
            return at + 1;
        }
    }
    text.len()
}

// Past a word.
pub fn eat_word(text: &[u8], at: usize, word: &[u8]) -> usize
    requires { at ≤ length text.now }
    ensures { At text.now result (eats word.now (drop at text.now)) }
{
    let mut p = at;
    for x in word {
        p = eat_byte(text, p, *x);
    }
    p
}

// Past a number.
pub fn past_number(text: &[u8], at: usize) -> usize
    requires { at ≤ length text.now }
    ensures { At text.now result (past_number (drop at text.now)) }
{
    if at < text.len() {
        let b = text[at];
        if b == 48 {
            return at + 1;
        }
        if is_of(3, b) {
            return skip(text, at + 1, 3);
        }
    }
    text.len()
}

// A byte less 48, 0 for smaller ones: what a digit says.
fn less_48(b: u8) -> usize
    ensures { (result ≡ b - 48) × (result ≤ 255) }
{
    if b < 48 {
        return 0;
    }
    (b - 48) as usize
}

fn capped(n: usize) -> usize
    ensures { result ≡ cap n }
{
    if n < 65 { n } else { 65 }
}

// The value of the digits from a place on, `first` standing before them: 65 for all above.
fn digits_at(text: &[u8], at: usize, first: usize) -> usize
    requires { (at ≤ length text.now) × (first ≤ 255) }
    ensures { result ≡ digits_at first (drop at text.now) }
{
    let mut n = first;
    for k in at..text.len() {
        let b = text[k];
        if !is_of(3, b) {
            return n;
        }
        n = capped(10 * n + less_48(b));
    }
    n
}

// The value of the number at a place: 65 for all above.
pub fn number_at(text: &[u8], at: usize) -> usize
    requires { at ≤ length text.now }
    ensures { result ≡ number_at (drop at text.now) }
{
    if at < text.len() {
        let b = text[at];
        if b == 48 {
            return 0;
        }
        return digits_at(text, at + 1, less_48(b));
    }
    0
}
