// Reading the header text of an array file (document 02, W2 and W12) by a place that moves on. Where a piece does
// not stand this is the text's end, and no None: the definitions of npy_grammar leave nothing there, and go on.
#![tactic(auto)]

ghost use Rattle.std.specs.Prelude.{◌≡◌, List, [], ◌∷◌, ◌++◌, ℕ, ◌≤◌, length, drop};
ghost use Rattle.npy_grammar.specs.Reading.{Seen, past_comma, more_numbers, read_tuple, past_key, past_width, width_at};
ghost use Rattle.npy_grammar.specs.Reading.{past_order, order_at, read_descr, read_order, read_shape, read_item, items};
ghost use Rattle.npy_grammar.specs.Reading.{past_close, taken};
ghost use Rattle.npy_pieces.specs.Places.{At};
ghost use Rattle.npy_header.specs.Shapes.{Kept, ListedAt, Listing, MoreListed};
ghost use Rattle.npy_header.specs.Cursors.{CursorRead, ItemRead, CommaRead, HeaderRead};
ghost use Rattle.npy_grammar.specs.Reading.{read_key, is_last};

use npy_grammar::is_quote;
use npy_pieces::{byte_at, eat_byte, eat_word, number_at, past_number, skip};

// How many numbers a shape has, 5 for more than four, and the first four, each 65 for all above; 1 for a missing one.
#[derive(Clone, Copy)]
pub struct Shape {
    pub vars: usize,
    pub n: [usize; 4],
}

// The place behind a tuple, and its numbers.
#[derive(Clone, Copy)]
pub struct Listed {
    pub at: usize,
    pub shape: Shape,
}

fn no_shape() -> Shape
    ensures { Kept [] result }
{
    Shape {
        vars: 0,
        n: [1, 1, 1, 1],
    }
}

// One number more.
fn push(s: Shape, x: usize) -> Shape
    ensures { (l : List ℕ) → Kept l s → Kept (l ++ (x ∷ [])) result }
{
    let v = s.vars;
    let mut n = s.n;
    if v < 4 {
        n[v] = x;
        return Shape { vars: v + 1, n };
    }
    Shape { vars: 5, n }
}

// Past a comma, with the blanks before and behind it.
fn past_comma(text: &[u8], at: usize) -> usize
    requires { at ≤ length text.now }
    ensures { At text.now result (past_comma (drop at text.now)) }
{
    skip(text, eat_byte(text, skip(text, at, 0), 44), 0)
}

// Behind a number of a tuple: the numbers that follow, and the closing bracket.
fn more_numbers(text: &[u8], at: usize, s: Shape) -> Listed
    requires { at ≤ length text.now }
    ensures { MoreListed text.now at s result }
{
    let mut p = at;
    let mut held = s;
    for _ in 0..text.len() {
        let q = skip(text, p, 0);
        if byte_at(text, q) != 44 {
            let v = held.vars;
            if v < 2 {
                return Listed {
                    at: text.len(),
                    shape: held,
                };
            }
            return Listed {
                at: eat_byte(text, q, 41),
                shape: held,
            };
        }
        let b = past_comma(text, p);
        if byte_at(text, b) == 41 {
            return Listed {
                at: eat_byte(text, b, 41),
                shape: held,
            };
        }
        held = push(held, number_at(text, b));
        p = past_number(text, b);
    }
    Listed {
        at: text.len(),
        shape: held,
    }
}

// A tuple.
fn tuple(text: &[u8], at: usize) -> Listed
    requires { at ≤ length text.now }
    ensures { ListedAt text.now result (read_tuple (length text.now) (drop at text.now)) }
{
    let b = skip(text, eat_byte(text, at, 40), 0);
    if byte_at(text, b) == 41 {
        return Listed {
            at: eat_byte(text, b, 41),
            shape: no_shape(),
        };
    }
    let s = push(no_shape(), number_at(text, b));
    more_numbers(text, past_number(text, b), s)
}

// What was seen of a header, up to the place `at`: the bytes of a value, 1 for rows and 2 for columns, 1 where the
// shape was given; 0 for what was not, as `Seen` of npy_grammar has it: an Option would be turned into that number
// wherever it is read.
#[derive(Clone, Copy)]
pub struct Cursor {
    pub at: usize,
    pub width: usize,
    pub order: usize,
    pub given: usize,
    pub shape: Shape,
}

// Whether a header is right, and what it says. The flag stands beside the values: the contract of `read_header`
// names it.
#[derive(Clone, Copy)]
pub struct Found {
    pub right: bool,
    pub width: usize,
    pub order: usize,
    pub shape: Shape,
}

// Past a quoted <f8 or <f4.
fn past_width(text: &[u8], at: usize) -> usize
    requires { at ≤ length text.now }
    ensures { At text.now result (past_width (drop at text.now)) }
{
    let q = byte_at(text, at);
    if !is_quote(q) {
        return text.len();
    }
    let k = eat_word(text, eat_byte(text, at, q), b"<f");
    if byte_at(text, k) == 56 {
        return eat_byte(text, eat_byte(text, k, 56), q);
    }
    eat_byte(text, eat_byte(text, k, 52), q)
}

// 8 or 4.
fn width_at(text: &[u8], at: usize) -> usize
    requires { at ≤ length text.now }
    ensures { result ≡ width_at (drop at text.now) }
{
    let q = byte_at(text, at);
    let k = eat_word(text, eat_byte(text, at, q), b"<f");
    if byte_at(text, k) == 56 {
        return 8;
    }
    4
}

// Past True or False.
fn past_order(text: &[u8], at: usize) -> usize
    requires { at ≤ length text.now }
    ensures { At text.now result (past_order (drop at text.now)) }
{
    if byte_at(text, at) == 84 {
        return eat_word(text, at, b"True");
    }
    eat_word(text, at, b"False")
}

// 2 for True, 1 for False.
fn order_at(text: &[u8], at: usize) -> usize
    requires { at ≤ length text.now }
    ensures { result ≡ order_at (drop at text.now) }
{
    if byte_at(text, at) == 84 {
        return 2;
    }
    1
}

// Behind the opening quote of a key: past the word, the quote, the colon, and blanks.
fn past_key(text: &[u8], at: usize, q: u8, word: &[u8]) -> usize
    requires { at ≤ length text.now }
    ensures { At text.now result (past_key q word.now (drop at text.now)) }
{
    let b = eat_byte(text, eat_word(text, at, word), q);
    skip(text, eat_byte(text, skip(text, b, 0), 58), 0)
}

fn read_descr(text: &[u8], c: Cursor, at: usize) -> Cursor
    requires { at ≤ length text.now }
    ensures { CursorRead text.now c result (λ s. read_descr s (drop at text.now)) }
{
    if c.width != 0 {
        return Cursor {
            at: text.len(),
            ..c
        };
    }
    Cursor {
        at: past_width(text, at),
        width: width_at(text, at),
        ..c
    }
}

fn read_order(text: &[u8], c: Cursor, at: usize) -> Cursor
    requires { at ≤ length text.now }
    ensures { CursorRead text.now c result (λ s. read_order s (drop at text.now)) }
{
    if c.order != 0 {
        return Cursor {
            at: text.len(),
            ..c
        };
    }
    Cursor {
        at: past_order(text, at),
        order: order_at(text, at),
        ..c
    }
}

fn read_shape(text: &[u8], c: Cursor, at: usize) -> Cursor
    requires { at ≤ length text.now }
    ensures { CursorRead text.now c result (λ s. read_shape (length text.now) s (drop at text.now)) }
{
    if c.given != 0 {
        return Cursor {
            at: text.len(),
            ..c
        };
    }
    let l = tuple(text, at);
    Cursor {
        at: l.at,
        given: 1,
        shape: l.shape,
        ..c
    }
}

// A key and its value, behind the opening quote q.
fn read_key(text: &[u8], c: Cursor, at: usize, q: u8) -> Cursor
    requires { at ≤ length text.now }
    ensures { CursorRead text.now c result (λ s. read_key (length text.now) s q (drop at text.now)) }
{
    let b = byte_at(text, at);
    if b == 100 {
        return read_descr(text, c, past_key(text, at, q, b"descr"));
    }
    if b == 102 {
        return read_order(text, c, past_key(text, at, q, b"fortran_order"));
    }
    read_shape(text, c, past_key(text, at, q, b"shape"))
}

// An item: blanks, a key and its value.
fn read_item(text: &[u8], c: Cursor) -> Cursor
    requires { c.at ≤ length text.now }
    ensures { ItemRead text.now c result }
{
    let p = skip(text, c.at, 0);
    let q = byte_at(text, p);
    if is_quote(q) {
        return read_key(text, c, eat_byte(text, p, q), q);
    }
    Cursor {
        at: text.len(),
        ..c
    }
}

// The comma between two items.
fn comma_past(text: &[u8], c: Cursor) -> Cursor
    requires { c.at ≤ length text.now }
    ensures { CommaRead text.now c result }
{
    Cursor {
        at: eat_byte(text, skip(text, c.at, 0), 44),
        ..c
    }
}

// Past the closing brace.
fn past_close(text: &[u8], at: usize) -> usize
    requires { at ≤ length text.now }
    ensures { At text.now result (past_close (drop at text.now)) }
{
    let p = skip(text, at, 0);
    if byte_at(text, p) == 44 {
        return eat_byte(text, past_comma(text, at), 125);
    }
    eat_byte(text, p, 125)
}

// Whether only the newline is left.
fn is_last(text: &[u8], at: usize) -> bool
    requires { at ≤ length text.now }
    ensures { result ≡ is_last (drop at text.now) }
{
    (text.len() - at == 1) & (byte_at(text, at) == 10)
}

// A whole header text, to its last byte.
pub fn read_header(text: &[u8]) -> Found
    ensures { HeaderRead text.now result }
{
    let start = Cursor {
        at: eat_byte(text, skip(text, 0, 1), 123),
        width: 0,
        order: 0,
        given: 0,
        shape: no_shape(),
    };
    let a = read_item(text, start);
    let b = read_item(text, comma_past(text, a));
    let c = read_item(text, comma_past(text, b));
    let e = skip(text, past_close(text, c.at), 2);
    Found {
        right: is_last(text, e),
        width: c.width,
        order: c.order,
        shape: c.shape,
    }
}
