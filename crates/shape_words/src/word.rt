// Header words, packed and unpacked by shifts and masks.
ghost use Rattle.std.specs.Prelude.{◌≡◌, ℕ, ◌+◌, ◌-◌, ◌*◌, ◌^◌, ◌<◌, ◌≤◌};
ghost use Rattle.model.specs.Header.{good_var, good_vars, good_header};
ghost use Rattle.model.specs.Gates.{bad_word};
ghost use Rattle.model.specs.Word.{field_at, cap_at, header_of, good_word, pushed, word_of};
ghost use Rattle.shape_words.specs.Rules.{Ruled};

use crate::fault::fault_of;
use model::{Header, Refusal};

// Six bits of a word, from the bit `low` up, and one more.
fn field(word: u64, low: u64) -> usize
    requires { low < 64 }
    ensures { result ≡ field_at word low + 1 }
{
    ((word >> low) & 63) as usize + 1
}

// The cap: the eight bits after the last length.
fn cap_of(word: u64) -> usize
    ensures { result ≡ cap_at word }
{
    ((word >> 5) & 255) as usize
}

// What the fields of a word say, good or not.
pub fn header_of(word: u64) -> Header
    ensures { result ≡ header_of word }
{
    Header {
        vars: ((word >> 61) & 7) as usize,
        limits: [
            field(word, 55),
            field(word, 43),
            field(word, 31),
            field(word, 19),
        ],
        lengths: [
            field(word, 49),
            field(word, 37),
            field(word, 25),
            field(word, 13),
        ],
        cap: cap_of(word),
    }
}

// Whether limit and length of variable k keep the rules among `vars` variables.
fn good_var(vars: usize, k: usize, limit: usize, len: usize) -> bool
    ensures { result ≡ good_var vars k limit len }
{
    (1 <= len) & (len <= limit) & (limit <= Header::LIMIT) & ((k < vars) | (limit == 1))
}

fn good_vars(h: Header) -> bool
    ensures { result ≡ good_vars h }
{
    let v = h.vars;
    let l = h.limits;
    let n = h.lengths;
    (v <= Header::VARS)
        & good_var(v, 0, l[0], n[0])
        & good_var(v, 1, l[1], n[1])
        & good_var(v, 2, l[2], n[2])
        & good_var(v, 3, l[3], n[3])
}

// Whether a header keeps the rules, its count included.
pub fn good_header(h: Header) -> bool
    ensures { result ≡ good_header h }
{
    if good_vars(h) & (h.cap <= Header::CAP) {
        let n = h.lengths;
        crate::places::count_of(n) <= Header::COUNT
    } else {
        false
    }
}

// Whether a word is a header.
pub fn is_good(word: u64) -> bool
    ensures { result ≡ good_word word }
{
    good_header(header_of(word)) & (word & 31 == 0)
}

// Why a word that is no header is refused, `place` where it stands in a recipe: the one maker of this refusal.
pub fn bad_word(word: u64, place: u8) -> Refusal
    ensures { result ≡ bad_word word place }
{
    Refusal::of_fault(fault_of(word), place)
}

// One field of six bits more at the low end: x less one.
fn push(word: u64, x: usize) -> u64
    requires { (word < 2 ^ 58) × ((1 ≤ x) × (x ≤ 64)) }
    ensures { result ≡ pushed word x }
{
    (word << 6) | ((x - 1) as u64)
}

// The cap at the low end.
fn push_cap(word: u64, cap: usize) -> u64
    requires { (word < 2 ^ 51) × (cap < 2 ^ 8) }
    ensures { result ≡ word * 2 ^ 8 + cap }
{
    (word << 8) | (cap as u64)
}

// The word of a header.
pub fn pack(h: Header) -> u64
    requires { Ruled h }
    ensures { result ≡ word_of h }
{
    let l = h.limits;
    let n = h.lengths;
    let w0 = h.vars as u64;
    let w1 = push(push(w0, l[0]), n[0]);
    let w2 = push(push(w1, l[1]), n[1]);
    let w3 = push(push(w2, l[2]), n[2]);
    let w4 = push(push(w3, l[3]), n[3]);
    push_cap(w4, h.cap) << 5
}
