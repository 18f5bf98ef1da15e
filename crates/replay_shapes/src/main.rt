// Prints which header words are good and what each family of operations announces, on every edge of document 01's
// rules.
// The stored output was worked out by tests/shapes.py from document 01 alone, and not by this code.
#![tactic(auto)]

ghost use Rattle.std.specs.Prelude.{◌≡◌};
ghost use Rattle.model.specs.Announced.{announced};
ghost use Rattle.shape_words.specs.Rules.{Regular};
ghost use Rattle.replay_shapes.specs.Told.{header_or_none};

use gates::stored_of;
use model::{Family, Header};
use shape::announce::announced_of;
use shape_words::word::{header_of, is_good, pack};
use std::io;

// Twelve shapes, from no variables to four.
const SHAPES: [u64; 12] = [
    0x0000000000000000,
    0x2000000000000000,
    0x2102000000000000,
    0x2104000000000000,
    0x3ffe000000000000,
    0x4082082000000000,
    0x4200184000000000,
    0x5fffffe000000000,
    0x6102000308000000,
    0x838e38e38e38e000,
    0x9f80080401000000,
    0x828a288282284000,
];

// The shapes, then each field at 0 and at its largest, lengths above limits, fields of missing variables, spare bits,
// counts about 4,096.
const WORDS: [u64; 72] = [
    0x0000000000000000,
    0x2000000000000000,
    0x2102000000000000,
    0x2104000000000000,
    0x3ffe000000000000,
    0x4082082000000000,
    0x4200184000000000,
    0x5fffffe000000000,
    0x6102000308000000,
    0x838e38e38e38e000,
    0x9f80080401000000,
    0x828a288282284000,
    0x0000000000000000,
    0x2000000000000000,
    0x4000000000000000,
    0x6000000000000000,
    0x8000000000000000,
    0xa000000000000000,
    0xc000000000000000,
    0xe000000000000000,
    0xffffffffffffffff,
    0x9f80000000000000,
    0x8001f80000000000,
    0x8000001f80000000,
    0x8000000001f80000,
    0x9ffe000000000000,
    0x8001ffe000000000,
    0x8000001ffe000000,
    0x8000000001ffe000,
    0x8106000000000000,
    0x8000106000000000,
    0x8000000106000000,
    0x8000000000106000,
    0x207e000000000000,
    0x3f7e000000000000,
    0x3f7c000000000000,
    0x0080000000000000,
    0x2082080000000000,
    0x4082082080000000,
    0x6082082082080000,
    0x0000000000002000,
    0x2082000000002000,
    0x4082082000002000,
    0x6082082082002000,
    0x0000000001ffe000,
    0x2082000001ffe000,
    0x4082082001ffe000,
    0x6082082083ffe000,
    0x2102000000000001,
    0x2102000000000002,
    0x2102000000000004,
    0x2102000000000008,
    0x2102000000000010,
    0x2102000000000020,
    0x2102000000000040,
    0x2102000000000080,
    0x2102000000000100,
    0x2102000000000200,
    0x2102000000000400,
    0x2102000000000800,
    0x2102000000001000,
    0x2102000000001fff,
    0x5fffffe000000000,
    0x7fffffe000000000,
    0x679e79e79e000000,
    0x9ffe38e38e000000,
    0x74518e2082000000,
    0x7fffffe082000000,
    0x7fffffff82000000,
    0x7fffffe080000000,
    0x7f7dffff80000000,
    0x9fffffffffffe000,
];

// The header of a good word; none of a bad one.
fn header_or_none(word: u64) -> Header
    ensures is { result ≡ header_or_none word }
    ensures rules { Regular result }
{
    if is_good(word) {
        header_of(word)
    } else {
        Header::none()
    }
}

// What a family announces for two words.
fn told(f: Family, a: u64, b: u64) -> Header
    ensures is { result ≡ announced f (header_or_none a) (header_or_none b) }
    ensures rules { Regular result }
{
    announced_of(f, header_or_none(a), header_or_none(b))
}

// What follows promises nothing: no contract can speak of what is written.

fn numbers(rt: &impl Print, ns: [usize; 4]) -> io::Result<()> {
    for n in ns {
        print!(rt; " {n}")?;
    }
    Ok(())
}

// A word, whether it is good, and what it says.
fn show_word(rt: &impl Print, w: u64) -> io::Result<()> {
    if !is_good(w) {
        return println!(rt; "{w:016x} bad");
    }
    let h = header_or_none(w);
    print!(rt; "{w:016x} good {}", h.vars)?;
    numbers(rt, h.limits)?;
    numbers(rt, h.lengths)?;
    println!(rt; " {}", stored_of(h))
}

fn show_result(rt: &impl Print, h: Header) -> io::Result<()>
    requires { Regular h }
{
    println!(rt; " {:016x} {}", pack(h), stored_of(h))
}

// A family on one operand: its name, the operand, exponent or variable, n or order, what is announced and its count.
fn show_one(rt: &impl Print, name: &str, a: u64, x: usize, n: usize, f: Family) -> io::Result<()> {
    print!(rt; "{name} {a:016x} {x} {n}")?;
    show_result(rt, told(f, a, 0))
}

fn show_shifts(rt: &impl Print, a: u64, v: usize) -> io::Result<()> {
    show_one(rt, "shift", a, v, 0, Family::Shift(v, 0))?;
    show_one(rt, "shift", a, v, 1, Family::Shift(v, 1))?;
    show_one(rt, "shift", a, v, 63, Family::Shift(v, 63))
}

fn show_ones(rt: &impl Print, a: u64) -> io::Result<()> {
    show_one(rt, "same", a, 0, 0, Family::Same)?;
    show_one(rt, "series", a, 0, 0, Family::Series)?;
    show_one(rt, "power", a, 0, 0, Family::Power(0))?;
    show_one(rt, "power", a, 1, 0, Family::Power(1))?;
    show_one(rt, "power", a, 2, 0, Family::Power(2))?;
    show_one(rt, "power", a, 5, 0, Family::Power(5))?;
    show_one(rt, "power", a, 4294967295, 0, Family::Power(4294967295))?;
    show_shifts(rt, a, 0)?;
    show_shifts(rt, a, 1)?;
    show_shifts(rt, a, 3)?;
    show_one(rt, "term", a, 0, 0, Family::Term(0))?;
    show_one(rt, "term", a, 2, 0, Family::Term(2))?;
    show_one(rt, "order", a, 0, 0, Family::Order(0, 0))?;
    show_one(rt, "order", a, 1, 1, Family::Order(1, 1))?;
    show_one(
        rt,
        "order",
        a,
        3,
        18446744073709551615,
        Family::Order(3, 18446744073709551615),
    )
}

// A family on two operands: its name, the operands, the variable, what is announced and its count.
fn show_pair(rt: &impl Print, name: &str, a: u64, b: u64, v: usize, f: Family) -> io::Result<()> {
    print!(rt; "{name} {a:016x} {b:016x} {v}")?;
    show_result(rt, told(f, a, b))
}

fn show_pairs(rt: &impl Print, a: u64, b: u64) -> io::Result<()> {
    show_pair(rt, "sum", a, b, 0, Family::Sum)?;
    show_pair(rt, "product", a, b, 0, Family::Product)?;
    show_pair(rt, "quotient", a, b, 0, Family::Quotient)?;
    show_pair(rt, "substitution", a, b, 0, Family::Substitution(0))?;
    show_pair(rt, "substitution", a, b, 2, Family::Substitution(2))
}

fn main(rt: HostRuntime) -> io::Result<()> {
    for word in WORDS {
        show_word(&rt, word)?;
    }
    for a in SHAPES {
        show_ones(&rt, a)?;
    }
    for a in SHAPES {
        for b in SHAPES {
            show_pairs(&rt, a, b)?;
        }
    }
    Ok(())
}
