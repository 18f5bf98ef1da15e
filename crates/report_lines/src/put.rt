// Printing one text after the other into lent memory, as far as it reaches. Each function appends at a place and
// answers the place behind.
ghost use Rattle.std.specs.Prelude.{cond, [], ◌++◌};
ghost use Rattle.model_texts.specs.Printed.{decimal};
ghost use Rattle.model_texts.specs.Report.{when};
ghost use Rattle.report_lines.specs.Puts.{Puts};

use shape::limits::least;
use sheet_text::print::{put_bytes, put_decimal};

pub fn put(bytes: &[u8], at: usize, to: &mut [u8]) -> usize
    ensures { Puts bytes.now at to.old to.new result }
{
    if to.len() < at {
        return at;
    }
    let n = least(bytes.len(), to.len() - at);
    put_bytes(&bytes[..n], at, to)
}

// A text only where a test passed.
#[tactic(auto, using(crate::specs::Puts::puts_none))]
pub fn put_if(test: bool, bytes: &[u8], at: usize, to: &mut [u8]) -> usize
    ensures { Puts (when test bytes.now) at to.old to.new result }
{
    if test { put(bytes, at, to) } else { at }
}

pub fn put_number(n: usize, at: usize, to: &mut [u8]) -> usize
    ensures { Puts (decimal n) at to.old to.new result }
{
    let mut digits = [0u8; 20];
    let end = put_decimal(n as u64, 0, &mut digits);
    put(&digits[..end], at, to)
}

// A phrase and a number.
#[tactic(auto, using(crate::specs::Puts::puts_then))]
pub fn tell(phrase: &[u8], n: usize, at: usize, to: &mut [u8]) -> usize
    ensures { Puts (phrase.now ++ decimal n) at to.old to.new result }
{
    let next = put(phrase, at, to);
    put_number(n, next, to)
}

// The same, only where a test passed.
pub fn tell_if(test: bool, phrase: &[u8], n: usize, at: usize, to: &mut [u8]) -> usize
    ensures { Puts (cond test (phrase.now ++ decimal n) []) at to.old to.new result }
{
    if test { tell(phrase, n, at, to) } else { at }
}

// One of two texts.
pub fn put_either(test: bool, yes: &[u8], no: &[u8], at: usize, to: &mut [u8]) -> usize
    ensures { Puts (cond test yes.now no.now) at to.old to.new result }
{
    if test {
        put(yes, at, to)
    } else {
        put(no, at, to)
    }
}
