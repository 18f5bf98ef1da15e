// The line of a refusal, as every program prints it.
ghost use Rattle.std.specs.Prelude.{◌+◌, ◌≤◌, length};
ghost use Rattle.model_texts.specs.Printed.{refused_text};
ghost use Rattle.sheet_text.specs.Put.{Put};
ghost use Rattle.sheet_text.specs.Refused.{Part};

use crate::print::{put_byte, put_bytes, put_decimal};
use model::Refusal;

// A number in decimal, and a byte behind it.
fn put_part(n: u8, end: u8, at: usize, to: &mut [u8]) -> usize
    requires { at + 4 ≤ length to.old }
    ensures { Part n end at to.old to.new result }
{
    let next = put_decimal(n as u64, at, to);
    put_byte(end, next, to)
}

// One line of `refused`, number, place, variable, cause.
pub fn put_refusal(r: Refusal, to: &mut [u8]) -> usize
    requires { 24 ≤ length to.old }
    ensures { Put 0 (refused_text r) to.old to.new result }
{
    let a = put_bytes(b"refused ", 0, to);
    let b = put_part(r.number, 32, a, to);
    let c = put_part(r.place, 32, b, to);
    let d = put_part(r.variable, 32, c, to);
    put_part(r.cause, 10, d, to)
}
