// The texts that the program prints, put to the front of lent memory; each function answers how long its text is.
ghost use Rattle.std.specs.Prelude.{◌+◌, ◌*◌, ◌≤◌, length};
ghost use Rattle.model_texts.specs.Printed.{done_text};
ghost use Rattle.sheet_text.specs.Put.{Put};

use sheet_text::print::{put_byte, put_bytes, put_decimal, put_floats, put_line};

// `done` and the step count, then the last header, then its coefficients.
pub fn put_done(steps: u8, header: u64, xs: &[f64], to: &mut [u8]) -> usize
    requires { 26 + 17 * length xs.now ≤ length to.old }
    ensures { Put 0 (done_text steps header xs.now) to.old to.new result }
{
    let a = put_bytes(b"done ", 0, to);
    let b = put_decimal(steps as u64, a, to);
    let c = put_byte(10, b, to);
    let d = put_line(header, c, to);
    put_floats(xs, d, to)
}
