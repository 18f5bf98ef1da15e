// What is said of the first byte of a line that is wrong.
ghost use Rattle.std.specs.Prelude.{◌≡◌, ◌||◌, ◌≤◌};
ghost use Rattle.model_texts.specs.Hex.{is_digit};
ghost use Rattle.model_faults.specs.Broken.{is_capital, is_blank, is_shown, byte_text, no_digit_text, no_newline_text, short_text, byte_fault};
ghost use Rattle.report_lines.specs.Puts.{Puts};

use report_lines::put::put;
use report_say::say;

pub fn is_digit(b: u8) -> bool
    ensures { result ≡ is_digit b }
{
    ((48 <= b) & (b <= 57)) | ((97 <= b) & (b <= 102))
}

fn is_capital(b: u8) -> bool
    ensures { result ≡ is_capital b }
{
    (65 <= b) & (b <= 70)
}

// How a byte is named.
fn put_byte_name(b: u8, at: usize, to: &mut [u8]) -> usize
    ensures { Puts (byte_text b) at to.old to.new result }
{
    if (33 <= b) & (b <= 126) {
        let a = put(b"'", at, to);
        let shown = [b];
        let c = put(&shown, a, to);
        return put(b"'", c, to);
    }
    put(b"an unreadable byte", at, to)
}

// A byte behind c digits, fewer than 16, that is none.
fn put_no_digit(b: u8, c: usize, at: usize, to: &mut [u8]) -> usize
    requires { c ≤ 16 }
    ensures { Puts (no_digit_text b c) at to.old to.new result }
{
    if is_capital(b) {
        return say(
            b"a capital letter in column ",
            c + 1,
            b"; write a to f.\n",
            at,
            to,
        );
    }
    let next = put_byte_name(b, at, to);
    say(
        b" in column ",
        c + 1,
        b" is no digit; write 0 to 9, a to f.\n",
        next,
        to,
    )
}

// A byte behind 16 digits that is no newline.
fn put_no_newline(b: u8, at: usize, to: &mut [u8]) -> usize
    ensures { Puts (no_newline_text b) at to.old to.new result }
{
    if is_digit(b) | is_capital(b) {
        return put(
            b"too long, more than 16 digits; write 16 and a newline.\n",
            at,
            to,
        );
    }
    let next = put_byte_name(b, at, to);
    put(b" in column 17; write 16 digits and a newline.\n", next, to)
}

// A newline behind c digits, fewer than 16.
fn put_short(c: usize, at: usize, to: &mut [u8]) -> usize
    ensures { Puts (short_text c) at to.old to.new result }
{
    if c == 0 {
        return put(b"an empty line; each line has 16 digits.\n", at, to);
    }
    say(
        b"too short, only ",
        c,
        b" of 16 digits; write all.\n",
        at,
        to,
    )
}

// Any byte that is wrong behind c right ones.
pub fn put_byte_fault(b: u8, c: usize, at: usize, to: &mut [u8]) -> usize
    requires { c ≤ 16 }
    ensures { Puts (byte_fault b c) at to.old to.new result }
{
    if b == 10 {
        return put_short(c, at, to);
    }
    if b == 13 {
        return say(
            b"a carriage return in column ",
            c + 1,
            b"; end lines with a newline alone.\n",
            at,
            to,
        );
    }
    if (b == 32) | (b == 9) {
        return say(
            b"a blank in column ",
            c + 1,
            b"; write no spaces and no tabs.\n",
            at,
            to,
        );
    }
    if c < 16 {
        return put_no_digit(b, c, at, to);
    }
    put_no_newline(b, at, to)
}
