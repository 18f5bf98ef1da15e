// What is said of a line that is wrong.
ghost use Rattle.std.specs.Prelude.{◌≡◌, ◌+◌, ◌≤◌};
ghost use Rattle.model_texts.specs.Hex.{byte_at};
ghost use Rattle.model_texts.specs.Sheet.{lined};
ghost use Rattle.model_faults.specs.Saying.{first_not};
ghost use Rattle.model_faults.specs.Broken.{asked_text, ended_text, digits_on, line_cause, line_fault};
ghost use Rattle.report_lines.specs.Puts.{Puts};

use crate::byte::{is_digit, put_byte_fault};
use report_lines::put::{put, tell};
use report_say::say;
use sheet_reading::input_count;
use sheet_text::line::is_line;

fn byte_at(text: &[u8], at: usize) -> u8
    ensures { result ≡ byte_at text.now at }
{
    if at < text.len() { text[at] } else { 0 }
}

// The first of n lines from the line `from` on that is none; the line behind them where each is one.
pub fn wrong_line(text: &[u8], n: usize, from: usize) -> usize
    requires { n + from ≤ 16777216 }
    ensures { result ≡ first_not (lined text.now) n from }
{
    for k in 0..n {
        if !is_line(text, 17 * (from + k)) {
            return from + k;
        }
    }
    from + n
}

// How many digits the line k begins with, 16 at most.
fn digits_on(text: &[u8], k: usize) -> usize
    requires { k ≤ 16777216 }
    ensures { result ≡ digits_on text.now k }
{
    for j in 0..16 {
        if !is_digit(byte_at(text, 17 * k + j)) {
            return j;
        }
    }
    16
}

// How many lines are needed, n, as far as is known in the line k; the first h lines say it.
fn put_asked(h: usize, k: usize, n: usize, at: usize, to: &mut [u8]) -> usize
    ensures { Puts (asked_text h k n) at to.old to.new result }
{
    if k == 0 {
        return put(b".\n", at, to);
    }
    if k < h {
        return say(b"; ", n, b" lines or more are needed.\n", at, to);
    }
    say(b"; ", n, b" lines are needed.\n", at, to)
}

// The text ends in the line k behind c right bytes.
fn put_ended(k: usize, c: usize, at: usize, to: &mut [u8]) -> usize
    ensures { Puts (ended_text k c) at to.old to.new result }
{
    if c == 0 {
        if k == 0 {
            return put(b"the sheet is empty", at, to);
        }
        return put(b"the sheet ends before it", at, to);
    }
    if c < 16 {
        return say(b"the sheet ends after ", c, b" of 16 digits", at, to);
    }
    put(b"the sheet ends without its newline", at, to)
}

// How the line k is wrong; n lines are needed, as far as is known there.
fn put_line_cause(text: &[u8], k: usize, n: usize, at: usize, to: &mut [u8]) -> usize
    requires { k ≤ 16777216 }
    ensures { Puts (line_cause text.now k n) at to.old to.new result }
{
    let c = digits_on(text, k);
    let place = 17 * k + c;
    if text.len() <= place {
        let next = put_ended(k, c, at, to);
        return put_asked(1 + input_count(text), k, n, next, to);
    }
    put_byte_fault(text[place], c, at, to)
}

pub fn put_line_fault(text: &[u8], k: usize, n: usize, at: usize, to: &mut [u8]) -> usize
    requires { k ≤ 16777216 }
    ensures { Puts (line_fault text.now k n) at to.old to.new result }
{
    let a = tell(b"line ", k + 1, at, to);
    let b = put(b": ", a, to);
    put_line_cause(text, k, n, b, to)
}
