// What is said of word one: its edition, its sizes, and its zeros.
ghost use Rattle.std.specs.Prelude.{◌<◌};
ghost use Rattle.model_faults.specs.WordOne.{sizes_cause, word_one_cause, sizes_fault};
ghost use Rattle.report_lines.specs.Puts.{Puts};

use report_lines::put::put;
use report_say::{say, say_two};
use sheet_reading::{edition_of, input_count, step_count};
use sheet_text::line::word_at;

// k inputs, n steps; x: what the zeros say.
fn put_sizes_cause(k: usize, n: usize, x: u64, at: usize, to: &mut [u8]) -> usize
    requires { (k < 256) × (n < 256) }
    ensures { Puts (sizes_cause k n x) at to.old to.new result }
{
    if 16 < k {
        return say(b"word one has ", k, b" inputs; 16 are the most.\n", at, to);
    }
    if n < 1 {
        return put(b"word one has no step; write 1 or more.\n", at, to);
    }
    if 64 < k + n {
        return say_two(
            b"word one has ",
            k,
            b" inputs and ",
            n,
            b" steps; 64 together are the most.\n",
            at,
            to,
        );
    }
    if x != 0 {
        return put(
            b"word one's last 11 digits are not all zero; write zeros.\n",
            at,
            to,
        );
    }
    at
}

// The same of the edition e, which comes first.
fn put_word_one_cause(e: usize, k: usize, n: usize, x: u64, at: usize, to: &mut [u8]) -> usize
    requires { (k < 256) × (n < 256) }
    ensures { Puts (word_one_cause e k n x) at to.old to.new result }
{
    if 1 < e {
        return say(b"word one has edition ", e, b"; write 0 or 1.\n", at, to);
    }
    put_sizes_cause(k, n, x, at, to)
}

pub fn put_sizes_fault(text: &[u8], at: usize, to: &mut [u8]) -> usize
    ensures { Puts (sizes_fault text.now) at to.old to.new result }
{
    let next = put(b"line 1: ", at, to);
    let zeros = word_at(text, 0) % 17592186044416;
    let edition = edition_of(text) as usize;
    put_word_one_cause(
        edition,
        input_count(text),
        step_count(text),
        zeros,
        next,
        to,
    )
}
