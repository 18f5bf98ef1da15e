// Runs the stored cases of standard input through `decimals` and `decimals_reading`, and prints a line for each.
// tests/decimals.py made the cases and what has to come out; none is from this code.
//
// A case begins with 16 hex digits. A line's end behind them: the word of a float to print. A space: how many bytes of
// text follow, at most 65,536; printed is the word of the float that they are read as, or `refused`.
// No contract can say what is read or printed; the functions called here say what they answer.
#![tactic(auto)]

ghost use Rattle.io.specs.Counts.{IsPrefixLen};

use decimals::put_float_of;
use replay_input::{read_full, read_next};
use report_lines::put::put;
use sheet_bits::word_of;
use sheet_text::line::word_at;
use sheet_text::print::put_line;
use std::io;
use std::io::Read;

// The line of a float; how many bytes of it there are.
fn float_line(word: u64, to: &mut [u8]) -> usize
    ensures { IsPrefixLen result to.new }
{
    let end = put_float_of(word, 0, to);
    put(b"\n", end, to)
}

fn show_float(rt: &impl Print, word: u64) -> io::Result<()> {
    let mut output = [0u8; 32];
    let n = float_line(word, &mut output);
    rt.write_all(&output[..n])
}

fn show_word(rt: &impl Print, word: u64) -> io::Result<()> {
    let mut output = [0u8; 17];
    put_line(word, 0, &mut output);
    rt.write_all(&output)
}

// What a text is read as.
fn show(rt: &impl Print, text: &[u8]) -> io::Result<()> {
    match decimals_reading::read(text) {
        Some(x) => show_word(rt, word_of(x)),
        None => rt.write_all(b"refused\n"),
    }
}

// The text behind a beginning that says its length.
fn run(rt: &impl Print, input: &mut impl Read, bytes: u64) -> io::Result<()> {
    let mut text = [0u8; 65536];
    let n = read_next(input, bytes as usize, &mut text)?;
    show(rt, &text[..n])
}

// The next case; whether there was one. Fewer than its first 17 bytes are none, and end the cases.
fn next(rt: &impl Print, input: &mut impl Read) -> io::Result<bool> {
    let mut begin = [0u8; 17];
    let got = read_full(input, &mut begin)?;
    if got < 17 {
        return Ok(false);
    }
    let word = word_at(&begin, 0);
    if begin[16] == 32 {
        run(rt, input, word)?;
    } else {
        show_float(rt, word)?;
    }
    Ok(true)
}

// Not by `each_case`, which reads on behind a case that is cut short.
fn main(rt: HostRuntime) -> io::Result<()> {
    let mut input = rt.reader();
    for _ in 0..u64::MAX {
        if !next(&rt, &mut input)? {
            break;
        }
    }
    Ok(())
}
