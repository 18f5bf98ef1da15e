// Runs stored array files and answers of standard input through `npy_sheets::show` and `npy_sheets::convert`, and
// prints what each writes. tests/stored_npy says where they and the stored output are from; none is from this code.
//
// Before each stands a line of 16 hex digits: 0 for an array file, 1 for an answer and 2 for one whose file is to be
// of version 2.0 in the first eight, and in the others how many bytes follow, at most 65,536.
// No contract can say what is read or printed; `show` and `convert` say what is printed for bytes.
#![tactic(auto)]

use replay_input::{each_case, read_next};
use sheet_text::line::word_at;
use std::io;
use std::io::Read;

fn show(rt: &impl Print, file: &[u8]) -> io::Result<()> {
    let mut values = [0.0f64; 4096];
    let mut output = [0u8; 69649];
    let n = npy_sheets::show(file, &mut values, &mut output);
    rt.write_all(&output[..n])
}

fn convert(rt: &impl Print, newer: bool, text: &[u8]) -> io::Result<()> {
    let mut values = [0.0f64; 4096];
    let mut output = [0u8; 32896];
    let n = npy_sheets::convert(newer, text, &mut values, &mut output);
    rt.write_all(&output[..n])
}

fn either(rt: &impl Print, kind: u64, bytes: &[u8]) -> io::Result<()> {
    if kind == 0 {
        show(rt, bytes)
    } else {
        convert(rt, kind == 2, bytes)
    }
}

// The case behind the line `begin`.
fn run(rt: &impl Print, input: &mut impl Read, begin: &[u8]) -> io::Result<()> {
    let mut text = [0u8; 65536];
    let word = word_at(begin, 0);
    let n = read_next(input, (word % 4294967296) as usize, &mut text)?;
    either(rt, word / 4294967296, &text[..n])
}

fn main(rt: HostRuntime) -> io::Result<()> {
    each_case(&mut rt.reader(), &mut [0u8; 17], |input, begin| {
        run(&rt, input, begin)
    })
}
