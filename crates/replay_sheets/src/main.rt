// Runs the stored sheets of standard input through `sheet::answer`, and prints what it writes for each. tests/stored
// says where sheets and stored output are from; none is from this code.
//
// Before each sheet stands a line of 16 hex digits: how many bytes it has, at most 65,536.
// No contract can say what is read or printed; `sheet::answer` says what is printed for a text.
#![tactic(auto)]

use replay_input::{each_case, read_next};
use sheet_text::line::word_at;
use std::io;
use std::io::Read;

fn show(rt: &impl Print, text: &[u8]) -> io::Result<()> {
    let mut output = [0u8; 4378];
    let n = sheet::answer(text, &mut output);
    rt.write_all(&output[..n])
}

// The sheet behind the line `begin`.
fn run(rt: &impl Print, input: &mut impl Read, begin: &[u8]) -> io::Result<()> {
    let mut text = [0u8; 65536];
    let n = read_next(input, word_at(begin, 0) as usize, &mut text)?;
    show(rt, &text[..n])
}

fn main(rt: HostRuntime) -> io::Result<()> {
    each_case(&mut rt.reader(), &mut [0u8; 17], |input, begin| {
        run(&rt, input, begin)
    })
}
