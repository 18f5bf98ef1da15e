// The program `recipe` (document 01): reads a sheet on standard input and prints its answer.
// No contract can say what is read or printed. `sheet::answer` says what is printed for a text, and that as much of it
// as is read here decides (sheet-front).
#![tactic(auto)]

use replay_input::read_full;
use sheet_text::line::sheet_memory;
use std::io;

fn main(rt: HostRuntime) -> io::Result<()> {
    let mut text = sheet_memory();
    let mut output = [0u8; 4378];
    let got = read_full(&mut rt.reader(), &mut text)?;
    let n = sheet::answer(&text[..got], &mut output);
    rt.write_all(&output[..n])
}
