// The program `mend` (document 02, W14): a sheet from the old exporter on standard input; on standard output a line for
// each line whose digits change, and the mended sheet.
// No contract can say what is read or printed. `mending::mend` says what is printed for a text, and that as much of it
// as is read here decides (mended-front): 65,601 lines of 18 bytes.
#![tactic(auto)]

ghost use Rattle.std.specs.Prelude.{◌≡◌, replicate};

use replay_input::read_full;
use std::io;

// Memory for the lines of the longest sheet that is not refused by 8.
fn text_memory() -> [u8; 1180818]
    ensures { result ≡ replicate 1180818 0 }
{
    [0u8; 1180818]
}

// Memory for the longest answer.
fn answer_memory() -> [u8; 117221]
    ensures { result ≡ replicate 117221 0 }
{
    [0u8; 117221]
}

fn main(rt: HostRuntime) -> io::Result<()> {
    let mut text = text_memory();
    let mut output = answer_memory();
    let got = read_full(&mut rt.reader(), &mut text)?;
    let n = mending::mend(&text[..got], &mut output);
    rt.write_all(&output[..n])
}
