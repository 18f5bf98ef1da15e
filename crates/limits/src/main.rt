// The program `limits`: reads a sheet on standard input and prints, in plain text, every limit before any figure. Its
// arguments may ask how many tubes cover a chance, and give a total.
// No contract can say what is read or printed. `report::answer` says what is printed for a text and what is asked, as
// much of it as is read here decides (told-front), and it is printed whole (told-whole).
#![tactic(auto)]

mod heard;

ghost use Rattle.std.specs.Prelude.{◌≡◌, replicate};

use heard::{hear, say_help};
use model_forecast::Asked;
use replay_input::read_full;
use sheet_text::line::sheet_memory;
use std::io;

// Memory for the answer, longer than any.
fn answer_memory() -> [u8; 262144]
    ensures { result ≡ replicate 262144 0 }
{
    [0u8; 262144]
}

fn tell(rt: &(impl Input + Print), asked: Asked) -> io::Result<()> {
    let mut text = sheet_memory();
    let mut output = answer_memory();
    let got = read_full(&mut rt.reader(), &mut text)?;
    let n = report::answer(&text[..got], asked, &mut output);
    rt.write_all(&output[..n])
}

fn main(rt: HostRuntime) -> io::Result<()> {
    match hear(&rt) {
        Some(asked) => tell(&rt, asked),
        None => say_help(&rt),
    }
}
