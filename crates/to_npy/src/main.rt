// The program `to_npy` (document 02, W2 and W12): the answer of `recipe` on standard input, its array file on standard
// output, of version 1.0, or of 2.0 where that is the argument.
// No contract can say what is read or printed. `npy_sheets::convert` says what is printed for a text, and that as much
// of it as is read here decides (array-front). An answer has at most 69,657 bytes: a first line of eight, a header and
// 4,096 coefficients of 17; one byte more is read, so that a longer one is seen to be longer.
#![tactic(auto)]

use replay_input::{argument, argument_count, read_full};
use std::env::Env;
use std::io;

// A version of the format.
#[derive(Clone, Copy)]
enum Version {
    One,
    Two,
}

// Which version is asked for: 1.0 where there is no argument, 2.0 where there is one, `2.0`.
fn asked(rt: &impl Env) -> Option<Version> {
    let count = argument_count(rt);
    if count < 2 {
        return Some(Version::One);
    }
    let mut text = [0u8; 8];
    let n = argument(rt, 1, &mut text);
    if (count == 2) & (&text[..n] == b"2.0".as_slice()) {
        Some(Version::Two)
    } else {
        None
    }
}

fn say_usage(rt: &impl Print) -> io::Result<()> {
    println!(rt; "to_npy < ANSWER > FILE      an array file of version 1.0")?;
    println!(rt; "to_npy 2.0 < ANSWER > FILE  of version 2.0. Nothing was read.")
}

fn convert(rt: &(impl Input + Print), newer: bool) -> io::Result<()> {
    let mut text = [0u8; 69658];
    let mut values = [0.0f64; 4096];
    let mut output = [0u8; 32896];
    let got = read_full(&mut rt.reader(), &mut text)?;
    let n = npy_sheets::convert(newer, &text[..got], &mut values, &mut output);
    rt.write_all(&output[..n])
}

fn main(rt: HostRuntime) -> io::Result<()> {
    match asked(&rt) {
        Some(Version::One) => convert(&rt, false),
        Some(Version::Two) => convert(&rt, true),
        None => say_usage(&rt),
    }
}
