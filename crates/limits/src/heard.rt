// The arguments: which words they are no contract can say.
use model_forecast::Asked;
use replay_input::{argument, argument_count};
use std::env::Env;
use std::io;

// What a number is given for.
#[derive(Clone, Copy)]
enum Purpose {
    Chance,
    Total,
}

// Which name argument i is.
fn name(rt: &impl Env, i: usize) -> Option<Purpose> {
    let mut text = [0u8; 64];
    let n = argument(rt, i, &mut text);
    let word = &text[..n];
    if word == b"chance".as_slice() {
        Some(Purpose::Chance)
    } else if word == b"total".as_slice() {
        Some(Purpose::Total)
    } else {
        None
    }
}

// The number that argument i says.
fn number(rt: &impl Env, i: usize) -> Option<f64> {
    let mut text = [0u8; 64];
    let n = argument(rt, i, &mut text);
    decimals_reading::read(&text[..n])
}

// Two arguments: a name and a number.
fn one(rt: &impl Env) -> Option<Asked> {
    let x = number(rt, 2)?;
    match name(rt, 1)? {
        Purpose::Chance => Some(Asked {
            chance: Some(x),
            total: None,
        }),
        Purpose::Total => Some(Asked {
            chance: None,
            total: Some(x),
        }),
    }
}

// Four arguments: both names, in either order, each with a number.
fn both(rt: &impl Env) -> Option<Asked> {
    let x = number(rt, 2)?;
    let y = number(rt, 4)?;
    match (name(rt, 1)?, name(rt, 3)?) {
        (Purpose::Chance, Purpose::Total) => Some(Asked {
            chance: Some(x),
            total: Some(y),
        }),
        (Purpose::Total, Purpose::Chance) => Some(Asked {
            chance: Some(y),
            total: Some(x),
        }),
        _ => None,
    }
}

// What the arguments ask for: nothing, one number or two. None where they are not right.
pub fn hear(rt: &impl Env) -> Option<Asked> {
    match argument_count(rt) {
        0 | 1 => Some(Asked {
            chance: None,
            total: None,
        }),
        3 => one(rt),
        5 => both(rt),
        _ => None,
    }
}

// What the program reads, its arguments and an example.
pub fn say_help(rt: &impl Print) -> io::Result<()> {
    println!(rt; "usage: limits [chance Q] [total T] < SHEET")?;
    println!(rt; "  SHEET      a recipe, one word of 16 hex digits a line")?;
    println!(rt; "  chance Q   how many tubes cover this chance, as 0.95")?;
    println!(rt; "  total T    take parts of this total, as 1, and not of the inputs' own")?;
    println!(rt; "Q and T are digits, or digits, a point and digits: at most 15 from the first")?;
    println!(rt; "that is not 0, at most 22 behind the point. Nothing was read.")?;
    println!(rt; "example: limits chance 0.95 < examples/chances.sheet")
}
