// Printing of answers: a word behind a space, a count behind a space, an answer's line as far as it goes.
use model::{Answer, CountReading, LinearReading, Reading};
use replay_input::show_refusal;
use std::io;

pub fn show_number(rt: &impl Print, n: u64) -> io::Result<()> {
    print!(rt; " {n}")
}

fn show_word(rt: &impl Print, w: u64) -> io::Result<()> {
    print!(rt; " {w:016x}")
}

pub fn show_all(rt: &impl Print, xs: &[f64]) -> io::Result<()> {
    for x in xs {
        show_word(rt, sheet_bits::word_of(*x))?;
    }
    Ok(())
}

pub fn show_answer(rt: &impl Print, r: Answer) -> io::Result<()> {
    match r {
        Ok(w) => {
            rt.write_all(b"done")?;
            show_word(rt, w)?;
        }
        Err(e) => show_refusal(rt, e)?,
    }
    Ok(())
}

pub fn show_reading(rt: &impl Print, r: Reading) -> io::Result<()> {
    match r {
        Ok(x) => {
            rt.write_all(b"done")?;
            show_word(rt, sheet_bits::word_of(x))?;
        }
        Err(e) => show_refusal(rt, e)?,
    }
    Ok(())
}

pub fn show_count(rt: &impl Print, r: CountReading) -> io::Result<()> {
    match r {
        Ok(k) => {
            rt.write_all(b"done")?;
            show_word(rt, k as u64)?;
        }
        Err(e) => show_refusal(rt, e)?,
    }
    Ok(())
}

pub fn show_linear(rt: &impl Print, r: LinearReading) -> io::Result<()> {
    match r {
        Ok(l) => {
            rt.write_all(b"done")?;
            show_number(rt, l.yes as u64)?;
            show_word(rt, sheet_bits::word_of(l.c))?;
            show_word(rt, sheet_bits::word_of(l.m))?;
            show_number(rt, l.variable as u64)?;
        }
        Err(e) => show_refusal(rt, e)?,
    }
    Ok(())
}
