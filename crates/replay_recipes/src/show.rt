// Printing of answers and buffers. A buffer is printed whole, equal neighbours once with their count.
use crate::alike::{alike_floats, alike_words};
use model_recipes::{CheckAnswer, RunAnswer};
use replay_input::show_refusal;
use std::io;

fn show_number(rt: &impl Print, n: u64) -> io::Result<()> {
    print!(rt; " {n}")
}

// So many places that hold the same word.
fn show_places(rt: &impl Print, w: u64, count: usize) -> io::Result<()> {
    print!(rt; " {w:016x}")?;
    if 1 < count {
        print!(rt; "*{count}")?;
    }
    Ok(())
}

pub fn show_words(rt: &impl Print, xs: &[u64]) -> io::Result<()> {
    let mut k = 0;
    // No `for`: a turn goes on to the end of a stretch of equal neighbours.
    while k < xs.len() {
        let end = alike_words(xs, k);
        show_places(rt, xs[k], end - k)?;
        k = end;
    }
    Ok(())
}

pub fn show_floats(rt: &impl Print, xs: &[f64]) -> io::Result<()> {
    let mut k = 0;
    // No `for`: a turn goes on to the end of a stretch of equal neighbours.
    while k < xs.len() {
        let end = alike_floats(xs, k);
        show_places(rt, sheet_bits::word_of(xs[k]), end - k)?;
        k = end;
    }
    Ok(())
}

pub fn show_check(rt: &impl Print, r: CheckAnswer) -> io::Result<()> {
    rt.write_all(b"check ")?;
    match r {
        Ok(t) => {
            rt.write_all(b"accepted")?;
            show_number(rt, t.pool as u64)?;
            show_number(rt, t.largest as u64)?;
            show_number(rt, t.inputs as u64)?;
        }
        Err(e) => show_refusal(rt, e)?,
    }
    Ok(())
}

pub fn show_run(rt: &impl Print, r: RunAnswer) -> io::Result<()> {
    rt.write_all(b" run ")?;
    match r {
        Ok(()) => {
            rt.write_all(b"done")?;
        }
        Err(e) => show_refusal(rt, e)?,
    }
    Ok(())
}
