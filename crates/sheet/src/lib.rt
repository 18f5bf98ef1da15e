// Sheets (document 01's program `recipe`): the text of a recipe, read, judged and run, and the text of its answer.
#![tactic(auto)]

pub mod print;

ghost use Rattle.sheet.specs.Promise.{AnswerPromise};

use print::put_done;
use sheet_solving::{floats, places, solve};
use sheet_text::refused::put_refusal;

// The longest output: `done` and the step count, the header, 256 coefficients.
pub const OUTPUT: usize = 4378;

// As many bytes of a sheet as can matter: 65,601 lines, and one byte that would be too many.
pub const INPUT: usize = 1115218;

// What is printed for a sheet, written to the front of `output`; answers how long it is.
pub fn answer(text: &[u8], output: &mut [u8; 4378]) -> usize
    ensures { AnswerPromise text.now output.old result output.new }
{
    let mut headers = [0u64; 16];
    let mut steps = places();
    let mut known = places();
    let mut pool = floats();
    let solved = match solve(text, &mut headers, &mut steps, &mut known, &mut pool) {
        Ok(solved) => solved,
        Err(refusal) => return put_refusal(refusal, output),
    };
    let from = solved.from;
    let end = from + solved.count;
    put_done(solved.steps as u8, solved.header, &pool[from..end], output)
}
