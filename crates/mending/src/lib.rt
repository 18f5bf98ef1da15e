// Sheets from the old exporter (document 02's W14), mended: lower case, plain newlines, zero in spare bits and in step
// fields that a kind does not use, and nothing behind the last step.
#![tactic(auto)]

pub mod lines;
pub mod print;
pub mod reading;
pub mod words;

ghost use Rattle.mending.specs.Promise.{MendPromise};

use model::Refusal;
use print::{put_changes, put_sheet};
use reading::{input_count, is_readable, step_count};
use recipes_check::{largest_of, total_of};
use sheet_text::refused::put_refusal;

// What is printed for a text, written to the front of `output`; answers how long it is.
pub fn mend(text: &[u8], output: &mut [u8; 117221]) -> usize
    ensures { MendPromise text.now output.old result output.new }
{
    let mut headers = [0u64; 16];
    if !is_readable(text, &mut headers) {
        return put_refusal(Refusal::by(8), output);
    }
    let inputs = input_count(text);
    let count = total_of(&headers[..inputs]);
    if !((largest_of(&headers[..inputs]) <= 256) & (count <= 2048)) {
        return put_refusal(Refusal::by(5), output);
    }
    let lines = 1 + inputs + (count + step_count(text));
    let next = put_changes(text, inputs, count, lines, output);
    put_sheet(text, inputs, count, lines, next, output)
}
