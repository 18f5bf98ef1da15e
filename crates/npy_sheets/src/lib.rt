// What the programs `from_npy` and `to_npy` print (document 02, W2 and W12): the lines of a sheet for an array
// file, the array file of an answer, or the line of a refusal.
#![tactic(auto)]

ghost use Rattle.std.specs.Prelude.{true, ◌≡◌, ◌+◌, ◌*◌, ◌≤◌, length};
ghost use Rattle.npy_answers.specs.Answer.{is_answer};
ghost use Rattle.npy_sheets.specs.Arrays.{Arrayed};
ghost use Rattle.npy_sheets.specs.Shown.{sheet_text, Shown, is_long, ShownFile};
ghost use Rattle.sheet_text.specs.Put.{Put};

use gates::stored_of;
use model::{Answer, Refusal};
use npy_answers::{fill_values, is_answer, is_refusal, lines_start};
use npy_bytes::{little_4, starts_with};
use npy_files::Written;
use shape_words::word::header_of;
use sheet_text::line::word_at;
use sheet_text::print::{put_bytes, put_floats, put_line};
use sheet_text::refused::put_refusal;

// A header word and coefficients, a line each.
fn put_sheet(head: u64, xs: &[f64], to: &mut [u8]) -> usize
    requires { 17 + 17 * length xs.now ≤ length to.old }
    ensures { Put 0 (sheet_text head xs.now) to.old to.new result }
{
    let a = put_line(head, 0, to);
    put_floats(xs, a, to)
}

// What is printed for a file that is read whole, at the front of `output`; answers how long it is. `values` is memory
// for the coefficients.
fn show_whole(file: &[u8], values: &mut [f64], output: &mut [u8]) -> usize
    requires { (length values.old ≡ 4096) × (69649 ≤ length output.old) }
    ensures { Shown file.now values.old values.new output.old output.new result }
{
    match npy::read(file, values) {
        Ok(head) => {
            let count = stored_of(header_of(head));
            put_sheet(head, &values[..count], output)
        }
        Err(e) => put_refusal(e, output),
    }
}

// Whether a file has more bytes than the program reads, and a header of version 2.0 of more than 65,535 among them.
fn is_long(file: &[u8]) -> bool
    ensures { result ≡ is_long file.now }
{
    if file.len() < 98316 {
        return false;
    }
    if !starts_with(file, &[147, 78, 85, 77, 80, 89, 2, 0]) {
        return false;
    }
    65535 < little_4(file, 8)
}

// What is printed for a file.
pub fn show(file: &[u8], values: &mut [f64], output: &mut [u8]) -> usize
    requires { (length values.old ≡ 4096) × (69649 ≤ length output.old) }
    ensures { ShownFile file.now values.old values.new output.old output.new result }
{
    if is_long(file) {
        return put_refusal(Refusal::by(5), output);
    }
    show_whole(file, values, output)
}

// The array file of an answer that is done. `values` is memory for the coefficients.
fn put_array(newer: bool, text: &[u8], values: &mut [f64], output: &mut [u8]) -> usize
    requires fact_1 { is_answer text.now ≡ true }
    requires fact_2 { (length values.old ≡ 4096) × (32896 ≤ length output.old) }
    ensures { Arrayed newer text.now values.old values.new output.old output.new result }
{
    let start = lines_start(text);
    let head = word_at(text, start);
    let count = stored_of(header_of(head));
    fill_values(text, start, &mut values[..count]);
    match npy::write_as(newer, head, &values[..count], output) {
        Ok(n) => n,
        Err(e) => put_refusal(e, output),
    }
}

// What is printed for an answer of `recipe`, at the front of `output`: a file of version 1.0 or the newer one, 2.0;
// answers how long it is.
pub fn convert(newer: bool, text: &[u8], values: &mut [f64], output: &mut [u8]) -> usize
    requires { (length values.old ≡ 4096) × (32896 ≤ length output.old) }
    ensures { Arrayed newer text.now values.old values.new output.old output.new result }
{
    if is_answer(text) {
        return put_array(newer, text, values, output);
    }
    if is_refusal(text) {
        return put_bytes(text, 0, output);
    }
    put_refusal(Refusal::by(8), output)
}
