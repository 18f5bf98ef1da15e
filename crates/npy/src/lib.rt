// Array files of NumPy (document 02, W2 and W12): a file to a polynomial, and a polynomial to a file.
#![tactic(auto)]

ghost use Rattle.std.specs.Prelude.{true, false};
ghost use Rattle.npy_files.specs.Reads.{Reading};
ghost use Rattle.npy.specs.Promise.{WritePromise};

use model::{Answer, Refusal};
use npy_bytes::put_data;
use npy_columns::fill_as;
use npy_files::Written;
use npy_reading::{head_of, open_file};
use npy_writing::put_front;
use shape_words::places::count_of;
use shape_words::word::{bad_word, good_header, header_of, is_good, pack};

// The values of a file, in row order, at the front of `out`; answers the header word, whose limits and lengths are the
// shape. Refusals 10, 5, 10.
pub fn read(file: &[u8], out: &mut [f64]) -> Answer
    ensures { Reading file.now out.old result out.new }
{
    let opened = open_file(file);
    if !opened.right {
        return Err(Refusal::by(10));
    }
    let shape = opened.shape;
    let head = head_of(shape);
    if !good_header(head) {
        return Err(Refusal::by(5));
    }
    let n = shape.n;
    let count = count_of(n);
    if out.len() < count {
        return Err(Refusal::by(5));
    }
    let start = opened.start;
    let width = opened.width;
    if file.len() != start + width * count {
        return Err(Refusal::by(10));
    }
    let order = opened.order;
    fill_as(width, order, file, start, n, &mut out[..count]);
    Ok(pack(head))
}

// The file of a polynomial, whose shape is the stored lengths, at the front of `file`, of version 1.0 or the newer one,
// 2.0; answers how many bytes it has. Refusals 1, 2, 5.
pub fn write_as(newer: bool, head: u64, a: &[f64], file: &mut [u8]) -> Written
    ensures { WritePromise newer head a.now file.old result file.new }
{
    if !is_good(head) {
        return Err(bad_word(head, Refusal::NOWHERE));
    }
    let h = header_of(head);
    let n = h.lengths;
    let count = count_of(n);
    if a.len() < count {
        return Err(Refusal::by(2));
    }
    if file.len() < 128 + 8 * count {
        return Err(Refusal::by(5));
    }
    let start = put_front(newer, h.vars, n, file);
    let end = put_data(&a[..count], start, file);
    Ok(end)
}

// Version 1.0.
pub fn write(head: u64, a: &[f64], file: &mut [u8]) -> Written
    ensures { WritePromise false head a.now file.old result file.new }
{
    write_as(false, head, a, file)
}

// Version 2.0.
pub fn write_2(head: u64, a: &[f64], file: &mut [u8]) -> Written
    ensures { WritePromise true head a.now file.old result file.new }
{
    write_as(true, head, a, file)
}
