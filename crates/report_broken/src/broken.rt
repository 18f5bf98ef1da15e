// What is said where a sheet is refused by 8.
ghost use Rattle.std.specs.Prelude.{◌≡◌};
ghost use Rattle.model_texts.specs.Sheet.{rest_count, read_refusal};
ghost use Rattle.model_faults.specs.Broken.{rest_fault, broken_text};
ghost use Rattle.report_lines.specs.Puts.{Puts};
ghost use Rattle.sheet_solving.specs.Opened.{Opened};

use crate::line::{put_line_fault, wrong_line};
use recipes_check::total_of;
use report_lines::put::tell;
use report_say::say;
use sheet_reading::{fill_words, input_count, step_count};

// How many lines follow the headers.
fn rest_count(text: &[u8]) -> usize
    requires { Opened text.now }
    ensures { result ≡ rest_count text.now }
{
    let inputs = input_count(text);
    let mut headers = [0u64; 16];
    fill_words(text, 1, &mut headers);
    total_of(&headers[..inputs]) + step_count(text)
}

// The headers are right: the first line behind them that is none, or what follows the last.
fn put_rest_fault(text: &[u8], at: usize, to: &mut [u8]) -> usize
    requires { Opened text.now }
    ensures { Puts (rest_fault text.now) at to.old to.new result }
{
    let heads = 1 + input_count(text);
    let rest = rest_count(text);
    let all = heads + rest;
    let k = wrong_line(text, rest, heads);
    if k < all {
        return put_line_fault(text, k, all, at, to);
    }
    let next = tell(b"line ", k + 1, at, to);
    say(
        b": the sheet goes on; ",
        all,
        b" lines are needed.\n",
        next,
        to,
    )
}

// The first line that is wrong, and how.
pub fn put_broken(text: &[u8], at: usize, to: &mut [u8]) -> usize
    requires { (read_refusal text.now).number ≡ 8 }
    ensures { Puts (broken_text text.now) at to.old to.new result }
{
    let inputs = input_count(text);
    let heads = 1 + inputs;
    let k = wrong_line(text, heads, 0);
    if k < heads {
        let least = heads + inputs + step_count(text);
        return put_line_fault(text, k, least, at, to);
    }
    put_rest_fault(text, at, to)
}
