// The answer of a sheet in plain text, for people: every limit before any figure, or why the sheet is refused.
#![tactic(auto)]

mod limits;

ghost use Rattle.std.specs.Prelude.{length, ◌≡◌, map, ◌++◌};
ghost use Rattle.model.specs.Word.{header_of};
ghost use Rattle.model_forecast.specs.Told.{edition_text, forecast_text};
ghost use Rattle.model_texts.specs.Sheet.{sheet_edition};
ghost use Rattle.report_lines.specs.Puts.{Puts, Printed};
ghost use Rattle.report_totals.specs.Forecast.{Forecast};
ghost use Rattle.report.specs.Promise.{AnswerPromise};
ghost use Rattle.report.specs.Tells.{coefficients_of};

use limits::put_limit_lines;
use model_forecast::Asked;
use recipes_check::total_of;
use report_inputs::put_inputs;
use report_lines::ends::put_verdict;
use report_lines::put::put_if;
use report_refused::put_refusal_report;
use report_totals::put_reckoned;
use report_trace::full::fulls;
use sheet_reading::{edition_of, fill_floats};
use sheet_solving::solve;

// Memory for a pool, or for the coefficients of all inputs.
fn floats() -> [f64; 2048]
    ensures { length result ≡ 2048 }
{
    [0.0f64; 2048]
}

// All that is printed for a recipe that was run: the words that its places announce, its inputs' headers, its steps,
// its inputs' coefficients, the answer's header and coefficients, and what the program's arguments ask for.
fn put_forecast(
    known: &[u64],
    headers: &[u64],
    steps: &[u64],
    coefficients: &[f64],
    header: u64,
    xs: &[f64],
    asked: Asked,
    at: usize,
    to: &mut [u8],
) -> usize
    requires { Forecast headers.now (length steps.now) (length coefficients.now) header (length xs.now) }
    ensures { Puts (forecast_text (map header_of known.now) headers.now coefficients.now
        steps.now header xs.now asked) at to.old to.new result }
{
    let inputs = headers.len();
    let n = inputs + steps.len();
    let end = 4 * n;
    let full = fulls(known, steps, inputs, n);
    let a = put_limit_lines(known, steps, inputs, &full[..end], n, at, to);
    let b = put_inputs(headers, coefficients, a, to);
    let c = put_verdict(known, steps, inputs, &full[..end], n - 1, b, to);
    put_reckoned(
        known,
        headers,
        coefficients,
        steps,
        &full[..end],
        header,
        xs,
        asked,
        c,
        to,
    )
}

// The edition, where it is not 0.
fn put_edition(text: &[u8], output: &mut [u8]) -> usize
    ensures { Printed (edition_text (sheet_edition text.now)) output.old output.new result }
{
    put_if(
        edition_of(text) != 0,
        b"Edition 1: a power of 0 is one with its operand's limits.\n",
        0,
        output,
    )
}

// The same behind the edition, with the inputs' coefficients read off the sheet, as many as `coefficients` has places;
// from the front of `output`.
fn put_read(
    text: &[u8],
    known: &[u64],
    headers: &[u64],
    steps: &[u64],
    coefficients: &mut [f64],
    header: u64,
    xs: &[f64],
    asked: Asked,
    output: &mut [u8],
) -> usize
    requires { Forecast headers.now (length steps.now) (length coefficients.old) header (length xs.now) }
    ensures { Printed (edition_text (sheet_edition text.now)
        ++ forecast_text (map header_of known.now) headers.now
        (coefficients_of text.now (length headers.now) (length coefficients.old))
        steps.now header xs.now asked) output.old output.new result }
{
    fill_floats(text, 1 + headers.len(), coefficients);
    let first = put_edition(text, output);
    put_forecast(
        known,
        headers,
        steps,
        coefficients,
        header,
        xs,
        asked,
        first,
        output,
    )
}

// What is printed for a sheet, by what the program's arguments ask for, as far as `output` reaches; answers how long it
// is.
pub fn answer(text: &[u8], asked: Asked, output: &mut [u8]) -> usize
    ensures { AnswerPromise text.now asked output.old result output.new }
{
    let mut headers = [0u64; 16];
    let mut steps = [0u64; 64];
    let mut known = [0u64; 64];
    let mut pool = floats();
    let mut coefficients = floats();
    let solved = match solve(text, &mut headers, &mut steps, &mut known, &mut pool) {
        Ok(solved) => solved,
        Err(refusal) => return put_refusal_report(text, refusal, 0, output),
    };
    let inputs = solved.inputs;
    let count = solved.steps;
    let n = inputs + count;
    let given = total_of(&headers[..inputs]);
    let from = solved.from;
    let end = from + solved.count;
    put_read(
        text,
        &known[..n],
        &headers[..inputs],
        &steps[..count],
        &mut coefficients[..given],
        solved.header,
        &pool[from..end],
        asked,
        output,
    )
}
