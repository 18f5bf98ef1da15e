// What a report says behind its verdict: whether the figures may be wrong, the total, and the figures with parts of it.
#![tactic(auto)]

mod amount;
mod bar;
mod mixed;
mod power;
mod share;

ghost use Rattle.std.specs.Prelude.{◌≡◌, map, length};
ghost use Rattle.model.specs.Header.{stored};
ghost use Rattle.model.specs.Word.{header_of};
ghost use Rattle.model_forecast.specs.Reckoned.{sums_of, parts_text, reckoned_text};
ghost use Rattle.report_lines.specs.Puts.{Puts};
ghost use Rattle.report_totals.specs.Forecast.{Forecast};

use amount::answer_amount;
use bar::answer_bar;
use mixed::{first_mixed, put_mixed};
use model_forecast::{Asked, Sums};
use readings_sums::sum_to;
use recipes_kinds::step::step_of;
use report_cover::{is_total, put_chance};
use report_figures::line::put_figures;
use report_trace::decide::step_word;
use report_trace::whole::first_out;
use shape_words::word::header_of;
use share::{put_totals, used_total};

// What is said of the total.
fn sums_of(
    known: &[u64],
    headers: &[u64],
    coefficients: &[f64],
    steps: &[u64],
    full: &[usize],
    header: u64,
    xs: &[f64],
) -> Sums
    requires { Forecast headers.now (length steps.now) (length coefficients.now) header (length xs.now) }
    ensures { result ≡ sums_of (map header_of known.now) headers.now coefficients.now steps.now
        full.now header xs.now }
{
    let inputs = headers.len();
    let last = inputs + steps.len() - 1;
    let first = first_out(known, steps, inputs, full, last);
    let bar = answer_bar(headers, steps);
    let step = step_of(step_word(steps, inputs, bar));
    let kind = step.kind;
    let amount = answer_amount(headers, coefficients, steps);
    let shown = sum_to(xs, xs.len());
    let h = header_of(header);
    Sums {
        whole: 64 <= first,
        vars: h.vars,
        bar,
        kind,
        amount,
        shown,
    }
}

// The figures, with parts of a total where any are taken of it.
fn put_parts(header: u64, xs: &[f64], total: f64, at: usize, to: &mut [u8]) -> usize
    requires { length xs.now ≡ stored (header_of header) }
    ensures { Puts (parts_text header xs.now total) at to.old to.new result }
{
    put_figures(header, xs, total, is_total(total), at, to)
}

// All that is printed behind the verdict: of a recipe whose places announce the words `known`, with its inputs' headers
// and coefficients, its steps, the full lengths of all places, and the answer's header and coefficients.
pub fn put_reckoned(
    known: &[u64],
    headers: &[u64],
    coefficients: &[f64],
    steps: &[u64],
    full: &[usize],
    header: u64,
    xs: &[f64],
    asked: Asked,
    at: usize,
    to: &mut [u8],
) -> usize
    requires { Forecast headers.now (length steps.now) (length coefficients.now) header (length xs.now) }
    ensures { Puts (reckoned_text (map header_of known.now) headers.now coefficients.now
        steps.now full.now header xs.now asked) at to.old to.new result }
{
    let inputs = headers.len();
    let last = inputs + steps.len() - 1;
    let mixed = first_mixed(known, steps, inputs, full, last);
    let a = put_mixed(mixed, at, to);
    let s = sums_of(known, headers, coefficients, steps, full, header, xs);
    let given = asked.total;
    let total = used_total(given, s);
    let b = put_totals(given, s, a, to);
    let chance = asked.chance;
    let c = put_chance(
        known, steps, inputs, full, last, header, xs, total, chance, b, to,
    );
    put_parts(header, xs, total, c, to)
}
