// What is said of the total: how much there is in all, how much of it is shown and how much is not.
ghost use Rattle.std.specs.Prelude.{◌≡◌};
ghost use Rattle.model_forecast.specs.Shares.{used_total, origin_text, lost_text, shares_text, no_parts_text, total_text, bar_text, totals_text};
ghost use Rattle.report_lines.specs.Puts.{Puts};

use decimals::put_float;
use model_forecast::{Given, Sums};
use report_cover::is_total;
use report_lines::lines::put_kind;
use report_lines::put::{put, put_either, put_if, tell};

// The total that parts are taken of.
pub fn used_total(given: Given, s: Sums) -> f64
    ensures { result ≡ used_total given s }
{
    match given {
        Some(total) => total,
        None => if 64 <= s.bar { s.amount } else { 1.0 },
    }
}

// Where a total comes from.
fn put_origin(given: bool, at: usize, to: &mut [u8]) -> usize
    ensures { Puts (origin_text given) at to.old to.new result }
{
    put_either(given, b"as given", b"taking each input as whole", at, to)
}

// What is not shown.
fn put_lost(given: bool, whole: bool, lost: f64, at: usize, to: &mut [u8]) -> usize
    ensures { Puts (lost_text given whole lost) at to.old to.new result }
{
    if given {
        let next = put_float(lost, at, to);
        return put(b" are not.\n", next, to);
    }
    if whole {
        return put(b"nothing lies past the limits.\n", at, to);
    }
    let next = put_float(lost, at, to);
    put(b" lie past the limits.\n", next, to)
}

fn put_shares(given: bool, whole: bool, total: f64, shown: f64, at: usize, to: &mut [u8]) -> usize
    ensures { Puts (shares_text given whole total shown) at to.old to.new result }
{
    let a = put(b"Of ", at, to);
    let b = put_float(total, a, to);
    let c = put(b" in all, ", b, to);
    let d = put_origin(given, c, to);
    let e = put(b",\n  ", d, to);
    let f = put_float(shown, e, to);
    let g = put(b" are shown here;\n  ", f, to);
    put_lost(given, whole, total - shown, g, to)
}

// A total of which no parts are taken.
fn put_no_parts(given: bool, total: f64, at: usize, to: &mut [u8]) -> usize
    ensures { Puts (no_parts_text given total) at to.old to.new result }
{
    let a = put(b"The total, ", at, to);
    let b = put_origin(given, a, to);
    let c = put(b", is ", b, to);
    let d = put_float(total, c, to);
    put(
        b":\n  not a finite number above zero, so that no part of it is told.\n",
        d,
        to,
    )
}

fn put_total(given: bool, whole: bool, total: f64, shown: f64, at: usize, to: &mut [u8]) -> usize
    ensures { Puts (total_text given whole total shown) at to.old to.new result }
{
    if is_total(total) {
        return put_shares(given, whole, total, shown, at, to);
    }
    put_no_parts(given, total, at, to)
}

// The place p, of a kind, stands in the way.
fn put_bar(vars: usize, p: usize, kind: usize, at: usize, to: &mut [u8]) -> usize
    ensures { Puts (bar_text vars p kind) at to.old to.new result }
{
    let a = tell(b"No total follows from the inputs: place ", p, at, to);
    let b = put(b" is of kind ", a, to);
    let c = put_kind(kind, b, to);
    let d = put(b".\n", c, to);
    put_if(vars == 1, b"Parts are taken of a total of 1.\n", d, to)
}

pub fn put_totals(given: Given, s: Sums, at: usize, to: &mut [u8]) -> usize
    ensures { Puts (totals_text given s) at to.old to.new result }
{
    match given {
        Some(total) => put_total(true, s.whole, total, s.shown, at, to),
        None => {
            if 64 <= s.bar {
                return put_total(false, s.whole, s.amount, s.shown, at, to);
            }
            put_bar(s.vars, s.bar, s.kind, at, to)
        }
    }
}
