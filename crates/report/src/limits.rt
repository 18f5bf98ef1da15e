// All that is said of limits, before any figure.
ghost use Rattle.std.specs.Prelude.{map, ◌≤◌};
ghost use Rattle.model.specs.Word.{header_of};
ghost use Rattle.model_forecast.specs.Told.{limit_lines};
ghost use Rattle.report_lines.specs.Puts.{Puts};

use report_lines::cuts::put_cuts;
use report_lines::ends::put_ends;
use report_lines::lines::put_places;
use report_lines::put::put;

// Of n places, of which the last is the answer; `full`: their full lengths.
pub fn put_limit_lines(
    known: &[u64],
    steps: &[u64],
    inputs: usize,
    full: &[usize],
    n: usize,
    at: usize,
    to: &mut [u8],
) -> usize
    requires { (1 ≤ n) × (n ≤ 64) }
    ensures { Puts (limit_lines (map header_of known.now) steps.now inputs full.now n) at
        to.old to.new result }
{
    let a = put(
        b"Each place: what it is, its number of variables, and of each variable the\n",
        at,
        to,
    );
    let b = put(
        b"limit/most it stores. Operands are places, v is a variable, n a number.\n",
        a,
        to,
    );
    let c = put_places(known, steps, inputs, n, b, to);
    let d = put_cuts(known, steps, inputs, full, n, c, to);
    put_ends(known, steps, inputs, n - 1, d, to)
}
