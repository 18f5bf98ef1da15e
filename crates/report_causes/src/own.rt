// What is said of a sheet that the program's own limits refuse.
ghost use Rattle.std.specs.Prelude.{map, ◌≡◌, ◌+◌, ◌≤◌, length};
ghost use Rattle.model.specs.Word.{header_of};
ghost use Rattle.model_faults.specs.Own.{large_fault, totals_fault, first_large, own_fault};
ghost use Rattle.recipes_kinds.specs.Known.{Known};
ghost use Rattle.report_lines.specs.Puts.{Puts};

use crate::place::{line_of, put_where};
use gates::stored_of;
use recipes_check::total_of;
use report_say::say;
use shape_words::word::header_of;

// The first place that takes more than 256 coefficients; as many as there are places where none does.
fn first_large(known: &[u64]) -> usize
    requires { Known (map header_of known.now) }
    ensures { result ≡ first_large (map header_of known.now) }
{
    for (p, word) in known.iter().enumerate() {
        if 256 < stored_of(header_of(*word)) {
            return p;
        }
    }
    known.len()
}

// The place p, of which the first k are inputs with c coefficients together, takes n.
fn put_large(k: usize, c: usize, p: usize, n: usize, at: usize, to: &mut [u8]) -> usize
    requires { c + p ≤ 4294967296 }
    ensures { Puts (large_fault k c p n) at to.old to.new result }
{
    let next = put_where(line_of(k, c, p), k, p, at, to);
    say(
        b"it takes ",
        n,
        b" coefficients; 256 are the most here.\n",
        next,
        to,
    )
}

// The inputs take c coefficients, the steps d.
fn put_totals(c: usize, d: usize, at: usize, to: &mut [u8]) -> usize
    ensures { Puts (totals_fault c d) at to.old to.new result }
{
    if 2048 < c {
        return say(
            b"The inputs take ",
            c,
            b" coefficients together; 2048 are the most.\n",
            at,
            to,
        );
    }
    if 2048 < d {
        return say(
            b"The steps take ",
            d,
            b" coefficients together; 2048 are the most.\n",
            at,
            to,
        );
    }
    at
}

// Known what all places announce, of which the first k are inputs.
pub fn put_own_fault(known: &[u64], k: usize, at: usize, to: &mut [u8]) -> usize
    requires fact_1 { Known (map header_of known.now) }
    requires fact_2 { (k ≤ length known.now) × (length known.now ≤ 64) }
    ensures { Puts (own_fault (map header_of known.now) k) at to.old to.new result }
{
    let c = total_of(&known[..k]);
    let d = total_of(&known[k..]);
    let p = first_large(known);
    if p < known.len() {
        let n = stored_of(header_of(known[p]));
        return put_large(k, c, p, n, at, to);
    }
    put_totals(c, d, at, to)
}
