// What is said of a sheet whose recipe is refused: at a step, or by the program's own limits.
ghost use Rattle.std.specs.Prelude.{length};
ghost use Rattle.model_texts.specs.Sheet.{step_count};
ghost use Rattle.model_faults.specs.Fault.{recipe_fault};
ghost use Rattle.report_lines.specs.Puts.{Puts};
ghost use Rattle.sheet_solving.specs.Running.{Opening};
ghost use Rattle.report_refused.specs.Placed.{Placed};
ghost use Rattle.report_refused.specs.Known.{Known, known_fault};

use model::Refusal;
use recipes_check::{note_inputs, total_of};
use report_causes::announced::announce_steps;
use report_causes::own::put_own_fault;
use report_causes::place::{line_of, put_where};
use report_causes::step::put_step_cause;
use sheet_reading::{fill_words, step_count};

// The first k places are inputs, with c coefficients together; `known` are the words that all places announce.
fn put_known_fault(
    r: Refusal,
    k: usize,
    c: usize,
    steps: &[u64],
    known: &[u64],
    at: usize,
    to: &mut [u8],
) -> usize
    requires { Known r k c steps.now known.now }
    ensures { Puts (known_fault r k c steps.now known.now) at to.old to.new result }
{
    let p = r.place as usize;
    if p < 64 {
        let next = put_where(line_of(k, c, p), k, p, at, to);
        return put_step_cause(r.number, steps[p - k], p, &known[..p], next, to);
    }
    put_own_fault(known, k, at, to)
}

// A sheet that is read, with its input headers and its edition.
pub fn put_recipe_fault(
    text: &[u8],
    r: Refusal,
    headers: &[u64],
    edition: u64,
    at: usize,
    to: &mut [u8],
) -> usize
    requires fact_1 { Opening text.now headers.now edition }
    requires fact_2 { Placed (length headers.now) (step_count text.now) r }
    ensures { Puts (recipe_fault text.now r) at to.old to.new result }
{
    let k = headers.len();
    let n = step_count(text);
    let c = total_of(headers);
    let end = k + n;
    let mut steps = [0u64; 64];
    let mut known = [0u64; 64];
    fill_words(text, 1 + k + c, &mut steps[..n]);
    note_inputs(headers, &mut known);
    announce_steps(edition, &steps[..n], k, &mut known);
    put_known_fault(r, k, c, &steps[..n], &known[..end], at, to)
}
