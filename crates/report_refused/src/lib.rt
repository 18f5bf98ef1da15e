// What a person reads where a sheet is refused: the line that `recipe` prints, then which line of the sheet is wrong,
// and why.
#![tactic(auto)]

mod read;
mod step;

ghost use Rattle.std.specs.Prelude.{◌≡◌};
ghost use Rattle.model_texts.specs.Printed.{refused_text};
ghost use Rattle.model_texts.specs.Sheet.{sheet_refusal};
ghost use Rattle.model_faults.specs.Fault.{fault_text, fault_report};
ghost use Rattle.report_lines.specs.Puts.{Puts};

use model::Refusal;
use read::put_read_fault;
use report_lines::put::put;
use sheet_reading::{edition_of, input_count, read};
use sheet_text::refused::put_refusal;
use step::put_recipe_fault;

// The line that `recipe` prints.
fn put_refused(r: Refusal, at: usize, to: &mut [u8]) -> usize
    ensures { Puts (refused_text r) at to.old to.new result }
{
    let mut line = [0u8; 24];
    let end = put_refusal(r, &mut line);
    put(&line[..end], at, to)
}

// The sentence behind it: of a text that is no sheet, or of its recipe.
fn put_fault_text(text: &[u8], r: Refusal, at: usize, to: &mut [u8]) -> usize
    requires { (r ≡ sheet_refusal text.now) × (r.number ≡ 0 → ⊥) }
    ensures { Puts (fault_text text.now) at to.old to.new result }
{
    let mut headers = [0u64; 16];
    match read(text, &mut headers) {
        Err(_) => put_read_fault(text, r, at, to),
        Ok(()) => {
            let edition = edition_of(text);
            let inputs = input_count(text);
            put_recipe_fault(text, r, &headers[..inputs], edition, at, to)
        }
    }
}

// Both, for a sheet that r refuses.
pub fn put_refusal_report(text: &[u8], r: Refusal, at: usize, to: &mut [u8]) -> usize
    requires { (r ≡ sheet_refusal text.now) × (r.number ≡ 0 → ⊥) }
    ensures { Puts (fault_report text.now) at to.old to.new result }
{
    let next = put_refused(r, at, to);
    put_fault_text(text, r, next, to)
}
