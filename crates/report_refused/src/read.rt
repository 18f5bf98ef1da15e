// What is said of a text that is refused while it is read.
ghost use Rattle.std.specs.Prelude.{◌≡◌};
ghost use Rattle.model_texts.specs.Sheet.{read_refusal};
ghost use Rattle.model_faults.specs.Fault.{read_fault};
ghost use Rattle.report_lines.specs.Puts.{Puts};

use model::Refusal;
use report_broken::broken::put_broken;
use report_causes::place::put_where;
use report_causes::word_one::put_sizes_fault;
use report_header::put_cause;
use sheet_reading::input_count;

// By 8 the first line that is wrong, by 7 word one, by 1 the header of an input.
pub fn put_read_fault(text: &[u8], r: Refusal, at: usize, to: &mut [u8]) -> usize
    requires { r ≡ read_refusal text.now }
    ensures { Puts (read_fault text.now r) at to.old to.new result }
{
    if r.number == 8 {
        return put_broken(text, at, to);
    }
    if r.number == 7 {
        return put_sizes_fault(text, at, to);
    }
    let p = r.place as usize;
    let next = put_where(2 + p, input_count(text), p, at, to);
    put_cause(r.variable, r.cause, next, to)
}
