// What a person reads of an input whose header word is refused (document 02, W5): which variable is wrong, and why.
#![tactic(auto)]

ghost use Rattle.std.specs.Prelude.{◌%◌, get_or};
ghost use Rattle.lists.specs.Bytes.{bytes};
ghost use Rattle.model_texts.specs.Printed.{decimal};
ghost use Rattle.model_texts.specs.Report.{when};
ghost use Rattle.model_texts.specs.Cause.{cause_fronts, named, cause_backs, cause_text};
ghost use Rattle.report_lines.specs.Puts.{Puts};

use report_lines::put::{put, put_number};

// What stands before the variable, or all that there is to say.
fn put_front(cause: u8, at: usize, to: &mut [u8]) -> usize
    ensures { Puts (bytes (get_or cause_fronts cause "")) at to.old to.new result }
{
    match cause {
        1 => put(
            b"its number of variables is above 4;\nwrite the word anew.\n",
            at,
            to,
        ),
        2 => put(b"the length of variable ", at, to),
        3 => put(b"variable ", at, to),
        4 => put(b"its last 13 bits are not zero;\nclear them.\n", at, to),
        5 => put(
            b"its lengths multiply to more than 4,096;\nlower them.\n",
            at,
            to,
        ),
        _ => at,
    }
}

// The variable, where the cause names one.
fn put_named(variable: u8, cause: u8, at: usize, to: &mut [u8]) -> usize
    ensures { Puts (when (named cause) (decimal (variable % 10))) at to.old to.new result }
{
    if (cause == 2) | (cause == 3) {
        return put_number((variable % 10) as usize, at, to);
    }
    at
}

// What stands behind it.
fn put_back(cause: u8, at: usize, to: &mut [u8]) -> usize
    ensures { Puts (bytes (get_or cause_backs cause "")) at to.old to.new result }
{
    match cause {
        2 => put(
            b" is above its limit;\nlower the length or raise the limit.\n",
            at,
            to,
        ),
        3 => put(
            b" is missing, but its fields are not zero;\nclear them, or count it among the variables.\n",
            at,
            to,
        ),
        _ => at,
    }
}

// What is wrong and what to do, in a sentence.
pub fn put_cause(variable: u8, cause: u8, at: usize, to: &mut [u8]) -> usize
    ensures { Puts (cause_text variable cause) at to.old to.new result }
{
    let a = put_front(cause, at, to);
    let b = put_named(variable, cause, a, to);
    put_back(cause, b, to)
}
