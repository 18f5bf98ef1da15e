// How sentences are put together: phrases with numbers between them. And the laws of the first that fails a test.
#![tactic(auto)]

ghost use Rattle.std.specs.Prelude.{◌++◌};
ghost use Rattle.model_texts.specs.Printed.{decimal};
ghost use Rattle.report_lines.specs.Puts.{Puts};

use report_lines::put::{put, tell};

pub fn say(before: &[u8], n: usize, after: &[u8], at: usize, to: &mut [u8]) -> usize
    ensures { Puts ((before.now ++ decimal n) ++ after.now) at to.old to.new result }
{
    let next = tell(before, n, at, to);
    put(after, next, to)
}

pub fn say_two(
    before: &[u8],
    n: usize,
    between: &[u8],
    m: usize,
    after: &[u8],
    at: usize,
    to: &mut [u8],
) -> usize
    ensures { Puts ((before.now ++ decimal n) ++ ((between.now ++ decimal m) ++ after.now)) at
        to.old to.new result }
{
    let next = tell(before, n, at, to);
    say(between, m, after, next, to)
}
