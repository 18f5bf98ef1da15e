// Where something is wrong.
ghost use Rattle.std.specs.Prelude.{◌≡◌, ◌+◌, ◌≤◌};
ghost use Rattle.model_faults.specs.Own.{where_text, line_of};
ghost use Rattle.report_lines.specs.Puts.{Puts};

use report_lines::put::tell;
use report_say::say;

// The line of the place p, counted from 1: the first k places are inputs, with c coefficients together.
pub fn line_of(k: usize, c: usize, p: usize) -> usize
    requires { c + p ≤ 4294967296 }
    ensures { result ≡ line_of k c p }
{
    if p < k { 2 + p } else { 2 + c + p }
}

// The line, and the place p, of which the first k are inputs.
pub fn put_where(line: usize, k: usize, p: usize, at: usize, to: &mut [u8]) -> usize
    ensures { Puts (where_text line k p) at to.old to.new result }
{
    let next = tell(b"line ", line, at, to);
    if p < k {
        return say(b" (input ", p, b"): ", next, to);
    }
    say(b" (place ", p, b"): ", next, to)
}
