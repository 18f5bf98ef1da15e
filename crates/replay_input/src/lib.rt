// What the programs share: bytes, and those of a stored case, read into lent memory.
#![tactic(auto)]

ghost use Rattle.std.specs.Prelude.{◌≡◌, min, length, drop, IfOk, IfErr};
ghost use Rattle.io.specs.Counts.{IsPrefixLen};

use model::Refusal;
use shape::limits::least;
use std::env::{Env, FillError};
use std::io;
use std::io::Read;

// Bytes of a reader until `to` is full or they end; how many there are. What is read no contract can say.
pub fn read_full(from: &mut impl Read, to: &mut [u8]) -> io::Result<usize>
    ensures { IfOk result (λ n. IsPrefixLen n to.new) }
{
    let mut done = 0;
    // No `for`: a turn goes on by as many bytes as were read.
    while done < to.len() {
        let n = from.read(&mut to[done..])?;
        if n == 0 {
            break;
        }
        done += n;
    }
    Ok(done)
}

// The next bytes of a reader, wanted of them or as many as there are places, to the front of `to`; answers how many
// places are theirs. What is read no contract can say; what lies behind those places stays. An error is the reader's,
// and leaves `to` as long as it was.
pub fn read_next(from: &mut impl Read, wanted: usize, to: &mut [u8]) -> io::Result<usize>
    ensures counts { IfOk result (λ n. IsPrefixLen n to.new) }
    ensures many { IfOk result (λ n. n ≡ min wanted (length to.old)) }
    ensures behind { IfOk result (λ n. drop n to.new ≡ drop n to.old) }
    ensures failed { IfErr result (λ e. length to.new ≡ length to.old) }
{
    let n = least(wanted, to.len());
    read_full(from, &mut to[..n])?;
    Ok(n)
}

// Runs the cases of a reader to its end, each from its first bytes: as many as `begin` has, or as are left. What is
// read no contract can say.
pub fn each_case<R: Read, F: FnMut(&mut R, &[u8]) -> io::Result<()>>(
    from: &mut R,
    begin: &mut [u8],
    mut run: F,
) -> io::Result<()>
    requires { F.IsAlwaysCallable run }
{
    for _ in 0..u64::MAX {
        let got = read_full(from, begin)?;
        if got == 0 {
            break;
        }
        run(from, &begin[..got])?;
    }
    Ok(())
}

// A refusal as the programs that run stored cases print it.
pub fn show_refusal(rt: &impl Print, r: Refusal) -> io::Result<()> {
    print!(rt;
        "refused {} {} {} {}",
        r.number, r.place, r.variable, r.cause
    )
}

// Argument i of the program, at the front of `to`; its length, 0 where it is missing or longer than `to`. Which text it
// is no contract can say.
pub fn argument(rt: &impl Env, i: usize, to: &mut [u8]) -> usize
    ensures { IsPrefixLen result to.new }
{
    match rt.arg(i, to) {
        Ok(n) => n,
        Err(_) => 0,
    }
}

// How many arguments the program was started with, its own name among them.
pub fn argument_count(rt: &impl Env) -> usize {
    for i in 0..usize::MAX {
        if let Err(FillError::NotPresent) = rt.arg(i, &mut []) {
            return i;
        }
    }
    usize::MAX
}
