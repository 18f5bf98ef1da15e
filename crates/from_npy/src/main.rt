// The program `from_npy` (document 02, W2 and W12): an array file of NumPy on standard input, its sheet lines on
// standard output.
// No contract can say what is read or printed. `npy_sheets::show` says what is printed for a file, and that as much of
// it as is read here decides (shown-front). A file that is taken has at most 98,315 bytes: twelve, a header of 65,535,
// and 4,096 values; one byte more is read, so that a longer one is seen to be longer. A header of version 2.0 may be
// longer still: a file with such a one that does not end here is refused by 5.
#![tactic(auto)]

use replay_input::read_full;
use std::io;

fn main(rt: HostRuntime) -> io::Result<()> {
    let mut file = [0u8; 98316];
    let mut values = [0.0f64; 4096];
    let mut output = [0u8; 69649];
    let got = read_full(&mut rt.reader(), &mut file)?;
    let n = npy_sheets::show(&file[..got], &mut values, &mut output);
    rt.write_all(&output[..n])
}
