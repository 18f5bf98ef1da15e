// The front of an array file (document 02, W2 and W12): what it says, and where its data begin.
#![tactic(auto)]

ghost use Rattle.std.specs.Prelude.{cond, false, ◌≡◌, leb, MatchOption};
ghost use Rattle.npy_reading.specs.Opening.{begin_of, end_of, Begun, Framed, Opens};
ghost use Rattle.npy_reading.specs.Heads.{HeadKept};

use model::Header;
use npy_bytes::{little_2, little_4, starts_with};
use npy_header::{Shape, read_header};

// A place of a file of n bytes; None where it ends before.
fn within(place: usize, n: usize) -> Option<usize>
    ensures { result ≡ cond (leb place n) (Some place) None }
{
    (place <= n).then_some(place)
}

// Where the header of a file of version 1.0 or 2.0 begins; None for another file, and for one that ends before.
fn head_start(file: &[u8]) -> Option<usize>
    ensures { MatchOption result (begin_of file.now ≡ 0) (Begun file.now) }
{
    if starts_with(file, &[147, 78, 85, 77, 80, 89, 1, 0]) {
        return within(10, file.len());
    }
    if starts_with(file, &[147, 78, 85, 77, 80, 89, 2, 0]) {
        return within(12, file.len());
    }
    None
}

// Where the data of a file begin whose header begins at `begin`; None where the file ends before.
fn data_start(file: &[u8], begin: usize) -> Option<usize>
    requires { Begun file.now begin }
    ensures { MatchOption result (end_of file.now ≡ 0) (Framed file.now begin) }
{
    if begin == 10 {
        return within(10 + little_2(file, 8) as usize, file.len());
    }
    within(12 + little_4(file, 8) as usize, file.len())
}

// Whether a file is taken (a flag beside the rest: the contract of `open_file` names it); if so, where its data begin,
// the bytes of a value, 1 for rows and 2 for columns, and the shape.
#[derive(Clone, Copy)]
pub struct Opened {
    pub right: bool,
    pub start: usize,
    pub width: usize,
    pub order: usize,
    pub shape: Shape,
}

fn not_opened() -> Opened
    ensures { result.right ≡ false }
{
    Opened {
        right: false,
        start: 0,
        width: 0,
        order: 0,
        shape: Shape {
            vars: 0,
            n: [1, 1, 1, 1],
        },
    }
}

// To the header's very last byte.
pub fn open_file(file: &[u8]) -> Opened
    ensures { Opens file.now result }
{
    let Some(begin) = head_start(file) else {
        return not_opened();
    };
    let Some(start) = data_start(file, begin) else {
        return not_opened();
    };
    let found = read_header(&file[begin..start]);
    Opened {
        right: found.right,
        start,
        width: found.width,
        order: found.order,
        shape: found.shape,
    }
}

// The header of a shape: limits are taken as the shape.
pub fn head_of(s: Shape) -> Header
    ensures { HeadKept s result }
{
    let n = s.n;
    Header {
        vars: s.vars,
        limits: n,
        lengths: n,
        cap: 0,
    }
}
