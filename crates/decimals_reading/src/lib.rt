// Reading a number as people type it: digits, and perhaps a point and digits behind it (docs/REFERENCE.md, section 10).
#![tactic(auto)]

pub mod quotient;
pub mod scanning;

ghost use Rattle.std.specs.Prelude.{◌≡◌};
ghost use Rattle.decimals_reading.specs.Promise.{ReadPromise};

use crate::quotient::quotient;
use crate::scanning::{Scan, push};
use model_decimals::Read;

// The float nearest to the number that a text is.
pub fn read(text: &[u8]) -> Read
    ensures { ReadPromise text.now result }
{
    let mut s = Scan {
        stage: 0,
        size: 0,
        places: 0,
    };
    for b in text {
        s = push(s, *b);
    }
    let stage = s.stage;
    let size = s.size;
    let places = s.places;
    if (stage == 1) | (stage == 3) {
        return Some(quotient(size, places));
    }
    None
}
