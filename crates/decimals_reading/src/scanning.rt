// A text byte by byte.
ghost use Rattle.std.specs.Prelude.{◌≡◌, ◌≤◌};
ghost use Rattle.decimals_reading.specs.Scanned.{none, pushed_digit, pushed};

// What was seen of a text so far. Stage 0: nothing; 1: digits; 2: a point behind them; 3: digits behind the point; 4:
// no number (by number, and no enum: the contract of `push` names the stage so). `size` is what all the digits make,
// `places` how many stand behind the point.
#[derive(Clone, Copy)]
pub struct Scan {
    pub stage: u64,
    pub size: u64,
    pub places: usize,
}

fn no_number() -> Scan
    ensures { result ≡ none }
{
    Scan {
        stage: 4,
        size: 0,
        places: 0,
    }
}

// A digit more.
fn push_digit(s: Scan, d: u64) -> Scan
    requires { d ≤ 9 }
    ensures { result ≡ pushed_digit s d }
{
    let stage = s.stage;
    let size = s.size;
    let places = s.places;
    if 100000000000000 <= size {
        return no_number();
    }
    let more = 10 * size + d;
    if stage < 2 {
        return Scan {
            stage: 1,
            size: more,
            places: 0,
        };
    }
    if (stage < 4) & (places < 22) {
        return Scan {
            stage: 3,
            size: more,
            places: places + 1,
        };
    }
    no_number()
}

// A byte more.
pub fn push(s: Scan, b: u8) -> Scan
    ensures { result ≡ pushed s b }
{
    if (48 <= b) & (b <= 57) {
        return push_digit(s, (b as u64) - 48);
    }
    let stage = s.stage;
    let size = s.size;
    if (b == 46) & (stage == 1) {
        return Scan {
            stage: 2,
            size,
            places: 0,
        };
    }
    no_number()
}
