// A fraction of binary digits in billionths, to the nearest, and whether it is equal to them.
ghost use Rattle.std.specs.Prelude.{◌≡◌, ◌+◌, ◌-◌, ◌*◌, ◌^◌, ◌≤◌, ◌<◌};
ghost use Rattle.decimals.specs.Rounded.{Rounded, rounded_halves};
ghost use Rattle.decimals.specs.Billionths.{IsBillionths, Carried};

#[derive(Clone, Copy)]
pub struct Part {
    pub size: u64,
    pub exact: bool,
}

// Billionths as a whole number and less than 10 ^ 9 of them.
#[derive(Clone, Copy)]
pub struct Billionths {
    pub whole: u64,
    pub part: u64,
    pub exact: bool,
}

// Halves, and whether something stands behind them, rounded to the nearest; a tie to the even one.
fn rounded(halves: u64, rest: bool) -> u64
    ensures { result ≡ rounded_halves halves rest }
{
    let whole = halves / 2;
    if (halves % 2 == 1) & (rest | (whole % 2 == 1)) {
        return whole + 1;
    }
    whole
}

// The fraction f / 2 ^ (32 + j). The product with 10 ^ 9 does not fit a word: its lower 31 binary digits stand apart.
fn part_of(f: u64, j: u64) -> Part
    requires { (f < 9007199254740992) × (j < 64) }
    ensures { Rounded result.size result.exact (f * 1000000000) (2 ^ (j + 32)) }
{
    let low = f % 2147483648 * 1000000000;
    let high = f / 2147483648 * 1000000000 + low / 2147483648;
    let unit = 1 << j;
    let halves = high / unit;
    let rest = (high % unit != 0) | (low % 2147483648 != 0);
    Part {
        size: rounded(halves, rest),
        exact: (halves % 2 == 0) & !rest,
    }
}

// A part that was rounded up to a whole is one.
fn carried(whole: u64, p: Part) -> Billionths
    requires { (whole < 9007199254740992) × (p.size ≤ 1000000000) }
    ensures { Carried whole p.size p.exact result.whole result.part result.exact }
{
    let size = p.size;
    let exact = p.exact;
    if size < 1000000000 {
        return Billionths {
            whole,
            part: size,
            exact,
        };
    }
    Billionths {
        whole: whole + 1,
        part: 0,
        exact,
    }
}

// The number b / 2 ^ behind.
pub fn billionths_of(b: u64, behind: u64) -> Billionths
    requires { b < 9007199254740992 }
    ensures { IsBillionths (b * 1000000000) (2 ^ behind) result.whole result.part result.exact }
{
    if 95 < behind {
        return Billionths {
            whole: 0,
            part: 0,
            exact: b == 0,
        };
    }
    if 52 < behind {
        return carried(0, part_of(b, behind - 32));
    }
    let unit = 1 << behind;
    if 31 < behind {
        return carried(b / unit, part_of(b % unit, behind - 32));
    }
    carried(b / unit, part_of((b % unit) << (32 - behind), 0))
}
