// The plain data that every crate shares. What it means is in specs/: the definitions of document 01, and no laws.
#![tactic(auto)]

ghost use Rattle.std.specs.Prelude.{◌≡◌, ◌<◌};
ghost use Rattle.model.specs.Header.{with_lengths, no_header, zero_with, var_with, limit_or_one, two_at_most};
ghost use Rattle.model.specs.Gates.{var_header};
ghost use Rattle.model.specs.Faults.{no_fault, fault, unless};
ghost use Rattle.model.specs.Refusals.{no_refusal, refused_by, refused_at, refused_for};
ghost use Rattle.model.specs.Linear.{no_linear};

// A polynomial's number of variables, its limits (the Rust's `degrees_p1`), its stored lengths, 1 and 1 for a missing
// variable, and its cap on the total degree, 0 for none (document 02, W10).
#[derive(Clone, Copy)]
pub struct Header {
    pub vars: usize,
    pub limits: [usize; 4],
    pub lengths: [usize; 4],
    pub cap: usize,
}

// What is wrong with a header word, or with limits that a constructor is given (document 02, W5): the variable, 4 for
// none, and the cause, 1 to 6; 0 and 0 where nothing is.
#[derive(Clone, Copy)]
pub struct Fault {
    pub variable: u8,
    pub cause: u8,
}

// Why a call was refused: document 01's number, 0 for no refusal, and the place it is about, 64 for none in particular;
// variable and cause of the fault where the number is 1, else 0 and 0.
#[derive(Clone, Copy)]
pub struct Refusal {
    pub number: u8,
    pub place: u8,
    pub variable: u8,
    pub cause: u8,
}

// A polynomial was written, and this is its header word; or nothing was.
pub type Answer = Result<u64, Refusal>;

// A number that was read off a polynomial.
pub type Reading = Result<f64, Refusal>;

// A number of places that was read off a polynomial.
pub type CountReading = Result<usize, Refusal>;

// c + m * v, where `yes`; else all 0.
#[derive(Clone, Copy)]
pub struct Linear {
    pub yes: bool,
    pub c: f64,
    pub m: f64,
    pub variable: usize,
}

// Whether a polynomial is linear.
pub type LinearReading = Result<Linear, Refusal>;

// The families of operations that announce their limits and lengths alike, with the numbers that decide them: an
// exponent, a variable, n or an order.
#[derive(Clone, Copy)]
pub enum Family {
    // A constant that carries no limits.
    Constant,
    // Negation.
    Same,
    // Sum and difference.
    Sum,
    Product,
    Quotient,
    // `exp` and `log`.
    Series,
    Power(u32),
    // `derivative`, `taylor_expansion_of_coeff`, `shift_down`: variable and n.
    Shift(usize, usize),
    // `subst_var`: the variable.
    Substitution(usize),
    // `coefficients_of_term`: the variable.
    Term(usize),
    // `taylor_polynomial`: variable and order.
    Order(usize, usize),
    // One, with the operand's limits: a power of zero in recipe edition 1.
    One,
}

impl Header {
    // The most variables.
    pub const VARS: usize = 4;

    // The largest limit.
    pub const LIMIT: usize = 64;

    // The most stored places.
    pub const COUNT: usize = 4096;

    // The largest cap: none yet.
    pub const CAP: usize = 0;

    // The same variables, limits and cap, other lengths.
    pub fn with_lengths(h: Header, lengths: [usize; 4]) -> Header
        ensures { result ≡ with_lengths h lengths }
    {
        let limits = h.limits;
        Header {
            vars: h.vars,
            limits,
            lengths,
            cap: h.cap,
        }
    }

    // The headers of the constructors, each under its name; the value does not matter to them.

    // A constant with no variables.
    pub fn none() -> Header
        ensures { result ≡ no_header }
    {
        Header {
            vars: 0,
            limits: [1, 1, 1, 1],
            lengths: [1, 1, 1, 1],
            cap: 0,
        }
    }

    pub fn zero() -> Header
        ensures { result ≡ no_header }
    {
        Header::none()
    }

    pub fn one() -> Header
        ensures { result ≡ no_header }
    {
        Header::none()
    }

    pub fn from_u32() -> Header
        ensures { result ≡ no_header }
    {
        Header::none()
    }

    // A constant that carries the first `vars` of these limits.
    pub fn zero_with(vars: usize, limits: [usize; 4]) -> Header
        ensures { result ≡ zero_with vars limits }
    {
        Header {
            vars,
            limits: [
                limit_or_one(vars, 0, limits[0]),
                limit_or_one(vars, 1, limits[1]),
                limit_or_one(vars, 2, limits[2]),
                limit_or_one(vars, 3, limits[3]),
            ],
            lengths: [1, 1, 1, 1],
            cap: 0,
        }
    }

    pub fn from_u32_with(vars: usize, limits: [usize; 4]) -> Header
        ensures { result ≡ zero_with vars limits }
    {
        Header::zero_with(vars, limits)
    }

    // x + v, as far as the limit of v lets it.
    pub fn var_with_degrees_p1(v: usize, vars: usize, limits: [usize; 4]) -> Header
        ensures { result ≡ var_with v vars limits }
    {
        let h = Header::zero_with(vars, limits);
        let l = h.limits;
        Header::with_lengths(
            h,
            [
                two_at_most(v, 0, l[0]),
                two_at_most(v, 1, l[1]),
                two_at_most(v, 2, l[2]),
                two_at_most(v, 3, l[3]),
            ],
        )
    }

    // x + v, every variable up to v under one limit.
    pub fn var(v: usize, limit: usize) -> Header
        requires { v < 4 }
        ensures { result ≡ var_header v limit }
    {
        Header::var_with_degrees_p1(v, v + 1, [limit, limit, limit, limit])
    }

    pub fn var_at_zero(v: usize, limit: usize) -> Header
        requires { v < 4 }
        ensures { result ≡ var_header v limit }
    {
        Header::var(v, limit)
    }
}

// The limit of variable k among `vars`, 1 where it is missing.
fn limit_or_one(vars: usize, k: usize, limit: usize) -> usize
    ensures { result ≡ limit_or_one vars k limit }
{
    if k < vars { limit } else { 1 }
}

// The length of variable k in x + v: 2 in v as far as its limit lets it, else 1.
fn two_at_most(v: usize, k: usize, limit: usize) -> usize
    ensures { result ≡ two_at_most v k limit }
{
    if k != v {
        return 1;
    }
    if limit < 2 { limit } else { 2 }
}

impl Fault {
    pub fn none() -> Fault
        ensures { result ≡ no_fault }
    {
        Fault::of(0, 0)
    }

    pub fn of(variable: u8, cause: u8) -> Fault
        ensures { result ≡ fault variable cause }
    {
        Fault { variable, cause }
    }

    // A test in a chain of tests: what follows where it holds, else the fault.
    pub fn unless(holds: bool, told: Fault, next: Fault) -> Fault
        ensures { result ≡ unless holds told next }
    {
        if holds { next } else { told }
    }
}

impl Refusal {
    // The place of a refusal that is about no place in particular.
    pub const NOWHERE: u8 = 64;

    pub fn none() -> Refusal
        ensures { result ≡ no_refusal }
    {
        Refusal::by(0)
    }

    // A refusal of a single operation.
    pub fn by(number: u8) -> Refusal
        ensures { result ≡ refused_by number }
    {
        Refusal::at(number, Refusal::NOWHERE)
    }

    // A refusal that is about one place of a recipe.
    pub fn at(number: u8, place: u8) -> Refusal
        ensures { result ≡ refused_at number place }
    {
        Refusal {
            number,
            place,
            variable: 0,
            cause: 0,
        }
    }

    // A refusal by 1, for a fault.
    pub fn of_fault(f: Fault, place: u8) -> Refusal
        ensures { result ≡ refused_for f place }
    {
        Refusal {
            number: 1,
            place,
            variable: f.variable,
            cause: f.cause,
        }
    }
}

impl Linear {
    pub fn none() -> Linear
        ensures { result ≡ no_linear }
    {
        Linear {
            yes: false,
            c: 0.0,
            m: 0.0,
            variable: 0,
        }
    }
}
