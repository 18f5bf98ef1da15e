// Step words, packed and unpacked by shifts and masks, and the table of kinds.
ghost use Rattle.std.specs.Prelude.{◌≡◌, ◌<◌};
ghost use Rattle.model_recipes.specs.Kinds.{idle, power_family};
ghost use Rattle.model_recipes.specs.Steps.{step_of, word_of_step, uses_of};
ghost use Rattle.model_recipes.specs.Recipe.{family_of};
ghost use Rattle.model_recipes.specs.Check.{named_before, zero_unless, formed};
ghost use Rattle.recipes_kinds.specs.Packed.{Fields};

use model::Family;
use model_recipes::{Step, Uses};

// What the fields of a word say, well formed or not.
pub fn step_of(word: u64) -> Step
    ensures { result ≡ step_of word }
{
    Step {
        kind: ((word >> 60) & 15) as usize,
        a: ((word >> 54) & 63) as usize,
        b: ((word >> 48) & 63) as usize,
        variable: ((word >> 46) & 3) as usize,
        n: ((word >> 14) & 4294967295) as u32,
    }
}

// The word of a step, its last bits zero.
pub fn pack(s: Step) -> u64
    requires { Fields s }
    ensures { result ≡ word_of_step s }
{
    ((s.kind as u64) << 60)
        | ((s.a as u64) << 54)
        | ((s.b as u64) << 48)
        | ((s.variable as u64) << 46)
        | ((s.n as u64) << 14)
}

// Constant n.
const CONSTANT: Uses = Uses {
    kind: true,
    a: false,
    b: false,
    variable: false,
    n: true,
};

// Negate, exp.
const SINGLE: Uses = Uses {
    kind: true,
    a: true,
    b: false,
    variable: false,
    n: false,
};

// Add, subtract, multiply, divide.
const PAIR: Uses = Uses {
    kind: true,
    a: true,
    b: true,
    variable: false,
    n: false,
};

// Power.
const POWER: Uses = Uses {
    kind: true,
    a: true,
    b: false,
    variable: false,
    n: true,
};

// `derivative`, `taylor_expansion_of_coeff`, `shift_down`.
const SHIFT: Uses = Uses {
    kind: true,
    a: true,
    b: false,
    variable: true,
    n: true,
};

// `subst_var`.
const SUBSTITUTION: Uses = Uses {
    kind: true,
    a: true,
    b: true,
    variable: true,
    n: false,
};

// Refused.
const NO_KIND: Uses = Uses {
    kind: false,
    a: false,
    b: false,
    variable: false,
    n: false,
};

// A row for each kind.
const ROWS: [Uses; 16] = [
    CONSTANT,
    SINGLE,
    PAIR,
    PAIR,
    PAIR,
    PAIR,
    POWER,
    SHIFT,
    SHIFT,
    SHIFT,
    SUBSTITUTION,
    SINGLE,
    NO_KIND,
    NO_KIND,
    NO_KIND,
    NO_KIND,
];

// Which fields a kind uses.
#[tactic(auto, unfolding(model_recipes::specs::Steps::rows))]
pub fn uses_of(kind: usize) -> Uses
    requires { kind < 16 }
    ensures { result ≡ uses_of kind }
{
    ROWS[kind]
}

// A used operand names a place before `at`; an unused one is zero.
pub fn is_named(at: usize, used: bool, x: usize) -> bool
    ensures { result ≡ named_before at used x }
{
    if used { x < at } else { x == 0 }
}

// Whether a field that is not used is zero.
fn is_zero_unless(used: bool, x: usize) -> bool
    ensures { result ≡ zero_unless used x }
{
    used | (x == 0)
}

// Whether the step word at the place `at` is well formed: test 7.
pub fn is_formed(word: u64, at: usize) -> bool
    ensures { result ≡ formed word at }
{
    let s = step_of(word);
    let u = uses_of(s.kind);
    u.kind
        & is_named(at, u.a, s.a)
        & is_named(at, u.b, s.b)
        & is_zero_unless(u.variable, s.variable)
        & is_zero_unless(u.n, s.n as usize)
        & (word & 16383 == 0)
}

// Whether a power n is one with its operand's limits: a power of zero in edition 1.
pub fn is_idle(edition: u64, n: u32) -> bool
    ensures { result ≡ idle edition n }
{
    (edition == 1) & (n == 0)
}

fn power_family(edition: u64, n: u32) -> Family
    ensures { result ≡ power_family edition n }
{
    if is_idle(edition, n) {
        Family::One
    } else {
        Family::Power(n)
    }
}

// The family by which a step announces in an edition.
#[tactic(auto, unfolding(model_recipes::specs::Recipe::families))]
pub fn family_of(edition: u64, s: Step) -> Family
    ensures { result ≡ family_of edition s }
{
    match s.kind {
        Step::NEGATE => Family::Same,
        Step::ADD | Step::SUBTRACT => Family::Sum,
        Step::MULTIPLY => Family::Product,
        Step::DIVIDE => Family::Quotient,
        Step::POWER => power_family(edition, s.n),
        Step::DERIVATIVE | Step::EXPANSION | Step::SHIFT_DOWN => {
            Family::Shift(s.variable, s.n as usize)
        }
        Step::SUBSTITUTION => Family::Substitution(s.variable),
        Step::EXP => Family::Series,
        _ => Family::Constant,
    }
}
