// The plain data of recipes. What it means is in specs/: document 01's 'Recipes', and no laws.
#![tactic(auto)]

use model::Refusal;

// The fields of a recipe's step word.
#[derive(Clone, Copy)]
pub struct Step {
    pub kind: usize,
    pub a: usize,
    pub b: usize,
    pub variable: usize,
    pub n: u32,
}

// The kinds, by their numbers in a step word.
impl Step {
    pub const CONSTANT: usize = 0;

    pub const NEGATE: usize = 1;

    pub const ADD: usize = 2;

    pub const SUBTRACT: usize = 3;

    pub const MULTIPLY: usize = 4;

    pub const DIVIDE: usize = 5;

    pub const POWER: usize = 6;

    pub const DERIVATIVE: usize = 7;

    pub const EXPANSION: usize = 8;

    pub const SHIFT_DOWN: usize = 9;

    pub const SUBSTITUTION: usize = 10;

    pub const EXP: usize = 11;
}

// Which fields a kind of step uses, where there is such a kind.
#[derive(Clone, Copy)]
pub struct Uses {
    pub kind: bool,
    pub a: bool,
    pub b: bool,
    pub variable: bool,
    pub n: bool,
}

// What a run takes: the pool total, the largest announced step count, the input coefficient total.
#[derive(Clone, Copy)]
pub struct Totals {
    pub pool: usize,
    pub largest: usize,
    pub inputs: usize,
}

// A recipe may be run, and this is what it takes.
pub type CheckAnswer = Result<Totals, Refusal>;

// Every step's value was written, with its header word; or the run was refused: before its first step, and nothing was
// written, or at a step that stops it (12), and +0.0 and 0 stand where values and words would.
pub type RunAnswer = Result<(), Refusal>;
