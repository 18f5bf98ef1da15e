// The plain data of the second placing (document 02, W4). What it means is in specs/, and no laws.
#![tactic(auto)]

use model::Refusal;

// What a run takes over a pool in which parts are used again: the length of the pool, the largest announced step count,
// the input coefficient total; and where the last step's value begins.
#[derive(Clone, Copy)]
pub struct ReuseTotals {
    pub pool: usize,
    pub largest: usize,
    pub inputs: usize,
    pub last: usize,
}

// A recipe may be run so, and this is what it takes.
pub type ReuseAnswer = Result<ReuseTotals, Refusal>;
