// Array files (document 02, W2). What they are, and what reading and writing them answers, is in specs/.
#![tactic(auto)]

use model::Refusal;

// An array file was written, and this is how many bytes it has; or nothing was.
pub type Written = Result<usize, Refusal>;
