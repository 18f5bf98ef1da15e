// Which place decides a limit, where a limit falls, and what the limits leave out: from the words that the places
// announce, and the step words.
#![tactic(auto)]

pub mod cut;
pub mod decide;
pub mod far;
pub mod full;
pub mod whole;
