// Header words, and the places of a block (document 01, 'What a polynomial is here' and 'Header word').
#![tactic(auto)]

pub mod fault;
pub mod places;
pub mod word;
