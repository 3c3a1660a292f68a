// Remainders: by x^4 + x + 1 an octet at a time, by x^6 + x + 1 a word at a time.
#![tactic(auto)]

pub mod fold;
pub mod six;
pub mod table;
