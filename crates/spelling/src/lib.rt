// Text as bytes, and numbers as digits: definitions and what follows from them. There is no code here.

#![tactic(auto)]

pub mod promises;
