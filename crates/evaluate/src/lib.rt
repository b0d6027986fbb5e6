// Module 4, after src/verify/evaluate.rs: the verdict on a row of forced values. Its definitions are in specs/.
#![tactic(auto)]

pub mod checks;
pub mod indexing;
pub mod settled;
