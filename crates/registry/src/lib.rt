// Module 3, after src/verify/registry.rs: the checks and the projections of a row. Its definitions are in specs/.
#![tactic(auto)]

pub mod check;
pub mod project;
mod radix;
pub mod sorting;
