// Module 5, after src/verify/classifier.rs and src/classification/mod.rs: count and page. Its definitions are in specs/.
#![tactic(auto)]

mod accepted;
pub mod count;
mod judge;
pub mod page;
mod tabled;
mod tally;
pub mod writing;
