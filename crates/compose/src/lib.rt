// Module 2, after src/verify/compose.rs: allowed lists, kept maps, field order, index tuples, forcing. Its definitions are in specs/.
#![tactic(auto)]

mod childless;
mod domain;
pub mod filters;
mod finding;
pub mod force;
pub mod groups;
pub mod maps;
mod members;
pub mod numbers;
mod ordering;
pub mod places;
pub mod plan;
mod slots;
pub mod steps;
pub mod tables;
mod tasks;
mod values;
