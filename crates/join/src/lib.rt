// Module 5, added: two files joined. Its definitions are in specs/.
#![tactic(auto)]

pub mod join;
