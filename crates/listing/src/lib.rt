// The text of a verdict, of the end and of a refusal. Its definitions are in specs/.
#![tactic(auto)]

pub mod text;
