// Definitions on lists and whole numbers that the kit lacks, in specs/, and their laws, in proofs/. It has no code.
#![tactic(auto)]
