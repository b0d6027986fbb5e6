// The starred cases of document 01, its bench file and its traps, as theorems in proofs/. It has no code.
#![tactic(auto)]
