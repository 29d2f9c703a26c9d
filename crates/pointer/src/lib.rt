// A pointer drawn, and taken away by drawing it again. There is no code here, only the statements and their proofs.
#![tactic(auto)]
