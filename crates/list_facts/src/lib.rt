//! Definitions of lists and laws of them, over any type, for contracts and proofs. Nothing of it runs.
#![tactic(auto)]
