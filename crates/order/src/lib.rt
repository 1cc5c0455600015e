//! What a term and a term order mean: definitions and their laws, with no code.
#![tactic(auto)]
