//! The Clight machine: definitions alone, which no code runs.
#![tactic(auto)]
