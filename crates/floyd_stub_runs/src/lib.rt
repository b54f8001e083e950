//! Runs of a linked program and what it means that it is sound: definitions and their laws, which no code runs.
#![tactic(auto)]
