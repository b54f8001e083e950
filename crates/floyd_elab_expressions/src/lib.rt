//! Expressions of C turned into Clight: the expression without reads, the statements that go before it, and its type.
#![tactic(auto)]

mod casts;
mod expressions;
mod logic;
mod name_list;
mod names;
mod nodes;
mod operands;
mod operators;
mod progress;
mod reads;
mod sequences;
mod translation;
mod truths;

pub use casts::cast_into;
pub use expressions::{expression, rvalue, with_prefixes};
pub use name_list::NameList;
pub use names::{kth_name, pulled_name};
pub use nodes::one;
pub use operators::{binary_operator, variable_of};
pub use progress::Progress;
pub use reads::read;
pub use sequences::{sequence, store};
pub use translation::Translation;
pub use truths::test_of;
