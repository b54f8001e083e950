//! Specifiers and declarators of C, of which its type names are made, read into syntax trees.
#![tactic(auto)]

mod read_types;
mod take_types;
mod type_tokens;
mod values;
mod words;

pub use read_types::{read_dtor, read_specs};
pub use take_types::{take_brace_end, take_comma};
pub use type_tokens::after_declarator;
pub use values::{DeclaratorEnd, Declarators, Declared, ReadDeclarator, ReadSpecifiers};
