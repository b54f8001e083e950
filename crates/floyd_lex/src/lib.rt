//! Files cut into tokens: sources of C, specifications and scripts.
#![tactic(auto)]

mod classes;
mod cutting;
mod front;
mod keywords;
mod kinds;
mod laws;
mod lead;
mod lexer;
mod list;
mod marks;
mod numbers;
mod quotes;
mod spot;
mod unicode;

pub use cutting::tokens;
pub use kinds::{FileKind, Keyword, LiteralType, Punctuator, TokenKind};
pub use laws::{
    has_one_cut, lines_stand_alone, texts_stand_in_order, texts_stand_on_lines, tokens_suit,
};
pub use lexer::{Cut, Lexed, Lexer, start};
pub use list::Tokens;
