//! What is wanted, and what may stand in a bracket.
ghost use Rattle.std.specs.Prelude.{◌≡◌};
ghost use Rattle.floyd_termread_tables.specs.Brackets as b;
ghost use Rattle.floyd_termread_tables.specs.Tables as t;

use crate::values::{Form, Kind, Want};
use floyd_lex::Punctuator;

impl Want {
    pub fn takes_terms(self) -> bool
        ensures { result ≡ t.takes_terms self }
    {
        match self {
            Want::Term | Want::Formula | Want::Either => true,
            _ => false,
        }
    }

    pub fn takes_formulas(self) -> bool
        ensures { result ≡ t.takes_formulas self }
    {
        match self {
            Want::Formula | Want::Either => true,
            _ => false,
        }
    }

    pub fn takes_types(self) -> bool
        ensures { result ≡ t.takes_types self }
    {
        match self {
            Want::Type => true,
            _ => false,
        }
    }
}

fn after_parenthesis(count: usize, last: Kind) -> Option<Want>
    ensures { result ≡ b.after_parenthesis count last }
{
    match (count, last) {
        (1, Kind::Open) => Some(Want::Term),
        _ => None,
    }
}

fn after_term(count: usize) -> Option<Want>
    ensures { result ≡ b.after_term count }
{
    match count {
        0 | 1 => Some(Want::Term),
        _ => None,
    }
}

fn first_only(want: Want, count: usize) -> Option<Want>
    ensures { result ≡ b.first_only want count }
{
    match count {
        0 => Some(want),
        _ => None,
    }
}

fn first_then_term(want: Want, count: usize) -> Option<Want>
    ensures { result ≡ b.first_then_term want count }
{
    match count {
        0 => Some(want),
        1 => Some(Want::Term),
        _ => None,
    }
}

fn type_path_term(count: usize) -> Option<Want>
    ensures { result ≡ b.type_path_term count }
{
    match count {
        0 => Some(Want::Type),
        1 => Some(Want::Path),
        2 => Some(Want::Term),
        _ => None,
    }
}

impl Form {
    /// What may stand behind so many items, where the last of them is of this kind.
    pub fn next_want(self, count: usize, last: Kind) -> Option<Want>
        ensures { result ≡ b.next_want self count last }
    {
        match self {
            Form::Terms | Form::List => Some(Want::Term),
            Form::Parenthesis => after_parenthesis(count, last),
            Form::TermParenthesis => after_term(count),
            Form::Subscript | Form::OneTerm => first_only(Want::Term, count),
            Form::OneType => first_only(Want::Type, count),
            Form::OneGiven => first_only(Want::Given, count),
            Form::TypeTerm => first_then_term(Want::Type, count),
            Form::TypePathTerm => type_path_term(count),
            Form::FreeTerm => first_then_term(Want::Free, count),
            Form::Types => Some(Want::Type),
        }
    }

    pub fn first_want(self) -> Want
        ensures { result ≡ b.first_want self }
    {
        match self {
            Form::Parenthesis => Want::Either,
            Form::OneType | Form::TypeTerm | Form::TypePathTerm | Form::Types => Want::Type,
            Form::OneGiven => Want::Given,
            Form::FreeTerm => Want::Free,
            Form::Terms | Form::TermParenthesis | Form::List | Form::Subscript | Form::OneTerm =>
                Want::Term,
        }
    }

    /// So many items are enough, where there is one.
    pub fn is_enough(self, count: usize) -> bool
        ensures { result ≡ b.is_enough self count }
    {
        match self {
            Form::TypeTerm | Form::FreeTerm => count == 2,
            Form::TypePathTerm => count == 3,
            _ => true,
        }
    }

    pub fn may_be_empty(self) -> bool
        ensures { result ≡ b.may_be_empty self }
    {
        match self {
            Form::Terms => true,
            _ => false,
        }
    }

    pub fn separator(self) -> Punctuator
        ensures { result ≡ b.separator self }
    {
        match self {
            Form::Types => Punctuator::Semicolon,
            _ => Punctuator::Comma,
        }
    }

    pub fn closing_mark(self) -> Punctuator
        ensures { result ≡ b.closing_mark self }
    {
        match self {
            Form::List | Form::Subscript => Punctuator::CloseBracket,
            _ => Punctuator::CloseParen,
        }
    }
}
