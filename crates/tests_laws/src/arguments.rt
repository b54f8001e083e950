//! The terms that a row gives to a law.
use floyd_text::{Name, Steps};
use floyd_tree::{Head, MakeStop, Operator, Sort, Term, TermList, make};
use sqlite_items::Items;
use std::alloc::{AllocError, Global};
use std::sync::ledger::Ledger;

/// The sort that the word names, or the one of numbers.
fn sort_named(alloc: Global, word: &str) -> Result<Sort, AllocError> {
    match word {
        "val" => Ok(Sort::Val),
        "listZ" => Sort::list_of(alloc, Sort::Z),
        "listval" => Sort::list_of(alloc, Sort::Val),
        "listlistZ" => Sort::list_of(alloc, Sort::list_of(alloc, Sort::Z)?),
        _ => Ok(Sort::Z),
    }
}

/// That many complements over the number 1.
fn chain<L: Ledger>(alloc: Global, count: u32, steps: &mut Steps<L>) -> Result<Term, MakeStop> {
    let mut term = make(alloc, Head::Literal(1), &[], steps)?;
    'levels: for _level in 0..count {
        term = make(alloc, Head::Operator(Operator::Bnot), &[term], steps)?;
    }
    Ok(term)
}

/// That many levels of sums over the number 1.
fn full<L: Ledger>(alloc: Global, count: u32, steps: &mut Steps<L>) -> Result<Term, MakeStop> {
    let mut term = make(alloc, Head::Literal(1), &[], steps)?;
    'levels: for _level in 0..count {
        let other = term.share()?;
        term = make(alloc, Head::Operator(Operator::Add), &[term, other], steps)?;
    }
    Ok(term)
}

/// A variable with its sort behind a colon, or a large number: `deep` is as high as a term may be, `wide` almost as large.
fn argument<L: Ledger>(alloc: Global, word: &str, steps: &mut Steps<L>) -> Result<Term, MakeStop> {
    if word == "deep" {
        return chain(alloc, 255, steps);
    }
    if word == "wide" {
        return full(alloc, 15, steps);
    }
    let (name, sort) = word.split_once(":").unwrap_or((word, "Z"));
    let name = Name::from_slice(alloc, name.as_bytes())?;
    let sort = sort_named(alloc, sort)?;
    make(alloc, Head::Variable(name, sort), &[], steps)
}

/// The terms of the words, or the first of them.
pub fn arguments<L: Ledger>(
    alloc: Global,
    words: &[&str],
    steps: &mut Steps<L>,
) -> Result<TermList, MakeStop> {
    let mut all = Vec::new(alloc);
    'words: for word in words {
        all.push(argument(alloc, word, steps)?)?;
    }
    Ok(Items::from_vec(all))
}
