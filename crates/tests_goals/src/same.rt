//! Whether goals are the same, also in the names that formulas bind.
use floyd_assert::{Assertion, Binder, Local, Sep, equal_part};
use floyd_goal::{Context, Entail, Exit, Exits, Goal, Mark, Rest, Return, Run};
use floyd_text::Name;
use floyd_tree::{Formula, Term, equal, formula_head, formula_kids, formula_terms};
use std::alloc::AllocError;
use tests_clight::same_statement;

fn same_binders(a: &[Binder], b: &[Binder]) -> bool {
    if a.len() != b.len() {
        return false;
    }
    'binders: for (x, y) in a.iter().zip(b) {
        if x.name != y.name || !x.sort.same(&y.sort) {
            return false;
        }
    }
    true
}

fn same_terms(a: &[Term], b: &[Term]) -> bool {
    if a.len() != b.len() {
        return false;
    }
    'terms: for (t, u) in a.iter().zip(b) {
        if !equal(t, u) {
            return false;
        }
    }
    true
}

/// Whether the formulas are the same, also in the names that they bind.
#[cycle(formulas)]
#[tactic(auto, using(floyd_tree::proofs::FormulaLemmas::formulas_below))]
fn same_formula(f: &Formula, g: &Formula) -> bool {
    formula_head(f).same(formula_head(g))
        && same_terms(formula_terms(f).as_slice(), formula_terms(g).as_slice())
        && same_formulas(formula_kids(f).as_slice(), formula_kids(g).as_slice())
}

#[cycle(formulas)]
#[tactic(auto, using(floyd_tree::proofs::FormulaLemmas::formula_height_at))]
fn same_formulas(a: &[Formula], b: &[Formula]) -> bool {
    if a.len() != b.len() {
        return false;
    }
    'formulas: for i in 0..a.len() {
        if !same_formula(&a[i], &b[i]) {
            return false;
        }
    }
    true
}

fn same_names(a: &[Name], b: &[Name]) -> bool {
    if a.len() != b.len() {
        return false;
    }
    'names: for (x, y) in a.iter().zip(b) {
        if *x != *y {
            return false;
        }
    }
    true
}

fn same_locals(a: &[Local], b: &[Local]) -> bool {
    if a.len() != b.len() {
        return false;
    }
    'locals: for (x, y) in a.iter().zip(b) {
        if x.name != y.name || !equal(&x.term, &y.term) {
            return false;
        }
    }
    true
}

fn same_parts(a: &[Sep], b: &[Sep]) -> bool {
    if a.len() != b.len() {
        return false;
    }
    'parts: for (x, y) in a.iter().zip(b) {
        if !equal_part(x, y) {
            return false;
        }
    }
    true
}

fn same_mark(a: &Mark, b: &Mark) -> bool {
    match (a, b) {
        (Mark::Plain, Mark::Plain) => true,
        (Mark::Start(x), Mark::Start(y)) => *x == *y,
        (Mark::Induction(x, place, names), Mark::Induction(y, other, others)) => {
            *x == *y && *place == *other && same_names(names.as_slice(), others.as_slice())
        }
        _ => false,
    }
}

fn same_context(a: &Context, b: &Context) -> bool {
    same_binders(a.variables.get().as_slice(), b.variables.get().as_slice())
        && same_formulas(a.hypotheses.get().as_slice(), b.hypotheses.get().as_slice())
        && same_mark(&a.mark, &b.mark)
}

fn same_assertion(a: &Assertion, b: &Assertion) -> bool {
    same_binders(a.existentials.as_slice(), b.existentials.as_slice())
        && same_formulas(a.props.as_slice(), b.props.as_slice())
        && same_locals(a.locals.as_slice(), b.locals.as_slice())
        && same_parts(a.parts.as_slice(), b.parts.as_slice())
}

fn same_exit(a: &Exit, b: &Exit) -> bool {
    match (a, b) {
        (Exit::None, Exit::None) => true,
        (Exit::End, Exit::End) => true,
        (Exit::To(a), Exit::To(b)) => same_assertion(a.get(), b.get()),
        _ => false,
    }
}

fn same_value(a: &Option<Term>, b: &Option<Term>) -> bool {
    match (a, b) {
        (None, None) => true,
        (Some(t), Some(u)) => equal(t, u),
        _ => false,
    }
}

fn same_return(a: &Return, b: &Return) -> bool {
    same_assertion(a.post.get(), b.post.get()) && same_value(&a.value, &b.value)
}

fn same_exits(a: &Exits, b: &Exits) -> bool {
    same_exit(&a.normal, &b.normal)
        && same_exit(&a.brk, &b.brk)
        && same_exit(&a.cont, &b.cont)
        && same_return(&a.ret, &b.ret)
}

/// Whether the same statements are left, up to the expressions in them.
fn same_rest(a: &Rest, b: &Rest) -> Result<bool, AllocError> {
    let mut left = a.share()?;
    let mut other = b.share()?;
    'statements: while let Some(s) = left.first() {
        let Some(t) = other.first() else {
            return Ok(false);
        };
        if !same_statement(s, t) {
            return Ok(false);
        }
        left.advance();
        other.advance();
    }
    Ok(other.is_empty())
}

fn same_run(a: &Run, b: &Run) -> Result<bool, AllocError> {
    let said = same_context(&a.context, &b.context)
        && same_assertion(a.source.get(), b.source.get())
        && same_exits(a.exits.get(), b.exits.get());
    Ok(said && same_rest(&a.rest, &b.rest)?)
}

fn same_entail(a: &Entail, b: &Entail) -> bool {
    same_context(&a.context, &b.context)
        && same_assertion(a.source.get(), b.source.get())
        && same_assertion(a.target.get(), b.target.get())
}

/// Whether both are of one kind, in the same context, and say the same.
pub fn same_goal(a: &Goal, b: &Goal) -> Result<bool, AllocError> {
    match (a, b) {
        (Goal::Run(a), Goal::Run(b)) => same_run(a, b),
        (Goal::Entail(a), Goal::Entail(b)) => Ok(same_entail(a, b)),
        (Goal::Pure(a), Goal::Pure(b)) => {
            Ok(same_formula(&a.target, &b.target) && same_context(&a.context, &b.context))
        }
        _ => Ok(false),
    }
}
