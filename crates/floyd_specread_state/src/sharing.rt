//! Items of other modules, whose terms are not copied.
ghost use Rattle.std.specs.Prelude.{◌≡◌, IfOk};

use floyd_assert_trees::{
    Fun, FunBody, FunCase, FunCaseList, Lemma, Pattern, PlaceList, Pred, PredBody, PredCase,
    PredCaseList, share_binders,
};
use floyd_text::Place;
use sqlite_items::Items;
use std::alloc::{AllocError, Global};

fn share_pattern(pattern: &Pattern) -> Result<Pattern, AllocError>
    ensures { IfOk result (λ p. p ≡ pattern.now) }
{
    match pattern {
        Pattern::Nil => Ok(Pattern::Nil),
        Pattern::Cons(item, rest) => {
            let item = item.share()?;
            Ok(Pattern::Cons(item, rest.share()?))
        }
        Pattern::Leaf => Ok(Pattern::Leaf),
        Pattern::Node(left, item, right) => {
            let left = left.share()?;
            let item = item.share()?;
            Ok(Pattern::Node(left, item, right.share()?))
        }
    }
}

fn share_places(alloc: Global, places: &[Place]) -> Result<PlaceList, AllocError>
    ensures { IfOk result (λ all. all ≡ places.now) }
{
    let mut all = Items::new(alloc);
    'places: for place in places {
        all.push(*place)?;
    }
    Ok(all)
}

fn share_fun_case(case: &FunCase) -> Result<FunCase, AllocError>
    ensures { IfOk result (λ c. c ≡ case.now) }
{
    let pattern = share_pattern(&case.pattern)?;
    let term = case.term.share()?;
    Ok(FunCase { pattern, term })
}

fn share_fun_cases(alloc: Global, cases: &[FunCase]) -> Result<FunCaseList, AllocError>
    ensures { IfOk result (λ all. all ≡ cases.now) }
{
    let mut all = Items::new(alloc);
    'cases: for case in cases {
        all.push(share_fun_case(case)?)?;
    }
    Ok(all)
}

fn share_fun_body(alloc: Global, body: &FunBody) -> Result<FunBody, AllocError>
    ensures { IfOk result (λ b. b ≡ body.now) }
{
    match body {
        FunBody::Whole(term) => Ok(FunBody::Whole(term.share()?)),
        FunBody::Cases(cases) => Ok(FunBody::Cases(share_fun_cases(alloc, cases.as_slice())?)),
    }
}

pub fn share_fun(alloc: Global, fun: &Fun) -> Result<Fun, AllocError>
    ensures { IfOk result (λ f. f ≡ fun.now) }
{
    let arguments = share_binders(alloc, fun.arguments.as_slice())?;
    let result = fun.result.share()?;
    let body = share_fun_body(alloc, &fun.body)?;
    let calls = share_places(alloc, fun.calls.as_slice())?;
    Ok(Fun {
        place: fun.place,
        module: fun.module,
        arguments,
        result,
        body,
        calls,
    })
}

fn share_pred_case(alloc: Global, case: &PredCase) -> Result<PredCase, AllocError>
    ensures { IfOk result (λ c. c ≡ case.now) }
{
    let pattern = share_pattern(&case.pattern)?;
    let body = case.body.share(alloc)?;
    Ok(PredCase { pattern, body })
}

fn share_pred_cases(alloc: Global, cases: &[PredCase]) -> Result<PredCaseList, AllocError>
    ensures { IfOk result (λ all. all ≡ cases.now) }
{
    let mut all = Items::new(alloc);
    'cases: for case in cases {
        all.push(share_pred_case(alloc, case)?)?;
    }
    Ok(all)
}

fn share_pred_body(alloc: Global, body: &PredBody) -> Result<PredBody, AllocError>
    ensures { IfOk result (λ b. b ≡ body.now) }
{
    match body {
        PredBody::Whole(whole) => Ok(PredBody::Whole(whole.share(alloc)?)),
        PredBody::Cases(cases) => Ok(PredBody::Cases(share_pred_cases(alloc, cases.as_slice())?)),
    }
}

pub fn share_pred(alloc: Global, pred: &Pred) -> Result<Pred, AllocError>
    ensures { IfOk result (λ p. p ≡ pred.now) }
{
    let arguments = share_binders(alloc, pred.arguments.as_slice())?;
    let body = share_pred_body(alloc, &pred.body)?;
    let calls = share_places(alloc, pred.calls.as_slice())?;
    Ok(Pred {
        place: pred.place,
        module: pred.module,
        opaque: pred.opaque,
        arguments,
        body,
        calls,
    })
}

pub fn share_lemma(alloc: Global, lemma: &Lemma) -> Result<Lemma, AllocError>
    ensures { IfOk result (λ l. l ≡ lemma.now) }
{
    let with = share_binders(alloc, lemma.with.as_slice())?;
    let left = lemma.left.share(alloc)?;
    let right = lemma.right.share(alloc)?;
    Ok(Lemma {
        place: lemma.place,
        module: lemma.module,
        with,
        left,
        right,
    })
}
