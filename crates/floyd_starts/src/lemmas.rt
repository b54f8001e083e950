ghost use Rattle.std.specs.Prelude.{◌≡◌, IfOk};
ghost use Rattle.floyd_goal_forms.specs.Starts.{lemma_start as lemma_start_lem};
ghost use Rattle.floyd_goal_trees.specs.declared.context.Mark.TheVariants.{Start};

use floyd_assert_trees::{
    Assertion, BinderList, Lemma, LocalList, share_binders, share_formulas, share_parts,
};
use floyd_goal_trees::{Context, Entail, Goal, Mark};
use floyd_text::{Name, Shared};
use floyd_tree::FormulaList;
use std::alloc::{AllocError, Global};

fn lemma_context(alloc: Global, name: &Name, lemma: &Lemma) -> Result<Context, AllocError>
    ensures { IfOk result (λ c. c ≡ record { variables = lemma.now.with; hypotheses = lemma.now.left.props; mark = Start name.now }) }
{
    let variables = share_binders(alloc, lemma.with.as_slice())?;
    let hypotheses = share_formulas(alloc, lemma.left.props.as_slice())?;
    Ok(Context {
        variables: Shared::new(alloc, variables)?,
        hypotheses: Shared::new(alloc, hypotheses)?,
        mark: Mark::Start(name.share()?),
    })
}

/// The goal with which the proof of a lemma starts: its right side follows from its left one.
pub fn lemma_start(alloc: Global, name: &Name, lemma: &Lemma) -> Result<Goal, AllocError>
    ensures { IfOk result (λ g. g ≡ lemma_start_lem name.now lemma.now) }
{
    let context = lemma_context(alloc, name, lemma)?;
    let source = Assertion {
        existentials: BinderList::new(alloc),
        props: FormulaList::new(alloc),
        locals: LocalList::new(alloc),
        parts: share_parts(alloc, lemma.left.parts.as_slice())?,
    };
    Ok(Goal::Entail(Entail {
        context,
        source: Shared::new(alloc, source)?,
        target: Shared::new(alloc, lemma.right.share(alloc)?)?,
    }))
}
