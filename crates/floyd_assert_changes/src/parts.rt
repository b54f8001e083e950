ghost use Rattle.std.specs.Prelude.{◌≡◌, true, IfOk, IfErr, OnOk, map};
ghost use Rattle.std.specs.List.{flat_map};
ghost use Rattle.floyd_assert_changes.specs.Changed.{PartsSortsAgree, part_after, part_terms, region_after, region_terms, step_after, step_terms};
ghost use Rattle.floyd_assert_changes.specs.ChangesClauses.{IsChanging, changes};
ghost use Rattle.floyd_assert_changes.specs.FittingClauses.{StopsWhere, fit_after};
ghost use Rattle.floyd_tree.specs.Plain.{plains};
ghost use Rattle.floyd_truth.specs.Replace.{AllSortsAgree, replaced};

use crate::changing::Changing;
use crate::replace::{term_after, terms_after};
use floyd_assert_trees::{Region, Sep};
use floyd_text::Steps;
use floyd_tree::{AType, MakeStop, Path, PathStep};
use sqlite_items::Items;
use std::alloc::Global;
use std::sync::ledger::Ledger;

/// The parts after the changes.
#[tactic(auto, using(crate::proofs::Parting::front_fit, crate::proofs::Parting::front_unfit))]
pub fn parts_after<L: Ledger>(
    alloc: Global,
    parts: &[Sep],
    changing: &Changing,
    steps: &mut Steps<L>,
) -> Result<Vec<Sep>, MakeStop>
    requires sorts { PartsSortsAgree (changes changing.now) parts.now }
    requires still { IsChanging changing.now }
    ensures ok { IfOk result (λ all. all.items ≡ map (part_after (changes changing.now)) parts.now) }
    ensures fits { OnOk result (fit_after (changes changing.now) (flat_map part_terms parts.now) ≡ true) }
    ensures err { IfErr result (λ stop. StopsWhere stop (fit_after (changes changing.now) (flat_map part_terms parts.now))) }
{
    let mut all = Vec::with_capacity(alloc, parts.len())?;
    'parts: for part in parts {
        let made = part_after(alloc, part, changing, steps)?;
        all.push(made)?;
    }
    Ok(all)
}

fn part_after<L: Ledger>(
    alloc: Global,
    part: &Sep,
    changing: &Changing,
    steps: &mut Steps<L>,
) -> Result<Sep, MakeStop>
    requires sorts { AllSortsAgree (changes changing.now) (plains (part_terms part.now)) }
    requires still { IsChanging changing.now }
    ensures ok { IfOk result (λ made. made ≡ part_after (changes changing.now) part.now) }
    ensures fits { OnOk result (fit_after (changes changing.now) (part_terms part.now) ≡ true) }
    ensures err { IfErr result (λ stop. StopsWhere stop (fit_after (changes changing.now) (part_terms part.now))) }
{
    match part {
        Sep::FieldAt(region, value) => {
            let region = region_after(alloc, region, changing, steps)?;
            let value = term_after(alloc, value, changing, steps)?;
            Ok(Sep::FieldAt(region, value))
        }
        Sep::Padding(region) => {
            let region = region_after(alloc, region, changing, steps)?;
            Ok(Sep::Padding(region))
        }
        Sep::Valid(address) => {
            let address = term_after(alloc, address, changing, steps)?;
            Ok(Sep::Valid(address))
        }
        Sep::Anything => Ok(Sep::Anything),
        Sep::Predicate(name, terms) => {
            let terms = terms_after(alloc, terms.as_slice(), changing, steps)?;
            Ok(Sep::Predicate(name.share()?, Items::from_vec(terms)))
        }
    }
}

#[tactic(auto, using(crate::proofs::Parting::agree_share, crate::proofs::Parting::agree_sizes, crate::proofs::Parting::agree_path, crate::proofs::Parting::agree_root, crate::proofs::Parting::region_fits))]
fn region_after<L: Ledger>(
    alloc: Global,
    region: &Region,
    changing: &Changing,
    steps: &mut Steps<L>,
) -> Result<Region, MakeStop>
    requires sorts { AllSortsAgree (changes changing.now) (plains (region_terms region.now)) }
    requires still { IsChanging changing.now }
    ensures ok { IfOk result (λ made. made ≡ region_after (changes changing.now) region.now) }
    ensures fits { OnOk result (fit_after (changes changing.now) (region_terms region.now) ≡ true) }
    ensures err { IfErr result (λ stop. StopsWhere stop (fit_after (changes changing.now) (region_terms region.now))) }
{
    let share = term_after(alloc, &region.share, changing, steps)?;
    let ty = type_after(alloc, &region.ty, changing, steps)?;
    let path = path_after(alloc, &region.path, changing, steps)?;
    let root = term_after(alloc, &region.root, changing, steps)?;
    Ok(Region {
        share,
        ty,
        path,
        root,
    })
}

/// The type after the changes.
fn type_after<L: Ledger>(
    alloc: Global,
    ty: &AType,
    changing: &Changing,
    steps: &mut Steps<L>,
) -> Result<AType, MakeStop>
    requires sorts { AllSortsAgree (changes changing.now) (plains ty.now.sizes) }
    requires still { IsChanging changing.now }
    ensures ok { IfOk result (λ made. made ≡ record { shape = ty.now.shape; sizes = map (replaced (changes changing.now)) ty.now.sizes }) }
    ensures fits { OnOk result (fit_after (changes changing.now) ty.now.sizes ≡ true) }
    ensures err { IfErr result (λ stop. StopsWhere stop (fit_after (changes changing.now) ty.now.sizes)) }
{
    let sizes = terms_after(alloc, ty.sizes().as_slice(), changing, steps)?;
    Ok(AType::new(ty.shape().share()?, Items::from_vec(sizes)))
}

fn path_after<L: Ledger>(
    alloc: Global,
    path: &Path,
    changing: &Changing,
    steps: &mut Steps<L>,
) -> Result<Path, MakeStop>
    requires sorts { AllSortsAgree (changes changing.now) (plains (flat_map step_terms path.now)) }
    requires still { IsChanging changing.now }
    ensures ok { IfOk result (λ made. made ≡ map (step_after (changes changing.now)) path.now) }
    ensures fits { OnOk result (fit_after (changes changing.now) (flat_map step_terms path.now) ≡ true) }
    ensures err { IfErr result (λ stop. StopsWhere stop (fit_after (changes changing.now) (flat_map step_terms path.now))) }
{
    let mut all = Path::new(alloc);
    'steps: for place in 0..path.len() {
        let step = step_after(alloc, path.step(place), changing, steps)?;
        all.push(step)?;
    }
    Ok(all)
}

fn step_after<L: Ledger>(
    alloc: Global,
    step: &PathStep,
    changing: &Changing,
    steps: &mut Steps<L>,
) -> Result<PathStep, MakeStop>
    requires sorts { AllSortsAgree (changes changing.now) (plains (step_terms step.now)) }
    requires still { IsChanging changing.now }
    ensures ok { IfOk result (λ made. made ≡ step_after (changes changing.now) step.now) }
    ensures fits { OnOk result (fit_after (changes changing.now) (step_terms step.now) ≡ true) }
    ensures err { IfErr result (λ stop. StopsWhere stop (fit_after (changes changing.now) (step_terms step.now))) }
{
    match step {
        PathStep::Field(name) => Ok(PathStep::Field(name.share()?)),
        PathStep::Subscript(term) => {
            let term = term_after(alloc, term, changing, steps)?;
            Ok(PathStep::Subscript(term))
        }
    }
}
