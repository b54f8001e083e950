ghost use Rattle.std.specs.Prelude.{◌≡◌, ◌^◌, ◌++◌, ◌∷◌, IfOk, OnOk, length};
ghost use Rattle.floyd_assert_changes.specs.Changed.{below_existentials};
ghost use Rattle.floyd_assert_changes.specs.ChangesClauses.{IsStill, bits_onto, changes_of, refusal_of};
ghost use Rattle.floyd_tree.specs.declared.stop.MakeStop.TheVariants.{IllSorted};
ghost use Rattle.floyd_tree_sorts.specs.Prints.{slot};
ghost use Rattle.floyd_truth.specs.Capture.{Called, Changes};
ghost use Rattle.floyd_truth.specs.Replace.{puts};

use crate::changing::{Becomes, Change};
use floyd_assert_trees::Binder;
use floyd_text::{Code, Name, No, RuleStop, Shown};
use floyd_tree::{MakeStop, Term};
use floyd_tree_sorts::slot;
use std::alloc::{AllocError, Global};

/// The changes by which these terms stand in place of these variables.
pub fn put_all(alloc: Global, by: &[(Name, Term)]) -> Result<Vec<Change>, AllocError>
    ensures { IfOk result (λ all. changes_of all.items ≡ puts by.now) }
{
    let mut all = Vec::with_capacity(alloc, by.len())?;
    'pairs: for pair in by {
        let name = pair.0.share()?;
        let becomes = Becomes::Put(pair.1.share()?);
        all.push(Change { name, becomes })?;
    }
    Ok(all)
}

/// The bits of these variables.
pub fn put_bits(by: &[(Name, Term)]) -> u64
    ensures { result ≡ bits_onto 0 by.now }
{
    let mut bits: u64 = 0;
    'pairs: for pair in by {
        bits |= bit_of(&pair.0);
    }
    bits
}

/// The refusal of a term or formula that is too large.
pub fn refused(stop: MakeStop) -> RuleStop
    requires { ¬ (stop ≡ IllSorted) }
    ensures { result ≡ refusal_of stop }
{
    match stop {
        MakeStop::IllSorted => unreachable!(),
        MakeStop::TooLarge => RuleStop::No(No {
            code: Code::TermTooLarge,
            shown: Shown::Nothing,
        }),
        MakeStop::Memory => RuleStop::Memory,
    }
}

/// The changes below existentials that have these new names.
pub fn existential_changes(
    alloc: Global,
    by: &[Change],
    old: &[Binder],
    new: &[Binder],
) -> Result<Vec<Change>, AllocError>
    requires { length old.now ≡ length new.now }
    ensures { IfOk result (λ all. changes_of all.items ≡ below_existentials (changes_of by.now) old.now new.now) }
{
    let mut all = Vec::new(alloc);
    'existentials: for i in 0..old.len() {
        let place = old.len() - (i + 1);
        let name = old[place].name.share()?;
        let becomes = Becomes::Called(new[place].name.share()?);
        all.push(Change { name, becomes })?;
    }
    push_changes(&mut all, by)?;
    Ok(all)
}

fn push_changes(all: &mut Vec<Change>, by: &[Change]) -> Result<(), AllocError>
    ensures { OnOk result (changes_of all.new.items ≡ changes_of all.old.items ++ changes_of by.now) }
{
    'changes: for change in by {
        all.push(change.share()?)?;
    }
    Ok(())
}

/// The bits of variables that may not stay as they are below existentials that have these new names.
pub fn existential_bits(bits: u64, old: &[Binder], new: &[Binder]) -> u64
    requires { length old.now ≡ length new.now }
    ensures { (changes : Changes) → IsStill bits changes → IsStill result (below_existentials changes old.now new.now) }
{
    let mut all = bits;
    'existentials: for i in 0..old.len() {
        all = bits_with(all, &old[i].name, &new[i].name);
    }
    all
}

/// The bits of variables that may not stay as they are below a binder of x that has this name now.
pub fn bits_with(bits: u64, x: &Name, name: &Name) -> u64
    ensures { (changes : Changes) → IsStill bits changes → IsStill result ((x.now, Called name.now) ∷ changes) }
{
    if x == name { bits } else { bits | bit_of(x) }
}

/// The bit of a variable.
fn bit_of(x: &Name) -> u64
    ensures { result ≡ 2 ^ slot x.now }
{
    1 << slot(x)
}
