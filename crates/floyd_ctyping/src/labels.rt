//! What a switch looks at, and its labels.
ghost use Rattle.std.specs.Prelude.{◌≡◌, not, nat_eq, IfOk, IsTrue, Some};
ghost use Rattle.std.specs.List.{list_any};
ghost use Rattle.floyd_text.specs.Gives.{Gives};
ghost use Rattle.floyd_elab_names.specs.declared.tags.Tags.{Tags as Kept};
ghost use Rattle.floyd_ctyping.specs.Switches.{promoted_kind as promoted_kind_lem, switch_kind as switch_kind_lem, no_labels, with_label, repeated_case as repeated_case_lem, repeated_default as repeated_default_lem, next_case, next_default, next_label};

use crate::constants::constant_bits;
use crate::kinds::promote;
use crate::operand::Operand;
use crate::operations::misfit;
use floyd_cparse_trees::SwitchLabel;
use floyd_ctypes::CType;
use floyd_int::IntKind;
use floyd_text::{Code, Halt, Name, Place, Refusal, Shown};
use indexmap::IndexSet;
use std::alloc::{AllocError, Global};
use std::marker::Model;

fn promoted_kind(t: &CType) -> Option<IntKind>
    ensures { result ≡ promoted_kind_lem t.now }
{
    match t {
        CType::Int(kind) => Some(promote(*kind)),
        _ => None,
    }
}

/// The promoted kind of what a switch looks at, which is ill typed at its word where it is no number.
pub fn switch_kind(alloc: Global, place: Place, a: &Operand) -> Result<IntKind, Halt>
    ensures exact { (tags : Kept) → Gives (λ kind. (kind, tags)) result (switch_kind_lem place a.now tags) }
{
    let t = a.value_type(alloc)?;
    match promoted_kind(&t) {
        Some(kind) => Ok(kind),
        None => Err(misfit(place)),
    }
}

/// A label that stands there again, at its literal.
fn repeated_case(place: Place, text: &Name) -> Result<Refusal, AllocError>
    ensures { IfOk result (λ r. r ≡ repeated_case_lem place text.now) }
{
    Ok(Refusal::at(Code::Redeclared, place, Shown::Name(text.share()?)))
}

/// The default that stands there again, at its word.
fn repeated_default(alloc: Global, place: Place) -> Result<Refusal, AllocError>
    ensures { IfOk result (λ r. r ≡ repeated_default_lem place) }
{
    Ok(Refusal::at(
        Code::Redeclared,
        place,
        Shown::Name(Name::from_slice(alloc, b"default")?),
    ))
}

/// The labels of a switch so far, as bits at the kind of what it looks at.
pub struct Labels {
    alloc: Global,
    cases: IndexSet<u64>,
    default: bool,
}

impl Drop for Labels {
    fn drop(self) {
        let Labels {
            alloc: _,
            cases,
            default: _,
        } = self;
        drop(cases);
    }
}

impl Model for Labels {
    ghost use Rattle.floyd_ctyping.specs.Switches.{Labels as Told};

    ghost Value = { Told };

    ghost view = { λ l. record { cases = l.cases.keys; default = l.default } };
}

impl Labels {
    pub fn new(alloc: Global) -> Labels
        ensures { result ≡ no_labels }
    {
        Labels {
            alloc,
            cases: IndexSet::new(alloc),
            default: false,
        }
    }

    /// Puts a case behind the others, if it was not there.
    fn insert(&mut self, bits: u64) -> Result<bool, AllocError>
        ensures fresh { IfOk result (λ fresh. fresh ≡ not (list_any (nat_eq bits) self.old.cases)) }
        ensures added { IfOk result (λ fresh. IsTrue fresh → self.new ≡ with_label self.old (Some bits)) }
    {
        Ok(self.cases.insert(bits)?)
    }

    fn add_case(&mut self, place: Place, text: &Name, bits: u64) -> Result<Option<u64>, Halt>
        ensures exact { (tags : Kept) → Gives (λ x. (x, tags)) result (next_case self.old place text.now bits tags) }
        ensures added { IfOk result (λ x. self.new ≡ with_label self.old x) }
    {
        if !self.insert(bits)? {
            return Err(Halt::Refused(repeated_case(place, text)?));
        }
        Ok(Some(bits))
    }

    fn add_default(&mut self, place: Place) -> Result<Option<u64>, Halt>
        ensures exact { (tags : Kept) → Gives (λ x. (x, tags)) result (next_default self.old place tags) }
        ensures added { IfOk result (λ x. self.new ≡ with_label self.old x) }
    {
        if self.default {
            return Err(Halt::Refused(repeated_default(self.alloc, place)?));
        }
        self.default = true;
        Ok(None)
    }

    /// Adds the next label of a switch of that kind, and says what it stands for: its bits, or nothing for the default.
    /// It is refused where it was there before.
    pub fn add(&mut self, kind: IntKind, label: &SwitchLabel) -> Result<Option<u64>, Halt>
        ensures exact { (tags : Kept) → Gives (λ x. (x, tags)) result (next_label kind self.old label.now tags) }
        ensures added { IfOk result (λ x. self.new ≡ with_label self.old x) }
    {
        match label {
            SwitchLabel::Case {
                negative,
                literal,
                text,
            } => self.add_case(
                literal.place,
                text,
                constant_bits(kind, *negative, *literal),
            ),
            SwitchLabel::Default(place) => self.add_default(*place),
        }
    }
}
