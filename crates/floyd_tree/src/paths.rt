ghost use Rattle.std.specs.Prelude.{◌≡◌, ◌<◌, ◌++◌, ◌∷◌, [], Some, IfOk, OnErr, OnOk, length, slice_get};

use crate::term::Term;
use floyd_text::Name;
use smallvec::SmallVec;
use std::alloc::{AllocError, Global};
use std::marker::Model;

/// A step of a path: a field of a struct, or a subscript of an array.
pub enum PathStep {
    Field(Name),
    Subscript(Term),
}

impl Drop for PathStep {
    fn drop(self) {
        match self {
            PathStep::Field(name) => drop(name),
            PathStep::Subscript(term) => drop(term),
        }
    }
}

impl PathStep {
    /// Another owner of the same step.
    pub fn share(&self) -> Result<PathStep, AllocError>
        ensures { IfOk result (λ s. s ≡ self.now) }
    {
        match self {
            PathStep::Field(name) => Ok(PathStep::Field(name.share()?)),
            PathStep::Subscript(term) => Ok(PathStep::Subscript(term.share()?)),
        }
    }
}

/// A path of fields and subscripts, which contracts see as their list. Up to four steps are kept inline.
pub struct Path {
    /// Each place in use holds a step.
    steps: SmallVec<Option<PathStep>, 4>,
}

impl Drop for Path {
    fn drop(self) {
        let Path { steps } = self;
        drop(steps);
    }
}

impl Model for Path {
    ghost use Rattle.std.specs.Prelude.{List};
    ghost use Rattle.std.specs.Coded.{coded_list};
    ghost use Rattle.floyd_tree.specs.declared.paths.PathStep.{PathStep};
    ghost use Rattle.floyd_tree.specs.contracts.paths.PathStep as step;

    ghost Value = { List PathStep };

    ghost coded = { coded_list step.the_row.coded };

    ghost use Rattle.floyd_tree.specs.Paths.{steps_in, AllHold};

    ghost view = { λ p. steps_in p.steps.items };

    ghost invariant = { λ p. AllHold p.steps.items };
}

impl Path {
    pub fn new(alloc: Global) -> Path
        ensures { result ≡ [] }
    {
        Path {
            steps: SmallVec::new(alloc),
        }
    }

    pub fn push(&mut self, step: PathStep) -> Result<(), AllocError>
        ensures ok { OnOk result (self.new ≡ self.old ++ step ∷ []) }
        ensures err { OnErr result (self.new ≡ self.old) }
    {
        self.steps.push(Some(step))?;
        Ok(())
    }

    /// The number of steps.
    pub fn len(&self) -> usize
        ensures { result ≡ length self.now }
    {
        self.steps.as_slice().len()
    }

    /// The step at this place, from 0.
    pub fn step(&self, place: usize) -> &PathStep
        requires { place < length self.now }
        ensures { slice_get self.now place ≡ Some result.now }
    {
        match &self.steps.as_slice()[place] {
            Some(step) => step,
            None => unreachable!(),
        }
    }

    /// Another path of the same steps, which are shared.
    pub fn share(&self, alloc: Global) -> Result<Path, AllocError>
        ensures { IfOk result (λ p. p ≡ self.now) }
    {
        let mut path = Path::new(alloc);
        'steps: for place in 0..self.len() {
            path.push(self.step(place).share()?)?;
        }
        Ok(path)
    }
}
