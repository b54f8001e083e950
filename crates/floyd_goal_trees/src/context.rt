ghost use Rattle.std.specs.Prelude.{◌≡◌, IfOk};
ghost use Rattle.floyd_goal_trees.specs.Contexts.{after_command as after_command_lem, unmarked as unmarked_lem};

use floyd_assert_trees::{BinderList, NameList};
use floyd_text::{Name, Shared};
use floyd_tree::FormulaList;
use std::alloc::{AllocError, Global};

/// Where a goal stands in the proof of a lemma.
pub enum Mark {
    Plain,
    /// The start of the proof of the lemma of this name.
    Start(Name),
    /// Inside the proof of the lemma of this name by induction on the variable at this place among those of WITH, from 0.
    /// The lemma may be used for these variables, which are parts of what that variable stood for.
    Induction(Name, u32, NameList),
}

impl Drop for Mark {
    fn drop(self) {
        match self {
            Mark::Plain => {}
            Mark::Start(name) => drop(name),
            Mark::Induction(name, _, names) => {
                drop(name);
                drop(names);
            }
        }
    }
}

/// What a goal may use: variables with their sorts, and formulas about them, which are numbered from 1.
pub struct Context {
    pub variables: Shared<BinderList>,
    pub hypotheses: Shared<FormulaList>,
    pub mark: Mark,
}

impl Drop for Context {
    fn drop(self) {
        let Context {
            variables,
            hypotheses,
            mark,
        } = self;
        drop(variables);
        drop(hypotheses);
        drop(mark);
    }
}

fn share_names(alloc: Global, names: &[Name]) -> Result<NameList, AllocError>
    ensures { IfOk result (λ all. all ≡ names.now) }
{
    let mut all = Vec::with_capacity(alloc, names.len())?;
    'names: for name in names {
        all.push(name.share()?)?;
    }
    Ok(NameList::from_vec(all))
}

impl Mark {
    /// The same mark behind a command that is no induction.
    pub fn after_command(&self, alloc: Global) -> Result<Mark, AllocError>
        ensures { IfOk result (λ m. m ≡ unmarked_lem self.now) }
    {
        match self {
            Mark::Plain => Ok(Mark::Plain),
            Mark::Start(_) => Ok(Mark::Plain),
            Mark::Induction(name, place, names) => {
                let name = name.share()?;
                let names = share_names(alloc, names.as_slice())?;
                Ok(Mark::Induction(name, *place, names))
            }
        }
    }
}

impl Context {
    /// The same variables and hypotheses, which are not copied, behind a command that is no induction.
    pub fn after_command(&self, alloc: Global) -> Result<Context, AllocError>
        ensures { IfOk result (λ c. c ≡ after_command_lem self.now) }
    {
        let variables = self.variables.share()?;
        let hypotheses = self.hypotheses.share()?;
        let mark = self.mark.after_command(alloc)?;
        Ok(Context {
            variables,
            hypotheses,
            mark,
        })
    }
}
