use floyd_assert_trees::{AssertionList, NameList};
use floyd_text::Name;
use floyd_tree::{Formula, TermList, WeightList};

/// What a command is tried on: a part or a hypothesis of the goal, by its number from 1.
#[derive(Clone, Copy, PartialEq, Eq, Debug)]
pub enum Target {
    Nothing,
    Part(u32),
    Hypothesis(u32),
}

/// The arguments of a command. What a command does not take is empty, `Nothing`, 0 or false.
pub struct Args {
    pub name: Name,
    pub terms: TermList,
    /// The second list of terms, of `fold`.
    pub more: TermList,
    pub names: NameList,
    pub formula: Option<Formula>,
    pub assertions: AssertionList,
    pub target: Target,
    /// The second part's number, of a command that joins.
    pub other: u32,
    /// Whether `rewrite` goes from the right side to the left one.
    pub back: bool,
    pub weights: WeightList,
}

impl Drop for Args {
    fn drop(self) {
        let Args {
            name,
            terms,
            more,
            names,
            formula,
            assertions,
            target: _,
            other: _,
            back: _,
            weights,
        } = self;
        drop(name);
        drop(terms);
        drop(more);
        drop(names);
        drop(formula);
        drop(assertions);
        drop(weights);
    }
}
