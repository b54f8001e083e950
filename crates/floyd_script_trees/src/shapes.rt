ghost use Rattle.std.specs.Prelude.{◌≡◌};
ghost use Rattle.floyd_script_trees.specs.Arguments.{shape_of};

use floyd_text::Rule;

/// What stands between the word of a command and its `;`. A term, a formula or an assertion is a list of tokens here.
#[derive(Clone, Copy)]
pub enum Shape {
    Nothing,
    /// `[ "(" A ")" ]`
    MaybeEnclosed,
    /// `"(" A ")"`
    Enclosed,
    /// `"(" A ")" [ "continue" "(" A ")" ] "break" "(" A ")"`
    Loop,
    /// `"(" [ T { ";" T } ] ")"`
    Terms,
    /// a name and terms
    NamedTerms,
    /// a name and two lists of terms
    NamedTwice,
    /// a name
    Named,
    /// any number of names of variables
    Givens,
    /// the name of a variable, which may be absent
    MaybeGiven,
    /// a term or a formula
    Bare,
    /// the number of a part
    Number,
    /// the number of a part, or a hypothesis
    NumberOrHypothesis,
    /// the number of a part, and a term in parentheses
    NumberTerm,
    /// the numbers of two parts
    TwoNumbers,
    /// `[ "<-" ]` and a hypothesis
    Rewriting,
    /// a hypothesis, behind which names of variables may stand in parentheses, or another name with them
    Destructing,
    /// a name, and names of variables in parentheses
    NamedGivens,
    /// a hypothesis, and a term in parentheses
    HypothesisTerm,
    /// a hypothesis
    Hypothesis,
    /// weights of hypotheses in parentheses
    Weights,
}

/// What stands behind the word of the command.
pub fn shape_of(rule: Rule) -> Shape
    ensures { result ≡ shape_of rule }
{
    match rule {
        Rule::Forward
        | Rule::Cancel
        | Rule::Refl
        | Rule::Trivial
        | Rule::Left
        | Rule::Right
        | Rule::Split
        | Rule::Simpl
        | Rule::Reading => Shape::Nothing,
        Rule::ForwardIf => Shape::MaybeEnclosed,
        Rule::ForwardWhile | Rule::ForwardSwitch => Shape::Enclosed,
        Rule::ForwardLoop => Shape::Loop,
        Rule::ForwardCall | Rule::ApplyIh => Shape::Terms,
        Rule::ForwardCallPtr | Rule::ForwardRelease | Rule::Apply | Rule::Law => Shape::NamedTerms,
        Rule::Fold => Shape::NamedTwice,
        Rule::UseSpec | Rule::ForwardAcquire | Rule::ForwardSpawn | Rule::UnfoldFun => Shape::Named,
        Rule::Intros => Shape::Givens,
        Rule::Intro => Shape::MaybeGiven,
        Rule::Exists | Rule::Cut => Shape::Bare,
        Rule::Weaken
        | Rule::Unfold
        | Rule::Facts
        | Rule::Reroot
        | Rule::SplitStruct
        | Rule::JoinStruct => Shape::Number,
        Rule::Valid => Shape::NumberOrHypothesis,
        Rule::SplitArray | Rule::SplitShare => Shape::NumberTerm,
        Rule::JoinArray | Rule::JoinShare => Shape::TwoNumbers,
        Rule::Rewrite => Shape::Rewriting,
        Rule::Destruct => Shape::Destructing,
        Rule::Induction => Shape::NamedGivens,
        Rule::Specialize => Shape::HypothesisTerm,
        Rule::Mp | Rule::Discriminate | Rule::Inject => Shape::Hypothesis,
        Rule::Lia => Shape::Weights,
    }
}
