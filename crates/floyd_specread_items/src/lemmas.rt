//! Lemmas.
ghost use Rattle.std.specs.Prelude.{◌≡◌, ◌≤◌, ◌<◌, ◌+◌, ◌^◌, IfOk, length};
ghost use Rattle.floyd_specread_items.specs.Lemmas as specs;
ghost use Rattle.floyd_termread.specs.Brackets.{outermost};
ghost use Rattle.floyd_termread_phrases.specs.Reads.{Answers};

use crate::bodies::{plain_body_at, plain_rest_at};
use crate::variables::argument_variables;
use floyd_assert_trees::{Assertion, BinderList, Lemma};
use floyd_specread_specs::with_at;
use floyd_specread_words::{SpecWord, take_spec_word};
use floyd_termread_phrases::{Spot, Text};
use floyd_termread_scope::Scope;
use floyd_text::{Halt, Place};
use sqlite_items::Items;
use std::alloc::Global;

/// The text of a lemma: the variables of WITH, and the two sides.
pub struct LemmaText {
    pub with: BinderList,
    pub left: Assertion,
    pub right: Assertion,
}

impl Drop for LemmaText {
    fn drop(self) {
        let LemmaText { with, left, right } = self;
        drop(with);
        drop(left);
        drop(right);
    }
}

impl LemmaText {
    ghost use Rattle.floyd_specread_items.specs.Texts.{lemma_in};

    /// The lemma, whose name stands at the place in the module of that number.
    pub fn lemma(self, place: Place, home: u32) -> Lemma
        ensures { result ≡ lemma_in self place home }
    {
        let LemmaText { with, left, right } = self;
        Lemma {
            place,
            module: home,
            with,
            left,
            right,
        }
    }
}

/// The text of a lemma, `["WITH" binders] body "GIVES" body`, from the token of this number on, where no bracket is open
/// before it, and the number of the token behind it. Else the first refusal, as `assertion_at` has it; LOCAL is 501 at that
/// word, and so is EX in the left side.
pub fn lemma_at(
    alloc: Global,
    scope: &Scope<'_>,
    text: Text<'_>,
    at: u32,
) -> Result<(LemmaText, u32), Halt>
    requires at { at ≤ length text.tokens.now.items }
    requires count { length text.tokens.now.items < 2 ^ 32 }
    ensures exact { Answers (λ x. x) (specs.lemma text.entry.bytes.now text.entry.tokens.now (outermost scope.now) at) result }
    ensures within { IfOk result (λ x. x.1 ≤ length text.entry.tokens.now.items) }
{
    let (with, first) = with_at(alloc, text, at)?;
    let mut bound = argument_variables(alloc, with.as_slice())?;
    let (left, second) = plain_rest_at(alloc, scope, &mut bound, text, first, Items::new(alloc))?;
    let (_word, third) = take_spec_word(
        text,
        Spot {
            at: second,
            depth: 0,
        },
        SpecWord::Gives,
    )?;
    let (right, behind) = plain_body_at(alloc, scope, &mut bound, text, third)?;
    Ok((LemmaText { with, left, right }, behind))
}
