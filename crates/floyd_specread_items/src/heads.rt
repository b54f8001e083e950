//! What stands behind a name up to the body.
ghost use Rattle.std.specs.Prelude.{◌≡◌, ◌≤◌, ◌<◌, ◌+◌, ◌^◌, IfOk, length};
ghost use Rattle.floyd_specread_items.specs.Heads as specs;
ghost use Rattle.floyd_termread_phrases.specs.Reads.{Answers};

use floyd_assert_trees::{BinderList, Fun, FunBody, PlaceList};
use floyd_lex::Punctuator;
use floyd_termread_assertions::{binders_at, sort_at};
use floyd_termread_marks::take_mark;
use floyd_termread_phrases::{Spot, Text};
use floyd_text::{Halt, Place};
use floyd_tree::Sort;
use std::alloc::Global;

/// The arguments of a FUN, and the sort of its result.
pub struct FunHead {
    pub arguments: BinderList,
    pub result: Sort,
}

impl Drop for FunHead {
    fn drop(self) {
        let FunHead { arguments, result } = self;
        drop(arguments);
        drop(result);
    }
}

impl FunHead {
    ghost use Rattle.floyd_specread_items.specs.Texts.{fun_of};

    /// The FUN with that body, whose name stands at the place in the module of that number.
    pub fn fun(self, place: Place, home: u32, body: FunBody, calls: PlaceList) -> Fun
        ensures { result ≡ fun_of self place home body calls }
    {
        let FunHead {
            arguments,
            result: sort,
        } = self;
        Fun {
            place,
            module: home,
            arguments,
            result: sort,
            body,
            calls,
        }
    }
}

/// `"(" binders ")"`
fn arguments_at(alloc: Global, text: Text<'_>, at: u32) -> Result<(BinderList, u32), Halt>
    requires at { at ≤ length text.tokens.now.items }
    requires count { length text.tokens.now.items < 2 ^ 32 }
    ensures exact { Answers (λ x. x) (specs.arguments text.entry.bytes.now text.entry.tokens.now at) result }
    ensures within { IfOk result (λ x. x.1 ≤ length text.entry.tokens.now.items) }
{
    let (_open, first) = take_mark(text, Spot { at, depth: 0 }, Punctuator::OpenParen)?;
    let (binders, end) = binders_at(
        alloc,
        text,
        Spot {
            at: first,
            depth: 1,
        },
    )?;
    let (_close, behind) = take_mark(text, Spot { at: end, depth: 1 }, Punctuator::CloseParen)?;
    Ok((binders, behind))
}

/// The arguments and the sort of a FUN, `"(" binders ")" ":" sort "="`, from the token of this number on, where no bracket
/// is open before it, and the number of the token behind them. Else the refusal: 302 and 501 where the tokens so far begin
/// no such head. Two arguments of one name, and a name that is a word, are 501 at the later name.
pub fn fun_head_at(alloc: Global, text: Text<'_>, at: u32) -> Result<(FunHead, u32), Halt>
    requires at { at ≤ length text.tokens.now.items }
    requires count { length text.tokens.now.items < 2 ^ 32 }
    ensures exact { Answers (λ x. x) (specs.fun_head text.entry.bytes.now text.entry.tokens.now at) result }
    ensures within { IfOk result (λ x. x.1 ≤ length text.entry.tokens.now.items) }
{
    let (arguments, first) = arguments_at(alloc, text, at)?;
    let (_colon, second) = take_mark(
        text,
        Spot {
            at: first,
            depth: 0,
        },
        Punctuator::Colon,
    )?;
    let (sort, third) = sort_at(
        alloc,
        text,
        Spot {
            at: second,
            depth: 0,
        },
    )?;
    let (_equal, behind) = take_mark(
        text,
        Spot {
            at: third,
            depth: 0,
        },
        Punctuator::Equal,
    )?;
    let head = FunHead {
        arguments,
        result: sort,
    };
    Ok((head, behind))
}

/// The arguments of a PRED, `"(" binders ")" "="`, as `fun_head_at` has those of a FUN.
pub fn pred_head_at(alloc: Global, text: Text<'_>, at: u32) -> Result<(BinderList, u32), Halt>
    requires at { at ≤ length text.tokens.now.items }
    requires count { length text.tokens.now.items < 2 ^ 32 }
    ensures exact { Answers (λ x. x) (specs.pred_head text.entry.bytes.now text.entry.tokens.now at) result }
    ensures within { IfOk result (λ x. x.1 ≤ length text.entry.tokens.now.items) }
{
    let (arguments, first) = arguments_at(alloc, text, at)?;
    let (_equal, behind) = take_mark(
        text,
        Spot {
            at: first,
            depth: 0,
        },
        Punctuator::Equal,
    )?;
    Ok((arguments, behind))
}
