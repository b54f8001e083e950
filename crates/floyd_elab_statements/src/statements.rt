//! Statements.
ghost use Rattle.std.specs.Prelude.{◌≡◌, ◌∷◌, [], ◌++◌, ℕ, Bool, List, IfOk, OnOk};
ghost use Rattle.floyd_text.specs.Gives.{Gives};
ghost use Rattle.floyd_cparse_trees.specs.declared.statements.CStatement.{Block, If as OfIf, While as OfWhile, Do as OfDo, For as OfFor, Switch as OfSwitch};
ghost use Rattle.floyd_clight.specs.declared.syntax.Stmt.{If as MadeIf, Loop as MadeLoop};
ghost use Rattle.floyd_ctyping.specs.Switches.{no_labels, with_label};
ghost use Rattle.floyd_elab_names.specs.Scopes.{leave};
ghost use Rattle.floyd_elab_expressions.specs.Behind.{put_behind};
ghost use Rattle.floyd_elab_expressions.specs.Clight.{sequence as sequence_lem};
ghost use Rattle.floyd_elab_expressions.specs.declared.progress.Progress.{Progress as Kept};
ghost use Rattle.floyd_elab_addresses.specs.Flags.{statement_flags};
ghost use Rattle.floyd_elab_addresses.specs.PartClauses.{flags_of_all, flags_of_cases, flags_of_item};
ghost use Rattle.floyd_elab_statements.specs.LocalClauses.{beginning};
ghost use Rattle.floyd_elab_statements.specs.Statements.{statement as statement_lem, body as body_lem, loop_test as loop_test_lem, optional_effect as optional_effect_lem};
ghost use Rattle.floyd_elab_statements.specs.WalkClauses.{item as item_lem, all_items, one_case, all_cases, sequence_behind, with_one, with_else};

use crate::conditions::{loop_test, optional_effect, optional_test, push_if, selector, test};
use crate::function::Function;
use crate::locals::declaration;
use crate::returns::return_statement;
use floyd_clight::{Case, CaseList, Expr, Stmt, StmtList};
use floyd_cparse_trees::{BlockItem, CExpr, CStatement, SwitchCase};
use floyd_ctypes::CType;
use floyd_ctyping::Labels;
use floyd_elab_addresses::{Flags, block_addresses};
use floyd_elab_effects::effect;
use floyd_elab_expressions::{Progress, sequence};
use floyd_elab_names::Names;
use floyd_int::IntKind;
use floyd_text::{Halt, Place, Shared};
use sqlite_items::Items;
use std::alloc::{AllocError, Global};

/// The body of a function of that result. The innermost scope has the function's parameters; the names that the body
/// declares are in it afterwards. The statements go to the end of `out`.
pub fn body(
    alloc: Global,
    result_type: &CType,
    names: &mut Names,
    items: &[BlockItem],
    progress: &mut Progress,
    out: &mut StmtList,
) -> Result<(), Halt>
    ensures exact { Gives (λ u. (out.new, progress.new)) result (put_behind out.old (body_lem result_type.now names.old (Block items.now) progress.old)) }
    ensures scopes { OnOk result (leave names.new ≡ leave names.old) }
{
    let mut flags = block_addresses(alloc, items)?;
    let function = Function { alloc, result_type };
    all(function, items, names, &mut flags, progress, out)
}

/// The test of a statement in a function, at its word.
#[derive(Clone, Copy)]
struct Tested<'a> {
    function: Function<'a>,
    place: Place,
    condition: &'a CExpr,
}

/// What stands in the parentheses of `for`, in a function.
#[derive(Clone, Copy)]
struct ForParts<'a> {
    function: Function<'a>,
    place: Place,
    first: &'a Option<CExpr>,
    condition: &'a Option<CExpr>,
    third: &'a Option<CExpr>,
}

/// A switch in a function, with the kind of what it looks at.
#[derive(Clone, Copy)]
struct Switched<'a> {
    function: Function<'a>,
    kind: IntKind,
}

/// An `if` in a function whose second branch is left.
struct Unfinished<'a> {
    function: Function<'a>,
    test: Expr,
    first: Shared<Stmt>,
}

impl Drop for Unfinished<'_> {
    fn drop(self) {
        let Unfinished {
            function: _,
            test,
            first,
        } = self;
        drop(test);
        drop(first);
    }
}

impl Unfinished<'_> {
    /// Pushes it with its second branch.
    fn push(self, second: Shared<Stmt>, out: &mut StmtList) -> Result<(), AllocError>
        ensures { IfOk result (λ u. out.new ≡ out.old ++ MadeIf self.entry.test self.entry.first second ∷ []) }
    {
        let Unfinished {
            function: _,
            test,
            first,
        } = self;
        push_if(test, first, second, out)
    }
}

/// A statement in a function. The flags of its variables are before all others. Its nesting bounds the depth of the
/// calls.
#[cycle(statement)]
fn statement(
    function: Function<'_>,
    s: &CStatement,
    names: &mut Names,
    flags: &mut Flags,
    progress: &mut Progress,
    out: &mut StmtList,
) -> Result<(), Halt>
    ensures exact { (more : List Bool) → flags.old ≡ statement_flags s.now ++ more → Gives (λ u. (out.new, progress.new)) result (put_behind out.old (statement_lem function.entry.result_type.now names.old s.now progress.old)) }
    ensures flags { (more : List Bool) → flags.old ≡ statement_flags s.now ++ more → OnOk result (flags.new ≡ more) }
    ensures names { OnOk result (names.new ≡ names.old) }
{
    match s {
        CStatement::Block(items) => {
            block(function, items.as_slice(), names, flags, progress, out)
        }
        CStatement::Empty => Ok(()),
        CStatement::Effect(e) => effect(function.alloc, names, e, progress, out),
        CStatement::If {
            place,
            condition,
            then,
        } => {
            let parts = Tested {
                function,
                place: *place,
                condition,
            };
            if_then(then.get(), parts, names, flags, progress, out)
        }
        CStatement::IfElse {
            place,
            condition,
            then,
            otherwise,
        } => {
            let alloc = function.alloc;
            let test = test(alloc, names, *place, condition, progress, out)?;
            let none = Items::new(alloc);
            let first = single(function, then.get(), names, flags, progress, none)?;
            let made = Unfinished {
                function,
                test,
                first,
            };
            if_else(otherwise.get(), made, names, flags, progress, out)
        }
        CStatement::While {
            place,
            condition,
            body,
        } => {
            let parts = Tested {
                function,
                place: *place,
                condition,
            };
            while_loop(body.get(), parts, names, flags, progress, out)
        }
        CStatement::Do {
            body,
            place,
            condition,
        } => {
            let parts = Tested {
                function,
                place: *place,
                condition,
            };
            do_loop(body.get(), parts, names, flags, progress, out)
        }
        CStatement::For {
            place,
            first,
            condition,
            third,
            body,
        } => {
            let parts = ForParts {
                function,
                place: *place,
                first,
                condition,
                third,
            };
            for_loop(body.get(), parts, names, flags, progress, out)
        }
        CStatement::Switch {
            place,
            value,
            cases,
        } => {
            let parts = Tested {
                function,
                place: *place,
                condition: value,
            };
            switch(cases.as_slice(), parts, names, flags, progress, out)
        }
        CStatement::Break => push_one(Stmt::Break, out),
        CStatement::Continue => push_one(Stmt::Continue, out),
        CStatement::Return { place, value } => {
            return_statement(function, names, *place, value, progress, out)
        }
    }
}

/// A block, whose items stand in a scope of their own.
#[cycle(statement)]
fn block(
    function: Function<'_>,
    items: &[BlockItem],
    names: &mut Names,
    flags: &mut Flags,
    progress: &mut Progress,
    out: &mut StmtList,
) -> Result<(), Halt>
    ensures exact { (more : List Bool) → flags.old ≡ flags_of_all items.now ++ more → Gives (λ u. (out.new, progress.new)) result (put_behind out.old (statement_lem function.entry.result_type.now names.old (Block items.now) progress.old)) }
    ensures flags { (more : List Bool) → flags.old ≡ flags_of_all items.now ++ more → OnOk result (flags.new ≡ more) }
    ensures names { OnOk result (names.new ≡ names.old) }
{
    names.enter()?;
    all(function, items, names, flags, progress, out)?;
    names.leave();
    Ok(())
}

/// The items of a block, whose scope is the innermost one.
#[cycle(statement)]
fn all(
    function: Function<'_>,
    items: &[BlockItem],
    names: &mut Names,
    flags: &mut Flags,
    progress: &mut Progress,
    out: &mut StmtList,
) -> Result<(), Halt>
    ensures exact { (more : List Bool) → flags.old ≡ flags_of_all items.now ++ more → Gives (λ u. (out.new, progress.new)) result (put_behind out.old (all_items function.entry.result_type.now names.old items.now progress.old)) }
    ensures flags { (more : List Bool) → flags.old ≡ flags_of_all items.now ++ more → OnOk result (flags.new ≡ more) }
    ensures left { OnOk result (leave names.new ≡ leave names.old) }
{
    'items: for one in items {
        item(function, one, names, flags, progress, out)?;
    }
    Ok(())
}

/// An item of a block. A declaration's names are in the innermost scope behind it.
#[cycle(statement)]
fn item(
    function: Function<'_>,
    item: &BlockItem,
    names: &mut Names,
    flags: &mut Flags,
    progress: &mut Progress,
    out: &mut StmtList,
) -> Result<(), Halt>
    ensures exact { (rest : List ℕ → Bool) (more : List Bool) → flags.old ≡ flags_of_item item.now rest ++ more → Gives (λ u. ((out.new, names.new), progress.new)) result (beginning out.old (item_lem function.entry.result_type.now names.old item.now rest progress.old)) }
    ensures flags { (rest : List ℕ → Bool) (more : List Bool) → flags.old ≡ flags_of_item item.now rest ++ more → OnOk result (flags.new ≡ more) }
    ensures left { OnOk result (leave names.new ≡ leave names.old) }
{
    match item {
        BlockItem::Declaration(d) => { declaration(function.alloc, d, names, flags, progress, out) }
        BlockItem::Statement(s) => statement(function, s, names, flags, progress, out),
    }
}

/// A statement as one of Clight, behind those that stand before it.
#[cycle(statement)]
fn single(
    function: Function<'_>,
    s: &CStatement,
    names: &mut Names,
    flags: &mut Flags,
    progress: &mut Progress,
    mut before: StmtList,
) -> Result<Shared<Stmt>, Halt>
    ensures exact { (more : List Bool) → flags.old ≡ statement_flags s.now ++ more → Gives (λ x. (x, progress.new)) result (sequence_behind before (statement_lem function.entry.result_type.now names.old s.now progress.old)) }
    ensures flags { (more : List Bool) → flags.old ≡ statement_flags s.now ++ more → OnOk result (flags.new ≡ more) }
    ensures names { OnOk result (names.new ≡ names.old) }
{
    statement(function, s, names, flags, progress, &mut before)?;
    Ok(one_statement(function.alloc, before)?)
}

/// An `if` without `else`.
#[cycle(statement)]
fn if_then(
    body: &CStatement,
    parts: Tested<'_>,
    names: &mut Names,
    flags: &mut Flags,
    progress: &mut Progress,
    out: &mut StmtList,
) -> Result<(), Halt>
    ensures exact { (more : List Bool) → flags.old ≡ statement_flags body.now ++ more → Gives (λ u. (out.new, progress.new)) result (put_behind out.old (statement_lem parts.entry.function.result_type.now names.old (OfIf parts.entry.place parts.entry.condition.now body.now) progress.old)) }
    ensures flags { (more : List Bool) → flags.old ≡ statement_flags body.now ++ more → OnOk result (flags.new ≡ more) }
    ensures names { OnOk result (names.new ≡ names.old) }
{
    let alloc = parts.function.alloc;
    let test = test(alloc, names, parts.place, parts.condition, progress, out)?;
    let none = Items::new(alloc);
    let first = single(parts.function, body, names, flags, progress, none)?;
    let second = Shared::new(alloc, Stmt::Skip)?;
    push_if(test, first, second, out)?;
    Ok(())
}

/// The second branch of an `if`.
#[cycle(statement)]
fn if_else(
    otherwise: &CStatement,
    made: Unfinished<'_>,
    names: &mut Names,
    flags: &mut Flags,
    progress: &mut Progress,
    out: &mut StmtList,
) -> Result<(), Halt>
    ensures exact { (more : List Bool) → flags.old ≡ statement_flags otherwise.now ++ more → Gives (λ u. (out.new, progress.new)) result (with_else out.old made.entry.test made.entry.first (sequence_behind [] (statement_lem made.entry.function.result_type.now names.old otherwise.now progress.old))) }
    ensures flags { (more : List Bool) → flags.old ≡ statement_flags otherwise.now ++ more → OnOk result (flags.new ≡ more) }
    ensures names { OnOk result (names.new ≡ names.old) }
{
    let none = Items::new(made.function.alloc);
    let second = single(made.function, otherwise, names, flags, progress, none)?;
    made.push(second, out)?;
    Ok(())
}

/// `while`: the test stands before the body, in the loop.
#[cycle(statement)]
fn while_loop(
    body: &CStatement,
    parts: Tested<'_>,
    names: &mut Names,
    flags: &mut Flags,
    progress: &mut Progress,
    out: &mut StmtList,
) -> Result<(), Halt>
    ensures exact { (more : List Bool) → flags.old ≡ statement_flags body.now ++ more → Gives (λ u. (out.new, progress.new)) result (put_behind out.old (statement_lem parts.entry.function.result_type.now names.old (OfWhile parts.entry.place parts.entry.condition.now body.now) progress.old)) }
    ensures flags { (more : List Bool) → flags.old ≡ statement_flags body.now ++ more → OnOk result (flags.new ≡ more) }
    ensures names { OnOk result (names.new ≡ names.old) }
{
    let alloc = parts.function.alloc;
    let mut inner = Items::new(alloc);
    loop_test(
        alloc,
        names,
        parts.place,
        parts.condition,
        progress,
        &mut inner,
    )?;
    let first = single(parts.function, body, names, flags, progress, inner)?;
    let second = Shared::new(alloc, Stmt::Skip)?;
    push_loop(first, second, out)?;
    Ok(())
}

/// `do`: the test stands behind the body.
#[cycle(statement)]
fn do_loop(
    body: &CStatement,
    parts: Tested<'_>,
    names: &mut Names,
    flags: &mut Flags,
    progress: &mut Progress,
    out: &mut StmtList,
) -> Result<(), Halt>
    ensures exact { (more : List Bool) → flags.old ≡ statement_flags body.now ++ more → Gives (λ u. (out.new, progress.new)) result (put_behind out.old (statement_lem parts.entry.function.result_type.now names.old (OfDo body.now parts.entry.place parts.entry.condition.now) progress.old)) }
    ensures flags { (more : List Bool) → flags.old ≡ statement_flags body.now ++ more → OnOk result (flags.new ≡ more) }
    ensures names { OnOk result (names.new ≡ names.old) }
{
    let alloc = parts.function.alloc;
    let none = Items::new(alloc);
    let first = single(parts.function, body, names, flags, progress, none)?;
    let second = test_behind(alloc, names, parts.place, parts.condition, progress)?;
    push_loop(first, second, out)?;
    Ok(())
}

/// `for`: its parts are elaborated in the order of the text, and the body after the third one.
#[cycle(statement)]
fn for_loop(
    body: &CStatement,
    parts: ForParts<'_>,
    names: &mut Names,
    flags: &mut Flags,
    progress: &mut Progress,
    out: &mut StmtList,
) -> Result<(), Halt>
    ensures exact { (more : List Bool) → flags.old ≡ statement_flags body.now ++ more → Gives (λ u. (out.new, progress.new)) result (put_behind out.old (statement_lem parts.entry.function.result_type.now names.old (OfFor parts.entry.place parts.entry.first.now parts.entry.condition.now parts.entry.third.now body.now) progress.old)) }
    ensures flags { (more : List Bool) → flags.old ≡ statement_flags body.now ++ more → OnOk result (flags.new ≡ more) }
    ensures names { OnOk result (names.new ≡ names.old) }
{
    let alloc = parts.function.alloc;
    optional_effect(alloc, names, parts.first, progress, out)?;
    let mut inner = Items::new(alloc);
    optional_test(
        alloc,
        names,
        parts.place,
        parts.condition,
        progress,
        &mut inner,
    )?;
    let second = effect_behind(alloc, names, parts.third, progress)?;
    let first = single(parts.function, body, names, flags, progress, inner)?;
    push_loop(first, second, out)?;
    Ok(())
}

/// `switch`: what it looks at stands before its cases.
#[cycle(statement)]
fn switch(
    cases: &[SwitchCase],
    parts: Tested<'_>,
    names: &mut Names,
    flags: &mut Flags,
    progress: &mut Progress,
    out: &mut StmtList,
) -> Result<(), Halt>
    ensures exact { (more : List Bool) → flags.old ≡ flags_of_cases cases.now ++ more → Gives (λ u. (out.new, progress.new)) result (put_behind out.old (statement_lem parts.entry.function.result_type.now names.old (OfSwitch parts.entry.place parts.entry.condition.now cases.now) progress.old)) }
    ensures flags { (more : List Bool) → flags.old ≡ flags_of_cases cases.now ++ more → OnOk result (flags.new ≡ more) }
    ensures names { OnOk result (names.new ≡ names.old) }
{
    let function = parts.function;
    let (value, kind) = selector(
        function.alloc,
        names,
        parts.place,
        parts.condition,
        progress,
        out,
    )?;
    let made = switch_cases(cases, Switched { function, kind }, names, flags, progress)?;
    out.push(Stmt::Switch(value, made))?;
    Ok(())
}

/// The cases of a switch.
#[cycle(statement)]
fn switch_cases(
    cases: &[SwitchCase],
    parts: Switched<'_>,
    names: &mut Names,
    flags: &mut Flags,
    progress: &mut Progress,
) -> Result<CaseList, Halt>
    ensures exact { (more : List Bool) → flags.old ≡ flags_of_cases cases.now ++ more → Gives (λ all. (all, progress.new)) result (all_cases parts.entry.function.result_type.now names.old parts.entry.kind no_labels cases.now progress.old) }
    ensures flags { (more : List Bool) → flags.old ≡ flags_of_cases cases.now ++ more → OnOk result (flags.new ≡ more) }
    ensures names { OnOk result (names.new ≡ names.old) }
{
    let mut labels = Labels::new(parts.function.alloc);
    let mut all = Items::new(parts.function.alloc);
    'cases: for case in cases {
        let made = switch_case(case, parts, &mut labels, names, flags, progress)?;
        all.push(made)?;
    }
    Ok(all)
}

/// A case of a switch, behind those with these labels.
#[cycle(statement)]
fn switch_case(
    case: &SwitchCase,
    parts: Switched<'_>,
    labels: &mut Labels,
    names: &mut Names,
    flags: &mut Flags,
    progress: &mut Progress,
) -> Result<Case, Halt>
    ensures exact { (more : List Bool) → flags.old ≡ statement_flags case.now.body ++ more → Gives (λ x. (x, progress.new)) result (one_case parts.entry.function.result_type.now names.old parts.entry.kind labels.old case.now progress.old) }
    ensures flags { (more : List Bool) → flags.old ≡ statement_flags case.now.body ++ more → OnOk result (flags.new ≡ more) }
    ensures names { OnOk result (names.new ≡ names.old) }
    ensures labels { IfOk result (λ x. labels.new ≡ with_label labels.old x.label) }
{
    let label = labels.add(parts.kind, &case.label)?;
    let none = Items::new(parts.function.alloc);
    let body = single(
        parts.function,
        case.body.get(),
        names,
        flags,
        progress,
        none,
    )?;
    Ok(Case { label, body })
}

/// The test behind the body of a loop.
fn test_behind(
    alloc: Global,
    names: &Names,
    place: Place,
    condition: &CExpr,
    progress: &mut Progress,
) -> Result<Shared<Stmt>, Halt>
    ensures exact { Gives (λ x. (x, progress.new)) result (sequence_behind [] (loop_test_lem names.now place condition.now progress.old)) }
{
    let mut behind = Items::new(alloc);
    loop_test(alloc, names, place, condition, progress, &mut behind)?;
    Ok(one_statement(alloc, behind)?)
}

/// The effect behind the body of a loop, if there is one.
fn effect_behind(
    alloc: Global,
    names: &Names,
    e: &Option<CExpr>,
    progress: &mut Progress,
) -> Result<Shared<Stmt>, Halt>
    ensures exact { Gives (λ x. (x, progress.new)) result (sequence_behind [] (optional_effect_lem names.now e.now progress.old)) }
{
    let mut behind = Items::new(alloc);
    optional_effect(alloc, names, e, progress, &mut behind)?;
    Ok(one_statement(alloc, behind)?)
}

/// One after the other, as one statement.
fn one_statement(alloc: Global, statements: StmtList) -> Result<Shared<Stmt>, AllocError>
    ensures { IfOk result (λ x. x ≡ sequence_lem statements) }
{
    Shared::new(alloc, sequence(statements))
}

/// Pushes a statement by itself. What elaboration keeps is as before.
fn push_one(s: Stmt, out: &mut StmtList) -> Result<(), Halt>
    ensures exact { (progress : Kept) → Gives (λ u. (out.new, progress)) result (with_one out.old s progress) }
{
    out.push(s)?;
    Ok(())
}

/// Pushes a loop of these parts.
fn push_loop(
    first: Shared<Stmt>,
    second: Shared<Stmt>,
    out: &mut StmtList,
) -> Result<(), AllocError>
    ensures { IfOk result (λ u. out.new ≡ out.old ++ MadeLoop first second ∷ []) }
{
    out.push(Stmt::Loop(first, second))?;
    Ok(())
}
