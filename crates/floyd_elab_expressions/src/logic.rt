ghost use Rattle.std.specs.Prelude.{◌≡◌, List, [], ◌∷◌, ◌++◌, IfOk};
ghost use Rattle.floyd_clight.specs.declared.syntax.Stmt.{Stmt, Set, If};
ghost use Rattle.floyd_elab_expressions.specs.Clight.{sequence as sequence_lem};
ghost use Rattle.floyd_text.specs.Gives.{Gives};
ghost use Rattle.floyd_elab_expressions.specs.Behind.{behind};
ghost use Rattle.floyd_elab_expressions.specs.Expressions.{truth as truth_lem, branch as branch_lem, conditional_result as conditional_result_lem};
ghost use Rattle.floyd_elab_expressions.specs.LogicClauses.{short_circuit as short_circuit_lem};
ghost use Rattle.floyd_elab_expressions.specs.Clight.{test_of as test_of_lem, pulled_name as pulled_name_lem};
ghost use Rattle.floyd_elab_expressions.specs.Progress.{typing, draw, pull, add_temporary};
ghost use Rattle.floyd_elab_expressions.specs.declared.progress.Progress.{Progress as Kept};
ghost use Rattle.floyd_elab_names.specs.Refusing.{and_then, pure};
ghost use Rattle.floyd_elab_names.specs.Types.{int_type};
ghost use Rattle.floyd_ctyping.specs.Expressions.{check_test as check_test_lem, gives_value as gives_value_lem};
ghost use Rattle.floyd_ctyping.specs.Operators.{common_type as common_type_lem};

use crate::casts::cast_into;
use crate::names::pulled_name;
use crate::nodes::{one, zero};
use crate::progress::Progress;
use crate::sequences::sequence;
use crate::translation::Translation;
use crate::truths::test_of;
use floyd_clight::{Expr, Stmt, StmtList};
use floyd_cparse_trees::CExpr;
use floyd_ctypes::CType;
use floyd_ctyping::{Operand, check_test, common_type, gives_value};
use floyd_int::IntKind;
use floyd_text::{Halt, Name, Place, Shared};
use std::alloc::{AllocError, Global};

/// `&&` and `||`.
#[derive(Clone, Copy, PartialEq, Eq, Debug)]
pub(crate) enum Logical {
    And,
    Or,
}

/// Two operands, and the place of what stands between them.
#[derive(Clone, Copy)]
pub(crate) struct Operands<'a> {
    pub(crate) left: &'a CExpr,
    pub(crate) place: Place,
    pub(crate) right: &'a CExpr,
}

/// The three parts of `?:`, and its place.
#[derive(Clone, Copy)]
pub(crate) struct Choice<'a> {
    pub(crate) condition: &'a CExpr,
    pub(crate) place: Place,
    pub(crate) then: &'a CExpr,
    pub(crate) otherwise: &'a CExpr,
}

/// The first test of `&&` or `||`, and the temporary that both set.
pub(crate) struct FirstTest {
    test: Expr,
    x: Name,
}

impl FirstTest {
    fn into_parts(self) -> (Expr, Name)
        ensures { result ≡ (self.test, self.x) }
    {
        let FirstTest { test, x } = self;
        (test, x)
    }
}

impl Drop for FirstTest {
    fn drop(self) {
        let FirstTest { test, x } = self;
        drop(test);
        drop(x);
    }
}

/// The test of `?:`, and the number of the temporary that its branches set.
pub(crate) struct ChoiceTest {
    test: Expr,
    k: u64,
}

impl ChoiceTest {
    fn into_parts(self) -> (Expr, u64)
        ensures { result ≡ (self.test, self.k) }
    {
        let ChoiceTest { test, k } = self;
        (test, k)
    }
}

impl Drop for ChoiceTest {
    fn drop(self) {
        let ChoiceTest { test, k: _ } = self;
        drop(test);
    }
}

/// What stands before a part of an expression, and the part.
pub(crate) struct Part {
    pub(crate) before: StmtList,
    pub(crate) value: Translation,
}

impl Part {
    fn into_before(self) -> StmtList
        ensures { result ≡ self.before }
    {
        let Part { before, value } = self;
        drop(value);
        before
    }
}

impl Drop for Part {
    fn drop(self) {
        let Part { before, value } = self;
        drop(before);
        drop(value);
    }
}

/// The branches of `?:`.
pub(crate) struct Branches {
    pub(crate) first: Part,
    pub(crate) second: Part,
}

impl Branches {
    fn into_parts(self) -> (Part, Part)
        ensures { result ≡ (self.first, self.second) }
    {
        let Branches { first, second } = self;
        (first, second)
    }
}

impl Drop for Branches {
    fn drop(self) {
        let Branches { first, second } = self;
        drop(first);
        drop(second);
    }
}

/// A temporary of type int that was set before.
pub(crate) fn truth(x: Name) -> Translation
    ensures { (before : List Stmt) → behind before result ≡ truth_lem x before }
{
    Translation {
        expr: Expr::Temp(x, CType::Int(IntKind::I32)),
        operand: Operand::value(CType::Int(IntKind::I32)),
    }
}

/// Sets the temporary to `e` behind these statements.
fn set_behind(mut before: StmtList, x: &Name, e: Expr) -> Result<Stmt, AllocError>
    ensures { IfOk result (λ s. s ≡ sequence_lem (before ++ Set x.now e ∷ [])) }
{
    before.push(Stmt::Set(x.share()?, e))?;
    Ok(sequence(before))
}

/// The statement by which `&&` or `||` sets the temporary: the second is only tested where the first does not decide.
fn short_circuit(
    alloc: Global,
    op: Logical,
    first: Expr,
    before: StmtList,
    second: Expr,
    x: &Name,
) -> Result<Stmt, AllocError>
    ensures { IfOk result (λ s. s ≡ short_circuit_lem op first before second x.now) }
{
    let second = Shared::new(alloc, set_behind(before, x, second)?)?;
    match op {
        Logical::And => {
            let short = Shared::new(alloc, Stmt::Set(x.share()?, zero()))?;
            Ok(Stmt::If(first, second, short))
        }
        Logical::Or => {
            let short = Shared::new(alloc, Stmt::Set(x.share()?, one()))?;
            Ok(Stmt::If(first, short, second))
        }
    }
}

/// Judges the first test of `&&` or `||`, and draws the temporary.
fn draw_truth(
    alloc: Global,
    place: Place,
    a: &Operand,
    progress: &mut Progress,
) -> Result<Name, Halt>
    ensures exact { Gives (λ x. (x, progress.new)) result (and_then (typing (check_test_lem place a.now) progress.old) (λ u. pull int_type)) }
{
    check_test(alloc, place, a)?;
    progress.pull(alloc, CType::Int(IntKind::I32))
}

/// The first test of `&&` or `||`: it is judged, and then the temporary is drawn.
pub(crate) fn begin_logical(
    alloc: Global,
    parts: Operands<'_>,
    a: &Translation,
    progress: &mut Progress,
) -> Result<FirstTest, Halt>
    ensures exact { Gives (λ f. (f.x, progress.new)) result (and_then (typing (check_test_lem parts.entry.place a.now.operand) progress.old) (λ u. pull int_type)) }
    ensures test { IfOk result (λ f. f.test ≡ test_of_lem parts.entry.left.now (behind [] a.now)) }
{
    let x = draw_truth(alloc, parts.place, &a.operand, progress)?;
    let test = test_of(alloc, parts.left, a)?;
    Ok(FirstTest { test, x })
}

/// The statement by which `&&` or `||` sets the temporary to tests of what was translated.
fn decision(
    alloc: Global,
    op: Logical,
    right: &CExpr,
    first: FirstTest,
    b: Part,
) -> Result<Stmt, AllocError>
    ensures { IfOk result (λ s. s ≡ short_circuit_lem op first.test b.before (test_of_lem right.now (behind [] b.value)) first.x) }
{
    let second = test_of(alloc, right, &b.value)?;
    let (test, x) = first.into_parts();
    short_circuit(alloc, op, test, b.into_before(), second, &x)
}

/// The end of `&&` and `||`: the second test is judged, and the temporary is set.
pub(crate) fn end_logical(
    alloc: Global,
    op: Logical,
    parts: Operands<'_>,
    first: FirstTest,
    b: Part,
    out: &mut StmtList,
) -> Result<Translation, Halt>
    ensures exact { (progress : Kept) → Gives (λ r. (behind out.new r, progress)) result (and_then (typing (check_test_lem parts.entry.place b.value.operand) progress) (λ u. pure (truth_lem first.x (out.old ++ short_circuit_lem op first.test b.before (test_of_lem parts.entry.right.now (behind [] b.value)) first.x ∷ [])))) }
{
    check_test(alloc, parts.place, &b.value.operand)?;
    let x = first.x.share()?;
    let set = decision(alloc, op, parts.right, first, b)?;
    out.push(set)?;
    Ok(truth(x))
}

/// Judges the test of `?:`, and draws the number.
fn draw_choice(
    alloc: Global,
    place: Place,
    c: &Operand,
    progress: &mut Progress,
) -> Result<u64, Halt>
    ensures exact { Gives (λ k. (k, progress.new)) result (and_then (typing (check_test_lem place c.now) progress.old) (λ u. draw)) }
{
    check_test(alloc, place, c)?;
    progress.draw()
}

/// The test of `?:`: it is judged, and then the number is drawn.
pub(crate) fn begin_conditional(
    alloc: Global,
    parts: Choice<'_>,
    c: &Translation,
    progress: &mut Progress,
) -> Result<ChoiceTest, Halt>
    ensures exact { Gives (λ d. (d.k, progress.new)) result (and_then (typing (check_test_lem parts.entry.place c.now.operand) progress.old) (λ u. draw)) }
    ensures test { IfOk result (λ d. d.test ≡ test_of_lem parts.entry.condition.now (behind [] c.now)) }
{
    let k = draw_choice(alloc, parts.place, &c.operand, progress)?;
    let test = test_of(alloc, parts.condition, c)?;
    Ok(ChoiceTest { test, k })
}

/// A branch of `?:`, which sets the temporary.
fn branch(alloc: Global, x: &Name, t: &CType, part: Part) -> Result<Shared<Stmt>, AllocError>
    ensures { IfOk result (λ s. s ≡ branch_lem x.now t.now (behind part.before part.value)) }
{
    let e = cast_into(alloc, t, &part.value)?;
    let set = set_behind(part.into_before(), x, e)?;
    Shared::new(alloc, set)
}

/// Both branches of `?:`.
fn push_branches(
    alloc: Global,
    x: &Name,
    t: &CType,
    test: Expr,
    branches: Branches,
    out: &mut StmtList,
) -> Result<(), AllocError>
    ensures { IfOk result (λ u. out.new ≡ out.old ++ If test (branch_lem x.now t.now (behind branches.first.before branches.first.value)) (branch_lem x.now t.now (behind branches.second.before branches.second.value)) ∷ []) }
{
    let (first, second) = branches.into_parts();
    let first = branch(alloc, x, t, first)?;
    let second = branch(alloc, x, t, second)?;
    out.push(Stmt::If(test, first, second))?;
    Ok(())
}

/// The common type of the branches.
fn common_operand(alloc: Global, place: Place, a: &Operand, b: &Operand) -> Result<Operand, Halt>
    ensures exact { (progress : Kept) → Gives (λ r. (r, progress)) result (typing (gives_value_lem place (common_type_lem a.now b.now)) progress) }
{
    let found = common_type(alloc, a, b)?;
    gives_value(place, found)
}

/// The temporary of the number `k`.
fn add_result(alloc: Global, k: u64, t: &CType, progress: &mut Progress) -> Result<Name, Halt>
    ensures exact { Gives (λ u. (u, progress.new)) result (and_then (add_temporary (pulled_name_lem k) t.now progress.old) (λ u. pure (pulled_name_lem k))) }
{
    let x = pulled_name(alloc, k)?;
    progress.add_temporary(x.share()?, t.share(alloc)?)?;
    Ok(x)
}

/// The end of `a ? b : c`, where each branch sets the temporary of the number to its part, cast to the common type.
pub(crate) fn conditional_result(
    alloc: Global,
    place: Place,
    choice: ChoiceTest,
    branches: Branches,
    progress: &mut Progress,
    out: &mut StmtList,
) -> Result<Translation, Halt>
    ensures exact { Gives (λ r. (behind out.new r, progress.new)) result (conditional_result_lem place choice.k out.old choice.test (behind branches.first.before branches.first.value) (behind branches.second.before branches.second.value) progress.old) }
{
    let operand = common_operand(
        alloc,
        place,
        &branches.first.value.operand,
        &branches.second.value.operand,
    )?;
    let (test, k) = choice.into_parts();
    let x = add_result(alloc, k, &operand.ctype, progress)?;
    push_branches(alloc, &x, &operand.ctype, test, branches, out)?;
    let t = operand.ctype.share(alloc)?;
    Ok(Translation {
        expr: Expr::Temp(x, t),
        operand,
    })
}
