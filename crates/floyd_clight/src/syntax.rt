ghost use Rattle.std.specs.Prelude.{◌≡◌, IfOk};
ghost use Rattle.floyd_clight.specs.Types.{type_of};
ghost use Rattle.floyd_clight.specs.declared.syntax.Stmt.{Set, Assign, Call, If, Loop, Switch};

use floyd_ctypes::CType;
use floyd_int::{IntOp, Value};
use floyd_text::{Name, Shared};
use sqlite_items::Items;
use std::alloc::{AllocError, Global};

/// An operator on one operand: `-`, `~` and `!`.
#[derive(Clone, Copy, PartialEq, Eq, Debug)]
pub enum UnaryOp {
    Neg,
    Complement,
    Not,
}

/// What a name with a place stands for.
#[derive(Clone, Copy, PartialEq, Eq, Debug)]
pub enum Binding {
    /// A local variable that has a block of its own.
    Block,
    /// A variable or a function of the file.
    File,
}

/// An expression, with its type last. It has no effects.
pub enum Expr {
    Const(Value, CType),
    /// A variable without a place in memory.
    Temp(Name, CType),
    /// A variable with a place in memory, or a function. A local one and one of the file may have the same name.
    Var(Binding, Name, CType),
    Deref(Shared<Expr>, CType),
    AddrOf(Shared<Expr>, CType),
    Unary(UnaryOp, Shared<Expr>, CType),
    Binary(IntOp, Shared<Expr>, Shared<Expr>, CType),
    Cast(Shared<Expr>, CType),
    Field(Shared<Expr>, Name, CType),
    /// The size of the first type.
    SizeOf(CType, CType),
}

impl Drop for Expr {
    fn drop(self) {
        match self {
            Expr::Const(_, ctype) => drop(ctype),
            Expr::Temp(name, ctype) => {
                drop(name);
                drop(ctype);
            }
            Expr::Var(_, name, ctype) => {
                drop(name);
                drop(ctype);
            }
            Expr::Deref(expression, ctype) => {
                drop(expression);
                drop(ctype);
            }
            Expr::AddrOf(expression, ctype) => {
                drop(expression);
                drop(ctype);
            }
            Expr::Unary(_, expression, ctype) => {
                drop(expression);
                drop(ctype);
            }
            Expr::Binary(_, first, second, third) => {
                drop(first);
                drop(second);
                drop(third);
            }
            Expr::Cast(expression, ctype) => {
                drop(expression);
                drop(ctype);
            }
            Expr::Field(expression, name, ctype) => {
                drop(expression);
                drop(name);
                drop(ctype);
            }
            Expr::SizeOf(first, second) => {
                drop(first);
                drop(second);
            }
        }
    }
}

/// Expressions in order, as the arguments of a call.
pub type ExprList = Items<Expr>;

/// A statement.
#[cycle(statement)]
pub enum Stmt {
    Skip,
    /// Sets a temporary.
    Set(Name, Expr),
    /// Stores a value at a place in memory.
    Assign(Expr, Expr),
    /// Calls a function, and sets a temporary to its result, if one is named.
    Call(Option<Name>, Expr, ExprList),
    /// One after the other.
    Seq(StmtList),
    If(Expr, Shared<Stmt>, Shared<Stmt>),
    /// Runs the first part and then the second one, again and again. `Continue` in the first part goes to the second.
    Loop(Shared<Stmt>, Shared<Stmt>),
    Break,
    Continue,
    Return(Option<Expr>),
    /// Runs the bodies from the case on whose label the value has, or from the default.
    Switch(Expr, CaseList),
}

impl Drop for Stmt {
    #[cycle(drop)]
    fn drop(self) {
        match self {
            Stmt::Skip => {}
            Stmt::Set(name, expression) => {
                drop(name);
                drop(expression);
            }
            Stmt::Assign(first, second) => {
                drop(first);
                drop(second);
            }
            Stmt::Call(name, expression, expressions) => {
                drop(name);
                drop(expression);
                drop(expressions);
            }
            Stmt::Seq(statements) => drop(statements),
            Stmt::If(first, second, third) => {
                drop(first);
                drop(second);
                drop(third);
            }
            Stmt::Loop(first, second) => {
                drop(first);
                drop(second);
            }
            Stmt::Break => {}
            Stmt::Continue => {}
            Stmt::Return(expression) => drop(expression),
            Stmt::Switch(expression, cases) => {
                drop(expression);
                drop(cases);
            }
        }
    }
}

/// Statements in order.
pub type StmtList = Items<Stmt>;

/// A case of a switch. Its label is held in the low bits at the kind of the switch's expression; the default has none.
#[cycle(statement)]
pub struct Case {
    pub label: Option<u64>,
    pub body: Shared<Stmt>,
}

impl Drop for Case {
    #[cycle(drop)]
    fn drop(self) {
        let Case { label: _, body } = self;
        drop(body);
    }
}

/// Cases in the order of the text.
pub type CaseList = Items<Case>;

impl Expr {
    /// The type of its value.
    pub fn ctype(&self) -> &CType
        ensures { result.now ≡ type_of self.now }
    {
        match self {
            Expr::Const(_, t) => t,
            Expr::Temp(_, t) => t,
            Expr::Var(_, _, t) => t,
            Expr::Deref(_, t) => t,
            Expr::AddrOf(_, t) => t,
            Expr::Unary(_, _, t) => t,
            Expr::Binary(_, _, _, t) => t,
            Expr::Cast(_, t) => t,
            Expr::Field(_, _, t) => t,
            Expr::SizeOf(_, t) => t,
        }
    }

    /// The same expression. Its names and its parts are shared and not copied.
    pub fn share(&self, alloc: Global) -> Result<Expr, AllocError>
        ensures { IfOk result (λ e. e ≡ self.now) }
    {
        Ok(match self {
            Expr::Const(value, t) => Expr::Const(*value, t.share(alloc)?),
            Expr::Temp(name, t) => Expr::Temp(name.share()?, t.share(alloc)?),
            Expr::Var(binding, name, t) => { Expr::Var(*binding, name.share()?, t.share(alloc)?) },
            Expr::Deref(e, t) => Expr::Deref(e.share()?, t.share(alloc)?),
            Expr::AddrOf(e, t) => Expr::AddrOf(e.share()?, t.share(alloc)?),
            Expr::Unary(op, e, t) => Expr::Unary(*op, e.share()?, t.share(alloc)?),
            Expr::Binary(op, a, b, t) => {
                Expr::Binary(*op, a.share()?, b.share()?, t.share(alloc)?)
            }
            Expr::Cast(e, t) => Expr::Cast(e.share()?, t.share(alloc)?),
            Expr::Field(e, name, t) => Expr::Field(e.share()?, name.share()?, t.share(alloc)?),
            Expr::SizeOf(of, t) => Expr::SizeOf(of.share(alloc)?, t.share(alloc)?),
        })
    }
}

impl Stmt {
    /// The same statement. Its branches, its loops' parts and its names are shared and not copied.
    #[cycle(share)]
    pub fn share(&self, alloc: Global) -> Result<Stmt, AllocError>
        ensures { IfOk result (λ s. s ≡ self.now) }
    {
        match self {
            Stmt::Skip => Ok(Stmt::Skip),
            Stmt::Set(name, e) => share_set(alloc, name, e),
            Stmt::Assign(place, e) => share_assign(alloc, place, e),
            Stmt::Call(to, callee, arguments) => share_call(alloc, to, callee, arguments),
            Stmt::Seq(parts) => Ok(Stmt::Seq(share_parts(alloc, parts.as_slice())?)),
            Stmt::If(test, yes, no) => share_if(alloc, test, yes, no),
            Stmt::Loop(first, second) => share_loop(first, second),
            Stmt::Break => Ok(Stmt::Break),
            Stmt::Continue => Ok(Stmt::Continue),
            Stmt::Return(e) => Ok(Stmt::Return(share_value(alloc, e)?)),
            Stmt::Switch(e, cases) => share_switch(alloc, e, cases),
        }
    }
}

/// The same statements.
#[cycle(share)]
fn share_parts(alloc: Global, parts: &[Stmt]) -> Result<StmtList, AllocError>
    ensures { IfOk result (λ all. all ≡ parts.now) }
{
    let mut all = Items::new(alloc);
    'parts: for part in parts {
        all.push(part.share(alloc)?)?;
    }
    Ok(all)
}

fn share_set(alloc: Global, name: &Name, e: &Expr) -> Result<Stmt, AllocError>
    ensures { IfOk result (λ s. s ≡ Set name.now e.now) }
{
    Ok(Stmt::Set(name.share()?, e.share(alloc)?))
}

fn share_assign(alloc: Global, place: &Expr, e: &Expr) -> Result<Stmt, AllocError>
    ensures { IfOk result (λ s. s ≡ Assign place.now e.now) }
{
    Ok(Stmt::Assign(place.share(alloc)?, e.share(alloc)?))
}

fn share_call(
    alloc: Global,
    to: &Option<Name>,
    callee: &Expr,
    arguments: &ExprList,
) -> Result<Stmt, AllocError>
    ensures { IfOk result (λ s. s ≡ Call to.now callee.now arguments.now) }
{
    let to = share_target(to)?;
    let callee = callee.share(alloc)?;
    Ok(Stmt::Call(to, callee, share_all(alloc, arguments.as_slice())?))
}

fn share_if(
    alloc: Global,
    test: &Expr,
    yes: &Shared<Stmt>,
    no: &Shared<Stmt>,
) -> Result<Stmt, AllocError>
    ensures { IfOk result (λ s. s ≡ If test.now yes.now no.now) }
{
    let (yes, no) = share_both(yes, no)?;
    Ok(Stmt::If(test.share(alloc)?, yes, no))
}

/// The same two statements.
fn share_both(
    first: &Shared<Stmt>,
    second: &Shared<Stmt>,
) -> Result<(Shared<Stmt>, Shared<Stmt>), AllocError>
    ensures { IfOk result (λ both. both ≡ (first.now, second.now)) }
{
    let first = first.share()?;
    Ok((first, second.share()?))
}

fn share_loop(first: &Shared<Stmt>, second: &Shared<Stmt>) -> Result<Stmt, AllocError>
    ensures { IfOk result (λ s. s ≡ Loop first.now second.now) }
{
    let (first, second) = share_both(first, second)?;
    Ok(Stmt::Loop(first, second))
}

fn share_switch(alloc: Global, e: &Expr, cases: &CaseList) -> Result<Stmt, AllocError>
    ensures { IfOk result (λ s. s ≡ Switch e.now cases.now) }
{
    let e = e.share(alloc)?;
    Ok(Stmt::Switch(e, share_cases(alloc, cases.as_slice())?))
}

/// The same cases. Their bodies are shared and not copied.
fn share_cases(alloc: Global, cases: &[Case]) -> Result<CaseList, AllocError>
    ensures { IfOk result (λ all. all ≡ cases.now) }
{
    let mut all = Items::new(alloc);
    'cases: for case in cases {
        all.push(Case {
            label: case.label,
            body: case.body.share()?,
        })?;
    }
    Ok(all)
}

/// The same name, if there is one.
fn share_target(to: &Option<Name>) -> Result<Option<Name>, AllocError>
    ensures { IfOk result (λ copy. copy ≡ to.now) }
{
    match to {
        None => Ok(None),
        Some(name) => Ok(Some(name.share()?)),
    }
}

/// The same expression, if there is one.
fn share_value(alloc: Global, e: &Option<Expr>) -> Result<Option<Expr>, AllocError>
    ensures { IfOk result (λ copy. copy ≡ e.now) }
{
    match e {
        None => Ok(None),
        Some(e) => Ok(Some(e.share(alloc)?)),
    }
}

/// The same expressions.
fn share_all(alloc: Global, expressions: &[Expr]) -> Result<ExprList, AllocError>
    ensures { IfOk result (λ all. all ≡ expressions.now) }
{
    let mut all = Items::new(alloc);
    'expressions: for e in expressions {
        all.push(e.share(alloc)?)?;
    }
    Ok(all)
}
