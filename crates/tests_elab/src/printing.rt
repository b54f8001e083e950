//! Clight as short text.
//!
//! A type is read from left to right: `int*[3]` is an array of three pointers. A temporary is written by its name, a
//! variable or a function of the file with `@` before it, a local variable with a block in brackets. `=` sets a temporary
//! and `:=` stores. With `typed` each expression has its type behind it.
use floyd_clight::{Binding, Case, Expr, Stmt, UnaryOp};
use floyd_ctypes::CType;
use floyd_int::{IntKind, IntOp, Value};
use floyd_text::Name;
use std::alloc::AllocError;
use std::fmt::Write;

pub(crate) fn print_name(text: &mut String, name: &Name) -> Result<(), AllocError> {
    for b in name.as_slice() {
        text.push(*b as char)?;
    }
    Ok(())
}

/// The comma before what is not the first.
pub(crate) fn print_comma(text: &mut String, first: bool) -> Result<(), AllocError> {
    if first { Ok(()) } else { text.push_str(", ") }
}

pub(crate) fn kind_word(kind: IntKind) -> &'static str {
    match kind {
        IntKind::I8 => "char",
        IntKind::U8 => "uchar",
        IntKind::I16 => "short",
        IntKind::U16 => "ushort",
        IntKind::I32 => "int",
        IntKind::U32 => "uint",
        IntKind::I64 => "long",
        IntKind::U64 => "ulong",
    }
}

#[cycle(types)]
pub(crate) fn print_type(text: &mut String, t: &CType) -> Result<(), AllocError> {
    match t {
        CType::Void => text.push_str("void"),
        CType::Int(kind) => text.push_str(kind_word(*kind)),
        CType::Pointer(to) => {
            print_type(text, to.get())?;
            text.push('*')
        }
        CType::Array(element, number) => {
            print_type(text, element.get())?;
            write!(text, "[{number}]")
        }
        CType::Struct(tag) => {
            text.push_str("struct ")?;
            print_name(text, tag)
        }
        CType::Function(parameters, result) => {
            print_type(text, result.get())?;
            print_types(text, parameters.as_slice())
        }
    }
}

/// Types in parentheses.
#[cycle(types)]
pub(crate) fn print_types(text: &mut String, types: &[CType]) -> Result<(), AllocError> {
    text.push('(')?;
    let mut first = true;
    'types: for t in types {
        print_comma(text, first)?;
        print_type(text, t)?;
        first = false;
    }
    text.push(')')
}

fn operator(op: IntOp) -> &'static str {
    match op {
        IntOp::Add => " + ",
        IntOp::Sub => " - ",
        IntOp::Mul => " * ",
        IntOp::Div => " / ",
        IntOp::Rem => " % ",
        IntOp::And => " & ",
        IntOp::Or => " | ",
        IntOp::Xor => " ^ ",
        IntOp::Shl => " << ",
        IntOp::Shr => " >> ",
        IntOp::Eq => " == ",
        IntOp::Ne => " != ",
        IntOp::Lt => " < ",
        IntOp::Le => " <= ",
        IntOp::Gt => " > ",
        IntOp::Ge => " >= ",
    }
}

fn sign(op: UnaryOp) -> char {
    match op {
        UnaryOp::Neg => '-',
        UnaryOp::Complement => '~',
        UnaryOp::Not => '!',
    }
}

/// The letters of a literal, where its value and its type fit each other.
fn print_suffix(text: &mut String, value: Value, t: &CType) -> Result<(), AllocError> {
    match (value, t) {
        (Value::Vint(_), CType::Int(IntKind::I32)) => Ok(()),
        (Value::Vint(_), CType::Int(IntKind::U32)) => text.push('u'),
        (Value::Vlong(_), CType::Int(IntKind::I64)) => text.push('L'),
        (Value::Vlong(_), CType::Int(IntKind::U64)) => text.push_str("uL"),
        _ => text.push('?'),
    }
}

fn print_constant(text: &mut String, value: Value, t: &CType) -> Result<(), AllocError> {
    match value {
        Value::Vint(n) => write!(text, "{n}")?,
        Value::Vlong(n) => write!(text, "{n}")?,
        _ => text.push('?')?,
    }
    print_suffix(text, value, t)
}

/// A variable with a place, or a function.
fn print_variable(text: &mut String, binding: Binding, name: &Name) -> Result<(), AllocError> {
    match binding {
        Binding::File => {
            text.push('@')?;
            print_name(text, name)
        }
        Binding::Block => {
            text.push('[')?;
            print_name(text, name)?;
            text.push(']')
        }
    }
}

/// A type before what is cast to it, or behind `sizeof`.
fn print_in_parentheses(text: &mut String, before: &str, t: &CType) -> Result<(), AllocError> {
    text.push_str(before)?;
    print_type(text, t)?;
    text.push(')')
}

/// The type behind an expression. Constants and casts show it anyway.
fn print_own_type(text: &mut String, e: &Expr) -> Result<(), AllocError> {
    match e {
        Expr::Const(_, _) => Ok(()),
        Expr::Cast(_, _) => Ok(()),
        _ => {
            text.push(':')?;
            print_type(text, e.ctype())
        }
    }
}

#[cycle(expressions)]
pub(crate) fn print_expr(text: &mut String, typed: bool, e: &Expr) -> Result<(), AllocError> {
    match e {
        Expr::Const(value, t) => print_constant(text, *value, t)?,
        Expr::Temp(name, _) => print_name(text, name)?,
        Expr::Var(binding, name, _) => print_variable(text, *binding, name)?,
        Expr::Deref(inner, _) => print_before(text, typed, '*', inner.get())?,
        Expr::AddrOf(inner, _) => print_before(text, typed, '&', inner.get())?,
        Expr::Unary(op, inner, _) => print_before(text, typed, sign(*op), inner.get())?,
        Expr::Binary(op, a, b, _) => {
            text.push('(')?;
            print_expr(text, typed, a.get())?;
            text.push_str(operator(*op))?;
            print_expr(text, typed, b.get())?;
            text.push(')')?;
        }
        Expr::Cast(inner, t) => {
            print_in_parentheses(text, "(", t)?;
            print_expr(text, typed, inner.get())?;
        }
        Expr::Field(inner, name, _) => print_field(text, typed, inner.get(), name)?,
        Expr::SizeOf(of, _) => print_in_parentheses(text, "sizeof(", of)?,
    }
    if typed {
        print_own_type(text, e)?;
    }
    Ok(())
}

#[cycle(expressions)]
fn print_before(text: &mut String, typed: bool, op: char, e: &Expr) -> Result<(), AllocError> {
    text.push(op)?;
    print_expr(text, typed, e)
}

#[cycle(expressions)]
fn print_field(text: &mut String, typed: bool, e: &Expr, name: &Name) -> Result<(), AllocError> {
    text.push('(')?;
    print_expr(text, typed, e)?;
    text.push_str(").")?;
    print_name(text, name)
}

/// Expressions in parentheses.
fn print_arguments(text: &mut String, typed: bool, arguments: &[Expr]) -> Result<(), AllocError> {
    text.push('(')?;
    let mut first = true;
    'arguments: for e in arguments {
        print_comma(text, first)?;
        print_expr(text, typed, e)?;
        first = false;
    }
    text.push_str(");")
}

fn print_set(text: &mut String, typed: bool, name: &Name, e: &Expr) -> Result<(), AllocError> {
    print_name(text, name)?;
    text.push_str(" = ")?;
    print_expr(text, typed, e)?;
    text.push(';')
}

fn print_store(text: &mut String, typed: bool, place: &Expr, e: &Expr) -> Result<(), AllocError> {
    print_expr(text, typed, place)?;
    text.push_str(" := ")?;
    print_expr(text, typed, e)?;
    text.push(';')
}

fn print_target(text: &mut String, to: &Option<Name>) -> Result<(), AllocError> {
    match to {
        None => text.push_str("call "),
        Some(name) => {
            print_name(text, name)?;
            text.push_str(" = call ")
        }
    }
}

fn print_call(
    text: &mut String,
    typed: bool,
    to: &Option<Name>,
    callee: &Expr,
    arguments: &[Expr],
) -> Result<(), AllocError> {
    print_target(text, to)?;
    print_expr(text, typed, callee)?;
    print_arguments(text, typed, arguments)
}

fn print_return(text: &mut String, typed: bool, e: &Option<Expr>) -> Result<(), AllocError> {
    match e {
        None => text.push_str("return;"),
        Some(e) => {
            text.push_str("return ")?;
            print_expr(text, typed, e)?;
            text.push(';')
        }
    }
}

fn print_test(text: &mut String, typed: bool, test: &Expr) -> Result<(), AllocError> {
    text.push_str("if ")?;
    print_expr(text, typed, test)?;
    text.push(' ')
}

#[cycle(statements)]
pub(crate) fn print_stmt(text: &mut String, typed: bool, s: &Stmt) -> Result<(), AllocError> {
    match s {
        Stmt::Skip => text.push_str("skip;"),
        Stmt::Set(name, e) => print_set(text, typed, name, e),
        Stmt::Assign(place, e) => print_store(text, typed, place, e),
        Stmt::Call(to, f, arguments) => print_call(text, typed, to, f, arguments.as_slice()),
        Stmt::Seq(parts) => print_sequence(text, typed, parts.as_slice()),
        Stmt::If(test, yes, no) => {
            print_test(text, typed, test)?;
            print_stmt(text, typed, yes.get())?;
            text.push_str(" else ")?;
            print_stmt(text, typed, no.get())
        }
        Stmt::Loop(first, second) => {
            text.push_str("loop ")?;
            print_stmt(text, typed, first.get())?;
            text.push(' ')?;
            print_stmt(text, typed, second.get())
        }
        Stmt::Break => text.push_str("break;"),
        Stmt::Continue => text.push_str("continue;"),
        Stmt::Return(e) => print_return(text, typed, e),
        Stmt::Switch(e, cases) => {
            text.push_str("switch ")?;
            print_expr(text, typed, e)?;
            print_cases(text, typed, cases.as_slice())
        }
    }
}

/// The cases of a switch, in braces.
#[cycle(statements)]
fn print_cases(text: &mut String, typed: bool, cases: &[Case]) -> Result<(), AllocError> {
    text.push_str(" { ")?;
    'cases: for case in cases {
        print_label(text, case.label)?;
        print_stmt(text, typed, case.body.get())?;
        text.push(' ')?;
    }
    text.push('}')
}

fn print_label(text: &mut String, label: Option<u64>) -> Result<(), AllocError> {
    match label {
        Some(bits) => write!(text, "case {bits}: "),
        None => text.push_str("default: "),
    }
}

/// Statements in braces.
#[cycle(statements)]
fn print_sequence(text: &mut String, typed: bool, parts: &[Stmt]) -> Result<(), AllocError> {
    text.push_str("{ ")?;
    'parts: for s in parts {
        print_stmt(text, typed, s)?;
        text.push(' ')?;
    }
    text.push('}')
}

/// The body of a function, without braces around it.
pub(crate) fn print_body(text: &mut String, typed: bool, s: &Stmt) -> Result<(), AllocError> {
    match s {
        Stmt::Seq(parts) => {
            let mut first = true;
            'parts: for part in parts.as_slice() {
                if !first {
                    text.push(' ')?;
                }
                print_stmt(text, typed, part)?;
                first = false;
            }
            Ok(())
        }
        _ => print_stmt(text, typed, s),
    }
}
