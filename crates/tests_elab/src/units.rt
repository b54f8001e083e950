//! Units of Clight as short text.
use crate::printing::{kind_word, print_body, print_comma, print_name, print_type, print_types};
use floyd_clight::{ClightUnit, Declared, Defined, Initial, Local, StructDef, Variable};
use floyd_ctypes::CType;
use floyd_text::{Name, Place};
use std::alloc::AllocError;
use std::fmt::Write;

/// A name and its type.
fn print_typed(text: &mut String, name: &Name, t: &CType) -> Result<(), AllocError> {
    print_name(text, name)?;
    text.push(' ')?;
    print_type(text, t)
}

fn print_struct(text: &mut String, s: &StructDef) -> Result<(), AllocError> {
    text.push_str("struct ")?;
    print_name(text, &s.tag)?;
    text.push_str(" {")?;
    let mut first = true;
    'fields: for field in s.fields.as_slice() {
        print_comma(text, first)?;
        print_typed(text, &field.name, &field.ty)?;
        first = false;
    }
    text.push_str("}; ")
}

#[cycle(contents)]
fn print_initial(text: &mut String, contents: &Initial) -> Result<(), AllocError> {
    match contents {
        Initial::Absent => text.push_str("zero"),
        Initial::Int(kind, bits) => write!(text, "{} {bits}", kind_word(*kind)),
        Initial::Null => text.push_str("null"),
        Initial::Address(name) => {
            text.push('&')?;
            print_name(text, name)
        }
        Initial::Element(name, offset) => {
            text.push('&')?;
            print_name(text, name)?;
            write!(text, "+{offset}")
        }
        Initial::Parts(parts) => print_parts(text, parts.as_slice()),
    }
}

/// Contents in braces.
#[cycle(contents)]
fn print_parts(text: &mut String, parts: &[Initial]) -> Result<(), AllocError> {
    text.push('{')?;
    let mut first = true;
    'parts: for part in parts {
        print_comma(text, first)?;
        print_initial(text, part)?;
        first = false;
    }
    text.push('}')
}

fn print_variable(text: &mut String, v: &Variable) -> Result<(), AllocError> {
    print_typed(text, &v.name, &v.ctype)?;
    if let Some(contents) = &v.contents {
        text.push_str(" = ")?;
        print_initial(text, contents)?;
    }
    text.push_str("; ")
}

/// A function that is declared: its name, its result and its parameters.
fn print_declared(text: &mut String, f: &Declared) -> Result<(), AllocError> {
    print_typed(text, &f.name, &f.result)?;
    print_types(text, f.parameters.as_slice())?;
    text.push_str("; ")
}

/// Variables of a function, between two marks.
fn print_locals(
    text: &mut String,
    open: char,
    locals: &[Local],
    close: char,
) -> Result<(), AllocError> {
    text.push(open)?;
    let mut first = true;
    'locals: for local in locals {
        print_comma(text, first)?;
        print_typed(text, &local.name, &local.ctype)?;
        first = false;
    }
    text.push(close)
}

/// A function with a body: its result, its parameters, its blocks, its other temporaries, and its body.
pub(crate) fn print_defined(text: &mut String, f: &Defined) -> Result<(), AllocError> {
    print_typed(text, &f.name, &f.result)?;
    print_locals(text, '(', f.parameters.as_slice(), ')')?;
    print_locals(text, '[', f.blocks.as_slice(), ']')?;
    print_locals(text, '<', f.temporaries.as_slice(), '>')?;
    text.push(' ')?;
    print_body(text, false, &f.body)
}

/// All of a unit but its places, each part with `;` behind it.
pub(crate) fn print_unit(text: &mut String, unit: &ClightUnit) -> Result<(), AllocError> {
    'structs: for s in unit.structs.as_slice() {
        print_struct(text, s)?;
    }
    'variables: for v in unit.variables.as_slice() {
        print_variable(text, v)?;
    }
    'declared: for f in unit.declared.as_slice() {
        print_declared(text, f)?;
    }
    'defined: for f in unit.defined.as_slice() {
        print_defined(text, f)?;
        text.push(' ')?;
    }
    Ok(())
}

/// A name with its place.
fn print_place(text: &mut String, name: &Name, place: Place) -> Result<(), AllocError> {
    print_name(text, name)?;
    write!(text, " {}:{}:{}; ", place.file, place.line, place.column)
}

/// The places of a unit: of structs, variables, declared functions and functions with a body.
pub(crate) fn print_places(text: &mut String, unit: &ClightUnit) -> Result<(), AllocError> {
    'structs: for s in unit.structs.as_slice() {
        print_place(text, &s.tag, s.place)?;
    }
    'variables: for v in unit.variables.as_slice() {
        print_place(text, &v.name, v.place)?;
    }
    'declared: for f in unit.declared.as_slice() {
        print_place(text, &f.name, f.place)?;
    }
    'defined: for f in unit.defined.as_slice() {
        print_place(text, &f.name, f.place)?;
    }
    Ok(())
}
