//! What names stand for, and the types that declarators declare.
#![tactic(auto)]

mod declarators;
mod declared;
mod fields;
mod limits;
mod meaning;
mod names;
mod refusals;
mod site;
mod specifiers;
mod tags;
mod types;
mod wraps;

pub use declarators::{is_bare, limit_site, name_of, name_or_none, name_site};
pub use limits::{is_object_type, is_object_within, is_parameter_type, is_within};
pub use meaning::{Meaning, Storage};
pub use names::Names;
pub use refusals::{bad_cast, ill_typed, left_out, nested_effect, redeclared, undeclared};
pub use site::Site;
pub use specifiers::{base_type, declarator_type, type_named};
pub use tags::Tags;
pub use types::{
    decay, has_size, is_aggregate, is_function, is_scalar, is_void, pointee, pointer_to,
    returns_well, same_type, tag_of,
};
