//! The types of C expressions.
#![tactic(auto)]

mod constants;
mod env;
mod judge;
mod kinds;
mod labels;
mod operand;
mod operations;
mod operators;
mod walk;

pub use constants::constant_bits;
pub use env::{Env, type_of};
pub use judge::{
    address_type, binary_type, common_type, dereference_type, element_type, fits_into, is_cast,
    is_stepped, is_target, is_test, not_type, sign_type,
};
pub use kinds::{promote, usual};
pub use labels::{Labels, switch_kind};
pub use operand::{Operand, Standing};
pub use operations::{
    cast_to, check_test, gives_object, gives_value, member, name_operand, nested_assignment,
    nested_call, nested_step, prefix_operator, standing_of,
};
pub use operators::number_of;
pub use walk::sized_type;
