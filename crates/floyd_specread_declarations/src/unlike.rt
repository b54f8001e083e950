//! Types that are unlike those of a function.
ghost use Rattle.std.specs.Prelude.{◌≡◌, IfOk, Some};
ghost use Rattle.floyd_specread_declarations.specs.Judging as specs;
ghost use Rattle.floyd_specread_declarations.specs.UnlikeClauses as clauses;

use floyd_assert_trees::Table;
use floyd_specread_sources::{Prototype, same_type, same_types};
use floyd_text::{Halt, Name};
use floyd_tree::AType;
use std::alloc::AllocError;

/// Whether the types are those.
fn is_same(types: &Prototype, params: &[AType], ty: &AType) -> bool
    ensures { clauses.Decides result (specs.prototype_with params.now ty.now ≡ types.now) }
{
    same_types(types.params.as_slice(), params) && same_type(&types.result, ty)
}

/// Whether the types are unlike those of the function of that name, if there is one.
pub(crate) fn is_unlike(
    functions: &Table<Prototype>,
    name: &Name,
    params: &[AType],
    ty: &AType,
) -> bool
    ensures { clauses.Decides result (specs.Differs functions.now name.now (Some (specs.prototype_with params.now ty.now))) }
{
    match functions.get(name) {
        Some(types) => !is_same(types, params, ty),
        None => false,
    }
}

/// The same of types that were read all the same; those that were not are not unlike.
pub(crate) fn typed_is_unlike(
    functions: &Table<Prototype>,
    name: &Name,
    typed: &Result<(Prototype, u32), Halt>,
) -> Result<bool, AllocError>
    ensures { IfOk result (clauses.TypedUnlike functions.now name.now typed.now) }
{
    match typed {
        Ok((types, _)) => Ok(is_unlike(functions, name, types.params.as_slice(), &types.result)),
        Err(Halt::Refused(_)) => Ok(false),
        Err(Halt::Memory) => Err(AllocError),
    }
}
