use floyd_ctypes::CType;
use std::alloc::Global;

/// What is the same all through a function: the allocator, and the type of its result.
#[derive(Clone, Copy)]
pub(crate) struct Function<'a> {
    pub(crate) alloc: Global,
    pub(crate) result_type: &'a CType,
}
