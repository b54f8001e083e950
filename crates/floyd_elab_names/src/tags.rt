use floyd_cparse_trees::Identifier;
use floyd_ctypes::StructTable;
use sqlite_items::Items;

/// The structs that a file has mentioned so far, and where each one was completed, in that order.
pub struct Tags {
    pub structs: StructTable,
    pub completed: Items<Identifier>,
}

impl Drop for Tags {
    fn drop(self) {
        let Tags { structs, completed } = self;
        drop(structs);
        drop(completed);
    }
}
