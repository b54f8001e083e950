use floyd_text::Bytes;
use sqlite_items::Items;

/// The bytes of a project: those of the project file, and then those of its files in order.
pub type FileList = Items<Bytes>;
