use crate::bytes::Bytes;
use crate::name::Name;

/// A file of a shelf: its name and its bytes.
#[derive(Debug, Drop)]
pub struct NamedFile {
    pub name: Name,
    pub bytes: Bytes,
}
