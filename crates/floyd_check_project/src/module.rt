use floyd_text::Name;
use sqlite_items::Items;

/// The name of a file, and the offset in the project file at which that name stands.
#[derive(Debug)]
pub struct FileName {
    pub name: Name,
    pub at: usize,
}

impl Drop for FileName {
    fn drop(self) {
        let FileName { name, at: _ } = self;
        drop(name);
    }
}

/// A module: its name, and its source, its specification and its script.
#[derive(Debug)]
pub struct Module {
    pub name: Name,
    pub source: FileName,
    pub spec: FileName,
    pub script: FileName,
}

impl Drop for Module {
    fn drop(self) {
        let Module {
            name,
            source,
            spec,
            script,
        } = self;
        drop(name);
        drop(source);
        drop(spec);
        drop(script);
    }
}

/// The modules of a project in the order of its file.
pub type ModuleList = Items<Module>;
