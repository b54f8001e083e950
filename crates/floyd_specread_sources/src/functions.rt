//! Functions of a source by their names.
ghost use Rattle.std.specs.Prelude.{◌≡◌, [], IfOk, OnOk};
ghost use Rattle.floyd_specread_sources.specs.Sources as specs;

use crate::tables::put_new;
use crate::types::{literal_type, literal_types};
use floyd_assert_trees::{Table, TypeList};
use floyd_clight::Declared;
use floyd_tree::AType;
use std::alloc::{AllocError, Global};

/// The types of a function, whose array sizes are terms.
pub struct Prototype {
    pub params: TypeList,
    pub result: AType,
}

impl Drop for Prototype {
    fn drop(self) {
        let Prototype { params, result } = self;
        drop(params);
        drop(result);
    }
}

fn prototype_of(alloc: Global, function: &Declared) -> Result<Prototype, AllocError>
    ensures { IfOk result (λ p. p ≡ specs.prototype_of function.now) }
{
    let params = literal_types(alloc, function.parameters.as_slice())?;
    let result = literal_type(alloc, &function.result)?;
    Ok(Prototype { params, result })
}

fn put_prototype(
    alloc: Global,
    table: &mut Table<Prototype>,
    function: &Declared,
) -> Result<(), AllocError>
    ensures { OnOk result (table.new ≡ specs.with_prototype function.now table.old) }
{
    let prototype = prototype_of(alloc, function)?;
    let name = function.name.share()?;
    put_new(table, name, prototype)
}

/// The types of the functions that a source declares.
pub fn prototypes_of(alloc: Global, functions: &[Declared]) -> Result<Table<Prototype>, AllocError>
    ensures { IfOk result (λ table. table ≡ specs.with_prototypes functions.now []) }
{
    let mut table = Table::new(alloc);
    let mut rest = functions;
    'functions: while let Some((function, more)) = rest.split_first() {
        put_prototype(alloc, &mut table, function)?;
        rest = more;
    }
    Ok(table)
}
