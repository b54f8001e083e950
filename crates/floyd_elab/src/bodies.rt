//! Bodies of functions.
ghost use Rattle.std.specs.Prelude.{◌≡◌, ◌∷◌, IfOk, OnOk};
ghost use Rattle.floyd_text.specs.Gives.{Gives};
ghost use Rattle.floyd_cparse_trees.specs.declared.statements.CStatement.{Block};
ghost use Rattle.floyd_elab_names.specs.Refusing.{GivesWith};
ghost use Rattle.floyd_elab_statements.specs.Statements.{body as body_lem};
ghost use Rattle.floyd_elab.specs.Units.{parameter_scope, first_progress as first_progress_lem, definition, define_body as define_body_lem};
ghost use Rattle.floyd_elab.specs.Files.{top, define_function};
ghost use Rattle.floyd_elab.specs.UnitClauses.{local_names, without_tags};
ghost use Rattle.floyd_elab.specs.TableClauses.{with_parameter};

use crate::file::File;
use crate::scope::FileScope;
use floyd_clight::{Defined, Local, LocalList, StmtList};
use floyd_cparse_trees::{BlockItem, Identifier};
use floyd_ctypes::CType;
use floyd_elab_expressions::{NameList, Progress, sequence};
use floyd_elab_names::{Meaning, Names, Storage, Tags};
use floyd_elab_statements::body;
use floyd_text::Halt;
use sqlite_items::Items;
use std::alloc::{AllocError, Global};

/// Declares a parameter in the innermost scope.
fn declare(alloc: Global, names: &mut Names, parameter: &Local) -> Result<(), AllocError>
    ensures { OnOk result (names.new ≡ with_parameter parameter.now names.old) }
{
    let meaning = Meaning::Variable {
        called: parameter.name.share()?,
        ctype: parameter.ctype.share(alloc)?,
        storage: Storage::Parameter,
    };
    names.declare(alloc, &parameter.name, meaning)?;
    Ok(())
}

/// Goes into the scope of these parameters.
fn enter(alloc: Global, names: &mut Names, parameters: &[Local]) -> Result<(), AllocError>
    ensures { OnOk result (names.new ≡ parameter_scope parameters.now ∷ names.old) }
{
    names.enter()?;
    'parameters: for parameter in parameters {
        declare(alloc, names, parameter)?;
    }
    Ok(())
}

/// The names of these parameters.
fn names_of_locals(alloc: Global, parameters: &[Local]) -> Result<NameList, AllocError>
    ensures { IfOk result (λ names. names ≡ local_names parameters.now) }
{
    let mut names = NameList::new(alloc);
    'parameters: for parameter in parameters {
        names.add(&parameter.name)?;
    }
    Ok(names)
}

/// What is kept where the body of a function with these parameters begins.
fn first_progress(alloc: Global, tags: Tags, parameters: &[Local]) -> Result<Progress, AllocError>
    ensures { IfOk result (λ progress. progress ≡ first_progress_lem tags parameters.now) }
{
    Ok(Progress {
        tags,
        drawn: 0,
        names: names_of_locals(alloc, parameters)?,
        temporaries: Items::new(alloc),
        blocks: Items::new(alloc),
    })
}

/// The statements of a body, whose outermost block has one scope with the parameters.
fn body_statements(
    alloc: Global,
    names: &mut Names,
    result_type: &CType,
    parameters: &[Local],
    items: &[BlockItem],
    progress: &mut Progress,
) -> Result<StmtList, Halt>
    ensures exact { Gives (λ statements. (statements, progress.new)) result (body_lem result_type.now (parameter_scope parameters.now ∷ names.old) (Block items.now) progress.old) }
    ensures scopes { OnOk result (names.new ≡ names.old) }
{
    enter(alloc, names, parameters)?;
    let mut statements = Items::new(alloc);
    body(alloc, result_type, names, items, progress, &mut statements)?;
    names.leave();
    Ok(statements)
}

/// The statements of a body, and what was kept on the way.
fn body_of(
    alloc: Global,
    tags: Tags,
    names: &mut Names,
    result_type: &CType,
    parameters: &[Local],
    items: &[BlockItem],
) -> Result<(StmtList, Progress), Halt>
    ensures exact { Gives (λ r. r) result (body_lem result_type.now (parameter_scope parameters.now ∷ names.old) (Block items.now) (first_progress_lem tags parameters.now)) }
    ensures scopes { OnOk result (names.new ≡ names.old) }
{
    let mut progress = first_progress(alloc, tags, parameters)?;
    let statements = body_statements(alloc, names, result_type, parameters, items, &mut progress)?;
    Ok((statements, progress))
}

/// The statements of a body in this file, and what was kept on the way. The structs of the file are kept there.
fn body_in(
    alloc: Global,
    file: &mut File,
    result_type: &CType,
    parameters: &[Local],
    items: &[BlockItem],
) -> Result<(StmtList, Progress), Halt>
    ensures exact { Gives (λ r. r) result (body_lem result_type.now (parameter_scope parameters.now ∷ top file.old) (Block items.now) (first_progress_lem file.old.tags parameters.now)) }
    ensures file { OnOk result (file.new ≡ without_tags file.old) }
{
    let mut names = file.take_names(alloc)?;
    let tags = file.take_tags(alloc);
    let done = body_of(alloc, tags, &mut names, result_type, parameters, items)?;
    file.scope = FileScope::of(names);
    Ok(done)
}

/// Puts a function with this body behind the others, and the structs back.
fn define(
    file: &mut File,
    i: Identifier,
    result_type: CType,
    parameters: LocalList,
    statements: StmtList,
    progress: Progress,
) -> Result<(), AllocError>
    ensures { OnOk result (file.new ≡ define_function (definition i result_type parameters statements progress) (record file.old { tags = progress.tags })) }
{
    let (tags, temporaries, blocks) = progress.into_parts();
    file.tags = tags;
    file.bodies.add(Defined {
        name: i.name.share()?,
        place: i.place,
        result: result_type,
        parameters,
        blocks,
        temporaries,
        body: sequence(statements),
    })
}

/// Defines a function with its body.
pub(crate) fn define_body(
    alloc: Global,
    file: &mut File,
    i: Identifier,
    result_type: CType,
    parameters: LocalList,
    items: &[BlockItem],
) -> Result<(), Halt>
    ensures { GivesWith (λ u. u) result file.new (define_body_lem i result_type parameters (Block items.now) file.old) }
{
    let done = body_in(alloc, file, &result_type, parameters.as_slice(), items)?;
    let (statements, progress) = done;
    define(file, i, result_type, parameters, statements, progress)?;
    Ok(())
}
