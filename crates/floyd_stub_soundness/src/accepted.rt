ghost use Rattle.std.specs.Prelude.{◌≡◌, ◌∷◌, [], ◌≤◌, length, IfOk, codes};
ghost use Rattle.floyd_text.specs.Gives.{Gives};
ghost use Rattle.floyd_stub_goal.specs.Starts.{main_start};
ghost use Rattle.floyd_stub_play.specs.Derivation.{played};
ghost use Rattle.floyd_stub_soundness.specs.Programs.{accepted, spec_of as spec_of_lem, IsAccepted};

use crate::program::{MainProgram, shared_statements, spec_of};
use floyd_stub_goal::{Proof, start_goal};
use floyd_stub_play::play;
use floyd_text::{Halt, Name};
use sqlite_items::Items;
use std::alloc::{AllocError, Global};
use std::marker::Model;

/// Names in the order of the project.
pub type NameList = Items<Name>;

/// A project that was accepted. Each has a program that is sound.
pub struct Accepted {
    project: Name,
    proved: NameList,
    program: MainProgram,
}

impl Model for Accepted {
    ghost use Rattle.floyd_stub_soundness.specs.Programs.{Acceptance, IsAccepted};
    ghost use Rattle.floyd_stub_soundness.specs.contracts.program.MainProgram as p;
    ghost use Rattle.std.specs.Coded.{codes};

    ghost Value = { Acceptance };

    ghost coded = { Prim.hlevel (codes, p.the_row.coded) };

    ghost view = { λ a. record { project = a.project; proved = a.proved; program = a.program } };

    ghost invariant = { λ a. IsAccepted (record { project = a.project; proved = a.proved; program = a.program }) };
}

impl Drop for Accepted {
    fn drop(self) {
        let Accepted {
            project,
            proved,
            program,
        } = self;
        drop(project);
        drop(proved);
        drop(program);
    }
}

impl Accepted {
    /// The name of the project.
    pub fn project(&self) -> &Name
        ensures { result.now ≡ self.now.project }
    {
        &self.project
    }

    /// The functions that were proved, in the order of the project.
    pub fn proved(&self) -> &[Name]
        ensures is { result.now ≡ self.now.proved }
        ensures accepted { IsAccepted self.now }
    {
        self.proved.as_slice()
    }
}

/// Accepts a project of that name where the proof of its main plays through, and refuses it as the play does.
pub fn accept(
    alloc: Global,
    project: &Name,
    program: MainProgram,
    proof: &Proof,
) -> Result<Accepted, Halt>
    requires few { length proof.now.commands ≤ 1000000 }
    ensures exact { Gives (λ a. tt) result (played proof.now (main_start program.statements (spec_of_lem program.value))) }
    ensures is { IfOk result (λ a. a ≡ accepted project.now program) }
    ensures sound { IfOk result IsAccepted }
{
    let start = start_goal(
        alloc,
        shared_statements(alloc, program.statements.as_slice())?,
        spec_of(alloc, program.value)?,
    )?;
    play(alloc, proof, start)?;
    Ok(Accepted {
        project: project.share()?,
        proved: only_main(alloc)?,
        program,
    })
}

/// The name of the function that a program begins with, alone.
fn only_main(alloc: Global) -> Result<NameList, AllocError>
    ensures { IfOk result (λ names. names ≡ codes "main" ∷ []) }
{
    let mut names = NameList::new(alloc);
    names.push(Name::from_slice(alloc, "main".as_bytes())?)?;
    Ok(names)
}
