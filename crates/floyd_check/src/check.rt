ghost use Rattle.std.specs.Prelude.{◌≡◌, ◌≤◌, length, All};
ghost use Rattle.floyd_text.specs.Outside.{max_file};
ghost use Rattle.floyd_check.specs.Checked.{Checks, ChecksThree};
ghost use Rattle.floyd_check.specs.CheckedClauses.{ChecksModule};
ghost use Rattle.floyd_check.specs.Verdict.{AreFiles};

use crate::files::FileList;
use crate::modules::modules_of;
use crate::reading::{in_file, script_in, source_in, spec_in};
use floyd_stub_soundness::{Accepted, MainProgram, accept};
use floyd_text::{Bytes, Halt, Name};
use std::alloc::Global;

/// Judges the three files of the one module of a project: its source, its specification and its script.
fn check_module(
    alloc: Global,
    project: &Name,
    source: &[u8],
    spec: &[u8],
    script: &[u8],
) -> Result<Accepted, Halt>
    requires source { length source.now ≤ max_file }
    requires spec { length spec.now ≤ max_file }
    requires script { length script.now ≤ max_file }
    ensures { ChecksModule project.now source.now spec.now script.now result }
{
    let statements = in_file(1, source_in(alloc, source))?;
    let value = in_file(2, spec_in(alloc, spec))?;
    let proof = in_file(3, script_in(alloc, script))?;
    let program = MainProgram { statements, value };
    in_file(3, accept(alloc, project, program, &proof))
}

/// Judges the files of the one module of the project of that name, whose bytes are given within their limits: those of
/// its source, its specification and its script. The answers are those of `check_bytes` behind the project file.
pub fn check_files(alloc: Global, project: &Name, files: &[Bytes]) -> Result<Accepted, Halt>
    requires len { length files.now ≡ 3 }
    requires small { All (λ bytes. length bytes ≤ max_file) files.now }
    ensures { ChecksThree project.now files.now result }
{
    check_module(
        alloc,
        project,
        files[0].as_slice(),
        files[1].as_slice(),
        files[2].as_slice(),
    )
}

/// Judges the project of that name, whose bytes and files are given within their limits: the project file first, and
/// then the three files of its module in order. The first refusal in the order of the files is the answer: those of the
/// project file (103, and 199 for a second module); those of the tokens of a source, a specification or a script (201 to
/// 205), of a source then those of its grammar (301 to 304) and of its elaboration (303, 401 to 405), each followed by
/// 199 where it is not of the form that is built; and those of the proof of `main` (610, 611, and what its commands refuse).
///
/// Where it answers Ok, the program that the files stand for is sound.
pub fn check_bytes(alloc: Global, project: &Name, files: &FileList) -> Result<Accepted, Halt>
    requires { AreFiles files.now }
    ensures { Checks project.now files.now result }
{
    let Some((bytes, others)) = files.as_slice().split_first() else {
        unreachable!()
    };
    modules_of(alloc, bytes.as_slice())?;
    check_files(alloc, project, others)
}
