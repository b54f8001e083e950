//! A project file, read line by line.
ghost use Rattle.std.specs.Prelude.{◌≡◌, ◌≤◌, length, Err};
ghost use Rattle.floyd_text.specs.Gives.{Gives};
ghost use Rattle.floyd_check_project.specs.Project.{bad_project, project_of};

use crate::draft::Expected;
use crate::line::line_end;
use crate::module::ModuleList;
use floyd_text::{Code, Halt, Refusal, Shown, place_of};
use sqlite_items::Items;
use std::alloc::Global;

/// Reads a project file: for each module the four lines `module NAME`, `source FILE`, `spec FILE` and `script FILE`,
/// with blank lines and lines that begin with `#` between them as one likes. The form is our own.
///
/// A refusal is that the file has another form: code 103, at the first line that is not what was expected, or at the
/// end of the file, or at its first byte where it has no module. The project file has the number 0.
pub fn read_project(alloc: Global, bytes: &[u8]) -> Result<ModuleList, Halt>
    ensures exact { Gives (λ ms. ms) result (project_of bytes.now) }
{
    let mut modules = Items::new(alloc);
    let mut expected = Expected::AModule;
    let mut at = 0;
    'lines: while at <= bytes.len() {
        let end = line_end(bytes, at);
        expected = match expected.after_any_line(alloc, &mut modules, at, &bytes[at..end])? {
            Some(next) => next,
            None => return Err(Halt::Refused(bad_project(bytes, at))),
        };
        at = end + 1;
    }
    match expected.at_end(bytes.len(), modules) {
        Ok(modules) => Ok(modules),
        Err(at) => Err(Halt::Refused(bad_project(bytes, at))),
    }
}

/// The refusal at this offset.
fn bad_project(bytes: &[u8], at: usize) -> Refusal
    requires { at ≤ length bytes.now }
    ensures { bad_project bytes.now (Err at) ≡ Err result }
{
    Refusal::at(Code::BadProject, place_of(0, bytes, at), Shown::Nothing)
}
