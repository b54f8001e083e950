ghost use Rattle.std.specs.Prelude.{◌≡◌};
ghost use Rattle.floyd_text.specs.Gives.{Gives};
ghost use Rattle.floyd_check.specs.Loading as spec;
ghost use Rattle.floyd_text.specs.Place as place_spec;

use floyd_check_project::{ModuleList, read_project};
use floyd_text::{Code, Halt, Place, Refusal, Shown};
use std::alloc::Global;

/// The first place of a file.
pub fn first_place(file: u32) -> Place
    ensures { result ≡ place_spec.first_place file }
{
    Place {
        file,
        line: 1,
        column: 1,
    }
}

/// The modules of a project file: its own refusals (103), and 199 at its first byte where it has more modules than are
/// built now.
pub fn modules_of(alloc: Global, project: &[u8]) -> Result<ModuleList, Halt>
    ensures exact { Gives (λ ms. ms) result (spec.modules_of project.now) }
{
    let modules = read_project(alloc, project)?;
    if modules.len() > 1 {
        return Err(Halt::Refused(Refusal::at(Code::NotBuilt, first_place(0), Shown::Nothing)));
    }
    Ok(modules)
}
