ghost use Rattle.std.specs.Prelude.{◌≡◌, ◌+◌, ◌≤◌, IfOk, Ok, true, length, map, All, ◌∷◌};
ghost use Rattle.std.specs.List.{flat_map, sum_by};
ghost use Rattle.floyd_check.specs.Loading.{files_of, max_files, named_at};
ghost use Rattle.floyd_text.specs.Outside.{max_file};
ghost use Rattle.floyd_text.specs.Place.{first_place, place_at};
ghost use Rattle.floyd_text.specs.Refusals.{refusal_at};
ghost use Rattle.floyd_text.specs.declared.refusal.Halt.TheVariants.{Refused};
ghost use Rattle.floyd_text.specs.declared.refusal.Shown.TheVariants.{Nothing};
ghost use Rattle.floyd_check_project.specs.declared.module.FileName.{FileName};
ghost use Rattle.floyd_cli.specs.LoadClauses.{AreNamed, HasBytes, Loads, ReadsFile, ReadsNext, ReadsFiles};
ghost use Rattle.floyd_check_project.specs.Lines.{is_file_name};

use floyd_check::{FileList, modules_of};
use floyd_check_project::{FileName, Module};
use floyd_text::{
    Bytes, Code, Halt, Name, Place, ReadStop, Refusal, Shelf, Shown, place_of, read_file,
};
use sqlite_items::Items;
use std::alloc::{AllocError, Global};

/// The greatest number of bytes of all files but the project.
const MAX_FILES: u64 = 16777216;

/// Names in the order of the files.
pub type NameList = Items<Name>;

/// The bytes of the files of a project, and the names of the project and of its files.
#[derive(Debug)]
pub struct Loaded {
    pub files: FileList,
    pub names: NameList,
}

impl Drop for Loaded {
    fn drop(self) {
        let Loaded { files, names } = self;
        drop(files);
        drop(names);
    }
}

/// Why a project was not loaded.
#[derive(Debug)]
pub enum LoadStop {
    /// It is refused, or memory ran out.
    Halted(Halt),
    /// A file could not be read.
    Fault,
}

impl Drop for LoadStop {
    fn drop(self) {
        match self {
            LoadStop::Halted(halt) => drop(halt),
            LoadStop::Fault => {}
        }
    }
}

impl From<AllocError> for LoadStop {
    ghost use Rattle.floyd_cli.specs.declared.load.LoadStop.TheVariants.{Halted};
    ghost use Rattle.floyd_text.specs.declared.refusal.Halt.TheVariants.{Memory};

    ghost from_gives = { λ _ e. e ≡ Halted Memory };

    fn from(_error: AllocError) -> LoadStop {
        LoadStop::Halted(Halt::Memory)
    }
}

/// The refusal of a file that is named in the project file at this offset.
fn file_refused(code: Code, project: &[u8], at: usize) -> LoadStop
    ensures { result ≡ LoadStop.Halted (Refused (refusal_at code (place_at 0 project.now at) Nothing)) }
{
    let place = place_of(0, project, at.min(project.len()));
    LoadStop::Halted(Halt::Refused(Refusal::at(code, place, Shown::Nothing)))
}

/// The bytes of the file of that name, which these bytes of the project file name at this offset. Its place is made only
/// for a refusal.
#[tactic(auto, using(crate::proofs::LoadLemmas::has_bytes, crate::proofs::LoadLemmas::has_missing, crate::proofs::LoadLemmas::has_large))]
fn read_at<H: Shelf>(
    alloc: Global,
    shelf: &mut H,
    name: &str,
    project: &[u8],
    at: usize,
) -> Result<Bytes, LoadStop>
    ensures gives { ReadsFile (H.held shelf.old) (place_at 0 project.now at) name.now (H.faults shelf.old) (H.faults shelf.new) result }
    ensures small { IfOk result (λ bytes. length bytes ≤ max_file) }
    ensures held { H.held shelf.new ≡ H.held shelf.old }
    ensures later { H.faults shelf.old ≤ H.faults shelf.new }
{
    match read_file(alloc, shelf, name) {
        Ok(bytes) => Ok(bytes),
        Err(ReadStop::Missing) => Err(file_refused(Code::MissingFile, project, at)),
        Err(ReadStop::TooLarge) => Err(file_refused(Code::FileTooLarge, project, at)),
        Err(ReadStop::Fault) => Err(LoadStop::Fault),
        Err(ReadStop::Memory) => Err(LoadStop::Halted(Halt::Memory)),
    }
}

/// The bytes of a file that the project names.
#[tactic(auto, using(crate::proofs::LoadLemmas::is_utf8))]
fn read_named<H: Shelf>(
    alloc: Global,
    shelf: &mut H,
    project: &[u8],
    file: &FileName,
) -> Result<Bytes, LoadStop>
    requires { is_file_name file.now.name ≡ true }
    ensures gives { ReadsFile (H.held shelf.old) (named_at project.now file.now) file.now.name (H.faults shelf.old) (H.faults shelf.new) result }
    ensures small { IfOk result (λ bytes. length bytes ≤ max_file) }
    ensures held { H.held shelf.new ≡ H.held shelf.old }
    ensures later { H.faults shelf.old ≤ H.faults shelf.new }
{
    let Ok(name) = str::from_utf8(file.name.as_slice()) else {
        unreachable!()
    };
    read_at(alloc, shelf, name, project, file.at)
}

/// The bytes of the next file of a project, where those before it have so many bytes.
#[tactic(auto, using(crate::proofs::LoadLemmas::next_within, crate::proofs::LoadLemmas::next_beyond, crate::proofs::LoadLemmas::next_refused))]
fn read_next<H: Shelf>(
    alloc: Global,
    shelf: &mut H,
    project: &[u8],
    total: u64,
    file: &FileName,
) -> Result<Bytes, LoadStop>
    requires named { is_file_name file.now.name ≡ true }
    requires small { total ≤ 16777216 }
    ensures gives { ReadsNext (H.held shelf.old) project.now total file.now (H.faults shelf.old) (H.faults shelf.new) result }
    ensures small { IfOk result (λ bytes. length bytes ≤ max_file) }
    ensures within { IfOk result (λ bytes. total + length bytes ≤ 16777216) }
    ensures held { H.held shelf.new ≡ H.held shelf.old }
    ensures later { H.faults shelf.old ≤ H.faults shelf.new }
{
    let bytes = read_named(alloc, shelf, project, file)?;
    if bytes.len() as u64 > MAX_FILES - total {
        return Err(file_refused(Code::ProjectTooLarge, project, file.at));
    }
    Ok(bytes)
}

/// The bytes of these files of a project.
fn read_files<H: Shelf>(
    alloc: Global,
    shelf: &mut H,
    project: &[u8],
    named: &[FileName],
) -> Result<FileList, LoadStop>
    requires { AreNamed named.now }
    ensures gives { ReadsFiles (H.held shelf.old) project.now named.now (H.faults shelf.old) (H.faults shelf.new) result }
    ensures len { IfOk result (λ files. length files ≡ length named.now) }
    ensures small { IfOk result (All (λ bytes. length bytes ≤ max_file)) }
    ensures all_small { IfOk result (λ files. sum_by length files ≤ max_files) }
    ensures held { H.held shelf.new ≡ H.held shelf.old }
    ensures later { H.faults shelf.old ≤ H.faults shelf.new }
{
    let mut files = FileList::new(alloc);
    let mut total = 0;
    'file: for file in named {
        let bytes = read_next(alloc, shelf, project, total, file)?;
        total += bytes.len() as u64;
        files.push(bytes)?;
    }
    Ok(files)
}

/// The same name of a file again.
fn copy_of(file: &FileName) -> Result<FileName, AllocError>
    ensures { IfOk result (λ f. f ≡ file.now) }
{
    Ok(FileName {
        name: file.name.share()?,
        at: file.at,
    })
}

/// The files of the modules in order.
fn files_of(alloc: Global, modules: &[Module]) -> Result<Items<FileName>, AllocError>
    ensures { IfOk result (λ fs. fs ≡ flat_map files_of modules.now) }
{
    let mut files = Items::new(alloc);
    'module: for module in modules {
        files.push(copy_of(&module.source)?)?;
        files.push(copy_of(&module.spec)?)?;
        files.push(copy_of(&module.script)?)?;
    }
    Ok(files)
}

/// The names of the project and of its files, by their numbers.
fn names_of(alloc: Global, name: &str, files: &[FileName]) -> Result<NameList, AllocError>
    ensures { IfOk result (λ names. names ≡ name.now ∷ map (λ (f : FileName). f.name) files.now) }
{
    let mut names = NameList::new(alloc);
    names.push(Name::from_slice(alloc, name.as_bytes())?)?;
    'file: for file in files {
        names.push(file.name.share()?)?;
    }
    Ok(names)
}

/// Reads the files of the project of that name, which has these bytes.
fn load_files<H: Shelf>(
    alloc: Global,
    shelf: &mut H,
    name: &str,
    project: &[u8],
) -> Result<Loaded, LoadStop>
    requires { HasBytes (H.held shelf.old) (first_place 0) name.now (Ok project.now) }
    ensures gives { Loads (H.held shelf.old) name.now (H.faults shelf.old) (H.faults shelf.new) result }
    ensures len { IfOk result (λ loaded. length loaded.files ≡ 3) }
    ensures small { IfOk result (λ loaded. All (λ bytes. length bytes ≤ max_file) loaded.files) }
    ensures held { H.held shelf.new ≡ H.held shelf.old }
    ensures later { H.faults shelf.old ≤ H.faults shelf.new }
{
    let modules = match modules_of(alloc, project) {
        Ok(modules) => modules,
        Err(halt) => return Err(LoadStop::Halted(halt)),
    };
    let named = files_of(alloc, modules.as_slice())?;
    let names = names_of(alloc, name, named.as_slice())?;
    match read_files(alloc, shelf, project, named.as_slice()) {
        Ok(files) => Ok(Loaded { files, names }),
        Err(stop) => Err(stop),
    }
}

/// Reads a project and its files, in the order of the project file. The first file that is missing or too large stops
/// it: 101 or 102 at the file's name in the project file, 104 where all files together are too large, 103 where the
/// project file does not read; a refusal of the project itself stands at its first place.
pub fn load<H: Shelf>(alloc: Global, shelf: &mut H, name: &str) -> Result<Loaded, LoadStop>
    ensures gives { Loads (H.held shelf.old) name.now (H.faults shelf.old) (H.faults shelf.new) result }
    ensures len { IfOk result (λ loaded. length loaded.files ≡ 3) }
    ensures small { IfOk result (λ loaded. All (λ bytes. length bytes ≤ max_file) loaded.files) }
    ensures held { H.held shelf.new ≡ H.held shelf.old }
    ensures later { H.faults shelf.old ≤ H.faults shelf.new }
{
    match read_at(alloc, shelf, name, b"".as_slice(), 0) {
        Ok(project) => load_files(alloc, shelf, name, project.as_slice()),
        Err(stop) => Err(stop),
    }
}
