//! The module that is being read.
ghost use Rattle.std.specs.Prelude.{◌≡◌, ◌<◌, ◌^◌, length, bytes_eq, option_copied, IfOk, if◌then◌else◌, ◌||◌, Some};
ghost use Rattle.std.specs.List.{list_any};
ghost use Rattle.std.specs.Option.{option_map};
ghost use Rattle.floyd_check_project.specs.declared.module.Module.{Module};
ghost use Rattle.floyd_check_project.specs.Lines.{is_blank, is_comment};
ghost use Rattle.floyd_check_project.specs.Project.{may_begin, new_module, file_if, after_line, at_end};

use crate::line::{
    is_blank, is_comment, is_file_name, is_identifier, module_name, script_name, source_name,
    spec_name,
};
use crate::module::{FileName, Module, ModuleList};
use floyd_text::Name;
use std::alloc::{AllocError, Global};

/// What the next line that is neither blank nor a comment has to be.
pub enum Expected {
    AModule,
    ASource(Name),
    ASpec(Name, FileName),
    AScript(Name, FileName, FileName),
}

impl Drop for Expected {
    fn drop(self) {
        match self {
            Expected::AModule => {}
            Expected::ASource(name) => drop(name),
            Expected::ASpec(name, file_name) => {
                drop(name);
                drop(file_name);
            }
            Expected::AScript(first, second, third) => {
                drop(first);
                drop(second);
                drop(third);
            }
        }
    }
}

fn has_module(modules: &[Module], name: &[u8]) -> bool
    ensures { result ≡ list_any (λ (m : Module). bytes_eq m.name name.now) modules.now }
{
    modules.iter().any(|m| m.name.as_slice() == name)
}

fn may_begin(modules: &[Module], name: &[u8]) -> bool
    ensures { result ≡ may_begin modules.now name.now }
{
    is_identifier(name) && !has_module(modules, name) && modules.len() < 64
}

fn new_module(
    alloc: Global,
    modules: &[Module],
    name: Option<&[u8]>,
) -> Result<Option<Expected>, AllocError>
    ensures { IfOk result (λ next. option_map (λ e. (e, modules.now)) next ≡ new_module modules.now (option_copied name.entry)) }
{
    match name {
        Some(name) => {
            if may_begin(modules, name) {
                Ok(Some(Expected::ASource(Name::from_slice(alloc, name)?)))
            } else {
                Ok(None)
            }
        }
        None => Ok(None),
    }
}

fn file_if(alloc: Global, at: usize, name: Option<&[u8]>) -> Result<Option<FileName>, AllocError>
    ensures { IfOk result (λ file. file ≡ file_if at (option_copied name.entry)) }
{
    match name {
        Some(name) => {
            if is_file_name(name) {
                Ok(Some(FileName {
                    name: Name::from_slice(alloc, name)?,
                    at,
                }))
            } else {
                Ok(None)
            }
        }
        None => Ok(None),
    }
}

impl Expected {
    /// Takes any line. The answer is what is expected next, or none where the line is not what was expected.
    pub fn after_any_line(
        self,
        alloc: Global,
        modules: &mut ModuleList,
        at: usize,
        line: &[u8],
    ) -> Result<Option<Expected>, AllocError>
        requires { at < 2 ^ 63 }
        ensures { IfOk result (λ next. option_map (λ e. (e, modules.new)) next
            ≡ (if is_blank line.now || is_comment line.now then Some (self, modules.old)
            else after_line self modules.old (record { at = at; bytes = line.now }))) }
    {
        if is_blank(line) || is_comment(line) {
            Ok(Some(self))
        } else {
            self.after_line(alloc, modules, at, line)
        }
    }

    /// Takes a line that is neither blank nor a comment, where it is what was expected. A module that ends with it is put
    /// to the others.
    fn after_line(
        self,
        alloc: Global,
        modules: &mut ModuleList,
        at: usize,
        line: &[u8],
    ) -> Result<Option<Expected>, AllocError>
        requires { at < 2 ^ 63 }
        ensures { IfOk result (λ next. option_map (λ e. (e, modules.new)) next
            ≡ after_line self modules.old (record { at = at; bytes = line.now })) }
    {
        match self {
            Expected::AModule => new_module(alloc, modules.as_slice(), module_name(line)),
            Expected::ASource(name) => match file_if(alloc, at + 7, source_name(line))? {
                Some(source) => Ok(Some(Expected::ASpec(name, source))),
                None => Ok(None),
            },
            Expected::ASpec(name, source) => match file_if(alloc, at + 5, spec_name(line))? {
                Some(spec) => Ok(Some(Expected::AScript(name, source, spec))),
                None => Ok(None),
            },
            Expected::AScript(name, source, spec) => {
                match file_if(alloc, at + 7, script_name(line))? {
                    Some(script) => {
                        modules.push(Module {
                            name,
                            source,
                            spec,
                            script,
                        })?;
                        Ok(Some(Expected::AModule))
                    }
                    None => Ok(None),
                }
            }
        }
    }

    /// The modules of a file of which this was expected at its end, or the offset of the refusal.
    pub fn at_end(&self, end: usize, modules: ModuleList) -> Result<ModuleList, usize>
        ensures { result ≡ at_end end self.now modules }
    {
        match self {
            Expected::AModule => {
                if modules.is_empty() {
                    Err(0)
                } else {
                    Ok(modules)
                }
            }
            _ => Err(end),
        }
    }
}
