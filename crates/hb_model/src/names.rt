//! The project of a repository.
ghost use Rattle.std.specs.Prelude.{◌≡◌, IfOk};
ghost use Rattle.hb_text.specs.Names.{project_of};

use hb_records::Memory;
use hb_text::{Name, NameFault, ProjectName};
use std::alloc::Global;

/// The name of the project to which a repository belongs: the first component of its name.
pub fn project_name(alloc: Global, name: &Name) -> Result<ProjectName, Memory>
    ensures { IfOk result (λ project. project ≡ project_of name.now) }
{
    let _valid = name.bytes();
    match ProjectName::read(alloc, name.project()) {
        Ok(project) => Ok(project),
        Err(NameFault::Memory) => Err(Memory),
        Err(NameFault::Invalid) => unreachable!(),
    }
}
