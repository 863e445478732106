//! The files of the page, as the program hands them out: those of the paths of `specs/Paths.antt`, each once and in
//! their order.
#![tactic(auto)]

ghost use Rattle.std.specs.Prelude.{◌≡◌, IfOk, map};
ghost use Rattle.web_page.specs.Paths.{path_of, paths};

mod files;

use page_files::PageFile;
use std::alloc::{AllocError, Global};

/// All files of the page, in the order of their paths. They stay for as long as the program runs.
pub fn page(alloc: Global) -> Result<&'static [PageFile], AllocError>
    ensures paths { IfOk result (λ files. map path_of files.now ≡ paths) }
{
    Ok(Vec::from_array(alloc, files::all())?.leak())
}
