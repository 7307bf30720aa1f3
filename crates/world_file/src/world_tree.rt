// The tree of files that a world file tells.
ghost use Rattle.std.specs.Prelude.{◌≡◌};
ghost use Rattle.std.specs.List.{list_all};
ghost use Rattle.json_documents.specs.Documents as documents;
ghost use Rattle.spec_base.specs.Refusal.{Reads};
ghost use Rattle.world_file.specs.WorldTree.{is_absolute, tree_of};

use json_documents::Json;
use json_forms::{Misfit, or_empty};
use spec_base::{Items, Refusal, Text};
use std::alloc::Global;

fn is_absolute(path: &Text) -> bool
    ensures { result ≡ is_absolute path.now }
{
    path.as_str().as_bytes().starts_with(b"/")
}

fn are_absolute(paths: &[Text]) -> bool
    ensures { result ≡ list_all is_absolute paths.now }
{
    paths.iter().all(|path| is_absolute(path))
}

/// The absolute paths of the files that a world file tells.
pub fn read_tree(alloc: Global, value: &Json<'_, '_>) -> Result<Items<Text>, Refusal<Misfit>>
    ensures { Reads result (tree_of (documents.view value.now)) }
{
    let paths: Items<Text> = or_empty(alloc, value, "tree")?;
    if are_absolute(paths.as_slice()) {
        Ok(paths)
    } else {
        Err(Refusal::Is(Misfit))
    }
}
