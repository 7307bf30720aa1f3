// What tells the entries of directories.
ghost use Rattle.std.specs.Prelude.{◌≡◌, ℕ, List, IfOk, option_map, option_copied};
ghost use Rattle.file_tree.specs.Tree.{below, entry_path, entries_of};

use spec_base::Text;
use std::alloc::{AllocError, Global};

/// An entry of a directory.
#[derive(Drop)]
pub struct TreeEntry {
    pub name: Text,
    pub is_dir: bool,
}

/// A tree of files, which are finitely many.
///
/// A directory's path is written without `/` at its end, so that the root's is empty. Where a path is both a
/// file's and a directory's, its entry is a directory.
pub trait FileTree {
    /// The absolute paths of the files.
    ghost paths: { Self → List (List ℕ) };

    /// The entries of a directory, each name once, in ascending order of the bytes of the names; None where
    /// no file's path lies under it. The only refusal is want of memory.
    fn read_dir(&self, alloc: Global, path: &str) -> Result<Option<Vec<TreeEntry>>, AllocError>
        ensures { IfOk result (λ entries.
            option_map (λ listed. listed.items) entries ≡ entries_of (paths self.now) path.now) };
}

/// A file system without any file.
#[derive(Drop)]
pub struct NullFileSystem;

impl FileTree for NullFileSystem {
    ghost use Rattle.std.specs.Prelude.{[]};

    ghost paths = { λ _. [] };

    #[tactic(auto, unfolding(crate::specs::Tree::entries_of, crate::specs::Tree::is_directory))]
    fn read_dir(&self, _alloc: Global, _path: &str) -> Result<Option<Vec<TreeEntry>>, AllocError> {
        Ok(None)
    }
}

/// What stands after a directory and a slash; None where the path doesn't lie under the directory.
pub(crate) fn below<'a>(directory: &str, path: &'a str) -> Option<&'a str>
    ensures { option_copied result ≡ below directory.now path.now }
{
    match path.strip_prefix(directory) {
        Some(part) => part.strip_prefix('/'),
        None => None,
    }
}

/// The path of a directory's entry. The only refusal is want of memory.
pub(crate) fn entry_path(alloc: Global, directory: &str, name: &str) -> Result<Text, AllocError>
    ensures { IfOk result (λ path. path ≡ entry_path directory.now name.now) }
{
    let path = format!(in alloc; "{directory}/{name}")?;
    Ok(path.into())
}
