// The walk over the directories below one.
ghost use Rattle.std.specs.Prelude.{◌≡◌, ℕ, List, ◌++◌, IfOk, OnOk, flat_map};
ghost use Rattle.file_tree.specs.Walk.{is_passed_over, files_below, file_at, directory_at, files_in, directories_in, has_path};

use crate::tree::{FileTree, TreeEntry, entry_path};
use spec_base::Text;
use std::alloc::{AllocError, Global};

#[tactic(auto, unfolding(crate::specs::Walk::is_passed_over))]
fn is_passed_over(name: &str) -> bool
    ensures { result ≡ is_passed_over name.now }
{
    name.starts_with(".") || name == "node_modules" || name == "vendor"
}

/// The files below a directory, without those in directories that are passed over.
///
/// All directories of one depth are entered before those of the next. The only refusal is want of memory.
pub(crate) fn files_below<T: FileTree>(
    alloc: Global,
    tree: &T,
    directory: &str,
) -> Result<Vec<Text>, AllocError>
    ensures { IfOk result
        (λ files. (path : List ℕ)
        → has_path files.items path
        ≡ has_path (files_below (T.paths tree.now) directory.now) path) }
{
    let mut files = Vec::new(alloc);
    let mut level = vec![in alloc; Text::from_str(alloc, directory)?]?;
    'levels: while !level.is_empty() {
        level = next_level(alloc, tree, &level, &mut files)?;
    }
    Ok(files)
}

// Enters directories: their files are found, and their directories are the next level.
fn next_level<T: FileTree>(
    alloc: Global,
    tree: &T,
    level: &[Text],
    files: &mut Vec<Text>,
) -> Result<Vec<Text>, AllocError>
    ensures next { IfOk result
        (λ next. next.items ≡ flat_map (directories_in (T.paths tree.now)) level.now) }
    ensures found { OnOk result
        (files.new.items ≡ files.old.items ++ flat_map (files_in (T.paths tree.now)) level.now) }
{
    let mut next = Vec::new(alloc);
    for directory in level {
        enter(alloc, tree, directory, files, &mut next)?;
    }
    Ok(next)
}

#[tactic(auto, unfolding(crate::specs::Walk::files_in, crate::specs::Walk::directories_in))]
fn enter<T: FileTree>(
    alloc: Global,
    tree: &T,
    directory: &Text,
    files: &mut Vec<Text>,
    next: &mut Vec<Text>,
) -> Result<(), AllocError>
    ensures found { OnOk result
        (files.new.items ≡ files.old.items ++ files_in (T.paths tree.now) directory.now) }
    ensures next { OnOk result
        (next.new.items ≡ next.old.items ++ directories_in (T.paths tree.now) directory.now) }
{
    match tree.read_dir(alloc, directory.as_str())? {
        Some(entries) => put_all(alloc, directory, &entries, files, next),
        None => Ok(()),
    }
}

fn put_all(
    alloc: Global,
    directory: &Text,
    entries: &[TreeEntry],
    files: &mut Vec<Text>,
    next: &mut Vec<Text>,
) -> Result<(), AllocError>
    ensures found { OnOk result
        (files.new.items ≡ files.old.items ++ flat_map (file_at directory.now) entries.now) }
    ensures next { OnOk result
        (next.new.items ≡ next.old.items ++ flat_map (directory_at directory.now) entries.now) }
{
    for entry in entries {
        put(alloc, directory, entry, files, next)?;
    }
    Ok(())
}

// Puts an entry's path where it belongs.
fn put(
    alloc: Global,
    directory: &Text,
    entry: &TreeEntry,
    files: &mut Vec<Text>,
    next: &mut Vec<Text>,
) -> Result<(), AllocError>
    ensures found { OnOk result
        (files.new.items ≡ files.old.items ++ file_at directory.now entry.now) }
    ensures next { OnOk result
        (next.new.items ≡ next.old.items ++ directory_at directory.now entry.now) }
{
    if entry.is_dir && is_passed_over(entry.name.as_str()) {
        return Ok(());
    }
    let path = entry_path(alloc, directory.as_str(), entry.name.as_str())?;
    if entry.is_dir {
        next.push(path)?;
    } else {
        files.push(path)?;
    }
    Ok(())
}
