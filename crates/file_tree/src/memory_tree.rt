// A tree in memory.
ghost use Rattle.std.specs.Prelude.{◌≡◌, ℕ, List, ◌∷◌, map, string_bytes, is_some, IfOk, OnOk};
ghost use Rattle.std.specs.BTreeSet.{insert_key};
ghost use Rattle.spec_base.specs.Options.{by_option};
ghost use Rattle.spec_base.specs.Shown.{text_cmp};
ghost use Rattle.file_tree.specs.Tree.{below, names, leading, name_towards, is_directory, names_in};
ghost use Rattle.file_tree.specs.Listing.{followed, directory_towards, followed_in, listed};

use crate::text_set::TextSet;
use crate::tree::{FileTree, TreeEntry, below};
use spec_base::Text;
use std::alloc::{AllocError, Global};
use std::marker::Model;

/// A tree in memory, which contracts see as the list of its paths.
#[derive(Drop)]
pub struct MemoryTree {
    paths: Vec<String>,
}

impl Model for MemoryTree {
    ghost use Rattle.std.specs.Prelude.{List, ℕ, map, string_bytes};

    ghost Value = { List (List ℕ) };

    ghost view = { λ t. map string_bytes t.paths.items };
}

impl MemoryTree {
    /// The tree of the files with these absolute paths. Its directories are the parents of the paths.
    pub fn new(paths: Vec<String>) -> MemoryTree
        ensures { result ≡ map string_bytes paths.items }
    {
        MemoryTree { paths }
    }
}

impl FileTree for MemoryTree {
    ghost paths = { λ t. t };

    #[tactic(auto, using(crate::proofs::ListingLemmas::entries_from), unfolding(crate::specs::Tree::entries_of))]
    fn read_dir(&self, alloc: Global, path: &str) -> Result<Option<Vec<TreeEntry>>, AllocError> {
        if !is_directory(&self.paths, path) {
            return Ok(None);
        }
        let listing = listing_of(alloc, &self.paths, path)?;
        Ok(Some(entries(alloc, listing.names, &listing.directories)?))
    }
}

fn lies_under(directory: &str, path: &str) -> bool
    ensures { result ≡ is_some (below directory.now path.now) }
{
    below(directory, path).is_some()
}

fn is_directory(paths: &[String], directory: &str) -> bool
    ensures { result ≡ is_directory (map string_bytes paths.now) directory.now }
{
    for path in paths {
        if lies_under(directory, path) {
            return true;
        }
    }
    false
}

// What stands before the first slash, or all.
fn name_of(part: &str) -> &str
    ensures { (others : List (List ℕ)) × (names part.now ≡ result.now ∷ others) }
{
    match part.split_once('/') {
        Some((name, _)) => name,
        None => part,
    }
}

fn leading(alloc: Global, part: &str) -> Result<Option<Text>, AllocError>
    ensures { IfOk result (λ name. name ≡ leading (names part.now)) }
{
    let name = name_of(part);
    if name.is_empty() {
        return Ok(None);
    }
    Ok(Some(Text::from_str(alloc, name)?))
}

// The first name, where another follows.
fn followed(alloc: Global, part: &str) -> Result<Option<Text>, AllocError>
    ensures { IfOk result (λ name. name ≡ followed (names part.now)) }
{
    match part.split_once('/') {
        Some((name, _)) => Ok(Some(Text::from_str(alloc, name)?)),
        None => Ok(None),
    }
}

// The names in a directory, and those of them that another name follows in a path.
#[derive(Drop)]
struct Listing {
    names: TextSet,
    directories: TextSet,
}

// Takes in the name of the directory's entry that is the path or leads to it.
#[tactic(auto, unfolding(crate::specs::Tree::name_towards, crate::specs::Listing::directory_towards))]
fn put_path(
    alloc: Global,
    directory: &str,
    path: &str,
    listing: &mut Listing,
) -> Result<(), AllocError>
    ensures names { OnOk result (listing.new.names
        ≡ by_option (name_towards directory.now path.now) listing.old.names (insert_key text_cmp listing.old.names)) }
    ensures directories { OnOk result (listing.new.directories
        ≡ by_option (directory_towards directory.now path.now) listing.old.directories
        (insert_key text_cmp listing.old.directories)) }
{
    if let Some(part) = below(directory, path) {
        listing.names.add(leading(alloc, part)?)?;
        listing.directories.add(followed(alloc, part)?)?;
    }
    Ok(())
}

// One pass over all paths, however many entries the directory has.
#[tactic(auto, using(crate::proofs::TextSets::ascending_none))]
fn listing_of(alloc: Global, paths: &[String], directory: &str) -> Result<Listing, AllocError>
    ensures names { IfOk result
        (λ listing. listing.names ≡ names_in (map string_bytes paths.now) directory.now) }
    ensures directories { IfOk result
        (λ listing. listing.directories ≡ followed_in (map string_bytes paths.now) directory.now) }
{
    let mut listing = Listing {
        names: TextSet::new(alloc),
        directories: TextSet::new(alloc),
    };
    for path in paths {
        put_path(alloc, directory, path, &mut listing)?;
    }
    Ok(listing)
}

fn entries(
    alloc: Global,
    names: TextSet,
    directories: &TextSet,
) -> Result<Vec<TreeEntry>, AllocError>
    ensures { IfOk result (λ entries. entries.items ≡ map (listed directories.now) names) }
{
    let mut entries = Vec::new(alloc);
    for name in names.into_vec(alloc)? {
        let is_dir = directories.has(&name);
        entries.push(TreeEntry { name, is_dir })?;
    }
    Ok(entries)
}
