//! Trees of files, and the texts that the template of a dynamic import stands for in one.
//!
//! What comes in are a tree, which tells the paths of its files, and the parts of a template; what goes out
//! are the texts of the files that the template can mean, sorted. The tree is asked for one directory at a
//! time; the result is that of the definition over all of its paths. `write_out_templates` puts the imports of these
//! texts in the place of the template's.
#![tactic(auto)]

mod file_url;
mod form;
mod memory_tree;
mod template;
mod text_set;
mod tree;
mod walk;
mod written;

pub use memory_tree::MemoryTree;
pub use template::template_texts;
pub use tree::{FileTree, NullFileSystem, TreeEntry};
pub use written::write_out_templates;
