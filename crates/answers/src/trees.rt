// The words of `file_tree`: what directories hold, and the texts that templates stand for over trees. A tree is told by its paths, with
// spaces between them, or by a `-` where there are no files.
use crate::case::{Gap, Left, parts, text, url};
use crate::infos::{shown_info, told_info};
use file_tree::{
    FileTree, MemoryTree, NullFileSystem, TreeEntry, template_texts, write_out_templates,
};
use module_info::DynamicTemplatePart;
use spec_base::Text;
use std::alloc::Global;
use url::Url;

fn tree(alloc: Global, told: &str) -> Result<Left<MemoryTree>, Gap> {
    let mut paths = Vec::new(alloc);
    for path in told.split(' ') {
        paths.push(text(alloc, path)?)?;
    }
    Ok(Left::new(MemoryTree::new(paths)))
}

fn push_word(line: &mut String, word: &str) -> Result<(), Gap> {
    if !line.is_empty() {
        line.push_str(" ")?;
    }
    line.push_str(word)?;
    Ok(())
}

fn listed(alloc: Global, entries: &[TreeEntry]) -> Result<String, Gap> {
    let mut line = Left::new(String::new(alloc));
    for entry in entries {
        push_word(&mut *line, entry.name.as_str())?;
        line.push_str(if entry.is_dir { "/" } else { "" })?;
    }
    text(alloc, line.as_str())
}

fn entries_in(alloc: Global, tree: &impl FileTree, directory: &str) -> Result<String, Gap> {
    let entries = Left::new(tree.read_dir(alloc, directory)?);
    match &*entries {
        Some(found) => listed(alloc, found.as_slice()),
        None => text(alloc, "-"),
    }
}

/// `PATHS | DIRECTORY`: its entries, where a directory's ends with `/`; `-` is none.
pub fn entries(alloc: Global, case: &str) -> Result<String, Gap> {
    let (told, directory) = parts(case)?;
    if told == "-" {
        return entries_in(alloc, &NullFileSystem, directory);
    }
    entries_in(alloc, &*tree(alloc, told)?, directory)
}

fn part(alloc: Global, told: &str) -> Result<DynamicTemplatePart, Gap> {
    if told == "*" {
        return Ok(DynamicTemplatePart::Expr);
    }
    Ok(DynamicTemplatePart::String(Text::from_str(alloc, told)?))
}

fn template(alloc: Global, told: &str) -> Result<Left<Vec<DynamicTemplatePart>>, Gap> {
    let mut found = Left::new(Vec::new(alloc));
    if told.is_empty() {
        return Ok(found);
    }
    for word in told.split(' ') {
        found.push(part(alloc, word)?)?;
    }
    Ok(found)
}

fn joined(alloc: Global, texts: &[Text]) -> Result<String, Gap> {
    let mut line = Left::new(String::new(alloc));
    for text in texts {
        push_word(&mut *line, text.as_str())?;
    }
    text(alloc, line.as_str())
}

fn texts_in(
    alloc: Global,
    tree: &impl FileTree,
    referrer: &Url,
    told: &str,
) -> Result<String, Gap> {
    let (told, attribute_type) = parts(told)?;
    let template = template(alloc, told)?;
    let attribute_type = if attribute_type == "-" {
        None
    } else {
        Some(attribute_type)
    };
    let texts = template_texts(alloc, tree, referrer, template.as_slice(), attribute_type)?;
    joined(alloc, Left::new(texts).as_slice())
}

/// `PATHS | MODULE | PARTS | ATTRIBUTE TYPE`, where `*` is an expression among the parts and `-` no type: the texts that the template stands for.
pub fn texts(alloc: Global, case: &str) -> Result<String, Gap> {
    let (told, rest) = parts(case)?;
    let (module, rest) = parts(rest)?;
    let referrer = url(alloc, module)?;
    if told == "-" {
        return texts_in(alloc, &NullFileSystem, &*referrer, rest);
    }
    texts_in(alloc, &*tree(alloc, told)?, &*referrer, rest)
}

fn written_in(
    alloc: Global,
    tree: &impl FileTree,
    referrer: &Url,
    told: &str,
) -> Result<String, Gap> {
    let mut info = Left::new(told_info(alloc, told)?);
    write_out_templates(alloc, tree, referrer, &mut *info)?;
    shown_info(alloc, &*info)
}

/// `PATHS | MODULE | JSON` of its info: the info with its templates written out, as JSON.
pub fn written(alloc: Global, case: &str) -> Result<String, Gap> {
    let (told, rest) = parts(case)?;
    let (module, rest) = parts(rest)?;
    let referrer = url(alloc, module)?;
    if told == "-" {
        return written_in(alloc, &NullFileSystem, &*referrer, rest);
    }
    written_in(alloc, &*tree(alloc, told)?, &*referrer, rest)
}
