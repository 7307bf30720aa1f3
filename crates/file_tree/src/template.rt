// The texts that a template stands for.
ghost use Rattle.std.specs.Prelude.{◌≡◌, ℕ, List, IfOk, option_copied, filter_map};
ghost use Rattle.url.specs.Relative.{relative_text};
ghost use Rattle.file_tree.specs.Tree.{ascending};
ghost use Rattle.file_tree.specs.Template.{is_wanted, is_candidate, is_json_type, text_start, start_of, start_directory, dotted, text_between, fitting, text_of_url, text_of_file, template_texts};

use crate::file_url::{directory_of, file_url, joined, parsed};
use crate::form::{compared, fits_template, parts_fit};
use crate::text_set::TextSet;
use crate::tree::FileTree;
use crate::walk::files_below;
use media_types::MediaType;
use module_info::DynamicTemplatePart;
use spec_base::{Items, ModuleSpecifier, Text};
use std::alloc::{AllocError, Global};
use url::Url;

/// The texts that the template of a dynamic import stands for in a tree: those that lead from the module, a
/// `file:` specifier, to the files that the template can mean, each once, in ascending order of their bytes.
///
/// A file counts where it stands below the directory to which the first part leads, in none that begins with
/// `.` or is `node_modules` or `vendor`; where its media is JavaScript, TypeScript, Jsx, Tsx, Mjs or Mts, or
/// Json alone with the attribute type `json`; where it isn't the module; and where its text holds the
/// text parts in order and ends with the last part, if that is a text. Parts of another form than the one that
/// is listed at `parts_fit` stand for nothing. The only refusal is want of memory.
#[tactic(auto, unfolding(crate::specs::Template::template_texts))]
pub fn template_texts<T: FileTree>(
    alloc: Global,
    tree: &T,
    referrer: &ModuleSpecifier,
    parts: &[DynamicTemplatePart],
    attribute_type: Option<&str>,
) -> Result<Items<Text>, AllocError>
    ensures { IfOk result
        (λ texts. texts
        ≡ template_texts (T.paths tree.now) referrer.now parts.now
        (option_copied attribute_type.entry)) }
{
    match start_directory(alloc, parts, referrer)? {
        Some(directory) => {
            let files = files_below(alloc, tree, directory.as_str())?;
            texts_of(alloc, &files, referrer, parts, is_json_type(attribute_type))
        }
        None => Ok(Items::new(alloc)),
    }
}

fn is_json_type(attribute_type: Option<&str>) -> bool
    ensures { result ≡ is_json_type (option_copied attribute_type.entry) }
{
    match attribute_type {
        Some(text) => text == "json",
        None => false,
    }
}

// ---- where a template starts

#[tactic(auto, unfolding(crate::specs::Template::start_directory))]
fn start_directory(
    alloc: Global,
    parts: &[DynamicTemplatePart],
    referrer: &Url,
) -> Result<Option<Text>, AllocError>
    ensures { IfOk result (λ directory. directory ≡ start_directory parts.now referrer.now) }
{
    if !parts_fit(compared(parts)) {
        return Ok(None);
    }
    match start_of(alloc, parts, referrer)? {
        Some(url) => directory_of(alloc, &url),
        None => Ok(None),
    }
}

#[tactic(auto, unfolding(crate::specs::Template::start_of))]
fn start_of(
    alloc: Global,
    parts: &[DynamicTemplatePart],
    referrer: &Url,
) -> Result<Option<Url>, AllocError>
    ensures { IfOk result (λ url. url ≡ start_of parts.now referrer.now) }
{
    match parts {
        [DynamicTemplatePart::String(text), ..] => text_start(alloc, text.as_str(), referrer),
        _ => Ok(None),
    }
}

fn text_start(alloc: Global, text: &str, referrer: &Url) -> Result<Option<Url>, AllocError>
    ensures { IfOk result (λ url. url ≡ text_start text.now referrer.now) }
{
    if text.as_bytes().starts_with(b"./") {
        joined(referrer, text)
    } else if text.as_bytes().starts_with(b"file://") {
        parsed(alloc, text)
    } else {
        Ok(None)
    }
}

// ---- the files that count

// The texts of the files that count.
#[tactic(auto, using(crate::proofs::TextSets::ascending_none))]
fn texts_of(
    alloc: Global,
    files: &[Text],
    referrer: &Url,
    parts: &[DynamicTemplatePart],
    is_json: bool,
) -> Result<Items<Text>, AllocError>
    ensures { IfOk result (λ texts.
        texts ≡ ascending (filter_map (text_of_file referrer.now parts.now is_json) files.now)) }
{
    let mut texts = TextSet::new(alloc);
    for file in files {
        texts.add(text_of_file(alloc, file.as_str(), referrer, parts, is_json)?)?;
    }
    let texts = texts.into_vec(alloc)?;
    Ok(texts.into())
}

#[tactic(auto, unfolding(crate::specs::Template::text_of_file))]
fn text_of_file(
    alloc: Global,
    path: &str,
    referrer: &Url,
    parts: &[DynamicTemplatePart],
    is_json: bool,
) -> Result<Option<Text>, AllocError>
    ensures { IfOk result (λ text. text ≡ text_of_file referrer.now parts.now is_json path.now) }
{
    match file_url(alloc, path)? {
        Some(url) => text_of_url(alloc, &url, referrer, parts, is_json),
        None => Ok(None),
    }
}

#[tactic(auto, unfolding(crate::specs::Template::text_of_url))]
fn text_of_url(
    alloc: Global,
    url: &Url,
    referrer: &Url,
    parts: &[DynamicTemplatePart],
    is_json: bool,
) -> Result<Option<Text>, AllocError>
    ensures { IfOk result (λ text. text ≡ text_of_url referrer.now parts.now is_json url.now) }
{
    if !is_candidate(referrer, is_json, url) {
        return Ok(None);
    }
    match text_between(alloc, referrer, url)? {
        Some(text) => Ok(fitting(parts, text)),
        None => Ok(None),
    }
}

fn is_candidate(referrer: &Url, is_json: bool, url: &Url) -> bool
    ensures { result ≡ is_candidate referrer.now is_json url.now }
{
    is_wanted(is_json, MediaType::from_specifier(url)) && url != referrer
}

#[tactic(auto, unfolding(crate::specs::Template::is_wanted))]
fn is_wanted(is_json: bool, media: MediaType) -> bool
    ensures { result ≡ is_wanted is_json media }
{
    if is_json {
        matches!(media, MediaType::Json)
    } else {
        matches!(
            media,
            MediaType::JavaScript
                | MediaType::TypeScript
                | MediaType::Jsx
                | MediaType::Tsx
                | MediaType::Mjs
                | MediaType::Mts
        )
    }
}

// The text that leads from one URL to another.
fn text_between(alloc: Global, base: &Url, url: &Url) -> Result<Option<Text>, AllocError>
    ensures { IfOk result (λ text. text ≡ text_between base.now url.now) }
{
    match base.make_relative(url)? {
        Some(text) => Ok(Some(dotted(alloc, text.into())?)),
        None => Ok(None),
    }
}

fn dotted(alloc: Global, text: Text) -> Result<Text, AllocError>
    ensures { IfOk result (λ whole. whole ≡ dotted text) }
{
    if text.as_str().as_bytes().starts_with(b"../") {
        return Ok(text);
    }
    let whole = format!(in alloc; "./{text}")?;
    Ok(whole.into())
}

fn fitting(parts: &[DynamicTemplatePart], text: Text) -> Option<Text>
    ensures { result ≡ fitting parts.now text }
{
    if fits_template(parts, text.as_str()) {
        Some(text)
    } else {
        None
    }
}
