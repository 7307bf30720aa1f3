// Infos whose templates are written out over a tree.
ghost use Rattle.std.specs.Prelude.{◌≡◌, ◌++◌, ◌∷◌, [], map, flat_map, IfOk, OnOk};
ghost use Rattle.std.specs.List.{list_any};
ghost use Rattle.file_tree.specs.Written.{has_template, with_text, written, written_out};

use crate::template::template_texts;
use crate::tree::FileTree;
use module_info::{DependencyDescriptor, DynamicArgument, DynamicDependencyDescriptor, ModuleInfo};
use spec_base::{Items, ModuleSpecifier, Text};
use std::alloc::{AllocError, Global};

/// Writes the templates of a module's info out over a tree: a dynamic import of a template becomes one of each text
/// that the template stands for, at the same place and with the same attributes and types, in the order of the
/// texts; one of a template that stands for nothing goes. All else stays. The only refusal is want of memory.
#[tactic(auto, using(crate::proofs::WrittenLemmas::nothing_written))]
pub fn write_out_templates<T: FileTree>(
    alloc: Global,
    tree: &T,
    referrer: &ModuleSpecifier,
    info: &mut ModuleInfo,
) -> Result<(), AllocError>
    ensures { OnOk result (info.new ≡ written_out (T.paths tree.now) referrer.now info.old) }
{
    if !has_templates(info.dependencies.as_slice()) {
        return Ok(());
    }
    info.dependencies = all_written(alloc, tree, referrer, info.dependencies.as_slice())?;
    Ok(())
}

fn has_template(descriptor: &DependencyDescriptor) -> bool
    ensures { result ≡ has_template descriptor.now }
{
    match descriptor {
        DependencyDescriptor::Static(_) => false,
        DependencyDescriptor::Dynamic(dynamic) => {
            matches!(dynamic.argument, DynamicArgument::Template(_))
        }
    }
}

// Most modules have none, and their infos stay as they are.
fn has_templates(descriptors: &[DependencyDescriptor]) -> bool
    ensures { result ≡ list_any has_template descriptors.now }
{
    descriptors
        .iter()
        .any(|descriptor| has_template(descriptor))
}

fn all_written<T: FileTree>(
    alloc: Global,
    tree: &T,
    referrer: &ModuleSpecifier,
    descriptors: &[DependencyDescriptor],
) -> Result<Items<DependencyDescriptor>, AllocError>
    ensures { IfOk result
        (λ all. all ≡ flat_map (written (T.paths tree.now) referrer.now) descriptors.now) }
{
    let mut all = Items::new(alloc);
    for descriptor in descriptors {
        put_written(alloc, tree, referrer, descriptor, &mut all)?;
    }
    Ok(all)
}

// Puts what a descriptor stands for.
#[tactic(auto, unfolding(crate::specs::Written::written))]
fn put_written<T: FileTree>(
    alloc: Global,
    tree: &T,
    referrer: &ModuleSpecifier,
    descriptor: &DependencyDescriptor,
    all: &mut Items<DependencyDescriptor>,
) -> Result<(), AllocError>
    ensures { OnOk result
        (all.new ≡ all.old ++ written (T.paths tree.now) referrer.now descriptor.now) }
{
    if let DependencyDescriptor::Dynamic(dynamic) = descriptor {
        if let DynamicArgument::Template(parts) = &dynamic.argument {
            let kind = dynamic.import_attributes.get("type");
            let texts = template_texts(alloc, tree, referrer, parts.as_slice(), kind)?;
            return put_texts(dynamic, texts.as_slice(), all);
        }
    }
    let copy = descriptor.try_clone()?;
    all.push(copy)?;
    Ok(())
}

fn put_texts(
    dynamic: &DynamicDependencyDescriptor,
    texts: &[Text],
    all: &mut Items<DependencyDescriptor>,
) -> Result<(), AllocError>
    ensures { OnOk result (all.new ≡ all.old ++ map (with_text dynamic.now) texts.now) }
{
    for text in texts {
        let one = with_text(dynamic, text)?;
        all.push(one)?;
    }
    Ok(())
}

fn with_text(
    dynamic: &DynamicDependencyDescriptor,
    text: &Text,
) -> Result<DependencyDescriptor, AllocError>
    ensures { IfOk result (λ one. one ≡ with_text dynamic.now text.now) }
{
    let types_specifier = dynamic.types_specifier.clone()?;
    let text = text.try_clone()?;
    let import_attributes = dynamic.import_attributes.try_clone()?;
    Ok(DependencyDescriptor::Dynamic(DynamicDependencyDescriptor {
        kind: dynamic.kind,
        types_specifier,
        argument: DynamicArgument::String(text),
        argument_range: dynamic.argument_range,
        import_attributes,
    }))
}
