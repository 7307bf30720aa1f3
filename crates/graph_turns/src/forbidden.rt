// Which modules are refused as assets.
ghost use Rattle.std.specs.Prelude.{◌≡◌, IfOk};
ghost use Rattle.graph_turns.specs.Promise.Forbidden.{allows_type, source_phase_refusal, attribute_refusal, forbidden};

use crate::flags::Flags;
use graph_core::{LoadContext, ModuleErrorKind, attribute_type};
use media_types::MediaType;
use slot_making::suits_source_phase;
use spec_base::{Boxed, ModuleSpecifier, Range, Text};
use std::alloc::AllocError;

// Whether assets of a type are taken.
fn allows_type(flags: Flags, text: &str) -> bool
    ensures { result ≡ allows_type flags text.now }
{
    text == "text" || (text == "bytes" && flags.bytes) || (text == "css" && flags.css)
}

// The error of what is imported in the source phase, where it isn't taken.
fn source_phase_refusal(
    specifier: &ModuleSpecifier,
    attribute: &Option<Boxed<(Text, Range)>>,
    source_phase: &Option<Boxed<Range>>,
) -> Result<Option<ModuleErrorKind>, AllocError>
    ensures { IfOk result
        (λ o. o ≡ source_phase_refusal specifier.now attribute.now source_phase.now) }
{
    match source_phase {
        None => Ok(None),
        Some(range) => {
            let media_type = MediaType::from_specifier(specifier);
            if suits_source_phase(media_type, attribute) {
                return Ok(None);
            }
            let kind = ModuleErrorKind::UnsupportedModuleTypeForSourcePhaseImport {
                specifier: specifier.clone()?,
                referrer: range.get().try_clone()?,
                actual_media_type: media_type,
                actual_attribute_type: attribute_type(attribute)?,
            };
            Ok(Some(kind))
        }
    }
}

// The error of an attribute that isn't taken.
fn attribute_refusal(
    flags: Flags,
    specifier: &ModuleSpecifier,
    attribute: &Option<Boxed<(Text, Range)>>,
) -> Result<Option<ModuleErrorKind>, AllocError>
    ensures { IfOk result (λ o. o ≡ attribute_refusal flags specifier.now attribute.now) }
{
    match attribute {
        None => Ok(None),
        Some(attribute) => {
            let attribute = attribute.get();
            if allows_type(flags, attribute.0.as_str()) {
                return Ok(None);
            }
            let kind = ModuleErrorKind::UnsupportedImportAttributeType {
                specifier: specifier.clone()?,
                referrer: attribute.1.try_clone()?,
                kind: attribute.0.try_clone()?,
            };
            Ok(Some(kind))
        }
    }
}

/// The error of an asset that is refused at a specifier. The only refusal is want of memory.
pub(crate) fn forbidden(
    flags: Flags,
    specifier: &ModuleSpecifier,
    context: &LoadContext,
) -> Result<Option<ModuleErrorKind>, AllocError>
    ensures { IfOk result (λ o. o ≡ forbidden flags specifier.now context.now) }
{
    if !context.asset {
        return Ok(None);
    }
    match source_phase_refusal(specifier, &context.attribute, &context.source_phase)? {
        Some(kind) => Ok(Some(kind)),
        None => attribute_refusal(flags, specifier, &context.attribute),
    }
}
