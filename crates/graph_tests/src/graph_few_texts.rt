// A resolver of a few texts and specifiers.
use source_io::{DEFAULT_JSX_IMPORT_SOURCE_MODULE, Resolver};
use spec_base::{
    Fault, ModuleSpecifier, PositionRange, Range, Refusal, ResolutionKind, ResolveError, Text,
    resolve_import,
};
use std::alloc::{AllocError, Global};

/// A resolver that refuses `fault`, leads `mapped` elsewhere, and tells the types of `/a/ranged.js`, named elsewhere, and of
/// `/a/typed.js`; those of `/a/refused.js` it refuses.
#[derive(Drop)]
pub struct FewTexts;

/// A fault with this message.
pub fn fault(alloc: Global, message: &str) -> Result<Fault, AllocError> {
    let class = Text::from_str(alloc, "Error")?;
    let message = Text::from_str(alloc, message)?;
    Ok(Fault { class, message })
}

// What it refuses a text with.
fn refusal(alloc: Global) -> Result<ResolveError, AllocError> {
    Ok(ResolveError::Other(fault(alloc, "Refused")?))
}

// The specifier of a text that is one.
fn known(alloc: Global, text: &str) -> Result<ModuleSpecifier, AllocError> {
    match ModuleSpecifier::parse(alloc, text) {
        Ok(specifier) => Ok(specifier),
        Err(_) => Err(AllocError),
    }
}

// Where a text leads that isn't its own.
fn plainly(
    alloc: Global,
    text: &str,
    referrer: &ModuleSpecifier,
) -> Result<ModuleSpecifier, Refusal<ResolveError>> {
    match resolve_import(alloc, text, referrer) {
        Ok(specifier) => Ok(specifier),
        Err(Refusal::Memory) => Err(Refusal::Memory),
        Err(Refusal::Is(error)) => Err(Refusal::Is(ResolveError::Specifier(error))),
    }
}

// A place in another module.
fn place(alloc: Global) -> Result<Range, AllocError> {
    let mut range = PositionRange::zeroed();
    range.start.line = 5;
    range.start.character = 7;
    Ok(Range {
        specifier: known(alloc, "file:///ranges.json")?,
        range,
        resolution_mode: None,
    })
}

impl Resolver for FewTexts {
    ghost use Rattle.std.specs.Prelude.{false};
    ghost use Rattle.source_io.specs.Resolvers.{plain_meaning};

    ghost meaning = { λ r. plain_meaning };

    ghost is_told = { λ r. false };

    fn default_jsx_import_source(
        &self,
        _alloc: Global,
        _referrer: &ModuleSpecifier,
    ) -> Result<Option<Text>, AllocError> {
        Ok(None)
    }

    fn default_jsx_import_source_types(
        &self,
        _alloc: Global,
        _referrer: &ModuleSpecifier,
    ) -> Result<Option<Text>, AllocError> {
        Ok(None)
    }

    fn jsx_import_source_module(&self, _referrer: &ModuleSpecifier) -> &str {
        DEFAULT_JSX_IMPORT_SOURCE_MODULE
    }

    fn resolve(
        &self,
        alloc: Global,
        specifier_text: &str,
        referrer_range: &Range,
        kind: ResolutionKind,
    ) -> Result<ModuleSpecifier, Refusal<ResolveError>> {
        let mapped = if kind.is_types() {
            "file:///mapped.d.ts"
        } else {
            "file:///mapped.js"
        };
        match specifier_text {
            "fault" => Err(Refusal::Is(refusal(alloc)?)),
            "mapped" => Ok(known(alloc, mapped)?),
            text => plainly(alloc, text, &referrer_range.specifier),
        }
    }

    fn resolve_attribute_type_import(
        &self,
        _alloc: Global,
        _specifier_text: &str,
        _referrer_range: &Range,
        _kind: ResolutionKind,
        _attribute_type: &str,
    ) -> Result<Option<Result<ModuleSpecifier, ResolveError>>, AllocError> {
        Ok(None)
    }

    fn resolve_types(
        &self,
        alloc: Global,
        specifier: &ModuleSpecifier,
    ) -> Result<Option<(ModuleSpecifier, Option<Range>)>, Refusal<ResolveError>> {
        match specifier.path() {
            "/a/refused.js" => Err(Refusal::Is(refusal(alloc)?)),
            "/a/typed.js" => Ok(Some((known(alloc, "file:///types.d.ts")?, None))),
            "/a/ranged.js" => Ok(Some((known(alloc, "file:///types.d.ts")?, Some(place(alloc)?)))),
            _ => Ok(None),
        }
    }
}
