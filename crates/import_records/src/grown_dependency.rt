// The dependency of a text, as it grows by one import record after another.
ghost use Rattle.std.specs.Prelude.{◌≡◌, true, OnOk, IfOk, option_copied};
ghost use Rattle.import_records.specs.Dependencies.{is_code, same_target, is_failure};
ghost use Rattle.import_records.specs.Importing.{importing, is_told_importer};
ghost use Rattle.import_records.specs.Growing.{empty_dependency, with_attribute, with_code, with_type, offered, grown, HasOwnCode};

use crate::import_record::ImportRecord;
use crate::importer::Importer;
use graph_dependencies::Dependency;
use graph_errors::Resolution;
use source_io::{JsrUrlProvider, Resolver};
use spec_base::{Items, ModuleSpecifier, ResolutionKind, Text};
use std::alloc::{AllocError, Global};

fn is_same_target(a: Option<&ModuleSpecifier>, b: Option<&ModuleSpecifier>) -> bool
    ensures { result ≡ same_target (option_copied a.entry) (option_copied b.entry) }
{
    match (a, b) {
        (None, None) => true,
        (Some(a), Some(b)) => *a == *b,
        _ => false,
    }
}

fn is_failure(resolution: &Resolution) -> bool
    ensures { result ≡ is_failure resolution.now }
{
    matches!(resolution, Resolution::Err(_))
}

impl<U: JsrUrlProvider, R: Resolver> Importer<'_, U, R> {
    fn is_code(&self, found: &ImportRecord) -> bool
        ensures { result ≡ is_code (importing U.meaning R.meaning self.now) found.now }
    {
        found.imported.kind.is_runtime() && !self.media.is_declaration()
    }

    // The type that a record offers, and its types text where it has one. Where the code is that of this very record, the text isn't
    // resolved again for its types if they are known to lead where the code does.
    fn type_offer(
        &self,
        dependency: &Dependency,
        found: &ImportRecord,
        is_own_code: bool,
    ) -> Result<Option<(Resolution, Option<Text>)>, AllocError>
        requires { is_told_importer R.is_told self.now ≡ true → is_own_code ≡ true
            → HasOwnCode (importing U.meaning R.meaning self.now) dependency.now found.now }
        ensures { is_told_importer R.is_told self.now ≡ true
            → IfOk result
            (λ o.
            o ≡ offered (importing U.meaning R.meaning self.now) dependency.now found.now) }
    {
        if let Some(types) = &found.types_text {
            let range = types.range.try_clone()?;
            let resolution = self
                .targets
                .target(types.text.as_str(), range, ResolutionKind::Types, None)?;
            let text = types.text.try_clone()?;
            return Ok(Some((resolution, Some(text))));
        }
        let imported = &found.imported;
        let referrer = &imported.specifier_range.specifier;
        let code = &dependency.maybe_code;
        if is_own_code && self.targets.leads_types_alike(referrer, code)? {
            return Ok(None);
        }
        let range = imported.specifier_range.try_clone()?;
        let text = imported.specifier.as_str();
        if !imported.kind.is_runtime() {
            let resolution = self
                .targets
                .target(text, range, ResolutionKind::Types, None)?;
            return Ok(Some((resolution, None)));
        }
        let attribute = dependency.maybe_attribute_type.as_ref();
        let resolution = self
            .targets
            .target(text, range, ResolutionKind::Types, attribute)?;
        let is_same = is_same_target(resolution.maybe_specifier(), code.maybe_specifier());
        if is_same || (imported.is_side_effect && is_failure(&resolution)) {
            Ok(None)
        } else {
            Ok(Some((resolution, None)))
        }
    }
}

/// A dependency without imports, and with room for one: most have no other.
pub fn empty_dependency(alloc: Global) -> Result<Dependency, AllocError>
    ensures { IfOk result (λ dependency. dependency ≡ empty_dependency) }
{
    let imports = Vec::with_capacity(alloc, 1)?;
    Ok(Dependency {
        maybe_code: Resolution::None,
        maybe_type: Resolution::None,
        maybe_deno_types_specifier: None,
        is_dynamic: false,
        maybe_attribute_type: None,
        imports: imports.into(),
    })
}

#[tactic(auto, unfolding(crate::specs::Growing::with_attribute))]
fn add_attribute(
    dependency: &mut Dependency,
    alloc: Global,
    found: &ImportRecord,
) -> Result<(), AllocError>
    ensures { OnOk result (dependency.new ≡ with_attribute dependency.old found.now) }
{
    if dependency.maybe_attribute_type.is_none() {
        if let Some(attribute) = found.imported.attributes.get("type") {
            dependency.maybe_attribute_type = Some(Text::from_str(alloc, attribute)?);
        }
    }
    Ok(())
}

// Whether the code is that of this very record.
#[tactic(auto, unfolding(crate::specs::Growing::with_code))]
fn add_code<U: JsrUrlProvider, R: Resolver>(
    dependency: &mut Dependency,
    importer: &Importer<'_, U, R>,
    found: &ImportRecord,
) -> Result<bool, AllocError>
    ensures code { is_told_importer R.is_told importer.now ≡ true
        → OnOk result
        (dependency.new
        ≡ with_code (importing U.meaning R.meaning importer.now) dependency.old found.now) }
    ensures own { is_told_importer R.is_told importer.now ≡ true
        → IfOk result (λ is_own. is_own ≡ true
        → HasOwnCode (importing U.meaning R.meaning importer.now) dependency.new found.now) }
{
    if !importer.is_code(found) {
        return Ok(false);
    }
    let imported = &found.imported;
    if dependency.maybe_code.is_none() {
        let range = imported.specifier_range.try_clone()?;
        dependency.maybe_code = importer.targets.target(
            imported.specifier.as_str(),
            range,
            ResolutionKind::Execution,
            dependency.maybe_attribute_type.as_ref(),
        )?;
        dependency.is_dynamic = imported.is_dynamic;
        Ok(true)
    } else {
        dependency.is_dynamic = dependency.is_dynamic && imported.is_dynamic;
        Ok(false)
    }
}

#[tactic(auto, unfolding(crate::specs::Growing::with_type))]
fn add_type<U: JsrUrlProvider, R: Resolver>(
    dependency: &mut Dependency,
    importer: &Importer<'_, U, R>,
    found: &ImportRecord,
    is_own_code: bool,
) -> Result<(), AllocError>
    requires { is_told_importer R.is_told importer.now ≡ true → is_own_code ≡ true
        → HasOwnCode (importing U.meaning R.meaning importer.now) dependency.old found.now }
    ensures { is_told_importer R.is_told importer.now ≡ true
        → OnOk result
        (dependency.new
        ≡ with_type (importing U.meaning R.meaning importer.now) dependency.old found.now) }
{
    if importer.with_types && dependency.maybe_type.is_none() {
        if let Some((resolution, text)) = importer.type_offer(dependency, found, is_own_code)? {
            dependency.maybe_type = resolution;
            dependency.maybe_deno_types_specifier = text;
        }
    }
    Ok(())
}

/// Adds a record of its text.
#[tactic(auto, unfolding(crate::specs::Growing::grown))]
pub fn add<U: JsrUrlProvider, R: Resolver>(
    dependency: &mut Dependency,
    importer: &Importer<'_, U, R>,
    found: ImportRecord,
) -> Result<(), AllocError>
    ensures { is_told_importer R.is_told importer.now ≡ true
        → OnOk result
        (dependency.new ≡ grown (importing U.meaning R.meaning importer.now) dependency.old found) }
{
    add_attribute(dependency, importer.targets.alloc, &found)?;
    let is_own_code = add_code(dependency, importer, &found)?;
    add_type(dependency, importer, &found, is_own_code)?;
    dependency.imports.push(found.into_import())?;
    Ok(())
}
