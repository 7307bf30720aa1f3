// A load that is to be entered, and under what conditions.
ghost use Rattle.std.specs.Prelude.{◌≡◌, IfOk, option_map};

use semver_npm::PackageNv;
use spec_base::{Boxed, ModuleSpecifier, Range, Text};
use std::alloc::AllocError;

/// Under what conditions a load goes on.
#[derive(Debug, PartialEq, Eq)]
pub struct LoadContext {
    /// The value of the attribute `type` of the import, where one is known, with the range of the import.
    pub attribute: Option<Boxed<(Text, Range)>>,
    /// Whether the module is to be kept at hand alone, and not to be read.
    pub asset: bool,
    /// The first import in the source phase that it comes from.
    pub source_phase: Option<Boxed<Range>>,
    /// The import that it comes from; a root has none. An error in the place of the module names it.
    pub range: Option<Range>,
    /// Whether it is met behind a dynamic import.
    pub in_dynamic_phase: bool,
    /// Whether its question says so: as `in_dynamic_phase`, but never for where the types of a module stand.
    pub is_dynamic: bool,
    /// Whether it is a root, or at a name that stands in the answer to a root.
    pub is_root: bool,
    /// How many redirects led to it from the specifier that the import names.
    pub hops: usize,
    /// The version of a package of the registry that it was met in, or whose export it is.
    pub package: Option<PackageNv>,
}

// By a call, so that a context isn't taken apart at each way out of what owns one.
impl Drop for LoadContext {
    fn drop(self) {
        let LoadContext {
            attribute: _,
            asset: _,
            source_phase: _,
            range: _,
            in_dynamic_phase: _,
            is_dynamic: _,
            is_root: _,
            hops: _,
            package: _,
        } = self;
    }
}

/// A load of a specifier under a context.
#[derive(Debug, PartialEq, Eq, Drop)]
pub struct Load {
    pub specifier: ModuleSpecifier,
    pub context: LoadContext,
    /// Whether the types of an import or of a module are there, and not its code.
    pub is_type: bool,
}

/// A copy of an attribute's type, without the place where it stands.
pub fn attribute_type(attribute: &Option<Boxed<(Text, Range)>>) -> Result<Option<Text>, AllocError>
    ensures { IfOk result (λ kind. kind ≡ option_map (λ a. a.0) attribute.now) }
{
    match attribute {
        None => Ok(None),
        Some(attribute) => {
            let kind = attribute.get().0.try_clone()?;
            Ok(Some(kind))
        }
    }
}

// A copy of an attribute with its range.
fn copied_attribute(
    attribute: &Option<Boxed<(Text, Range)>>,
) -> Result<Option<Boxed<(Text, Range)>>, AllocError>
    ensures { IfOk result (λ copy. copy ≡ attribute.now) }
{
    match attribute {
        None => Ok(None),
        Some(attribute) => {
            let attribute = attribute.try_clone()?;
            Ok(Some(attribute))
        }
    }
}

// A copy of the range of an import in the source phase.
fn copied_source_phase(
    source_phase: &Option<Boxed<Range>>,
) -> Result<Option<Boxed<Range>>, AllocError>
    ensures { IfOk result (λ copy. copy ≡ source_phase.now) }
{
    match source_phase {
        None => Ok(None),
        Some(range) => {
            let range = range.try_clone()?;
            Ok(Some(range))
        }
    }
}

// A copy of a version of a package.
fn copied_package(package: &Option<PackageNv>) -> Result<Option<PackageNv>, AllocError>
    ensures { IfOk result (λ copy. copy ≡ «package».now) }
{
    match package {
        None => Ok(None),
        Some(nv) => {
            let nv = nv.try_clone()?;
            Ok(Some(nv))
        }
    }
}

impl LoadContext {
    /// A copy.
    pub fn try_clone(&self) -> Result<LoadContext, AllocError>
        ensures { IfOk result (λ c. c ≡ self.now) }
    {
        let attribute = copied_attribute(&self.attribute)?;
        let source_phase = copied_source_phase(&self.source_phase)?;
        let range = self.range.clone()?;
        let package = copied_package(&self.package)?;
        Ok(LoadContext {
            attribute,
            asset: self.asset,
            source_phase,
            range,
            in_dynamic_phase: self.in_dynamic_phase,
            is_dynamic: self.is_dynamic,
            is_root: self.is_root,
            hops: self.hops,
            package,
        })
    }
}

impl Load {
    /// A copy.
    pub fn try_clone(&self) -> Result<Load, AllocError>
        ensures { IfOk result (λ l. l ≡ self.now) }
    {
        let specifier = self.specifier.clone()?;
        let context = self.context.try_clone()?;
        Ok(Load {
            specifier,
            context,
            is_type: self.is_type,
        })
    }
}
