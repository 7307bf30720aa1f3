// Where the texts of imports lead: by the resolver, or by the plain rule without one; for types never by a URL into another
// version of a package.
ghost use Rattle.std.specs.Prelude.{◌≡◌, true, IfOk, option_copied, option_and_then};
ghost use Rattle.spec_base.specs.Refusal.{Answers};
ghost use Rattle.import_records.specs.Target.{is_foreign, is_refused, permitted_target, meant, names, resolving, is_told_resolver, target_of, LeadsTypesAlike};
ghost use Rattle.source_io.specs.Resolvers.{AnswersKindsAlike};

use graph_errors::{Resolution, ResolutionError, ResolutionResolved};
use semver_npm::PackageNv;
use source_io::{JsrUrlProvider, Resolver};
use spec_base::{
    Boxed, ModuleSpecifier, Range, Refusal, ResolutionKind, ResolveError, Text, resolve_import,
};
use std::alloc::{AllocError, Global};

/// What resolves the texts of imports.
#[derive(Drop)]
pub struct Targets<'a, U: JsrUrlProvider, R: Resolver> {
    pub alloc: Global,
    /// What tells which URLs name versions of packages.
    pub urls: &'a U,
    pub resolver: Option<&'a R>,
}

impl<U: JsrUrlProvider, R: Resolver> Targets<'_, U, R> {
    fn answer(
        &self,
        text: &str,
        range: &Range,
        kind: ResolutionKind,
    ) -> Result<ModuleSpecifier, Refusal<ResolveError>>
        ensures { is_told_resolver R.is_told self.now.resolver ≡ true
            → Answers result ((meant R.meaning self.now.resolver).resolve text.now range.now kind) }
    {
        match self.resolver {
            Some(resolver) => resolver.resolve(self.alloc, text, range, kind),
            None => match resolve_import(self.alloc, text, &range.specifier) {
                Ok(specifier) => Ok(specifier),
                Err(Refusal::Memory) => Err(Refusal::Memory),
                Err(Refusal::Is(error)) => Err(Refusal::Is(ResolveError::Specifier(error))),
            },
        }
    }

    fn answer_by_attribute(
        &self,
        text: &str,
        range: &Range,
        kind: ResolutionKind,
        attribute: Option<&Text>,
    ) -> Result<Option<Result<ModuleSpecifier, ResolveError>>, AllocError>
        ensures { is_told_resolver R.is_told self.now.resolver ≡ true
            → IfOk result
            (λ answer. answer
            ≡ option_and_then
            ((meant R.meaning self.now.resolver).by_attribute text.now range.now kind)
            (option_copied attribute.entry)) }
    {
        match (self.resolver, attribute) {
            (Some(resolver), Some(attribute)) => resolver.resolve_attribute_type_import(
                self.alloc,
                text,
                range,
                kind,
                attribute.as_str(),
            ),
            _ => Ok(None),
        }
    }

    // Whether a URL names this version of a package.
    fn names(&self, specifier: &ModuleSpecifier, nv: &PackageNv) -> Result<bool, AllocError>
        ensures { IfOk result
            (λ b. b ≡ names (U.meaning self.now.urls.now).nv_of specifier.now nv.now) }
    {
        match self.urls.package_url_to_nv(self.alloc, specifier)? {
            Some(named) => Ok(*nv == named),
            None => Ok(false),
        }
    }

    // Whether a target names a version of a package that the referrer's URL doesn't name.
    fn is_foreign(
        &self,
        referrer: &ModuleSpecifier,
        target: &ModuleSpecifier,
    ) -> Result<bool, AllocError>
        ensures { IfOk result
            (λ b. b ≡ is_foreign (U.meaning self.now.urls.now).nv_of referrer.now target.now) }
    {
        match self.urls.package_url_to_nv(self.alloc, target)? {
            Some(nv) => {
                let is_own = self.names(referrer, &nv)?;
                Ok(!is_own)
            }
            None => Ok(false),
        }
    }

    fn is_refused(
        &self,
        kind: ResolutionKind,
        referrer: &ModuleSpecifier,
        target: &ModuleSpecifier,
    ) -> Result<bool, AllocError>
        ensures { IfOk result
            (λ b. b ≡ is_refused (U.meaning self.now.urls.now).nv_of kind referrer.now target.now) }
    {
        match kind {
            ResolutionKind::Types => self.is_foreign(referrer, target),
            ResolutionKind::Execution => Ok(false),
        }
    }

    // A target of a text, where it is permitted.
    fn led(
        &self,
        range: Range,
        kind: ResolutionKind,
        specifier: ModuleSpecifier,
    ) -> Result<Resolution, AllocError>
        ensures { IfOk result
            (λ r. r ≡ permitted_target (U.meaning self.now.urls.now).nv_of range kind specifier) }
    {
        if self.is_refused(kind, &range.specifier, &specifier)? {
            let error = ResolutionError::InvalidJsrHttpsTypesImport { specifier, range };
            Ok(Resolution::Err(Boxed::new(self.alloc, error)?))
        } else {
            let resolved = ResolutionResolved { specifier, range };
            Ok(Resolution::Ok(Boxed::new(self.alloc, resolved)?))
        }
    }

    // Whether it is known that each text leads to one place for its code and for its types.
    fn answers_kinds_alike(&self) -> bool
        ensures { is_told_resolver R.is_told self.now.resolver ≡ true → result ≡ true
            → AnswersKindsAlike (meant R.meaning self.now.resolver) }
    {
        match self.resolver {
            Some(resolver) => resolver.answers_kinds_alike(),
            None => true,
        }
    }

    /// Whether it is known that a text leads for its types to where it leads for its code, which is told, without resolving it
    /// again. The only refusal is want of memory.
    pub(crate) fn leads_types_alike(
        &self,
        referrer: &ModuleSpecifier,
        code: &Resolution,
    ) -> Result<bool, AllocError>
        ensures { is_told_resolver R.is_told self.now.resolver ≡ true
            → IfOk result (λ alike. alike ≡ true
            → LeadsTypesAlike (resolving U.meaning R.meaning self.now) referrer.now code.now) }
    {
        if !self.answers_kinds_alike() {
            return Ok(false);
        }
        match code.maybe_specifier() {
            Some(target) => {
                let is_foreign = self.is_foreign(referrer, target)?;
                Ok(!is_foreign)
            }
            None => Ok(false),
        }
    }

    /// Where a text leads from a range, for its code or its types, imported with an attribute `type` or with
    /// none. What the resolver answers by the attribute stands; else a target for types that names a version
    /// of a package, and not the one that the range's own specifier names, is the error
    /// `InvalidJsrHttpsTypesImport`. The only refusal is want of memory.
    pub fn target(
        &self,
        text: &str,
        range: Range,
        kind: ResolutionKind,
        attribute: Option<&Text>,
    ) -> Result<Resolution, AllocError>
        ensures { is_told_resolver R.is_told self.now.resolver ≡ true
            → IfOk result (λ r. r
            ≡ target_of (resolving U.meaning R.meaning self.now) text.now range kind
            (option_copied attribute.entry)) }
    {
        if let Some(answer) = self.answer_by_attribute(text, &range, kind, attribute)? {
            return Resolution::from_resolve_result(self.alloc, answer, text, range);
        }
        match self.answer(text, &range, kind) {
            Ok(specifier) => self.led(range, kind, specifier),
            Err(Refusal::Memory) => Err(AllocError),
            Err(Refusal::Is(error)) => {
                Resolution::from_resolve_result(self.alloc, Err(error), text, range)
            }
        }
    }
}
