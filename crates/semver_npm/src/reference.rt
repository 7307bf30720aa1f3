// References to packages: what a `jsr:` or an `npm:` specifier names.
ghost use Rattle.std.specs.Prelude.{◌≡◌, ◌<◌, ◌≤◌, IfOk, drop, length, option_copied, slice_index, string_bytes};
ghost use Rattle.std.specs.List.{after_first, before_first, position_or_len};
ghost use Rattle.url.specs.Parts.{serialize};
ghost use Rattle.spec_base.specs.Refusal.{Answers};
ghost use Rattle.spec_base.specs.declared.refusal.Refusal.TheVariants.{Is};
ghost use Rattle.semver_npm.specs.ReferenceGrammar.{IsJsr, IsNpm};
ghost use Rattle.semver_npm.specs.References.{after_end, after_name, by_body, by_plain_name, by_requirement, by_scoped_name, ends_name, export_name, is_slash, jsr_reference, npm_reference, sub_path_of, without_slash};
ghost use Rattle.semver_npm.specs.declared.npm_error.PackageReqReferenceParseError.TheVariants.{NoName};

use crate::npm_error::PackageReqReferenceParseError;
use crate::package::{PackageNv, PackageReq};
use crate::requirement::VersionReq;
use spec_base::{ModuleSpecifier, Refusal, Text};
use std::alloc::{AllocError, Global};

/// A package by a requirement, and a path in it.
#[derive(Clone, Debug, PartialEq, Eq, Drop)]
pub struct PackageReqReference {
    pub req: PackageReq,
    pub sub_path: Option<Text>,
}

impl PackageReqReference {
    /// A copy.
    pub fn try_clone(&self) -> Result<PackageReqReference, AllocError>
        ensures { IfOk result (λ reference. reference ≡ self.now) }
    {
        self.clone()
    }
}

/// A version of a package, and a path in it.
#[derive(Clone, Debug, PartialEq, Eq, Drop)]
pub struct PackageNvReference {
    pub nv: PackageNv,
    pub sub_path: Option<Text>,
}

impl PackageNvReference {
    /// A copy.
    pub fn try_clone(&self) -> Result<PackageNvReference, AllocError>
        ensures { IfOk result (λ reference. reference ≡ self.now) }
    {
        self.clone()
    }
}

// The number of bytes up to an `@` or a `/`.
#[tactic(auto, using(crate::proofs::ReferenceLemmas::first_is))]
fn name_end(text: &[u8]) -> usize
    ensures value { result ≡ position_or_len ends_name text.now }
    ensures within { result ≤ length text.now }
    ensures ascii { result < length text.now → slice_index text.now result < 128 }
{
    for (i, b) in text.iter().enumerate() {
        if *b == b'@' || *b == b'/' {
            return i;
        }
    }
    text.len()
}

// The name at the front.
fn name_of(text: &str) -> &str
    ensures { result.now ≡ before_first ends_name text.now }
{
    &text[..name_end(text.as_bytes())]
}

// What stands after the name at the front.
fn rest_of(text: &str) -> &str
    ensures { result.now ≡ after_end text.now }
{
    &text[name_end(text.as_bytes())..]
}

// The text up to the first slash.
fn before_slash(text: &str) -> &str
    ensures { result.now ≡ before_first is_slash text.now }
{
    match text.split_once('/') {
        Some((front, _)) => front,
        None => text,
    }
}

// What stands after the first slash.
fn after_slash(text: &str) -> &str
    ensures { result.now ≡ after_first is_slash text.now }
{
    match text.split_once('/') {
        Some((_, back)) => back,
        None => "",
    }
}

// The text without one slash in front.
fn without_slash(text: &str) -> &str
    ensures { result.now ≡ without_slash text.now }
{
    if text.starts_with("/") {
        &text[1..]
    } else {
        text
    }
}

// A sub path, where it isn't empty.
fn sub_path(alloc: Global, path: &str) -> Result<Option<Text>, AllocError>
    ensures { IfOk result (λ p. p ≡ sub_path_of path.now) }
{
    if path.is_empty() {
        Ok(None)
    } else {
        Ok(Some(Text::from_str(alloc, path)?))
    }
}

// The reference of a name and a requirement; the whole specifier's text goes into a refusal.
fn by_requirement(
    alloc: Global,
    text: &str,
    name: Text,
    requirement: &str,
    path: &str,
) -> Result<PackageReqReference, Refusal<PackageReqReferenceParseError>>
    ensures { Answers result (by_requirement text.now name requirement.now path.now) }
{
    match VersionReq::parse_from_specifier(alloc, requirement) {
        Ok(version_req) => {
            let sub_path = sub_path(alloc, path)?;
            let req = PackageReq { name, version_req };
            Ok(PackageReqReference { req, sub_path })
        }
        Err(Refusal::Memory) => Err(Refusal::Memory),
        Err(Refusal::Is(_)) => {
            let text = Text::from_str(alloc, text)?;
            Err(Refusal::Is(PackageReqReferenceParseError::BadVersion { text }))
        }
    }
}

// The reference of a name, and what stands after it.
fn after_name(
    alloc: Global,
    text: &str,
    name: Text,
    rest: &str,
) -> Result<PackageReqReference, Refusal<PackageReqReferenceParseError>>
    ensures { Answers result (after_name text.now name rest.now) }
{
    if rest.starts_with("@") {
        let after = &rest[1..];
        by_requirement(alloc, text, name, before_slash(after), after_slash(after))
    } else {
        by_requirement(alloc, text, name, "*", after_slash(rest))
    }
}

fn no_name(alloc: Global, text: &str) -> Refusal<PackageReqReferenceParseError>
    ensures { (e : _) → result ≡ Is e → e ≡ NoName text.now }
{
    match Text::from_str(alloc, text) {
        Ok(text) => Refusal::Is(PackageReqReferenceParseError::NoName { text }),
        Err(_) => Refusal::Memory,
    }
}

// A name without a scope.
fn by_plain_name(
    alloc: Global,
    text: &str,
    body: &str,
) -> Result<PackageReqReference, Refusal<PackageReqReferenceParseError>>
    ensures { Answers result (by_plain_name text.now body.now) }
{
    let name = name_of(body);
    if name.is_empty() {
        return Err(no_name(alloc, text));
    }
    let name = Text::from_str(alloc, name)?;
    after_name(alloc, text, name, rest_of(body))
}

// A name in a scope.
fn by_scoped_name(
    alloc: Global,
    text: &str,
    body: &str,
) -> Result<PackageReqReference, Refusal<PackageReqReferenceParseError>>
    ensures { Answers result (by_scoped_name text.now body.now) }
{
    let scope = before_slash(body);
    let after = after_slash(body);
    let name = name_of(after);
    if scope.len() == 1 || name.is_empty() {
        return Err(no_name(alloc, text));
    }
    let name = Text::from(format!(in alloc; "{scope}/{name}")?);
    after_name(alloc, text, name, rest_of(after))
}

// What stands after the scheme.
fn by_body(
    alloc: Global,
    text: &str,
    may_be_plain: bool,
    body: &str,
) -> Result<PackageReqReference, Refusal<PackageReqReferenceParseError>>
    ensures { Answers result (by_body text.now may_be_plain body.now) }
{
    if body.starts_with("@") {
        by_scoped_name(alloc, text, body)
    } else if may_be_plain {
        by_plain_name(alloc, text, body)
    } else {
        Err(no_name(alloc, text))
    }
}

/// What a `jsr:` specifier names.
#[derive(Clone, Debug, PartialEq, Eq, Drop)]
pub struct JsrPackageReqReference {
    inner: PackageReqReference,
}

impl JsrPackageReqReference {
    /// The reference that a specifier is: `jsr:`, an optional `/`, `@scope/name`, an optional `@` with a
    /// requirement, and an optional `/` with a path. A missing requirement counts as `*`, an empty path
    /// as none.
    ///
    /// `NotPrefixed` comes exactly where the scheme is another, `NoName` where a part of the name is
    /// missing or empty, and `BadVersion` where no requirement follows the `@`.
    pub fn from_specifier(
        alloc: Global,
        specifier: &ModuleSpecifier,
    ) -> Result<JsrPackageReqReference, Refusal<PackageReqReferenceParseError>>
        ensures value { Answers result (jsr_reference (serialize specifier.now)) }
        ensures grammar { IsJsr result (serialize specifier.now) }
    {
        let text = specifier.as_str();
        if !text.starts_with("jsr:") {
            let text = Text::from_str(alloc, text)?;
            return Err(Refusal::Is(PackageReqReferenceParseError::NotPrefixed { text }));
        }
        let inner = by_body(alloc, text, false, without_slash(&text[4..]))?;
        Ok(JsrPackageReqReference { inner })
    }

    /// The package.
    pub fn req(&self) -> &PackageReq
        ensures { result.now ≡ self.now.inner.req }
    {
        &self.inner.req
    }

    /// The path in the package.
    pub fn sub_path(&self) -> Option<&str>
        ensures { option_copied result ≡ self.now.inner.sub_path }
    {
        match &self.inner.sub_path {
            Some(path) => Some(path.as_str()),
            None => None,
        }
    }

    /// The parts, with no copy.
    pub fn into_inner(self) -> PackageReqReference
        ensures { result ≡ self.inner }
    {
        let JsrPackageReqReference { inner } = self;
        inner
    }

    /// A copy.
    pub fn try_clone(&self) -> Result<JsrPackageReqReference, AllocError>
        ensures { IfOk result (λ reference. reference ≡ self.now) }
    {
        self.clone()
    }
}

/// What an `npm:` specifier names.
#[derive(Clone, Debug, PartialEq, Eq, Drop)]
pub struct NpmPackageReqReference {
    inner: PackageReqReference,
}

impl NpmPackageReqReference {
    /// The reference that a specifier is: `npm:`, an optional `/`, `@scope/name` or `name`, an optional
    /// `@` with a requirement, and an optional `/` with a path. A missing requirement counts as `*`, an
    /// empty path as none.
    ///
    /// `NotPrefixed` comes exactly where the scheme is another, `NoName` where a part of the name is
    /// missing or empty, and `BadVersion` where no requirement follows the `@`.
    pub fn from_specifier(
        alloc: Global,
        specifier: &ModuleSpecifier,
    ) -> Result<NpmPackageReqReference, Refusal<PackageReqReferenceParseError>>
        ensures value { Answers result (npm_reference (serialize specifier.now)) }
        ensures grammar { IsNpm result (serialize specifier.now) }
    {
        let text = specifier.as_str();
        if !text.starts_with("npm:") {
            let text = Text::from_str(alloc, text)?;
            return Err(Refusal::Is(PackageReqReferenceParseError::NotPrefixed { text }));
        }
        let inner = by_body(alloc, text, true, without_slash(&text[4..]))?;
        Ok(NpmPackageReqReference { inner })
    }

    /// The package.
    pub fn req(&self) -> &PackageReq
        ensures { result.now ≡ self.now.inner.req }
    {
        &self.inner.req
    }

    /// The path in the package.
    pub fn sub_path(&self) -> Option<&str>
        ensures { option_copied result ≡ self.now.inner.sub_path }
    {
        match &self.inner.sub_path {
            Some(path) => Some(path.as_str()),
            None => None,
        }
    }

    /// The parts, with no copy.
    pub fn into_inner(self) -> PackageReqReference
        ensures { result ≡ self.inner }
    {
        let NpmPackageReqReference { inner } = self;
        inner
    }

    /// A copy.
    pub fn try_clone(&self) -> Result<NpmPackageReqReference, AllocError>
        ensures { IfOk result (λ reference. reference ≡ self.now) }
    {
        self.clone()
    }
}

/// A version of a JSR package, and a path in it.
#[derive(Clone, Debug, PartialEq, Eq, Drop)]
pub struct JsrPackageNvReference {
    inner: PackageNvReference,
}

impl JsrPackageNvReference {
    /// The reference of its parts.
    pub fn new(inner: PackageNvReference) -> JsrPackageNvReference
        ensures { result.inner ≡ inner }
    {
        JsrPackageNvReference { inner }
    }

    /// The package's version.
    pub fn nv(&self) -> &PackageNv
        ensures { result.now ≡ self.now.inner.nv }
    {
        &self.inner.nv
    }

    /// The parts, with no copy.
    pub fn into_inner(self) -> PackageNvReference
        ensures { result ≡ self.inner }
    {
        let JsrPackageNvReference { inner } = self;
        inner
    }

    /// The export that is referred to: `.` without a path, else `./` and the path.
    pub fn export_name(&self, alloc: Global) -> Result<String, AllocError>
        ensures { IfOk result (λ name. string_bytes name ≡ export_name self.now.inner.sub_path) }
    {
        match &self.inner.sub_path {
            Some(path) => Ok(format!(in alloc; "./{path}")?),
            None => String::from_str(alloc, "."),
        }
    }

    /// A copy.
    pub fn try_clone(&self) -> Result<JsrPackageNvReference, AllocError>
        ensures { IfOk result (λ reference. reference ≡ self.now) }
    {
        self.clone()
    }
}
