// Copies of versions, dependencies and errors, and the parts of references.
use semver_npm::{
    JsrDepPackageReq, JsrPackageNvReference, NpmLoadError, PackageNv, PackageNvReference,
    PackageReq, PlainVersion, VersionReq, parse_standard,
};
use spec_base::{Fault, Text};
use std::alloc::Global;
use std::mem::ManuallyDrop;
use std::test::Fail;

// The version 1.0.0 of `a`.
fn versioned(alloc: Global) -> Result<PackageNv, Fail> {
    let version = PlainVersion::from(parse_standard(alloc, "1.0.0")?);
    let name = Text::from_str(alloc, "a")?;
    Ok(PackageNv { name, version })
}

// Whether the copies of a version, of a reference to it, and of its parts are equal to them. What is made in these tests is left undropped,
// since a drop at each way out of a function is dear to prove.
fn is_copied(reference: &JsrPackageNvReference) -> Result<bool, Fail> {
    let nv = ManuallyDrop::new(reference.nv().try_clone()?);
    let parts = ManuallyDrop::new(reference.try_clone()?.into_inner());
    let again = ManuallyDrop::new(parts.try_clone()?);
    Ok(*nv == *reference.nv() && parts.nv == *nv && *again == *parts)
}

#[test]
fn copies_of_versions(rt: HostRuntime) -> Result<(), Fail> {
    let nv = versioned(rt.alloc())?;
    let parts = PackageNvReference { nv, sub_path: None };
    let reference = ManuallyDrop::new(JsrPackageNvReference::new(parts));
    assert!(rt; is_copied(&*reference)?);
    Ok(())
}

// Any version of `a` from 1.0.0 on.
fn required(alloc: Global) -> Result<PackageReq, Fail> {
    let version_req = VersionReq::parse_from_specifier(alloc, "1")?;
    let name = Text::from_str(alloc, "a")?;
    Ok(PackageReq { name, version_req })
}

#[test]
fn copies_of_dependencies(rt: HostRuntime) -> Result<(), Fail> {
    let req = ManuallyDrop::new(required(rt.alloc())?);
    let dependency = ManuallyDrop::new(JsrDepPackageReq::npm(req.try_clone()?));
    let copy = ManuallyDrop::new(dependency.try_clone()?);
    assert!(rt; copy.req == *req);
    Ok(())
}

fn load_error(alloc: Global) -> Result<NpmLoadError, Fail> {
    let class = Text::from_str(alloc, "Error")?;
    let message = Text::from_str(alloc, "connection reset")?;
    Ok(NpmLoadError::RegistryInfo(Fault { class, message }))
}

#[test]
fn copies_of_load_errors(rt: HostRuntime) -> Result<(), Fail> {
    let error = ManuallyDrop::new(load_error(rt.alloc())?);
    let copy = ManuallyDrop::new(error.try_clone()?);
    assert!(rt; *copy == *error);
    let bare = NpmLoadError::NotSupportedEnvironment;
    assert!(rt; bare.try_clone()? == NpmLoadError::NotSupportedEnvironment);
    Ok(())
}
