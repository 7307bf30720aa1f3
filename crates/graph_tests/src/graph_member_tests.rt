// Members of workspaces as versions of packages.
use crate::specifiers::url;
use graph_core::WorkspaceMember;
use semver_npm::{PlainVersion, parse_standard};
use spec_base::{Text, TextMap};
use std::alloc::Global;
use std::test::Fail;

// A member of a workspace with one export and this version.
fn member(alloc: Global, version: Option<PlainVersion>) -> Result<WorkspaceMember, Fail> {
    let base = url(alloc, "file:///w/")?;
    let name = Text::from_str(alloc, "@a/b")?;
    let mut exports = TextMap::new(alloc);
    exports.insert(
        String::from_str(alloc, ".")?,
        Text::from_str(alloc, "./mod.ts")?,
    )?;
    Ok(WorkspaceMember {
        base,
        name,
        version,
        exports,
    })
}

// The version of a package that a member is.
fn nv_text(alloc: Global, member: &WorkspaceMember) -> Result<String, Fail> {
    let nv = member.as_nv()?;
    Ok(format!(in alloc; "{nv}")?)
}

// The same of a copy.
fn copied_nv_text(alloc: Global, member: &WorkspaceMember) -> Result<String, Fail> {
    let copy = member.try_clone()?;
    nv_text(alloc, &copy)
}

// Whether a member and its copy are this version of a package.
fn is_nv(alloc: Global, version: Option<PlainVersion>, wanted: &str) -> Result<bool, Fail> {
    let member = member(alloc, version)?;
    let own = nv_text(alloc, &member)?;
    let copied = copied_nv_text(alloc, &member)?;
    Ok(own.as_str() == wanted && copied.as_str() == wanted)
}

#[test]
fn members_are_versions(rt: HostRuntime) -> Result<(), Fail> {
    assert!(rt; is_nv(rt.alloc(), None, "@a/b@0.0.0")?);
    let version = PlainVersion::from(parse_standard(rt.alloc(), "1.2.3-rc.1+5")?);
    assert!(rt; is_nv(rt.alloc(), Some(version), "@a/b@1.2.3-rc.1+5")?);
    Ok(())
}
