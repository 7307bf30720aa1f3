// Rows of tables, and the packages that their fields tell.
use semver_npm::{PackageNv, PackageReq, PlainVersion, VersionReq, parse_standard};
use spec_base::Text;
use std::alloc::Global;
use std::test::Fail;

/// The field of a row at a place, counted from 0; fields stand apart by `; `.
pub(crate) fn field(row: &str, place: usize) -> &str {
    for (at, part) in row.split("; ").enumerate() {
        if at == place {
            return part;
        }
    }
    ""
}

pub(crate) fn package_req(alloc: Global, name: &str, text: &str) -> Result<PackageReq, Fail> {
    let version_req = VersionReq::parse_from_specifier(alloc, text)?;
    let name = Text::from_str(alloc, name)?;
    Ok(PackageReq { name, version_req })
}

pub(crate) fn package_nv(alloc: Global, name: &str, text: &str) -> Result<PackageNv, Fail> {
    let version = PlainVersion::from(parse_standard(alloc, text)?);
    let name = Text::from_str(alloc, name)?;
    Ok(PackageNv { name, version })
}
