// A law of the definitions, as the contract of a function that does nothing.
ghost use Rattle.std.specs.Prelude.{◌≡◌, List, ℕ, Some};
ghost use Rattle.semver_npm.specs.declared.package.PackageReq.{PackageReq};
ghost use Rattle.world_file.specs.WorldNpm.{IsPackageReq, package_req};

/// A text is read as the requirement of a package exactly where it is a name as in an `npm:` specifier, `@` and a requirement
/// (npm's range grammar, or a tag).
pub fn reads_requirements_of_packages()
    ensures sound { (text : List ℕ) (req : PackageReq) → package_req text ≡ Some req
        → IsPackageReq req text }
    ensures complete { (req : PackageReq) (text : List ℕ) → IsPackageReq req text
        → package_req text ≡ Some req }
{}
