// That no version of a package can be picked.
ghost use Rattle.std.specs.Prelude.{◌≡◌, IfOk, Some};
ghost use Rattle.version_dates.specs.ErrorTexts.{not_found_text};

use crate::newest_date::NewestDependencyDate;
use semver_npm::PackageReq;
use std::alloc::AllocError;
use std::fmt;

/// No version of a package meets a requirement.
#[derive(Debug, PartialEq, Eq, Drop)]
pub struct JsrPackageReqNotFoundError {
    pub req: PackageReq,
    /// The limit on dates, where it refused a version that meets the requirement.
    pub newest_dependency_date: Option<NewestDependencyDate>,
}

impl JsrPackageReqNotFoundError {
    /// A copy.
    pub fn try_clone(&self) -> Result<JsrPackageReqNotFoundError, AllocError>
        ensures { IfOk result (λ error. error ≡ self.now) }
    {
        let req = self.req.try_clone()?;
        Ok(JsrPackageReqNotFoundError {
            req,
            newest_dependency_date: self.newest_dependency_date,
        })
    }
}

impl Clone for JsrPackageReqNotFoundError {
    ghost is_clone = { λ error copy. copy ≡ error };

    fn clone(&self) -> Result<JsrPackageReqNotFoundError, AllocError> {
        self.try_clone()
    }
}

impl fmt::Display for JsrPackageReqNotFoundError {
    ghost output = { λ error. Some (not_found_text error) };

    fn fmt<W: fmt::Write>(&self, f: &mut fmt::Formatter<W>) -> fmt::Result {
        let PackageReq { name, version_req } = &self.req;
        match &self.newest_dependency_date {
            Some(limit) => write!(
                f,
                "Could not find version of '{name}' that matches specified version constraint '{version_req}'\n\nA newer matching version was found, but it was not used because it was newer than the specified minimum dependency date of {limit}"
            ),
            None => write!(
                f,
                "Could not find version of '{name}' that matches specified version constraint '{version_req}'"
            ),
        }
    }
}
