// A world: what it answers, and its copies.
ghost use Rattle.std.specs.Prelude.{◌≡◌, IfOk, option_copied};
ghost use Rattle.source_io.specs.Answers.{answer_to, listed_answer, unlisted, listed_or_read, setting_name};
ghost use Rattle.source_io.specs.Resolvers.{no_jsx};

use crate::data::data_answer;
use crate::purposes::answer_for;
use crate::types::{
    Answer, CacheInfo, CacheResponse, CacheSetting, JsxDefaults, LoadOptions, LoadResponse,
    Purpose, Question, World, WorldResolution,
};
use media_types::Headers;
use spec_base::ModuleSpecifier;
use std::alloc::{AllocError, Global};

// A copy of headers.
fn copied_headers(headers: &Option<Headers>) -> Result<Option<Headers>, AllocError>
    ensures { IfOk result (λ copy. copy ≡ headers.now) }
{
    match headers {
        None => Ok(None),
        Some(headers) => Ok(Some(headers.try_clone()?)),
    }
}

impl LoadResponse {
    /// A copy.
    pub fn try_clone(&self) -> Result<LoadResponse, AllocError>
        ensures { IfOk result (λ r. r ≡ self.now) }
    {
        match self {
            LoadResponse::External { specifier } => Ok(LoadResponse::External {
                specifier: specifier.clone()?,
            }),
            LoadResponse::Redirect { specifier } => Ok(LoadResponse::Redirect {
                specifier: specifier.clone()?,
            }),
            LoadResponse::Module {
                content,
                mtime,
                specifier,
                maybe_headers,
            } => {
                let content = content.try_clone()?;
                let maybe_headers = copied_headers(maybe_headers)?;
                Ok(LoadResponse::Module {
                    content,
                    mtime: *mtime,
                    specifier: specifier.clone()?,
                    maybe_headers,
                })
            }
        }
    }
}

impl Clone for LoadResponse {
    ghost is_clone = { λ response copy. copy ≡ response };

    fn clone(&self) -> Result<LoadResponse, AllocError> {
        self.try_clone()
    }
}

impl CacheResponse {
    /// A copy.
    pub fn try_clone(&self) -> Result<CacheResponse, AllocError>
        ensures { IfOk result (λ r. r ≡ self.now) }
    {
        self.clone()
    }
}

impl LoadOptions {
    /// A copy.
    pub fn try_clone(&self) -> Result<LoadOptions, AllocError>
        ensures { IfOk result (λ o. o ≡ self.now) }
    {
        self.clone()
    }
}

impl CacheSetting {
    /// Its name: `only`, `use` or `reload`.
    pub fn as_js_str(&self) -> &'static str
        ensures { result.now ≡ setting_name self.now }
    {
        match self {
            CacheSetting::Only => "only",
            CacheSetting::Use => "use",
            CacheSetting::Reload => "reload",
        }
    }
}

impl Answer {
    /// A copy.
    pub fn try_clone(&self) -> Result<Answer, AllocError>
        ensures { IfOk result (λ a. a ≡ self.now) }
    {
        self.clone()
    }
}

impl Question {
    /// A copy.
    pub fn try_clone(&self) -> Result<Question, AllocError>
        ensures { IfOk result (λ q. q ≡ self.now) }
    {
        self.clone()
    }
}

impl CacheInfo {
    /// A copy.
    pub fn try_clone(&self) -> Result<CacheInfo, AllocError>
        ensures { IfOk result (λ i. i ≡ self.now) }
    {
        self.clone()
    }
}

impl Default for CacheInfo {
    ghost use Rattle.source_io.specs.Answers.{no_info};

    ghost is_default = { λ info. info ≡ no_info };

    /// No path is known.
    fn default() -> CacheInfo {
        CacheInfo { local: None }
    }
}

impl WorldResolution {
    /// A copy.
    pub fn try_clone(&self) -> Result<WorldResolution, AllocError>
        ensures { IfOk result (λ r. r ≡ self.now) }
    {
        self.clone()
    }
}

impl JsxDefaults {
    /// No part is given.
    pub fn none() -> JsxDefaults
        ensures { result ≡ no_jsx }
    {
        JsxDefaults {
            source: None,
            types: None,
            module: None,
        }
    }

    /// A copy.
    pub fn try_clone(&self) -> Result<JsxDefaults, AllocError>
        ensures { IfOk result (λ j. j ≡ self.now) }
    {
        self.clone()
    }
}

impl World {
    /// A copy.
    pub fn try_clone(&self) -> Result<World, AllocError>
        ensures { IfOk result (λ w. w ≡ self.now) }
    {
        let answers = self.answers.try_clone()?;
        let infos = self.infos.try_clone()?;
        let resolutions = self.resolutions.try_clone()?;
        let types = self.types.try_clone()?;
        let jsx = self.jsx.try_clone()?;
        let cache_info = self.cache_info.try_clone()?;
        let tree = self.tree.try_clone()?;
        let remote_sums = self.remote_sums.try_clone()?;
        let package_sums = self.package_sums.try_clone()?;
        Ok(World {
            answers,
            infos,
            resolutions,
            types,
            jsx,
            cache_info,
            tree,
            remote_sums,
            package_sums,
            max_redirects: self.max_redirects,
            verifies: self.verifies,
            reads_data: self.reads_data,
        })
    }

    /// The answer to a question for this purpose, whatever sum it has: the first one listed for the specifier and the
    /// purpose. Where none is listed, it is what a `data:` URL holds, if the world reads these, and else missing; where the
    /// purpose is to keep a module at hand, it is `ensured` of that. `AllocError` comes where there is no memory for the
    /// answer.
    #[tactic(auto, unfolding(crate::specs::Answers::answer_to))]
    pub fn answer_to(
        &self,
        alloc: Global,
        specifier: &ModuleSpecifier,
        purpose: Purpose,
    ) -> Result<Answer, AllocError>
        ensures { IfOk result (λ a. a ≡ answer_to self.now specifier.now purpose) }
    {
        let listed = first_listed(self.answers.as_slice(), specifier, purpose);
        listed_or_read(alloc, self.reads_data, specifier, purpose, listed)
    }
}

// The first listed answer of a specifier and a purpose.
#[tactic(auto, unfolding(crate::specs::Answers::listed_answer))]
fn first_listed<'a>(
    answers: &'a [(ModuleSpecifier, Purpose, Answer)],
    specifier: &ModuleSpecifier,
    purpose: Purpose,
) -> Option<&'a Answer>
    ensures { option_copied result ≡ listed_answer answers.now specifier.now purpose }
{
    for entry in answers {
        if entry.0 == *specifier && entry.1 == purpose {
            return Some(&entry.2);
        }
    }
    None
}

// What a load answers where none is listed.
fn unlisted(
    alloc: Global,
    reads_data: bool,
    specifier: &ModuleSpecifier,
) -> Result<Answer, AllocError>
    ensures { IfOk result (λ a. a ≡ unlisted reads_data specifier.now) }
{
    if reads_data && specifier.scheme() == "data" {
        data_answer(alloc, specifier)
    } else {
        Ok(Answer::Load(Ok(None)))
    }
}

/// A copy of a listed answer; where none is listed, what a `data:` URL holds, if these are read, and else missing, as an
/// answer for the purpose. `AllocError` comes where there is no memory for it.
pub fn listed_or_read(
    alloc: Global,
    reads_data: bool,
    specifier: &ModuleSpecifier,
    purpose: Purpose,
    listed: Option<&Answer>,
) -> Result<Answer, AllocError>
    ensures { IfOk result
        (λ a. a ≡ listed_or_read reads_data specifier.now purpose (option_copied listed.entry)) }
{
    match listed {
        Some(answer) => answer.try_clone(),
        None => answer_for(purpose, unlisted(alloc, reads_data, specifier)?),
    }
}

impl Clone for World {
    ghost is_clone = { λ w copy. copy ≡ w };

    fn clone(&self) -> Result<World, AllocError> {
        self.try_clone()
    }
}
