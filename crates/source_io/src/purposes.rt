// What questions are for, and what an answer to a load is for each purpose.
ghost use Rattle.std.specs.Prelude.{◌≡◌, IfOk};
ghost use Rattle.source_io.specs.Answers.{purpose_by, purpose_of, is_ensure, cached, ensured_result, ensured, answer_for};

use crate::types::{
    Answer, CacheResponse, CacheSetting, EnsureCachedResult, LoadResponse, LoadResult, Purpose,
    Question,
};
use std::alloc::AllocError;

impl CacheSetting {
    /// What a question under this setting is for: to keep its module at hand, where it is an asset, and else to load it.
    /// A cache alone keeps nothing at hand that isn't there, so under `Only` an asset is asked for as under `Use`.
    pub fn purpose(self, asset: bool) -> Purpose
        ensures { result ≡ purpose_by asset self }
    {
        match (asset, self) {
            (true, CacheSetting::Only | CacheSetting::Use) => Purpose::EnsureUse,
            (true, CacheSetting::Reload) => Purpose::EnsureReload,
            (false, CacheSetting::Only) => Purpose::LoadOnly,
            (false, CacheSetting::Use) => Purpose::LoadUse,
            (false, CacheSetting::Reload) => Purpose::LoadReload,
        }
    }
}

impl Question {
    /// What it is for.
    pub fn purpose(&self) -> Purpose
        ensures { result ≡ purpose_of self.now }
    {
        self.options.cache_setting.purpose(self.asset)
    }
}

impl Purpose {
    /// Whether it is to keep a module at hand.
    pub fn is_ensure(self) -> bool
        ensures { result ≡ is_ensure self }
    {
        matches!(self, Purpose::EnsureUse | Purpose::EnsureReload)
    }
}

// What is at hand where a load finds this.
fn cached(response: &LoadResponse) -> Result<CacheResponse, AllocError>
    ensures { IfOk result (λ r. r ≡ cached response.now) }
{
    match response {
        LoadResponse::Redirect { specifier } => Ok(CacheResponse::Redirect {
            specifier: specifier.clone()?,
        }),
        _ => Ok(CacheResponse::Cached),
    }
}

fn ensured_result(loaded: &LoadResult) -> Result<EnsureCachedResult, AllocError>
    ensures { IfOk result (λ r. r ≡ ensured_result loaded.now) }
{
    match loaded {
        Ok(Some(response)) => Ok(Ok(Some(cached(response)?))),
        Ok(None) => Ok(Ok(None)),
        Err(error) => Ok(Err(error.clone()?)),
    }
}

/// What a question that keeps a module at hand is answered where a load of it is answered so: a redirect stays one, any
/// other module is at hand, and what is missing or fails stays so. No content is copied. The only error is want of memory.
pub fn ensured(answer: &Answer) -> Result<Answer, AllocError>
    ensures { IfOk result (λ a. a ≡ ensured answer.now) }
{
    match answer {
        Answer::Load(loaded) => Ok(Answer::Ensure(ensured_result(loaded)?)),
        Answer::Ensure(_) => answer.try_clone(),
    }
}

/// An answer to a load as one for a purpose.
pub(crate) fn answer_for(purpose: Purpose, answer: Answer) -> Result<Answer, AllocError>
    ensures { IfOk result (λ a. a ≡ answer_for purpose answer) }
{
    if purpose.is_ensure() {
        ensured(&answer)
    } else {
        Ok(answer)
    }
}
