// A fetcher whose answers name what was asked.
use source_io::{Answer, CacheInfo, DEFAULT_MAX_REDIRECTS, Fetch, LoadResponse, Question};
use spec_base::ModuleSpecifier;
use std::alloc::AllocError;
use std::sync::atomic::{AtomicU64, Ordering};

/// A fetcher that finds at each specifier a module outside of the graph, under that name. It tells no world.
#[derive(Drop)]
pub struct Echo {
    /// 1 where its next fetch of `file:///b.js` is to find no memory.
    pub short: AtomicU64,
}

impl Fetch for Echo {
    ghost use Rattle.std.specs.Prelude.{None, false};

    ghost world = { λ e. None };

    ghost caches = { λ e. false };

    fn fetch(&self, question: &Question) -> Result<Answer, AllocError> {
        if question.specifier.as_str() == "file:///b.js"
            && self.short.swap(0, Ordering::SeqCst) == 1
        {
            return Err(AllocError);
        }
        let specifier = question.specifier.clone()?;
        Ok(Answer::Load(Ok(Some(LoadResponse::External { specifier }))))
    }

    fn max_redirects(&self) -> usize {
        DEFAULT_MAX_REDIRECTS
    }

    fn cache_info_enabled(&self) -> bool {
        false
    }

    fn get_cache_info(
        &self,
        _specifier: &ModuleSpecifier,
    ) -> Result<Option<CacheInfo>, AllocError> {
        Ok(None)
    }
}
