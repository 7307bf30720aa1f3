//! Loaders and resolvers, and the worlds that they tell.
//!
//! A builder asks a loader questions and takes their answers, and asks a resolver where the texts of imports
//! lead; what both answer is told, where it can be, by a `World`: finite lists of their answers. The traits
//! say what a loader keeps true of its open questions and its counts, and what a resolver means;
//! `WorldLoader` and `WorldResolver` are those of a world in memory.
#![tactic(auto)]

mod answer_order;
mod answer_places;
mod cache_places;
mod calls;
mod data;
mod fetch;
mod loader;
mod noted_places;
mod purposes;
mod resolution_index;
mod resolver;
mod types;
mod types_index;
mod world;
mod world_loader;
mod world_resolver;

pub use answer_order::{answers_rise, compare_answers};
pub use data::{data_answer, load_data_url};
pub use fetch::{Fetch, WaitingLoader};
pub use loader::{Loader, LoaderCore};
pub use purposes::ensured;
pub use registry_urls::{DefaultJsrUrlProvider, JsrUrlProvider};
pub use resolver::{DEFAULT_JSX_IMPORT_SOURCE_MODULE, Resolver};
pub use source_sums::{HashMapLocker, LoaderChecksum, Locker};
pub use spec_base::{ChecksumIntegrityError, LoadError, ResolveError};
pub use types::{
    Answer, CacheInfo, CacheResponse, CacheSetting, DEFAULT_MAX_REDIRECTS, EnsureCachedResult,
    JsxDefaults, LoadOptions, LoadResponse, LoadResult, NextRefusal, Purpose, Question, Ticket,
    World, WorldResolution,
};
pub use world::listed_or_read;
pub use world_loader::WorldLoader;
pub use world_resolver::WorldResolver;
