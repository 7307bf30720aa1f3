// What a world file says of the registry of packages.
ghost use Rattle.std.specs.Prelude.{◌≡◌, [], IfOk, map, option_map};
ghost use Rattle.json_documents.specs.Documents as documents;
ghost use Rattle.spec_base.specs.Refusal.{Reads};
ghost use Rattle.world_file.specs.WorldRegistry.{IsLimit, dated, names_from, newest_dates, no_newest, provider_at, provider_of, registry_of};

use json_documents::Json;
use json_forms::{Form, Misfit, has_names, optional, or_default, or_empty};
use pkg_versions::PlainTimestamp;
use registry_urls::{DefaultJsrUrlProvider, default_jsr_url, is_web_url};
use spec_base::{Items, ModuleSpecifier, Refusal, SortedTexts, Text};
use std::alloc::{AllocError, Global};
use version_dates::{NewestDependencyDate, NewestDependencyDateOptions, PrefixDate, SortedSet};

/// The dates that the versions of packages must be below, and the packages that they don't bind.
#[derive(Debug, Drop)]
pub struct NewestDates {
    /// That of a package that no prefix names. None sets no limit.
    pub date: Option<PlainTimestamp>,
    /// Packages whose versions count whatever their date.
    pub exclude: Items<Text>,
    /// Beginnings of the names of such packages.
    pub exclude_prefixes: Items<Text>,
    /// Those of packages by beginnings of their names, of which the longest counts.
    pub prefix_dates: SortedTexts<PlainTimestamp>,
}

impl NewestDates {
    // No limit is set.
    fn none(alloc: Global) -> NewestDates
        ensures { result ≡ no_newest }
    {
        NewestDates {
            date: None,
            exclude: Items::new(alloc),
            exclude_prefixes: Items::new(alloc),
            prefix_dates: SortedTexts::new(alloc),
        }
    }

    /// The limit as the resolver of versions takes it. The only refusal is want of memory.
    pub fn to_options(&self, alloc: Global) -> Result<NewestDependencyDateOptions, AllocError>
        ensures { IfOk result (IsLimit self.now) }
    {
        let exclude_jsr_pkgs = sorted(alloc, self.exclude.as_slice())?;
        let exclude_jsr_pkg_prefixes = self.exclude_prefixes.try_clone()?;
        let prefix_dates = limits(alloc, &self.prefix_dates)?;
        Ok(NewestDependencyDateOptions {
            date: limit(&self.date),
            exclude_jsr_pkgs,
            exclude_jsr_pkg_prefixes,
            prefix_dates,
        })
    }

    /// A copy. The only refusal is want of memory.
    pub fn try_clone(&self) -> Result<NewestDates, AllocError>
        ensures { IfOk result (λ copy. copy ≡ self.now) }
    {
        let date = self.date.clone()?;
        let exclude = self.exclude.try_clone()?;
        let exclude_prefixes = self.exclude_prefixes.try_clone()?;
        let prefix_dates = self.prefix_dates.try_clone()?;
        Ok(NewestDates {
            date,
            exclude,
            exclude_prefixes,
            prefix_dates,
        })
    }
}

fn limit(date: &Option<PlainTimestamp>) -> Option<NewestDependencyDate>
    ensures { option_map (λ limit. limit.0) result ≡ date.now }
{
    match date {
        Some(date) => Some(NewestDependencyDate(date.as_instant())),
        None => None,
    }
}

// The limits by the beginnings of names, in the order of these.
fn limits(
    alloc: Global,
    dates: &SortedTexts<PlainTimestamp>,
) -> Result<Items<PrefixDate>, AllocError>
    ensures { IfOk result (λ found. map dated found ≡ dates.now) }
{
    let mut found = Items::new(alloc);
    for (key, at) in dates.as_map().iter() {
        let prefix = Text::from_str(alloc, key.as_str())?;
        let date = NewestDependencyDate(at.as_instant());
        found.push(PrefixDate { prefix, date })?;
    }
    Ok(found)
}

fn sorted(alloc: Global, names: &[Text]) -> Result<SortedSet<Text>, AllocError>
    ensures { IfOk result (λ found. found ≡ names_from [] names.now) }
{
    let mut found = SortedSet::new(alloc);
    for name in names {
        found.insert(name.try_clone()?)?;
    }
    Ok(found)
}

impl Form for NewestDates {
    ghost form = { newest_dates };

    fn read(alloc: Global, value: &Json<'_, '_>) -> Result<NewestDates, Refusal<Misfit>> {
        if !has_names(
            value,
            &["date", "exclude", "excludePrefixes", "prefixDates"],
        ) {
            return Err(Refusal::Is(Misfit));
        }
        let date = optional(alloc, value, "date")?;
        let exclude = or_empty(alloc, value, "exclude")?;
        let exclude_prefixes = or_empty(alloc, value, "excludePrefixes")?;
        let prefix_dates = or_default(alloc, value, "prefixDates", SortedTexts::new(alloc))?;
        Ok(NewestDates {
            date,
            exclude,
            exclude_prefixes,
            prefix_dates,
        })
    }
}

/// Where packages are, and which of their versions count.
#[derive(Debug)]
pub struct RegistrySettings {
    /// The registry, whose URL is http or https.
    pub provider: DefaultJsrUrlProvider,
    /// Whether `jsr:` specifiers are left as they are.
    pub passthrough_jsr: bool,
    pub newest: NewestDates,
}

// So that its drop is one call at each way out of what owns it.
impl Drop for RegistrySettings {
    fn drop(self) {
        let RegistrySettings {
            provider: _,
            passthrough_jsr: _,
            newest: _,
        } = self;
    }
}

impl RegistrySettings {
    /// A copy. The only refusal is want of memory.
    pub fn try_clone(&self) -> Result<RegistrySettings, AllocError>
        ensures { IfOk result (λ copy. copy ≡ self.now) }
    {
        let provider = self.provider.try_clone()?;
        let newest = self.newest.try_clone()?;
        Ok(RegistrySettings {
            provider,
            passthrough_jsr: self.passthrough_jsr,
            newest,
        })
    }
}

fn provider_at(url: ModuleSpecifier) -> Result<DefaultJsrUrlProvider, Refusal<Misfit>>
    ensures { Reads result (provider_at url) }
{
    if is_web_url(&url) {
        Ok(DefaultJsrUrlProvider::with_url(url))
    } else {
        Err(Refusal::Is(Misfit))
    }
}

fn read_provider(
    alloc: Global,
    value: &Json<'_, '_>,
) -> Result<DefaultJsrUrlProvider, Refusal<Misfit>>
    ensures { Reads result (provider_of (documents.view value.now)) }
{
    let url = or_default(alloc, value, "registry", default_jsr_url(alloc)?)?;
    provider_at(url)
}

/// What a world file says of the registry of packages, each part by its default where it is absent.
pub fn read_registry(
    alloc: Global,
    value: &Json<'_, '_>,
) -> Result<RegistrySettings, Refusal<Misfit>>
    ensures { Reads result (registry_of (documents.view value.now)) }
{
    let provider = read_provider(alloc, value)?;
    let passthrough_jsr = or_default(alloc, value, "passthrough_jsr", false)?;
    let newest = or_default(alloc, value, "newest", NewestDates::none(alloc))?;
    Ok(RegistrySettings {
        provider,
        passthrough_jsr,
        newest,
    })
}
