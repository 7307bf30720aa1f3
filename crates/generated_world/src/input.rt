// The input that a generator makes.
ghost use Rattle.std.specs.Prelude.{◌≡◌, IfOk};
ghost use Rattle.generated_world.specs.Generated.{generated, input_by, jsr_settings, world_by};

use crate::generation::{Generation, all_modules};
use crate::module_urls::module_url;
use graph_dependencies::GraphKind;
use registry_urls::DefaultJsrUrlProvider;
use shared_items::SharedItems;
use source_io::{DEFAULT_MAX_REDIRECTS, JsxDefaults, World};
use spec_base::{Items, SortedTexts};
use std::alloc::{AllocError, Global};
use world_file::{Input, NewestDates, RegistrySettings, Settings};

const NO_SETTINGS: Settings = Settings {
    locker: false,
    is_dynamic: false,
    skip_dynamic_deps: false,
    unstable_bytes_imports: false,
    unstable_css_imports: false,
    unstable_config_imports: false,
    prefer_cached_jsr_versions: false,
};

// The registry JSR, without a limit on dates.
fn jsr_settings(alloc: Global) -> Result<RegistrySettings, AllocError>
    ensures { IfOk result (λ registry. registry ≡ jsr_settings) }
{
    let provider = DefaultJsrUrlProvider::new(alloc)?;
    Ok(RegistrySettings {
        provider,
        passthrough_jsr: false,
        newest: NewestDates {
            date: None,
            exclude: Items::new(alloc),
            exclude_prefixes: Items::new(alloc),
            prefix_dates: SortedTexts::new(alloc),
        },
    })
}

// A world that answers what was generated alone.
fn world_by(alloc: Global, generation: Generation) -> Result<World, AllocError>
    ensures { IfOk result (λ world. world ≡ world_by generation) }
{
    let Generation {
        answers,
        infos,
        state: _,
    } = generation;
    let infos = SharedItems::new(infos.into_vec())?;
    Ok(World {
        answers,
        infos,
        resolutions: Items::new(alloc),
        types: Items::new(alloc),
        jsx: JsxDefaults {
            source: None,
            types: None,
            module: None,
        },
        cache_info: Items::new(alloc),
        tree: Items::new(alloc),
        remote_sums: Items::new(alloc),
        package_sums: Items::new(alloc),
        max_redirects: DEFAULT_MAX_REDIRECTS,
        verifies: false,
        reads_data: false,
    })
}

// The input with the world of so many modules that were generated.
fn input_by(alloc: Global, count: u32, generation: Generation) -> Result<Input, AllocError>
    ensures { IfOk result (λ input. input ≡ input_by count generation) }
{
    let world = world_by(alloc, generation)?;
    let registry = jsr_settings(alloc)?;
    let mut roots = Items::new(alloc);
    roots.push(module_url(alloc, 0)?)?;
    Ok(Input {
        roots,
        imports: Items::new(alloc),
        kind: GraphKind::All,
        world,
        arrival: Items::new(alloc),
        fail_next: Items::new(alloc),
        max_loads: 2 * u64::from(count),
        settings: NO_SETTINGS,
        registry,
        npm: None,
    })
}

/// The input of a build over a world of `count` modules, drawn by a linear congruential generator that begins with `start`. The
/// only refusal is want of memory.
///
/// A draw sets the state x to x * 1103515245 + 12345 modulo 2^32 and gives x / 65536 modulo 32768. The module of a number from 0
/// on is `file:///m/N.js`, and its text is N. It imports `./(N+1).js` first, where there is such a module; then a draw modulo 4
/// says how many more imports follow, each of `./M.js`, where M is a draw modulo `count`. Import K of a module, from 0, stands on
/// line K. Where N modulo 7 is 3, `file:///m/N.js` redirects to `file:///m/rN.js`, which is the module. The root is the module
/// of number 0, the graph is of the kind `All`, and twice as many questions may be put as there are modules.
#[tactic(auto, unfolding(crate::specs::Generated::generated))]
pub fn generated(alloc: Global, start: u32, count: u32) -> Result<Input, AllocError>
    ensures { IfOk result (λ input. input ≡ generated start count) }
{
    let generation = all_modules(alloc, start, count)?;
    input_by(alloc, count, generation)
}
