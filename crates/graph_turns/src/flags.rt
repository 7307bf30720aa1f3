// How a build begins, and what it leaves out or allows.

/// How a build begins, and what it leaves out or allows.
#[derive(Clone, Copy, PartialEq, Eq, Debug)]
pub struct Flags {
    /// Whether it begins in the dynamic phase, as that of a dynamic import does.
    pub is_dynamic: bool,
    /// Whether dynamic imports are left out.
    pub skip_dynamic_deps: bool,
    /// Whether the attribute type `bytes` is allowed.
    pub bytes: bool,
    /// Whether the attribute type `css` is allowed.
    pub css: bool,
    /// Whether the attribute types of configuration files are allowed: `yaml`, `toml`, `json5` and `jsonc`.
    pub config: bool,
    /// Whether `jsr:` specifiers stand outside of the graph.
    pub passthrough_jsr: bool,
    /// Whether `npm:` specifiers wait for the end, where an npm resolver is asked about their requirements.
    pub resolves_npm: bool,
    /// Whether versions of packages whose files a cache holds are preferred to others.
    pub prefers_cached_jsr: bool,
}
