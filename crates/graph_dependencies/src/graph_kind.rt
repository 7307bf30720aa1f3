// Which part of its modules a graph holds.
ghost use Rattle.std.specs.Prelude.{◌≡◌};
ghost use Rattle.graph_dependencies.specs.Kinds.{include_code, include_types};

/// Which part of its modules a graph holds.
#[derive(Clone, Copy, PartialEq, Eq, Debug)]
pub enum GraphKind {
    /// Code and types.
    All,
    CodeOnly,
    TypesOnly,
}

impl GraphKind {
    /// Whether code is held.
    pub fn include_code(&self) -> bool
        ensures { result ≡ include_code self.now }
    {
        matches!(self, GraphKind::All | GraphKind::CodeOnly)
    }

    /// Whether types are held.
    pub fn include_types(&self) -> bool
        ensures { result ≡ include_types self.now }
    {
        matches!(self, GraphKind::All | GraphKind::TypesOnly)
    }
}

impl Default for GraphKind {
    ghost use Rattle.graph_dependencies.specs.declared.graph_kind.GraphKind.TheVariants.{All};

    ghost is_default = { λ k. k ≡ All };

    fn default() -> GraphKind {
        GraphKind::All
    }
}
