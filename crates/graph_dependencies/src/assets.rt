// Dependencies on modules that are taken as they are, without being run.
ghost use Rattle.std.specs.Prelude.{◌≡◌, option_copied};
ghost use Rattle.std.specs.List.{list_all};
ghost use Rattle.graph_dependencies.specs.Assets.{takes_asset, all_take_assets, first_source_phase, source_phase_of};

use crate::dependency::{Dependency, Import};
use spec_base::Range;

fn takes_asset(import: &Import) -> bool
    ensures { result ≡ takes_asset «import».now }
{
    import.attributes.has_asset() || import.kind.is_source_phase()
}

fn all_assets(imports: &[Import]) -> bool
    ensures { result ≡ list_all takes_asset imports.now }
{
    for one in imports {
        if !takes_asset(one) {
            return false;
        }
    }
    true
}

#[tactic(auto, unfolding(crate::specs::Assets::first_source_phase))]
fn first_source_phase(imports: &[Import]) -> Option<&Range>
    ensures { option_copied result ≡ first_source_phase imports.now }
{
    for one in imports {
        if one.kind.is_source_phase() {
            return Some(&one.specifier_range);
        }
    }
    None
}

impl Dependency {
    /// Whether all imports take the module as it is, without running it: those with the attribute `type` of
    /// a text, of bytes or of CSS, and those in the source phase.
    pub fn is_asset(&self) -> bool
        ensures { result ≡ all_take_assets self.now }
    {
        all_assets(self.imports.as_slice())
    }

    /// The range of the first import in the source phase.
    pub fn source_phase(&self) -> Option<&Range>
        ensures { option_copied result ≡ source_phase_of self.now }
    {
        first_source_phase(self.imports.as_slice())
    }
}
