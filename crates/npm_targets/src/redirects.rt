// Redirects, without those to npm. Nothing here takes memory.
ghost use Rattle.std.specs.Prelude.{◌≡◌, filter, not};
ghost use Rattle.std.specs.BTreeMap.{IsOrdered};
ghost use Rattle.spec_base.specs.Specifier.{specifier_cmp};
ghost use Rattle.npm_targets.specs.Edges.{is_npm};
ghost use Rattle.npm_targets.specs.Graphs.{left_redirects};

use crate::edges::is_npm;
use spec_base::{ModuleSpecifier, SpecifierMap};
use std::alloc::Global;
use std::collections::BTreeMap;
use std::mem;

fn retain_others(redirects: &mut BTreeMap<ModuleSpecifier, ModuleSpecifier>)
    ensures left { redirects.new.entries
        ≡ filter (λ e. not (is_npm e.1)) redirects.old.entries }
    ensures ordered { IsOrdered specifier_cmp redirects.old }
{
    redirects.retain(|_, to| !is_npm(to));
}

/// Takes the redirects to npm out.
pub(crate) fn remove_redirects(alloc: Global, redirects: &mut SpecifierMap<ModuleSpecifier>)
    ensures { redirects.new ≡ left_redirects redirects.old }
{
    let mut map = mem::replace(redirects, SpecifierMap::new(alloc)).into_map();
    retain_others(&mut map);
    *redirects = SpecifierMap::from(map);
}
