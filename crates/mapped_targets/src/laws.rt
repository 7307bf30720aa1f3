// What each source of a world with a map makes.
ghost use Rattle.std.specs.Prelude.{◌≡◌, Bool, List, []};
ghost use Rattle.source_io.specs.declared.types.World.{World};
ghost use Rattle.import_records.specs.Target.{NvOf};
ghost use Rattle.graph_dependencies.specs.declared.graph_kind.GraphKind.{GraphKind};
ghost use Rattle.graph_dependencies.specs.declared.referrer_imports.ReferrerImports.{ReferrerImports};
ghost use Rattle.slot_making.specs.Made.{made_slot};
ghost use Rattle.module_slots.specs.declared.load.LoadContext.{LoadContext};
ghost use Rattle.slot_making.specs.declared.source.Source.{Source};
ghost use Rattle.import_map.specs.declared.map.ImportMap.{ImportMap};
ghost use Rattle.mapped_world.specs.Leads.{HasOwnUrls, map_meaning, mapped_meaning};
ghost use Rattle.mapped_targets.specs.Slots.{HasNoTemplates, IsSourceOf, making_by};

/// Where a world lists no resolutions of its own, its URLs are those of their texts, and no template in it means a file: each source that the
/// world answers makes, with a map, the slot that it makes by a resolver that asks the map alone.
pub fn mapped_slots_are_by_map()
    ensures { (w : World) (imports : List ReferrerImports) (m : ImportMap) (source : Source)
        (c : LoadContext) (nv_of : NvOf) (kind : GraphKind) (skip config : Bool)
        → w.resolutions ≡ []
        → HasOwnUrls w imports
        → HasNoTemplates w
        → IsSourceOf w source
        → made_slot (making_by w (mapped_meaning w imports m) nv_of kind skip config) source c
        ≡ made_slot (making_by w (map_meaning w m) nv_of kind skip config) source c }
{}
