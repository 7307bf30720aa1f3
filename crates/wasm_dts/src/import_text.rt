// The statements that import what a module imports.
ghost use Rattle.std.specs.Prelude.{◌≡◌, [], Some, None, bytes_eq, ◌+◌, ◌<◌, ◌^◌, ◌++◌, length, IfOk, OnOk, string_bytes};
ghost use Rattle.std.specs.Map.{lookup};
ghost use Rattle.wasm_dts.specs.Origins.{with_import, places_from};
ghost use Rattle.wasm_dts.specs.Declarations.{origins_of, numbered, named_import, listed_import, import_statement, import_statements};

use crate::imports::Import;
use crate::writing::comma;
use spec_base::{Items, Text, TextMap};
use std::alloc::{AllocError, Global};

/// A module that imports are from, and what is imported from it.
#[derive(Drop)]
pub struct Origin {
    pub module: Text,
    pub names: Items<Text>,
}

// Modules that imports are from, with the place of each by its name.
#[derive(Drop)]
struct Origins {
    list: Vec<Origin>,
    places: TextMap<usize>,
    ghost in_step: { places ≡ places_from 0 list.items },
}

impl Origins {
    fn new(alloc: Global) -> Origins
        ensures { result.list.items ≡ [] }
    {
        Origins {
            list: Vec::new(alloc),
            places: TextMap::new(alloc),
        }
    }

    // The place of a module.
    fn place_of(&self, name: &str) -> Option<usize>
        ensures { result ≡ lookup (bytes_eq name.now) (places_from 0 self.now.list.items) }
    {
        self.places.get(name).copied()
    }

    // A module that isn't there yet.
    fn with_first(self, alloc: Global, import: &Import) -> Result<Origins, AllocError>
        requires { lookup (bytes_eq import.now.module) (places_from 0 self.list.items) ≡ None }
        ensures { IfOk result (λ all. all.list.items ≡ with_import self.list.items import.now) }
    {
        let Origins {
            mut list,
            mut places,
        } = self;
        let key = import.module.try_clone()?.into_string();
        places.insert(key, list.len())?;
        let mut names = Items::new(alloc);
        names.push(import.name.try_clone()?)?;
        let module = import.module.try_clone()?;
        list.push(Origin { module, names })?;
        Ok(Origins { list, places })
    }

    // One more name from the module at a place.
    fn with_next(self, place: usize, import: &Import) -> Result<Origins, AllocError>
        requires { lookup (bytes_eq import.now.module) (places_from 0 self.list.items)
            ≡ Some place }
        ensures { IfOk result (λ all. all.list.items ≡ with_import self.list.items import.now) }
    {
        let Origins { mut list, places } = self;
        list[place].names.push(import.name.try_clone()?)?;
        Ok(Origins { list, places })
    }

    // One more import.
    fn with(self, alloc: Global, import: &Import) -> Result<Origins, AllocError>
        ensures { IfOk result (λ all. all.list.items ≡ with_import self.list.items import.now) }
    {
        match self.place_of(import.module.as_str()) {
            Some(place) => self.with_next(place, import),
            None => self.with_first(alloc, import),
        }
    }
}

/// The modules that imports are from, in order of first use, each with the names that are imported from it
/// in their order. The only refusal is want of memory.
pub fn origins_of(alloc: Global, imports: &[Import]) -> Result<Vec<Origin>, AllocError>
    ensures { IfOk result (λ origins. origins.items ≡ origins_of imports.now) }
{
    let mut origins = Origins::new(alloc);
    for import in imports {
        origins = origins.with(alloc, import)?;
    }
    let Origins { list, places: _ } = origins;
    Ok(list)
}

fn push_named(out: &mut String, count: u128, name: &str) -> Result<(), AllocError>
    ensures { OnOk result
        (string_bytes out.new ≡ string_bytes out.old ++ named_import count name.now) }
{
    out.push_str("\"")?;
    out.push_str(name)?;
    out.push_str("\" as __deno_wasm_import_")?;
    write!(out, "{count}")?;
    out.push_str("__")
}

fn push_listed(out: &mut String, count: u128, number: usize, name: &str) -> Result<(), AllocError>
    requires { count + number < 2 ^ 128 }
    ensures { OnOk result
        (string_bytes out.new ≡ string_bytes out.old ++ listed_import count number name.now) }
{
    out.push_str(comma(number))?;
    push_named(out, count + number as u128, name)
}

fn push_names(out: &mut String, count: u128, names: &[Text]) -> Result<(), AllocError>
    requires { count + length names.now < 2 ^ 128 }
    ensures { OnOk result (string_bytes out.new
        ≡ string_bytes out.old ++ numbered (listed_import count) 0 names.now) }
{
    for (i, name) in names.iter().enumerate() {
        push_listed(out, count, i, name.as_str())?;
    }
    Ok(())
}

fn push_statement(out: &mut String, count: u128, origin: &Origin) -> Result<(), AllocError>
    requires { count + length origin.now.names < 2 ^ 128 }
    ensures { OnOk result
        (string_bytes out.new ≡ string_bytes out.old ++ import_statement count origin.now) }
{
    out.push_str("import { ")?;
    push_names(out, count, origin.names.as_slice())?;
    out.push_str(" } from \"")?;
    out.push_str(origin.module.as_str())?;
    out.push_str("\";\n")
}

/// Adds one statement for each module, in their order; the names are counted from zero over all of them.
/// The only refusal is want of memory.
pub fn push_imports(out: &mut String, origins: &[Origin]) -> Result<(), AllocError>
    ensures { OnOk result
        (string_bytes out.new ≡ string_bytes out.old ++ import_statements 0 origins.now) }
{
    // A sum of lengths can be more than one length is.
    let mut count: u128 = 0;
    for origin in origins {
        let names = origin.names.len() as u128;
        push_statement(out, count, origin)?;
        count += names;
    }
    Ok(())
}
