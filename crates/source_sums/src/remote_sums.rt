// The sums of sources from the network, by their specifiers.
ghost use Rattle.std.specs.Prelude.{◌≡◌, OnOk, OnErr, IfOk};
ghost use Rattle.std.specs.FinMap as finite;
ghost use Rattle.spec_base.specs.Specifier.{specifier_text};
ghost use Rattle.source_sums.specs.Sums.{sums_in};

use crate::loader_checksum::LoaderChecksum;
use spec_base::ModuleSpecifier;
use std::alloc::{AllocError, Global};
use std::collections::HashMap;
use std::marker::Model;

/// Sums of sources from the network, which contracts see as the finite map from the texts of their specifiers.
#[derive(Debug, Drop)]
pub(crate) struct RemoteSums {
    map: HashMap<ModuleSpecifier, LoaderChecksum>,
}

impl Model for RemoteSums {
    ghost use Rattle.source_sums.specs.Codes.{sums_code};
    ghost use Rattle.source_sums.specs.Sums.{KnownSums, sums_in};

    ghost Value = { KnownSums };

    ghost coded = { sums_code };

    ghost view = { λ sums. sums_in sums.map };
}

impl RemoteSums {
    pub(crate) fn new(alloc: Global) -> RemoteSums
        ensures { result ≡ finite.empty }
    {
        RemoteSums {
            map: HashMap::new(alloc),
        }
    }

    pub(crate) fn as_map(&self) -> &HashMap<ModuleSpecifier, LoaderChecksum>
        ensures { sums_in result.now ≡ self.now }
    {
        &self.map
    }

    pub(crate) fn get(
        &self,
        specifier: &ModuleSpecifier,
    ) -> Result<Option<LoaderChecksum>, AllocError>
        ensures { IfOk result (λ sum. sum ≡ finite.get self.now (specifier_text specifier.now)) }
    {
        match self.map.get(specifier) {
            Some(checksum) => Ok(Some(checksum.try_clone()?)),
            None => Ok(None),
        }
    }

    pub(crate) fn has(&self, specifier: &ModuleSpecifier) -> bool
        ensures { result ≡ finite.contains_key self.now (specifier_text specifier.now) }
    {
        self.map.contains_key(specifier)
    }

    /// Keeps a sum in the place of one that stands. The only refusal is want of memory, after which nothing is changed.
    pub(crate) fn set(
        &mut self,
        specifier: &ModuleSpecifier,
        checksum: LoaderChecksum,
    ) -> Result<(), AllocError>
        ensures ok { OnOk result
            (self.new ≡ finite.insert self.old (specifier_text specifier.now) checksum) }
        ensures err { OnErr result (self.new ≡ self.old) }
    {
        let key = specifier.clone()?;
        let _ = self.map.insert(key, checksum)?;
        Ok(())
    }
}
