// What makes slots: what tells the imports of a text and where they lead.
ghost use Rattle.std.specs.Prelude.{◌≡◌, IfOk, IfSome};
ghost use Rattle.spec_base.specs.Refusal.{Answers};
ghost use Rattle.graph_errors.specs.Errors.{parse_error};
ghost use Rattle.slot_making.specs.Made.{given_or_told, told_info};
ghost use Rattle.module_slots.specs.Slots.{failed_slot};

use crate::services::Services;
use file_tree::write_out_templates;
use graph_dependencies::GraphKind;
use graph_errors::{ModuleError, ModuleErrorKind};
use media_types::MediaType;
use module_info::{ModuleAnalyzer, ModuleInfo};
use module_slots::ModuleSlot;
use spec_base::{Boxed, Fault, ModuleSpecifier, Refusal};
use std::alloc::{AllocError, Global};

/// What tells the imports of a text and where they lead, and what its graph holds.
#[derive(Drop)]
pub(crate) struct SlotMaker<'a, S: Services> {
    pub(crate) alloc: Global,
    pub(crate) analyzer: &'a S::Analyze,
    pub(crate) tree: &'a S::Tree,
    pub(crate) urls: &'a S::Urls,
    pub(crate) resolver: Option<&'a S::Resolve>,
    pub(crate) kind: GraphKind,
    pub(crate) skip_dynamic_deps: bool,
    pub(crate) unstable_config_imports: bool,
}

impl<S: Services> SlotMaker<'_, S> {
    // The info that is given, or else that of the analysis or its fault.
    #[tactic(auto, using(crate::proofs::MadeLemmas::whatever_is_told))]
    fn given_or_told(
        &self,
        given: Option<Boxed<ModuleInfo>>,
        specifier: &ModuleSpecifier,
        text: &str,
        media: MediaType,
    ) -> Result<ModuleInfo, Refusal<Fault>>
        ensures { IfSome (S.Analyze.infos self.now.analyzer.now)
            (λ infos. Answers result (given_or_told given (infos specifier.now text.now media))) }
    {
        match given {
            Some(info) => Ok(info.into_inner()),
            None => self.analyzer.analyze(self.alloc, specifier, text, media),
        }
    }

    /// The info of a text of a module, given or told, with its templates written out, or the fault of the
    /// analysis.
    pub(crate) fn info_of(
        &self,
        given: Option<Boxed<ModuleInfo>>,
        specifier: &ModuleSpecifier,
        text: &str,
        media: MediaType,
    ) -> Result<ModuleInfo, Refusal<Fault>>
        ensures { IfSome (S.Analyze.infos self.now.analyzer.now)
            (λ infos. Answers result
            (told_info infos (S.Tree.paths self.now.tree.now) given specifier.now text.now
            media)) }
    {
        let mut info = self.given_or_told(given, specifier, text, media)?;
        write_out_templates(self.alloc, self.tree, specifier, &mut info)?;
        Ok(info)
    }
}

/// The error slot of a kind.
pub(crate) fn failed(alloc: Global, kind: ModuleErrorKind) -> Result<ModuleSlot, AllocError>
    ensures { IfOk result (λ slot. slot ≡ failed_slot kind) }
{
    let kind = Boxed::new(alloc, kind)?;
    Ok(ModuleSlot::Err(ModuleError(kind)))
}

/// The slot of a text that the analyzer refuses.
pub(crate) fn unparsed(
    alloc: Global,
    specifier: ModuleSpecifier,
    mtime: Option<u64>,
    diagnostic: Fault,
) -> Result<ModuleSlot, AllocError>
    ensures { IfOk result (λ slot. slot ≡ ModuleSlot.Err (parse_error specifier mtime diagnostic)) }
{
    failed(
        alloc,
        ModuleErrorKind::Parse {
            specifier,
            mtime,
            diagnostic,
        },
    )
}
