// The answers that a recorder keeps.
ghost use Rattle.std.specs.Prelude.{◌≡◌, [], IfOk, OnErr};
ghost use Rattle.graph_store.specs.Order.{HasForm};
ghost use Rattle.graph_store.specs.Stores.{IsPutIn};

use crate::entry::StoreEntry;
use crate::entry_key::EntryKey;
use crate::store::Store;
use source_io::Answer;
use std::alloc::{AllocError, Global};
use std::collections::BTreeMap;
use std::marker::Model;

/// The answers that a recorder keeps. Contracts see the entries of the store of them.
///
/// One is put among `n` others in about `log n` steps, where a store moves each entry that stands behind it.
#[derive(Drop)]
pub(crate) struct AnswerMap {
    alloc: Global,
    answers: BTreeMap<EntryKey, Answer>,
    /// Empty, with room for all entries, so that their store takes no more memory.
    room: Vec<StoreEntry>,
}

impl Model for AnswerMap {
    ghost use Rattle.std.specs.Prelude.{List, vec_capacity};
    ghost use Rattle.graph_store.specs.declared.entry.StoreEntry.{StoreEntry};
    ghost use Rattle.graph_store.specs.AnswerMap.{HasRoom, entries_from};

    ghost Value = { List StoreEntry };

    ghost view = { λ m. entries_from m.answers.entries };

    ghost invariant = { λ m. HasRoom m.answers.entries m.room.items (vec_capacity m.room) };
}

impl AnswerMap {
    /// No answers.
    pub(crate) fn new(alloc: Global) -> AnswerMap
        ensures { result ≡ [] }
    {
        AnswerMap {
            alloc,
            answers: BTreeMap::new(alloc),
            room: Vec::new(alloc),
        }
    }

    /// Puts an entry among the others, and answers whether it did: where an entry of its specifier and purpose stands, that
    /// one stays, and nothing changes. Nothing changes either where there is no memory.
    pub(crate) fn put(&mut self, entry: StoreEntry) -> Result<bool, AllocError>
        requires { HasForm entry.purpose entry.answer }
        ensures put { IfOk result (IsPutIn entry self.old self.new) }
        ensures refused { OnErr result (self.new ≡ self.old) }
    {
        let StoreEntry {
            specifier,
            purpose,
            answer,
        } = entry;
        let key = EntryKey { specifier, purpose };
        if self.answers.contains_key(&key) {
            return Ok(false);
        }
        let len = self.answers.len();
        self.room.reserve(len + 1)?;
        self.answers.insert(key, answer)?;
        Ok(true)
    }

    /// The store of the answers. It takes no memory.
    pub(crate) fn into_store(self) -> Store
        ensures { result ≡ self }
    {
        let AnswerMap {
            alloc,
            answers,
            room,
        } = self;
        // (that the keys rise is told by this call)
        let _ = answers.len();
        let mut entries = room;
        for (EntryKey { specifier, purpose }, answer) in answers {
            let entry = StoreEntry {
                specifier,
                purpose,
                answer,
            };
            entries.push(entry).unwrap();
        }
        Store::from_ordered(alloc, entries)
    }
}
