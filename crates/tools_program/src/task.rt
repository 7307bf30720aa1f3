// A tool, with what stands beside its world.
ghost use Rattle.std.specs.Prelude.{◌≡◌};
ghost use Rattle.graph_store.specs.Reading.{store_at};
ghost use Rattle.tools_program.specs.Tasks.{ReadsStore, ReadsTask, map_task, policy_task, replay_task, task_of, world_part};

use crate::lines::{behind_line, first_line};
use crate::map_line::map_of_line;
use crate::tool_command::ToolCommand;
use graph_store::Store;
use import_map::ImportMap;
use import_policy::{PolicyRule, read_rules};
use spec_base::{Items, Refusal};
use std::alloc::Global;

/// A tool, with what stands beside its world.
#[derive(Drop)]
pub enum ToolTask {
    Lock { strict: bool },
    /// The rules of the policy.
    Policy(Items<PolicyRule>),
    Map(ImportMap),
    Store,
    /// The store that answers.
    Replay(Store),
}

/// What should stand beside a world doesn't.
#[derive(Clone, Copy, PartialEq, Eq, Debug)]
pub struct NotAPart;

// The policy whose rules are the first line.
fn policy_task(alloc: Global, bytes: &[u8]) -> Result<ToolTask, Refusal<NotAPart>>
    ensures { ReadsTask result (policy_task bytes.now) }
{
    let Some(line) = first_line(bytes) else {
        return Err(Refusal::Is(NotAPart));
    };
    match read_rules(alloc, line) {
        Ok(rules) => Ok(ToolTask::Policy(rules)),
        Err(Refusal::Memory) => Err(Refusal::Memory),
        Err(Refusal::Is(_)) => Err(Refusal::Is(NotAPart)),
    }
}

// The import map that is the first line.
fn map_task(alloc: Global, bytes: &[u8]) -> Result<ToolTask, Refusal<NotAPart>>
    ensures { ReadsTask result (map_task bytes.now) }
{
    let Some(line) = first_line(bytes) else {
        return Err(Refusal::Is(NotAPart));
    };
    match map_of_line(alloc, line) {
        Ok(map) => Ok(ToolTask::Map(map)),
        Err(Refusal::Memory) => Err(Refusal::Memory),
        Err(Refusal::Is(_)) => Err(Refusal::Is(NotAPart)),
    }
}

// The store that some bytes are.
fn store_of(alloc: Global, bytes: &[u8]) -> Result<Store, Refusal<NotAPart>>
    ensures { ReadsStore result (store_at bytes.now) }
{
    match Store::decode(alloc, bytes) {
        Ok(store) => Ok(store),
        Err(Refusal::Memory) => Err(Refusal::Memory),
        Err(Refusal::Is(_)) => Err(Refusal::Is(NotAPart)),
    }
}

// The store that stands behind the first line.
fn replay_task(alloc: Global, bytes: &[u8]) -> Result<ToolTask, Refusal<NotAPart>>
    ensures { ReadsTask result (replay_task bytes.now) }
{
    if first_line(bytes).is_none() {
        return Err(Refusal::Is(NotAPart));
    }
    Ok(ToolTask::Replay(store_of(alloc, behind_line(bytes))?))
}

/// What a command does, by the bytes of its input: for `policy` and `map` their first line tells more, for `replay` what
/// stands behind it. `Is` comes exactly where that isn't what it should be.
pub(crate) fn task_of(
    alloc: Global,
    command: ToolCommand,
    bytes: &[u8],
) -> Result<ToolTask, Refusal<NotAPart>>
    ensures { ReadsTask result (task_of command bytes.now) }
{
    match command {
        ToolCommand::Lock { strict } => Ok(ToolTask::Lock { strict }),
        ToolCommand::Policy => policy_task(alloc, bytes),
        ToolCommand::Map => map_task(alloc, bytes),
        ToolCommand::Store => Ok(ToolTask::Store),
        ToolCommand::Replay => replay_task(alloc, bytes),
    }
}

/// Where the world stands in the input of a command: all of it, or, where something stands beside it, what is behind the
/// first line, and for `replay` that line.
pub(crate) fn world_part(command: ToolCommand, bytes: &[u8]) -> &[u8]
    ensures { result.now ≡ world_part command bytes.now }
{
    match command {
        ToolCommand::Lock { .. } => bytes,
        ToolCommand::Policy => behind_line(bytes),
        ToolCommand::Map => behind_line(bytes),
        ToolCommand::Store => bytes,
        ToolCommand::Replay => first_line(bytes).unwrap_or(&bytes[..0]),
    }
}
