// What a tool is to do over which input.
ghost use Rattle.std.specs.Prelude.{◌≡◌, IfOk};
ghost use Rattle.tools_program.specs.Tasks.{input_by, task_in};
ghost use Rattle.tools_program.specs.Jobs.{ReadsJob, job_of, world_in};

use crate::task::{ToolTask, task_of, world_part};
use crate::tool_command::ToolCommand;
use mapped_world::mapped;
use spec_base::Refusal;
use std::alloc::{AllocError, Global};
use world_file::{Input, world_of};

/// What a tool is to do, and the input over which it does it.
#[derive(Drop)]
pub struct Job {
    pub task: ToolTask,
    pub input: Input,
}

/// Why bytes tell no job.
#[derive(Clone, Copy, PartialEq, Eq, Debug)]
pub enum JobRefusal {
    /// What should stand beside the world doesn't.
    NotAPart,
    /// What should be the world isn't one.
    NotAWorld,
}

// The input of a task over a world: that of a map resolves texts by it.
fn input_by(alloc: Global, task: &ToolTask, world: Input) -> Result<Input, AllocError>
    ensures { IfOk result (λ input. input ≡ input_by (task_in task.now) world) }
{
    match task {
        ToolTask::Map(map) => mapped(alloc, &world, map),
        ToolTask::Lock { .. } => Ok(world),
        ToolTask::Policy(_) => Ok(world),
        ToolTask::Store => Ok(world),
        ToolTask::Replay(_) => Ok(world),
    }
}

// The job of a task over the world that bytes are.
fn job_over(alloc: Global, task: ToolTask, bytes: &[u8]) -> Result<Job, Refusal<JobRefusal>>
    ensures { ReadsJob result (world_in (task_in task) bytes.now) }
{
    match world_of(alloc, bytes) {
        Ok(world) => {
            let input = input_by(alloc, &task, world)?;
            Ok(Job { task, input })
        }
        Err(Refusal::Memory) => Err(Refusal::Memory),
        Err(Refusal::Is(_)) => Err(Refusal::Is(JobRefusal::NotAWorld)),
    }
}

/// What a command is to do by the bytes of its input. What stands beside the world is judged before it.
pub(crate) fn job_of(
    alloc: Global,
    command: ToolCommand,
    bytes: &[u8],
) -> Result<Job, Refusal<JobRefusal>>
    ensures { ReadsJob result (job_of command bytes.now) }
{
    match task_of(alloc, command, bytes) {
        Ok(task) => job_over(alloc, task, world_part(command, bytes)),
        Err(Refusal::Memory) => Err(Refusal::Memory),
        Err(Refusal::Is(_)) => Err(Refusal::Is(JobRefusal::NotAPart)),
    }
}
