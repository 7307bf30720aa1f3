// The input of a tool, read whole.
ghost use Rattle.std.specs.Prelude.{◌≡◌, IfSome, IfOk, IfErr};
ghost use Rattle.spec_base.specs.Counters.{Rose};
ghost use Rattle.tools_program.specs.Tasks.{IsTaskOf, task_in};
ghost use Rattle.tools_program.specs.ToolOutcome.{IsJobBy, IsRefusal};

use crate::jobs::{Job, JobRefusal, job_of};
use crate::tool_command::ToolCommand;
use crate::tool_status::ToolStatus;
use byte_io::{ByteSource, ReadRefusal, read_all};
use spec_base::Refusal;
use std::alloc::Global;

/// What a command is to do by the input that the source gives, or the status of a run that has nothing to do: `ReadFault`,
/// `TooLong`, `NotAPart`, `NotAWorld` or `Memory`.
pub(crate) fn read_job<S: ByteSource>(
    alloc: Global,
    command: ToolCommand,
    source: &mut S,
) -> Result<Job, ToolStatus>
    ensures input { IfSome (S.left source.old)
        (λ bytes. IsJobBy command bytes (S.left source.new) result) }
    // Whatever the source tells, the task is one of the command's.
    ensures fits { IfOk result (λ job. IsTaskOf command (task_in job.task)) }
    ensures refused { IfErr result IsRefusal }
    ensures fault { IfErr result
        (λ status. status ≡ ToolStatus.ReadFault
        → Rose (S.faults source.old) (S.faults source.new)) }
{
    let bytes = match read_all(alloc, source) {
        Ok(bytes) => bytes,
        Err(ReadRefusal::Memory) => return Err(ToolStatus::Memory),
        Err(ReadRefusal::Failed) => return Err(ToolStatus::ReadFault),
        Err(ReadRefusal::TooLong) => return Err(ToolStatus::TooLong),
    };
    match job_of(alloc, command, bytes.as_slice()) {
        Ok(job) => Ok(job),
        Err(Refusal::Memory) => Err(ToolStatus::Memory),
        Err(Refusal::Is(JobRefusal::NotAPart)) => Err(ToolStatus::NotAPart),
        Err(Refusal::Is(JobRefusal::NotAWorld)) => Err(ToolStatus::NotAWorld),
    }
}
