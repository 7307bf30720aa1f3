// How a run of a tool ends.
ghost use Rattle.std.specs.Prelude.{◌≡◌};
ghost use Rattle.tools_program.specs.ToolStatuses.{tool_status};

use program_phases::Status;

/// How a run of a tool ends; the program's exit status is its number, from 0 to 10 in this order.
#[derive(Clone, Copy, PartialEq, Eq, Debug)]
pub enum ToolStatus {
    /// The report is written, and it says yes.
    Yes,
    /// The report is written, and it says no.
    No,
    /// The words aren't those of a tool.
    Words,
    /// What should be the world isn't one.
    NotAWorld,
    /// The input couldn't be read.
    ReadFault,
    /// The report couldn't be written whole.
    WriteFault,
    /// As many questions were put as are allowed, and one more was to be put.
    Budget,
    /// The loader failed.
    LoaderFault,
    /// There was no memory.
    Memory,
    /// The input has more bytes than are read.
    TooLong,
    /// What should stand beside the world doesn't.
    NotAPart,
}

impl From<Status> for ToolStatus {
    ghost from_gives = { λ status tool. tool ≡ tool_status status };

    fn from(status: Status) -> ToolStatus {
        match status {
            Status::Valid => ToolStatus::Yes,
            Status::Invalid => ToolStatus::No,
            Status::Words => ToolStatus::Words,
            Status::NotAWorld => ToolStatus::NotAWorld,
            Status::ReadFault => ToolStatus::ReadFault,
            Status::WriteFault => ToolStatus::WriteFault,
            Status::Budget => ToolStatus::Budget,
            Status::LoaderFault => ToolStatus::LoaderFault,
            Status::Memory => ToolStatus::Memory,
            Status::TooLong => ToolStatus::TooLong,
        }
    }
}
