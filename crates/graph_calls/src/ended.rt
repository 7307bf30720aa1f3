// How a run ends that lists nothing.
use byte_io::{ReadRefusal, SinkFault};
use program_phases::Status;
use spec_base::Refusal;
use std::alloc::AllocError;
use std::mem::ManuallyDrop;
use std::str::Utf8Error;
use world_file::NotAWorld;

/// Why nothing is listed, as the status of the run.
#[derive(Clone, Copy)]
pub struct Ended {
    pub status: Status,
}

fn by_status(status: Status) -> Ended {
    Ended { status }
}

impl From<AllocError> for Ended {
    fn from(_: AllocError) -> Ended {
        by_status(Status::Memory)
    }
}

impl From<ReadRefusal> for Ended {
    fn from(refusal: ReadRefusal) -> Ended {
        by_status(match refusal {
            ReadRefusal::Memory => Status::Memory,
            ReadRefusal::Failed => Status::ReadFault,
            ReadRefusal::TooLong => Status::TooLong,
        })
    }
}

impl From<Utf8Error> for Ended {
    fn from(_: Utf8Error) -> Ended {
        by_status(Status::NotAWorld)
    }
}

impl From<SinkFault> for Ended {
    fn from(_: SinkFault) -> Ended {
        by_status(Status::WriteFault)
    }
}

impl From<Refusal<NotAWorld>> for Ended {
    fn from(refusal: Refusal<NotAWorld>) -> Ended {
        by_status(match refusal {
            Refusal::Memory => Status::Memory,
            Refusal::Is(_) => Status::NotAWorld,
        })
    }
}

/// A value that is left where it is: the program ends soon, and a drop at each way out of a function is dear to prove.
pub type Left<T> = ManuallyDrop<T>;
