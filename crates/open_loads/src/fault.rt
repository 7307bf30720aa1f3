// Why a build gives no graph.
use source_io::NextRefusal;
use std::alloc::AllocError;
use thiserror::Error;

/// Why a build gives no graph.
#[derive(Clone, Copy, PartialEq, Eq, Debug, Error)]
pub enum BuildFault {
    /// There was no memory.
    #[error("out of memory")]
    Memory,
    /// As many questions were put as the options allow, and one more was to be put.
    #[error("load budget spent")]
    Budget,
    /// The loader failed.
    #[error("loader failed")]
    Loader,
}

impl From<AllocError> for BuildFault {
    ghost use Rattle.std.specs.Prelude.{◌≡◌};
    ghost use Rattle.open_loads.specs.declared.fault.BuildFault.TheVariants.{Memory};

    ghost from_gives = { λ _ e. e ≡ Memory };

    fn from(_: AllocError) -> BuildFault {
        BuildFault::Memory
    }
}

impl From<NextRefusal> for BuildFault {
    ghost use Rattle.std.specs.Prelude.{◌≡◌};
    ghost use Rattle.open_loads.specs.Faults.{fault_of};

    ghost from_gives = { λ refusal e. e ≡ fault_of refusal };

    fn from(refusal: NextRefusal) -> BuildFault {
        match refusal {
            NextRefusal::Memory => BuildFault::Memory,
            NextRefusal::Failed => BuildFault::Loader,
        }
    }
}
