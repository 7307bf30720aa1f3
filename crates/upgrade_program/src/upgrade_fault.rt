// Why a world file wasn't written in version 2.

/// Why a world file wasn't written in version 2, in the order in which these come.
#[derive(Clone, Copy, PartialEq, Eq)]
pub enum UpgradeFault {
    /// There was no memory. Nothing was written.
    Memory,
    /// The source failed. Nothing was written.
    ReadFault,
    /// The source has more bytes than are read, 67108864. Nothing was written.
    TooLong,
    /// The bytes are no world file. Nothing was written.
    NotAWorld,
    /// The sink failed. A beginning of the text was written.
    WriteFault,
}
