// How a run of the program ends.

/// How a run of the program ends; the program's exit status is its number, from 0 to 9 in this order.
#[derive(Clone, Copy, PartialEq, Eq, Debug)]
pub enum Status {
    /// The graph is written, and it is valid.
    Valid,
    /// The graph is written, and it isn't valid: the last line has its first error.
    Invalid,
    /// The words aren't those of a command.
    Words,
    /// The input is no world file.
    NotAWorld,
    /// The input couldn't be read.
    ReadFault,
    /// The graph couldn't be written whole.
    WriteFault,
    /// As many questions were put as are allowed, and one more was to be put.
    Budget,
    /// The loader failed.
    LoaderFault,
    /// There was no memory.
    Memory,
    /// The input has more bytes than are read.
    TooLong,
}
