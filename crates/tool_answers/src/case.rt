// Cases, as lines tell them, and what stands in the place of an answer.
use source_io::NextRefusal;
use spec_base::Refusal;
use std::alloc::{AllocError, AllocFailed, Global};
use std::io;
use std::mem::ManuallyDrop;
use url::{ParseError, Url};

/// Why a line has no answer: there was no memory, or it is no case of its word.
#[derive(Clone, Copy, Debug)]
pub enum Gap {
    Memory,
    NoCase,
}

impl From<AllocError> for Gap {
    fn from(_: AllocError) -> Gap {
        Gap::Memory
    }
}

impl<T: Drop> From<AllocFailed<T>> for Gap {
    fn from(_: AllocFailed<T>) -> Gap {
        Gap::Memory
    }
}

impl From<ParseError> for Gap {
    fn from(_: ParseError) -> Gap {
        Gap::NoCase
    }
}

impl From<NextRefusal> for Gap {
    fn from(_: NextRefusal) -> Gap {
        Gap::Memory
    }
}

impl From<serde_json::Error> for Gap {
    fn from(_: serde_json::Error) -> Gap {
        Gap::NoCase
    }
}

impl<E: Drop> From<Refusal<E>> for Gap {
    fn from(refusal: Refusal<E>) -> Gap {
        match refusal {
            Refusal::Memory => Gap::Memory,
            Refusal::Is(_) => Gap::NoCase,
        }
    }
}

impl From<Gap> for io::Error {
    fn from(_: Gap) -> io::Error {
        io::Error::from(AllocError)
    }
}

/// A value that is left where it is: the program ends soon, and a drop at each way out of a function is dear to prove.
pub type Left<T> = ManuallyDrop<T>;

pub fn text(alloc: Global, text: &str) -> Result<String, Gap> {
    Ok(String::from_str(alloc, text)?)
}

/// The two parts of a case.
pub fn parts(case: &str) -> Result<(&str, &str), Gap> {
    match case.split_once(" | ") {
        Some(parts) => Ok(parts),
        None => Err(Gap::NoCase),
    }
}

pub fn url(alloc: Global, text: &str) -> Result<Left<Url>, Gap> {
    Ok(Left::new(Url::parse(alloc, text)?))
}

pub fn bytes(alloc: Global, text: &str) -> Result<Left<Vec<u8>>, Gap> {
    match hex::decode(alloc, text.as_bytes()) {
        Ok(bytes) => Ok(Left::new(bytes)),
        Err(_) => Err(Gap::NoCase),
    }
}
