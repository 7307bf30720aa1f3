// The place in the turn that stands: which question is due, and which answer counts in the end. A turn that asks for more gets a
// stage here for each of its questions.
ghost use Rattle.std.specs.Prelude.{◌≡◌};
ghost use Rattle.open_loads.specs.Order.Asking.{awaited};
ghost use Rattle.graph_turns.specs.Promise.Taken.{asks_again, counted_of, is_of_sum, refuses_sum, gives_module};

use graph_turns::Asked;
use semver_npm::PackageNv;
use source_io::{Answer, CacheResponse, LoadResponse, Ticket};
use spec_base::{LoadError, ModuleSpecifier};

/// The place in the turn that stands, with the tickets of the questions that are due there.
#[derive(Drop)]
pub(crate) enum Stage {
    /// No turn stands: no load is open, and no content is to come.
    Idle,
    /// The first open load is asked about.
    Asks(Ticket, Asked),
    /// The answer refused it for its sum, and it is asked about once more.
    AsksAgain(Ticket, Asked, Answer),
    /// The file of the version that its URL names is asked about first; it lies at this URL.
    Reads(Ticket, PackageNv, ModuleSpecifier),
    /// No load is open, and the first file of the registry that a pass wants is asked about; it lies at this URL.
    Looks(Ticket, ModuleSpecifier),
    /// No load is open, and the first content that comes later is asked about.
    Fills(Ticket),
}

impl Stage {
    /// The ticket whose answer the turn waits for; None where none stands.
    pub(crate) fn awaited(&self) -> Option<Ticket>
        ensures { result ≡ awaited self.now }
    {
        match self {
            Stage::Idle => None,
            Stage::Asks(ticket, _) => Some(*ticket),
            Stage::AsksAgain(ticket, _, _) => Some(*ticket),
            Stage::Reads(ticket, _, _) => Some(*ticket),
            Stage::Looks(ticket, _) => Some(*ticket),
            Stage::Fills(ticket) => Some(*ticket),
        }
    }
}

// Whether a failure is one of a sum.
fn is_of_sum(error: &LoadError) -> bool
    ensures { result ≡ is_of_sum error.now }
{
    match error {
        LoadError::ChecksumIntegrity(_) => true,
        LoadError::Other(_) => false,
    }
}

// Whether an answer refuses a module for its sum.
fn refuses_sum(answer: &Answer) -> bool
    ensures { result ≡ refuses_sum answer.now }
{
    match answer {
        Answer::Load(Ok(_)) | Answer::Ensure(Ok(_)) => false,
        Answer::Load(Err(error)) | Answer::Ensure(Err(error)) => is_of_sum(error),
    }
}

/// Whether an answer about a load that is asked about so refuses it for its sum, and it is asked about once more: not in a package.
pub(crate) fn asks_again(asked: &Asked, first: &Answer) -> bool
    ensures { result ≡ asks_again asked.now first.now }
{
    match &asked.held {
        None => refuses_sum(first),
        Some(_) => false,
    }
}

// Whether an answer gives a module, or has it at hand.
fn gives_module(answer: &Answer) -> bool
    ensures { result ≡ gives_module answer.now }
{
    match answer {
        Answer::Load(Ok(Some(response))) => matches!(response, LoadResponse::Module { .. }),
        Answer::Ensure(Ok(Some(response))) => matches!(response, CacheResponse::Cached),
        Answer::Load(Ok(None) | Err(_)) | Answer::Ensure(Ok(None) | Err(_)) => false,
    }
}

/// The answer that counts of a refusal and the one to the second question: a module counts, else the refusal stands.
pub(crate) fn counted_of(first: Answer, second: Answer) -> Answer
    ensures { result ≡ counted_of first second }
{
    if gives_module(&second) {
        drop(first);
        second
    } else {
        drop(second);
        first
    }
}
