// The calls that take answers, numbered from 1: which of them fail, and which open question each answers.
ghost use Rattle.std.specs.Prelude.{◌≡◌, ◌<◌, length, remove, IfOk, OnOk, OnErr, Some};
ghost use Rattle.std.specs.List.Sorted.{IsNonDecreasing};
ghost use Rattle.source_io.specs.Answers.{answer_of, judged, tested};
ghost use Rattle.source_io.specs.AnswerPlaces.{IsAnswerIndex};
ghost use Rattle.source_io.specs.Calls.{is_listed, arrival_place, answered_at};

use crate::answer_places::AnswerPlaces;
use crate::types::{Answer, LoadResponse, Question, Ticket, World};
use crate::world::listed_or_read;
use source_sums::LoaderChecksum;
use spec_base::{LoadError, Refusal};
use std::alloc::{AllocError, Global};
use std::collections::VecDeque;

/// Whether a number is among those of an ascending list.
pub(crate) fn is_listed(ascending: &[u64], number: u64) -> bool
    requires { IsNonDecreasing ascending.now }
    ensures { result ≡ is_listed ascending.now number }
{
    ascending.binary_search(&number).is_ok()
}

/// The place among so many open questions that a call answers.
pub(crate) fn arrival_place(arrival: &[u64], call: u64, open_len: usize) -> usize
    requires numbered { 0 < call }
    requires some { 0 < open_len }
    ensures place { result ≡ arrival_place arrival.now call open_len }
    ensures within { result < open_len }
{
    if arrival.is_empty() {
        return 0;
    }
    let turn = (call - 1) % arrival.len() as u64;
    let place = arrival[turn as usize] % open_len as u64;
    place as usize
}

// An answer to a question with a sum: a module with another one is refused, and nothing else is tested.
fn tested(alloc: Global, sum: &LoaderChecksum, answer: Answer) -> Result<Answer, AllocError>
    ensures { IfOk result (λ a. a ≡ tested sum.now answer) }
{
    let verdict = match &answer {
        Answer::Load(Ok(Some(LoadResponse::Module { content, .. }))) => {
            sum.check_source(alloc, content.as_slice())
        }
        _ => Ok(()),
    };
    match verdict {
        Ok(()) => Ok(answer),
        Err(Refusal::Memory) => {
            drop(answer);
            Err(AllocError)
        }
        Err(Refusal::Is(error)) => {
            drop(answer);
            Ok(Answer::Load(Err(LoadError::ChecksumIntegrity(error))))
        }
    }
}

// An answer is tested where the world verifies and the question has a sum.
fn judged(
    alloc: Global,
    verifies: bool,
    sum: &Option<LoaderChecksum>,
    answer: Answer,
) -> Result<Answer, AllocError>
    ensures { IfOk result (λ a. a ≡ judged verifies sum.now answer) }
{
    match sum {
        Some(sum) if verifies => tested(alloc, sum, answer),
        _ => Ok(answer),
    }
}

/// The world's answer to a question, by what its answers are found by.
pub(crate) fn answer_of(
    alloc: Global,
    world: &World,
    places: &AnswerPlaces,
    question: &Question,
) -> Result<Answer, AllocError>
    requires { IsAnswerIndex world.now.answers places.now }
    ensures { IfOk result (λ a. a ≡ answer_of world.now question.now) }
{
    let purpose = question.purpose();
    let listed = places.listed(world.answers.as_slice(), &question.specifier, purpose);
    let answer = listed_or_read(
        alloc,
        world.reads_data,
        &question.specifier,
        purpose,
        listed,
    )?;
    judged(
        alloc,
        world.verifies,
        &question.options.maybe_checksum,
        answer,
    )
}

/// Takes the ticket at a place out of the open ones, with the answer to its question. Nothing changes
/// where there is no memory for the answer.
pub(crate) fn take_answer(
    alloc: Global,
    world: &World,
    places: &AnswerPlaces,
    open_tickets: &mut VecDeque<(Ticket, Question)>,
    place: usize,
) -> Result<(Ticket, Answer), AllocError>
    requires within { place < length open_tickets.old.items }
    requires indexed { IsAnswerIndex world.now.answers places.now }
    ensures chosen { IfOk result
        (λ r. answered_at world.now open_tickets.old.items place ≡ Some r) }
    ensures removed { OnOk result (open_tickets.new.items ≡ remove open_tickets.old.items place) }
    ensures refused { OnErr result (open_tickets.new.items ≡ open_tickets.old.items) }
{
    let (ticket, question) = &open_tickets[place];
    let ticket = *ticket;
    let answer = answer_of(alloc, world, places, question)?;
    let _ = open_tickets.remove(place);
    Ok((ticket, answer))
}
