// The order in which the answers of a loader arrive.
ghost use Rattle.std.specs.Prelude.{◌≡◌, ◌++◌, [], ◌∷◌, IfOk, OnOk};
ghost use Rattle.source_io.specs.declared.types.Question.{Question};
ghost use Rattle.source_io.specs.Loaders.{open_in};
ghost use Rattle.source_io.specs.Tickets.{IsUnused};

use crate::source_worlds::{read, shared, world};
use crate::specifiers::url;
use source_io::{
    Answer, CacheSetting, LoadOptions, Loader, LoaderCore, NextRefusal, Question, WorldLoader,
};
use spec_base::ModuleSpecifier;
use std::alloc::Global;
use std::test::Fail;
use world_file::Input;

// The copy of a question about a specifier.
fn copy_of_question(asked: &ModuleSpecifier) -> Result<Question, Fail> {
    let question = Question {
        specifier: asked.clone()?,
        asset: false,
        options: LoadOptions {
            in_dynamic_branch: false,
            was_dynamic_root: false,
            cache_setting: CacheSetting::Use,
            maybe_checksum: None,
        },
    };
    Ok(question.try_clone()?)
}

// Asks for a specifier under a ticket.
fn ask(loader: &mut WorldLoader, ticket: u64, asked: &ModuleSpecifier) -> Result<(), Fail>
    requires { IsUnused ticket (open_in loader.old) }
    ensures { OnOk result
        ((q : Question) × (open_in loader.new ≡ open_in loader.old ++ (ticket, q) ∷ [])) }
{
    let question = copy_of_question(asked)?;
    loader.ask(ticket, shared(question))?;
    Ok(())
}

// The lists of numbers of an input.
fn numbers_of(input: Input) -> (Vec<u64>, Vec<u64>) {
    let Input {
        arrival,
        fail_next,
        ..
    } = input;
    (arrival.into_vec(), fail_next.into_vec())
}

// A loader of a world, which is to go by these lists of numbers.
fn going_by(alloc: Global, arrival: &str, fail_next: &str) -> Result<WorldLoader, Fail>
    ensures { IfOk result (λ l. open_in l ≡ []) }
{
    let text = format!(in alloc;
        "{{\"version\":1,\"arrival\":{arrival},\"fail_next\":{fail_next}}}"
    )?;
    let (arrival, fail_next) = numbers_of(read(alloc, text.as_str())?);
    let world = shared(world(alloc, "\"sources\":{}")?);
    Ok(shared(WorldLoader::new(alloc, world, arrival, fail_next)?))
}

// A call that fails, in the place of a ticket, and a call while none is open.
const FAILS: u64 = 9;

const NONE_OPEN: u64 = 8;

fn ticket_of(answered: &Result<(u64, Answer), NextRefusal>) -> Result<u64, Fail> {
    match answered {
        Ok((ticket, _)) => Ok(*ticket),
        Err(NextRefusal::Failed) => Ok(FAILS),
        Err(NextRefusal::Memory) => Err(Fail::from(NextRefusal::Memory)),
    }
}

// The ticket that the next call answers.
fn next(loader: &mut WorldLoader) -> Result<u64, Fail> {
    if loader.open_len() == 0 {
        return Ok(NONE_OPEN);
    }
    let answered = loader.next();
    let ticket = ticket_of(&answered);
    drop(answered);
    ticket
}

// Three questions are opened, under the tickets 0, 1 and 2 in order of asking.
#[tactic(auto, using(crate::proofs::OpenTickets::unused_first, crate::proofs::OpenTickets::unused_next))]
fn open_three(alloc: Global, loader: &mut WorldLoader) -> Result<(), Fail>
    requires { open_in loader.old ≡ [] }
{
    let first = url(alloc, "file:///c.js")?;
    ask(loader, 0, &first)?;
    ask(loader, 1, &first)?;
    ask(loader, 2, &first)?;
    Ok(())
}

// Whether the calls of a loader answer these tickets, and then none is open.
fn answers_in_order(loader: &mut WorldLoader, tickets: &str) -> Result<bool, Fail> {
    for ticket in tickets.split_whitespace() {
        let answered = next(loader)?;
        if !matches!(ticket.parse::<u64>(), Ok(wanted) if wanted == answered) {
            return Ok(false);
        }
    }
    Ok(loader.open_len() == 0)
}

// Whether three questions to a loader are answered in this order.
fn answers_three(alloc: Global, loader: &mut WorldLoader, tickets: &str) -> Result<bool, Fail>
    requires { open_in loader.old ≡ [] }
{
    open_three(alloc, loader)?;
    answers_in_order(loader, tickets)
}

// Whether answers arrive as a row says: `arrival`, `fail_next`, and the tickets in the order of their answers.
fn arrives(alloc: Global, row: &str) -> Result<bool, Fail> {
    let mut parts = row.split("|");
    let (Some(arrival), Some(fail_next), Some(tickets)) = (parts.next(), parts.next(), parts.next())
    else {
        return Err(Fail::new("a row without its three parts"));
    };
    let mut loader = going_by(alloc, arrival, fail_next)?;
    let arrives = answers_three(alloc, &mut loader, tickets);
    drop(loader);
    arrives
}

// Of the open tickets 0 1 2, place 0 each time; place 1 of 0 1 2, place 0 of 0 2, place 1 mod 1 of 2; place 5 mod 3 of
// 0 1 2, place 5 mod 2 of 0 1, place 5 mod 1 of 0; the second call fails; by the number of the call, a failed one counted:
// place 2 of 0 1 2, none, place 2 mod 2 of 0 1, place 1 mod 1 of 1.
const ORDERS: &str = "[]|[]|0 1 2
[1,0]|[]|1 0 2
[5]|[]|2 1 0
[]|[2]|0 9 1 2
[2,1]|[8,2,2]|2 9 0 1";

#[test]
fn answers_arrive_in_order(rt: HostRuntime) -> Result<(), Fail> {
    for row in ORDERS.lines() {
        if !arrives(rt.alloc(), row)? {
            return Err(Fail::new(row));
        }
    }
    Ok(())
}
