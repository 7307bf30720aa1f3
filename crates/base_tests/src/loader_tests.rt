// Loaders over sources in memory: several questions at a time. What they answer stands in `tests/texts/loaders.txt`.
ghost use Rattle.std.specs.Prelude.{◌≡◌, ◌++◌, [], ◌∷◌, OnOk};
ghost use Rattle.source_io.specs.declared.types.Question.{Question};
ghost use Rattle.source_io.specs.Tickets.{IsUnused};
ghost use Rattle.memory_loader.specs.Loaders.{open_in};

use memory_loader::MemoryLoader;
use source_io::{CacheSetting, DEFAULT_MAX_REDIRECTS, LoadOptions, Loader, LoaderCore, Question};
use spec_base::ModuleSpecifier;
use std::alloc::Global;
use std::test::Fail;

// Hands on a value that may go to another thread and be shared between threads.
fn shared<T: Send + Sync>(value: T) -> T
    ensures { result ≡ value }
{
    value
}

// Asks for a specifier under a ticket.
fn ask(alloc: Global, loader: &mut MemoryLoader, ticket: u64, specifier: &str) -> Result<(), Fail>
    requires { IsUnused ticket (open_in loader.old) }
    ensures { OnOk result
        ((q : Question) × (open_in loader.new ≡ open_in loader.old ++ (ticket, q) ∷ [])) }
{
    let specifier = ModuleSpecifier::parse(alloc, specifier)?;
    let question = Question {
        specifier,
        asset: false,
        options: LoadOptions {
            in_dynamic_branch: false,
            was_dynamic_root: false,
            cache_setting: CacheSetting::Use,
            maybe_checksum: None,
        },
    };
    loader.ask(ticket, question)?;
    Ok(())
}

// Two questions are opened, under the tickets 7 and 3.
#[tactic(auto, using(crate::proofs::OpenTickets::unused_first, crate::proofs::OpenTickets::unused_next))]
fn open_two(alloc: Global, loader: &mut MemoryLoader) -> Result<(), Fail>
    requires { open_in loader.old ≡ [] }
{
    ask(alloc, loader, 7, "file:///b.js")?;
    ask(alloc, loader, 3, "file:///f.js")?;
    Ok(())
}

// The ticket that the next call answers; 0 where none is open.
fn next(loader: &mut MemoryLoader) -> Result<u64, Fail> {
    if loader.open_len() == 0 {
        return Ok(0);
    }
    let (ticket, answer) = loader.next()?;
    drop(answer);
    Ok(ticket)
}

// Whether the tickets 7 and 3 are answered in this order, and then no one.
fn answers_in_order(loader: &mut MemoryLoader) -> Result<bool, Fail> {
    Ok(next(loader)? == 7 && next(loader)? == 3 && next(loader)? == 0)
}

fn answers_two(alloc: Global, loader: &mut MemoryLoader) -> Result<bool, Fail>
    requires { open_in loader.old ≡ [] }
{
    open_two(alloc, loader)?;
    answers_in_order(loader)
}

fn is_answered_in_order(alloc: Global) -> Result<bool, Fail> {
    let mut loader = shared(MemoryLoader::new(alloc, Vec::new(alloc))?);
    Ok(loader.max_redirects() == DEFAULT_MAX_REDIRECTS && answers_two(alloc, &mut loader)?)
}

#[test]
fn the_first_question_is_answered_first(rt: HostRuntime) -> Result<(), Fail> {
    assert!(rt; is_answered_in_order(rt.alloc())?);
    Ok(())
}
