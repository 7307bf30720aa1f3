// Pools over a fetcher whose answers name what was asked.
ghost use Rattle.std.specs.Prelude.{◌≡◌, ◌<◌, ◌++◌, [], ◌∷◌, OnOk};
ghost use Rattle.source_io.specs.declared.types.Question.{Question};
ghost use Rattle.source_io.specs.Tickets.{IsUnused};
ghost use Rattle.graph_pool.specs.Pools.{open_in};

use crate::echo::Echo;
use crate::uncopied::Uncopied;
use graph_pool::{Pool, place_for};
use source_io::{
    Answer, CacheSetting, LoadOptions, LoadResponse, LoaderCore, NextRefusal, Question,
    WaitingLoader,
};
use std::alloc::Global;
use std::collections::VecDeque;
use std::sync::atomic::AtomicU64;
use std::sync::{Arc, Wait};
use std::test::*;
use std::thread::Threads;
use url::Url;

fn question_at(alloc: Global, text: &str) -> Result<Question, Fail> {
    Ok(Question {
        specifier: Url::parse(alloc, text)?,
        asset: false,
        options: LoadOptions {
            in_dynamic_branch: false,
            was_dynamic_root: false,
            cache_setting: CacheSetting::Use,
            maybe_checksum: None,
        },
    })
}

// Asks for a specifier under a ticket.
fn ask(alloc: Global, pool: &mut Pool<Echo>, ticket: u64, text: &str) -> Result<(), Fail>
    requires { IsUnused ticket (open_in pool.old) }
    ensures { OnOk result
        ((q : Question) × (open_in pool.new ≡ open_in pool.old ++ (ticket, q) ∷ [])) }
{
    let question = question_at(alloc, text)?;
    pool.ask(ticket, question)?;
    Ok(())
}

// Three questions are opened, under the tickets 5, 6 and 7 in order of asking.
#[tactic(auto, using(crate::proofs::OpenTickets::unused_first, crate::proofs::OpenTickets::unused_next))]
fn open_three(alloc: Global, pool: &mut Pool<Echo>) -> Result<(), Fail>
    requires { open_in pool.old ≡ [] }
{
    ask(alloc, pool, 5, "file:///a.js")?;
    ask(alloc, pool, 6, "file:///b.js")?;
    ask(alloc, pool, 7, "file:///c.js")?;
    Ok(())
}

// The name that an answer gives, and nothing for answers of other kinds.
fn name_in(answer: &Answer) -> &str {
    match answer {
        Answer::Load(Ok(Some(LoadResponse::External { specifier }))) => specifier.as_str(),
        _ => "",
    }
}

// Writes what a call gave: a ticket and the name in its answer, or `memory`.
fn write_given(
    alloc: Global,
    given: &Result<(u64, Answer), NextRefusal>,
    lines: &mut String,
) -> Result<(), Fail> {
    match given {
        Ok((ticket, answer)) => {
            let name = name_in(answer);
            let line = format!(in alloc; "{ticket} {name}\n")?;
            lines.push_str(line.as_str())?;
        }
        Err(_) => lines.push_str("memory\n")?,
    }
    Ok(())
}

// Writes what the next call gives, and nothing where no question is open.
fn write_next<R: Wait>(
    rt: &R,
    alloc: Global,
    pool: &mut Pool<Echo>,
    lines: &mut String,
) -> Result<(), Fail> {
    if pool.open_len() == 0 {
        return Ok(());
    }
    let given = pool.next(rt);
    let written = write_given(alloc, &given, lines);
    drop(given);
    written
}

// What four calls give where three questions are open.
fn four_calls<R: Wait>(rt: &R, alloc: Global, pool: &mut Pool<Echo>) -> Result<String, Fail>
    requires { open_in pool.old ≡ [] }
{
    open_three(alloc, pool)?;
    let mut lines = String::new(alloc);
    for _ in 0..4 {
        write_next(rt, alloc, pool, &mut lines)?;
    }
    Ok(lines)
}

// What four calls of a pool give, whose fetcher finds no memory for its next fetch of `file:///b.js` where `short` is 1.
fn given_by<R>(
    rt: &R,
    alloc: Global,
    workers: usize,
    window: usize,
    short: u64,
) -> Result<String, Fail>
where
    R: Wait + Threads + Clone + Drop + Send + Sync + 'static,
    requires { 0 < window }
{
    let short = AtomicU64::new(short);
    let Ok(fetcher) = Arc::new(alloc, Echo { short }) else {
        return Err(Fail::new("no memory"));
    };
    let mut pool = Pool::start(rt, alloc, fetcher, workers, window)?;
    let given = four_calls(rt, alloc, &mut pool);
    pool.close(rt);
    given
}

// In order of asking, each ticket with the name of its question.
const IN_ORDER: &str = "5 file:///a.js
6 file:///b.js
7 file:///c.js
";

// Whether a text has the same lines, in whatever order.
fn has_all(text: &str) -> bool {
    for line in IN_ORDER.lines() {
        if !text.contains(line) {
            return false;
        }
    }
    text.len() == IN_ORDER.len()
}

#[test]
fn each_ticket_is_answered_once(rt: HostRuntime) -> Result<(), Fail> {
    for workers in 0..5 {
        for window in 1..4 {
            let given = given_by(&rt, rt.alloc(), workers, window, 0)?;
            assert!(rt; has_all(given.as_str()), "{workers} workers, {window} out");
        }
    }
    Ok(())
}

// The owner fetches the questions in order of asking, where no worker is wanted, and where none can be started.
#[test]
fn owner_fetches_without_workers(rt: HostRuntime) -> Result<(), Fail> {
    assert!(rt; given_by(&rt, rt.alloc(), 0, 2, 0)?.as_str() == IN_ORDER);
    let uncopied = Uncopied { rt: rt.clone()? };
    assert!(rt; given_by(&uncopied, rt.alloc(), 4, 2, 0)?.as_str() == IN_ORDER);
    Ok(())
}

// A worker's want of memory is told once, its question stays open, and the owner's next call fetches it. Without workers it is
// the owner's own want of memory.
const MEMORY_ONCE: &str = "5 file:///a.js
memory
6 file:///b.js
7 file:///c.js
";

#[test]
fn question_without_memory_is_fetched_again(rt: HostRuntime) -> Result<(), Fail> {
    assert!(rt; given_by(&rt, rt.alloc(), 1, 2, 1)?.as_str() == MEMORY_ONCE);
    assert!(rt; given_by(&rt, rt.alloc(), 0, 2, 1)?.as_str() == MEMORY_ONCE);
    Ok(())
}

fn opened(alloc: Global) -> Result<VecDeque<(u64, Question)>, Fail> {
    let mut opened = VecDeque::new(alloc);
    opened.push_back((5, question_at(alloc, "file:///a.js")?))?;
    opened.push_back((6, question_at(alloc, "file:///b.js")?))?;
    Ok(opened)
}

// A message is for a question that is out, under its ticket; else it is dropped.
#[test]
fn other_messages_have_no_place(rt: HostRuntime) -> Result<(), Fail> {
    let alloc = rt.alloc();
    let opened = opened(alloc)?;
    let second = question_at(alloc, "file:///b.js")?;
    assert!(rt; place_for(&opened, 2, 6, &second) == Some(1));
    assert!(rt; place_for(&opened, 2, 5, &second).is_none());
    assert!(rt; place_for(&opened, 2, 7, &second).is_none());
    assert!(rt; place_for(&opened, 1, 6, &second).is_none());
    Ok(())
}
