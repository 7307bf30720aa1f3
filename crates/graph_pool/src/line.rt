// The owner's side of the queues.
ghost use Rattle.std.specs.Prelude.{◌≡◌, ◌<◌, length, IfOk, IfSome, Option};
ghost use Rattle.std.specs.Arc.{arc_value};
ghost use Rattle.crossbeam_channel.specs.Claims.{view, IsSeatAt};
ghost use Rattle.crossbeam_channel.specs.Ends.{sends_on, receives_on};
ghost use Rattle.source_io.specs.declared.types.World.{World};
ghost use Rattle.graph_pool.specs.Rules.{Fits, CameFor, IsAt};
ghost use Rattle.graph_pool.specs.declared.queues.View.TheVariants.{Told};

use crate::queues::{
    Begins, Job, JobPass, JobReceiver, JobSender, Naming, OverJobs, OverReplies, Reply, ReplyPass,
    ReplyReceiver, ReplySender, Sends, Shares, Takes, View,
};
use crate::same_question::same_question;
use crate::worker::Worker;
use crossbeam_channel::bounded_with;
use source_io::{Answer, Fetch, Question, Ticket};
use std::alloc::{AllocError, Global};
use std::collections::VecDeque;
use std::marker::{Brand, Model};
use std::sync::{Arc, Wait};
use std::thread;
use std::thread::{JoinHandle, Threads};

/// What comes of waiting for an answer.
pub(crate) enum Came {
    /// The answer to the open question at a place.
    Answered(usize, Answer),
    /// A worker found no memory for the answer under a ticket.
    Unanswered(Ticket),
    /// There was no memory for a job.
    NoMemory,
    /// No worker answers any more.
    Ended,
}

/// The place of a ticket among the first open ones.
pub(crate) fn place_of(
    unanswered: &VecDeque<(Ticket, Question)>,
    sent: usize,
    ticket: Ticket,
) -> Option<usize>
    ensures { IfSome result (λ place. place < length unanswered.now.items) }
{
    for place in 0..sent.min(unanswered.len()) {
        if unanswered[place].0 == ticket {
            return Some(place);
        }
    }
    None
}

/// The place of a question under its ticket among the first open ones, `sent` of them; none where none of them has the ticket,
/// or the one that has it is another question.
pub fn place_for(
    unanswered: &VecDeque<(Ticket, Question)>,
    sent: usize,
    ticket: Ticket,
    question: &Question,
) -> Option<usize>
    ensures { IfSome result (λ place. IsAt unanswered.now.items place question.now) }
{
    let place = place_of(unanswered, sent, ticket)?;
    if same_question(&unanswered[place].1, question) {
        Some(place)
    } else {
        None
    }
}

// What a reply is for the open questions, of which the first ones were sent; none where it isn't about one of them.
fn came_of(unanswered: &VecDeque<(Ticket, Question)>, sent: usize, reply: Reply) -> Option<Came>
    ensures { (w : Option World) → Fits w reply → IfSome result (CameFor w unanswered.now.items) }
{
    let ticket = reply.job.ticket;
    let place = place_for(unanswered, sent, ticket, &reply.job.question)?;
    match reply.into_answer() {
        Some(answer) => Some(Came::Answered(place, answer)),
        None => Some(Came::Unanswered(ticket)),
    }
}

/// The owner's ends of the queues. Contracts see the world that its passes know.
#[derive(Drop)]
pub(crate) struct Line {
    jobs: JobSender,
    job_pass: JobPass,
    replies: ReplyReceiver,
    reply_pass: ReplyPass,
}

impl Model for Line {
    ghost use Rattle.std.specs.Prelude.{◌≡◌, Option};
    ghost use Rattle.crossbeam_channel.specs.Claims.{view as knows, IsSeatAt};
    ghost use Rattle.crossbeam_channel.specs.Ends.{sends_on, receives_on};
    ghost use Rattle.source_io.specs.declared.types.World.{World};
    ghost use Rattle.graph_pool.specs.Rules.{told_in};
    ghost use Rattle.graph_pool.specs.declared.queues.View.TheVariants.{Told};

    ghost Value = { Option World };

    ghost view = { λ l. told_in (knows l.reply_pass) };

    ghost invariant = { λ l. IsSeatAt (sends_on l.jobs) l.job_pass × (knows l.job_pass ≡ Told (told_in (knows l.reply_pass))) × IsSeatAt (receives_on l.replies) l.reply_pass × (knows l.reply_pass ≡ Told (told_in (knows l.reply_pass))) };
}

impl Line {
    // Puts a job into its queue; false where no worker can take it.
    fn send<R: Wait>(&mut self, rt: &R, job: Job) -> bool
        ensures { self.new ≡ self.old }
    {
        let Line { jobs, job_pass, .. } = self;
        jobs.send_as::<Sends, R>(rt, job_pass, job).is_ok()
    }

    // Waits for a reply; none where no worker is left. An answer in it is the fetcher's to the question that it carries.
    fn receive<R: Wait>(&mut self, rt: &R) -> Option<Reply>
        ensures same { self.new ≡ self.old }
        ensures fits { IfSome result (λ r. Fits self.old r) }
    {
        let Line {
            replies,
            reply_pass,
            ..
        } = self;
        match replies.recv_as::<Takes, R>(rt, reply_pass) {
            Ok(reply) => Some(reply),
            Err(_) => None,
        }
    }

    // Sends open questions in order until a window of them is out. False where no worker can take one.
    fn send_window<R: Wait>(
        &mut self,
        rt: &R,
        unanswered: &VecDeque<(Ticket, Question)>,
        sent: &mut usize,
        window: usize,
    ) -> Result<bool, AllocError>
        ensures { self.new ≡ self.old }
    {
        while *sent < window && *sent < unanswered.len() {
            let (ticket, question) = &unanswered[*sent];
            let question = question.try_clone()?;
            let job = Job {
                ticket: *ticket,
                question,
            };
            if !self.send(rt, job) {
                return Ok(false);
            }
            *sent += 1;
        }
        Ok(true)
    }

    /// Sends what fits, and waits for a reply to an open question; `sent` of them, the first ones, are out.
    pub(crate) fn wait<R: Wait>(
        &mut self,
        rt: &R,
        unanswered: &VecDeque<(Ticket, Question)>,
        sent: &mut usize,
        window: usize,
    ) -> Came
        ensures same { self.new ≡ self.old }
        ensures came { CameFor self.old unanswered.now.items result }
    {
        match self.send_window(rt, unanswered, sent, window) {
            Ok(true) => (),
            Ok(false) => return Came::Ended,
            Err(_) => return Came::NoMemory,
        }
        if *sent == 0 {
            return Came::Ended;
        }
        let out = *sent;
        for _ in rt.forever() {
            let Some(reply) = self.receive(rt) else {
                return Came::Ended;
            };
            if let Some(came) = came_of(unanswered, out, reply) {
                return came;
            }
        }
        unreachable!()
    }
}

// A worker with ends and passes of its own, where memory can be had.
fn hired<F>(
    fetcher: Arc<F, Global>,
    jobs: &JobSender,
    job_queue: &JobReceiver,
    job_pass: &mut JobPass,
    reply_queue: &ReplySender,
    reply_pass: &mut ReplyPass,
) -> Option<Worker<F>>
where
    F: Fetch + Drop,
    requires queue { receives_on job_queue.now ≡ sends_on jobs.now }
    requires jobs { IsSeatAt (sends_on jobs.now) job_pass.old }
    requires job_view { view job_pass.old ≡ Told (F.world (arc_value fetcher)) }
    requires replies { IsSeatAt (sends_on reply_queue.now) reply_pass.old }
    requires reply_view { view reply_pass.old ≡ Told (F.world (arc_value fetcher)) }
    ensures jobs { IsSeatAt (sends_on jobs.now) job_pass.new }
    ensures job_view { view job_pass.new ≡ view job_pass.old }
    ensures replies { IsSeatAt (sends_on reply_queue.now) reply_pass.new }
    ensures reply_view { view reply_pass.new ≡ view reply_pass.old }
{
    let from = job_queue.try_clone().ok()?;
    let to = reply_queue.try_clone().ok()?;
    let taking = jobs.another::<Shares>(job_pass);
    let replying = reply_queue.another::<Shares>(reply_pass);
    Some(Worker::new(fetcher, from, taking, to, replying))
}

// Starts a worker, where a thread can be had.
fn start_worker<F, R>(rt: &R, worker: Worker<F>) -> Option<JoinHandle<()>>
where
    F: Fetch + Send + Sync + Drop + 'static,
    R: Wait + Threads + Clone + Drop + Send + Sync + 'static,
{
    let theirs = rt.clone().ok()?;
    thread::spawn(rt, move || worker.run(&theirs)).ok()
}

// Starts workers, as many as can be had.
fn start_workers<F, R>(
    rt: &R,
    fetcher: &Arc<F, Global>,
    count: usize,
    jobs: &JobSender,
    job_queue: &JobReceiver,
    job_pass: &mut JobPass,
    reply_queue: &ReplySender,
    reply_pass: &mut ReplyPass,
    workers: &mut Vec<JoinHandle<()>>,
)
where
    F: Fetch + Send + Sync + Drop + 'static,
    R: Wait + Threads + Clone + Drop + Send + Sync + 'static,
    requires queue { receives_on job_queue.now ≡ sends_on jobs.now }
    requires jobs { IsSeatAt (sends_on jobs.now) job_pass.old }
    requires job_view { view job_pass.old ≡ Told (F.world (arc_value fetcher.now)) }
    requires replies { IsSeatAt (sends_on reply_queue.now) reply_pass.old }
    requires reply_view { view reply_pass.old ≡ Told (F.world (arc_value fetcher.now)) }
    ensures jobs { IsSeatAt (sends_on jobs.now) job_pass.new }
    ensures job_view { view job_pass.new ≡ Told (F.world (arc_value fetcher.now)) }
    ensures reply_view { view reply_pass.new ≡ Told (F.world (arc_value fetcher.now)) }
    ensures replies { IsSeatAt (sends_on reply_queue.now) reply_pass.new }
{
    for _ in 0..count {
        let Ok(theirs) = Arc::try_clone(fetcher) else {
            return;
        };
        let Some(worker) = hired(theirs, jobs, job_queue, job_pass, reply_queue, reply_pass) else {
            return;
        };
        if workers.reserve(1).is_err() {
            return;
        }
        let Some(started) = start_worker(rt, worker) else {
            return;
        };
        workers.push_reserved(started);
    }
}

// The same, of a world that has a name.
fn begin<F, N, R>(
    rt: &R,
    alloc: Global,
    fetcher: &Arc<F, Global>,
    count: usize,
    window: usize,
    workers: &mut Vec<JoinHandle<()>>,
) -> Result<Line, AllocError>
where
    F: Fetch + Send + Sync + Drop + 'static,
    N: Naming,
    R: Wait + Threads + Clone + Drop + Send + Sync + 'static,
    requires window { 0 < window }
    requires named { F.world (arc_value fetcher.now) ≡ N.told }
    ensures { IfOk result (λ line. line ≡ F.world (arc_value fetcher.now)) }
{
    let (jobs, job_queue, mut job_pass) = bounded_with::<Job, View, OverJobs, Global>(
        alloc, window,
    )?;
    let (reply_queue, replies, mut reply_pass) = bounded_with::<Reply, View, OverReplies, Global>(
        alloc, window,
    )?;
    let first_taking = jobs.another::<Begins<N>>(&mut job_pass);
    let first_replying = reply_queue.another::<Begins<N>>(&mut reply_pass);
    drop(first_taking);
    drop(first_replying);
    start_workers(
        rt,
        fetcher,
        count,
        &jobs,
        &job_queue,
        &mut job_pass,
        &reply_queue,
        &mut reply_pass,
        workers,
    );
    Ok(Line {
        jobs,
        job_pass,
        replies,
        reply_pass,
    })
}

/// Two queues, and workers between them, as many of a number as can be had.
pub(crate) fn start_line<F, R>(
    rt: &R,
    alloc: Global,
    fetcher: &Arc<F, Global>,
    count: usize,
    window: usize,
    workers: &mut Vec<JoinHandle<()>>,
) -> Result<Line, AllocError>
where
    F: Fetch + Send + Sync + Drop + 'static,
    R: Wait + Threads + Clone + Drop + Send + Sync + 'static,
    requires { 0 < window }
    ensures { IfOk result (λ line. line ≡ F.world (arc_value fetcher.now)) }
{
    begin::<F, Brand, R>(rt, alloc, fetcher, count, window, workers)
}
