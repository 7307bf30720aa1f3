// A worker: it takes jobs, and replies to each.
ghost use Rattle.std.specs.Prelude.{◌≡◌};
ghost use Rattle.std.specs.Arc.{arc_value};
ghost use Rattle.crossbeam_channel.specs.Claims.{view, IsSeatAt};
ghost use Rattle.crossbeam_channel.specs.Ends.{sends_on, receives_on};
ghost use Rattle.graph_pool.specs.Rules.{Fits};
ghost use Rattle.graph_pool.specs.declared.queues.View.TheVariants.{Told};

use crate::queues::{Job, JobPass, JobReceiver, Reply, ReplyPass, ReplySender, Sends, Takes};
use source_io::Fetch;
use std::alloc::Global;
use std::sync::{Arc, Wait};

// What a worker says of a job.
fn reply_to<F: Fetch>(fetcher: &F, job: Job) -> Reply
    ensures { Fits (F.world fetcher.now) result }
{
    let answer = fetcher.fetch(&job.question).ok();
    Reply { job, answer }
}

// Replies to jobs until no more can come, or no reply can be given.
fn work<R: Wait, F: Fetch>(
    rt: &R,
    fetcher: &F,
    jobs: &JobReceiver,
    job_pass: &mut JobPass,
    replies: &ReplySender,
    reply_pass: &mut ReplyPass,
)
    requires jobs { IsSeatAt (receives_on jobs.now) job_pass.old }
    requires job_view { view job_pass.old ≡ Told (F.world fetcher.now) }
    requires replies { IsSeatAt (sends_on replies.now) reply_pass.old }
    requires reply_view { view reply_pass.old ≡ Told (F.world fetcher.now) }
{
    for _ in rt.forever() {
        let Ok(job) = jobs.recv_as::<Takes, R>(rt, job_pass) else {
            return;
        };
        let reply = reply_to(fetcher, job);
        if replies.send_as::<Sends, R>(rt, reply_pass, reply).is_err() {
            return;
        }
    }
    unreachable!()
}

/// A worker with its ends of the queues. Its passes know the world that the fetcher tells.
#[derive(Drop)]
pub(crate) struct Worker<F: Fetch + Drop> {
    fetcher: Arc<F, Global>,
    jobs: JobReceiver,
    job_pass: JobPass,
    replies: ReplySender,
    reply_pass: ReplyPass,
    ghost takes: { IsSeatAt (receives_on jobs) job_pass },
    ghost takes_by: { view job_pass ≡ Told (F.world (arc_value fetcher)) },
    ghost replies_on: { IsSeatAt (sends_on replies) reply_pass },
    ghost replies_by: { view reply_pass ≡ Told (F.world (arc_value fetcher)) },
}

impl<F: Fetch + Drop> Worker<F> {
    pub(crate) fn new(
        fetcher: Arc<F, Global>,
        jobs: JobReceiver,
        job_pass: JobPass,
        replies: ReplySender,
        reply_pass: ReplyPass,
    ) -> Worker<F>
        requires jobs { IsSeatAt (receives_on jobs) job_pass }
        requires job_view { view job_pass ≡ Told (F.world (arc_value fetcher)) }
        requires replies { IsSeatAt (sends_on replies) reply_pass }
        requires reply_view { view reply_pass ≡ Told (F.world (arc_value fetcher)) }
    {
        Worker {
            fetcher,
            jobs,
            job_pass,
            replies,
            reply_pass,
        }
    }

    /// Works until there is no more to do.
    pub(crate) fn run<R: Wait>(self, rt: &R) {
        let Worker {
            fetcher,
            jobs,
            mut job_pass,
            replies,
            mut reply_pass,
        } = self;
        work(
            rt,
            &*fetcher,
            &jobs,
            &mut job_pass,
            &replies,
            &mut reply_pass,
        );
    }
}
