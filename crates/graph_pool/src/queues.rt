// What goes through the two queues, and the rules that they are under.
ghost use Rattle.std.specs.Prelude.{◌≡◌};

use crossbeam_channel::protocol::{Join, Lesson, Outcome, Protocol, Split};
use crossbeam_channel::{Pass, RuledReceiver, RuledSender};
use source_io::{Answer, Question, Ticket, World};
use std::marker::{Brand, PhantomData};

/// A question under its ticket.
pub(crate) struct Job {
    pub ticket: Ticket,
    pub question: Question,
}

// So that its drop is one call at each way out of what owns it.
impl Drop for Job {
    fn drop(self) {
        let Job {
            ticket: _,
            question: _,
        } = self;
    }
}

/// What a worker says of a job: its answer, or none where there was no memory for one.
pub(crate) struct Reply {
    pub job: Job,
    pub answer: Option<Answer>,
}

// So that its drop is one call at each way out of what owns it.
impl Drop for Reply {
    fn drop(self) {
        let Reply { job: _, answer: _ } = self;
    }
}

impl Reply {
    /// Its answer, without the job.
    pub(crate) fn into_answer(self) -> Option<Answer>
        ensures { result ≡ self.answer }
    {
        let Reply { job: _, answer } = self;
        answer
    }
}

/// What a pass knows. No value of it is made.
pub(crate) enum View {
    /// Nothing yet.
    New,
    /// The world that the fetcher tells, or that it tells none.
    Told(Option<World>),
    /// Nothing more.
    Spent,
}

/// The rule over the jobs.
pub(crate) struct OverJobs;

impl Protocol<Job, View> for OverJobs {
    ghost use Rattle.graph_pool.specs.declared.queues.View.TheVariants.{New};
    ghost use Rattle.graph_pool.specs.Rules.{JobsKept};

    ghost holds = { JobsKept };

    ghost first = { New };
}

/// The rule over the replies.
pub(crate) struct OverReplies;

impl Protocol<Reply, View> for OverReplies {
    ghost use Rattle.graph_pool.specs.declared.queues.View.TheVariants.{New};
    ghost use Rattle.graph_pool.specs.Rules.{RepliesKept};

    ghost holds = { RepliesKept };

    ghost first = { New };
}

/// A send leaves what is known.
pub(crate) struct Sends;

impl<T> Outcome<T, View> for Sends {
    ghost use Rattle.std.specs.Prelude.{◌≡◌};

    ghost then = { λ v x w. w ≡ v };
}

impl<T> Lesson<T, View> for Sends {
    ghost use Rattle.std.specs.Prelude.{⊤};

    ghost fact = { λ v items. ⊤ };
}

/// A receive leaves it too, and a reply fits it.
pub(crate) struct Takes;

impl Outcome<Job, View> for Takes {
    ghost use Rattle.std.specs.Prelude.{◌≡◌};

    ghost then = { λ v x w. w ≡ v };
}

impl Outcome<Reply, View> for Takes {
    ghost use Rattle.std.specs.Prelude.{◌≡◌};
    ghost use Rattle.graph_pool.specs.Rules.{FitsView};

    ghost then = { λ v x w. (w ≡ v) × FitsView v x };
}

impl<T> Lesson<T, View> for Takes {
    ghost use Rattle.std.specs.Prelude.{⊤};

    ghost fact = { λ v items. ⊤ };
}

/// Names the world that is told.
pub(crate) trait Naming {
    ghost use Rattle.std.specs.Prelude.{Option};
    ghost use Rattle.source_io.specs.declared.types.World.{World};

    ghost told: { Option World };
}

impl Naming for Brand {
    ghost use Rattle.std.specs.Prelude.{None};

    ghost told = { None };
}

/// The first pass, and one that is split off, learn the world.
pub(crate) struct Begins<N: Naming> {
    of: PhantomData<N>,
}

impl<N: Naming> Split<View> for Begins<N> {
    ghost use Rattle.graph_pool.specs.declared.queues.View.TheVariants.{Told};

    ghost left = { λ v. Told N.told };

    ghost right = { λ v. Told N.told };
}

/// A pass is split for one more user, and joined again.
pub(crate) struct Shares;

impl Split<View> for Shares {
    ghost left = { λ v. v };

    ghost right = { λ v. v };
}

impl Join<View> for Shares {
    ghost use Rattle.graph_pool.specs.declared.queues.View.TheVariants.{Spent};

    ghost both = { λ v w. v };

    ghost spent = { Spent };
}

pub(crate) type JobSender = RuledSender<Job, View, OverJobs>;

pub(crate) type JobReceiver = RuledReceiver<Job, View, OverJobs>;

pub(crate) type JobPass = Pass<Job, View>;

pub(crate) type ReplySender = RuledSender<Reply, View, OverReplies>;

pub(crate) type ReplyReceiver = RuledReceiver<Reply, View, OverReplies>;

pub(crate) type ReplyPass = Pass<Reply, View>;
