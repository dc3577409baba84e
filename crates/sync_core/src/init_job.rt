//! The job that initializes a mirror.
ghost use Rattle.std.specs.Prelude.{◌≡◌};
ghost use Rattle.sync_core.specs.Jobs.{Initialise, begun};
ghost use Rattle.sync_core.specs.Deeds.{deed_of};
ghost use Rattle.sync_core.specs.InitTable as table;
ghost use Rattle.sync_core.specs.InitFollows.{FollowsInit};

use crate::action::Action;
use crate::answer::Answer;
use crate::call::MirrorCall;
use crate::ending::Ending;
use node_base::{PropValue, Props, RevNo};

/// Where an init job is.
#[derive(Drop)]
enum InitPhase {
    /// Asks who the master is.
    Who,
    /// Fetches the properties of revision 0.
    FetchProps { uuid: PropValue },
    /// Initializes the mirror.
    Init { uuid: PropValue, props: Props },
    /// Has ended so.
    End(Ending),
}

/// An init job: it asks who the master is, fetches the properties of revision 0, and initializes the mirror with them.
#[derive(Drop)]
pub struct InitJob {
    url: PropValue,
    phase: InitPhase,
}

impl InitJob {
    /// A job that initializes a mirror from that URL.
    pub fn new(url: PropValue) -> InitJob
        ensures start { result ≡ table.start url }
        ensures begun { FollowsInit (begun (Initialise url)) result }
    {
        InitJob {
            url,
            phase: InitPhase::Who,
        }
    }

    /// What it does next.
    pub fn decide(&self) -> Action<'_>
        ensures table { deed_of result ≡ table.next_deed self.now }
    {
        match &self.phase {
            InitPhase::Who => Action::AskIdentity,
            InitPhase::FetchProps { .. } => Action::FetchProps(RevNo::ZERO),
            InitPhase::Init { uuid, props } => Action::Call(MirrorCall::Init {
                url: &self.url,
                uuid,
                props,
            }),
            InitPhase::End(_) => Action::End,
        }
    }

    /// The job after the answer to what it did.
    pub fn absorb(self, answer: Answer) -> InitJob
        ensures table { result ≡ table.after self answer }
    {
        let InitJob { url, phase } = self;
        let phase = match phase {
            InitPhase::Who => after_who(answer),
            InitPhase::FetchProps { uuid } => after_fetch_props(uuid, answer),
            InitPhase::Init { .. } => after_init(answer),
            InitPhase::End(ending) => InitPhase::End(ending),
        };
        InitJob { url, phase }
    }

    /// How it ended; None where it goes on.
    pub fn ending(self) -> Option<Ending>
        ensures { result ≡ table.ending_of self }
    {
        let InitJob { url: _, phase } = self;
        match phase {
            InitPhase::End(ending) => Some(ending),
            _ => None,
        }
    }
}

fn after_who(answer: Answer) -> InitPhase
    ensures { result ≡ table.after_who answer }
{
    match answer {
        Answer::Identity(uuid) => InitPhase::FetchProps { uuid },
        other => InitPhase::End(Ending::Refused(other.fault())),
    }
}

fn after_fetch_props(uuid: PropValue, answer: Answer) -> InitPhase
    ensures { result ≡ table.after_fetch_props uuid answer }
{
    match answer {
        Answer::Map(props) => InitPhase::Init { uuid, props },
        other => InitPhase::End(Ending::Refused(other.fault())),
    }
}

fn after_init(answer: Answer) -> InitPhase
    ensures { result ≡ table.after_init answer }
{
    match answer {
        Answer::Done => InitPhase::End(Ending::Fine),
        other => InitPhase::End(Ending::Refused(other.fault())),
    }
}
