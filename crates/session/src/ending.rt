ghost use Rattle.std.specs.Prelude.{◌≡◌};
ghost use Rattle.session.specs.Session.{is_full, is_limit, limited_by, no_ending, stop_of, with_reply};

use crate::reply::Reply;
use script::Command;

/// The reply that ended a session before its report.
#[derive(Clone, Copy, Debug, PartialEq, Eq)]
pub enum Stop {
    /// The store is halted.
    Halted,
    /// The device failed.
    Device,
    /// Memory was refused.
    NoMemory,
    /// A thread could not be started.
    NoThread,
}

/// How a session ended.
#[derive(Clone, Copy, Debug, PartialEq, Eq)]
pub struct Ending {
    /// The reply that ended it before its report, if one did.
    pub stop: Option<Stop>,
    /// Whether a put or a run was refused as full.
    pub is_full: bool,
    /// Whether the last run replied `limit`.
    pub is_limited: bool,
}

impl Ending {
    /// The ending of a session without lines.
    pub(crate) fn new() -> Self
        ensures { result ≡ no_ending }
    {
        Ending {
            stop: None,
            is_full: false,
            is_limited: false,
        }
    }

    /// The ending after one more reply.
    pub(crate) fn with_reply(self, command: Command, reply: &Reply) -> Self
        ensures { result ≡ with_reply self command reply.now }
    {
        Ending {
            stop: stop_of(reply),
            is_full: self.is_full || matches!(reply, Reply::Full),
            is_limited: match command {
                Command::Run => matches!(reply, Reply::Limit),
                _ => self.is_limited,
            },
        }
    }
}

// How a reply ends the session, if it does.
fn stop_of(reply: &Reply) -> Option<Stop>
    ensures { result ≡ stop_of reply.now }
{
    match reply {
        Reply::Halted => Some(Stop::Halted),
        Reply::Device => Some(Stop::Device),
        Reply::NoMemory => Some(Stop::NoMemory),
        Reply::NoThread => Some(Stop::NoThread),
        _ => None,
    }
}
