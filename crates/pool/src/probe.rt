use machine::Counts;
use std::marker::Sync;
use terms::Inst;

/// What a probe answers.
#[derive(Clone, Copy, Debug, PartialEq, Eq)]
pub enum Answer {
    /// Run the instance.
    Go,
    /// Call `counted`, and then run the instance.
    Count,
    /// Give the instance back, and end all workers.
    Stop,
}

/// A worker asks it before each body, outside the lock. Any number of workers may be in it at one time. It is not asked
/// about what the calling thread runs after the workers have ended.
pub trait Probe: Sync {
    ghost use Rattle.std.specs.Prelude.{◌≡◌, Bool, true};
    ghost use Rattle.pool.specs.declared.probe.Answer.TheVariants.{Stop};

    /// Whether it may ever answer `Stop`.
    ghost may_stop: { Bool };

    /// Says whether this instance is to be run now.
    fn enter(&self, instance: Inst) -> Answer
        ensures { result ≡ Stop → may_stop ≡ true };

    /// Called outside the lock, after `enter` returned `Count`, with what the store held a moment ago. What workers have not
    /// committed yet is not counted. Counting takes the lock of the store, so ask for it only now and then.
    fn counted(&self, _counts: Counts) {}
}

/// A probe that always answers `Go`.
#[derive(Clone, Copy, Debug, PartialEq, Eq)]
pub struct AlwaysGo;

impl Probe for AlwaysGo {
    ghost use Rattle.std.specs.Prelude.{false};

    ghost may_stop = { false };

    fn enter(&self, _instance: Inst) -> Answer {
        Answer::Go
    }
}
