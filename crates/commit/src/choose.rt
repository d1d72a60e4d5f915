ghost use Rattle.std.specs.Prelude.{◌≡◌, ◌<◌};

/// Picks which of the ready instances runs next. If a run comes to `Complete` or `Blocked`, its facts are the same whatever
/// was picked. Which fault stops it and where a limit is met may depend on the choice, and with them the facts.
pub trait Choose {
    /// The number of one of `ready` instances, from 0.
    fn pick(&mut self, ready: usize) -> usize
        requires { 0 < ready }
        ensures { result < ready };
}

/// Always picks the first.
#[derive(Clone, Copy, Debug, PartialEq, Eq)]
pub struct First;

impl Choose for First {
    fn pick(&mut self, _ready: usize) -> usize
        requires { 0 < _ready }
        ensures below { result < _ready }
        ensures first { result ≡ 0 }
    {
        0
    }
}
