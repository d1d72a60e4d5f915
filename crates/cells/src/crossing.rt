//! Watches and fillers may go from thread to thread. It is a law, with nothing to run.
ghost use denote.Param.Send.{IsSend};
ghost use Rattle.cells.specs.contracts.filler.Filler as of_filler;
ghost use Rattle.cells.specs.contracts.fillers.Fillers as of_fillers;
ghost use Rattle.cells.specs.contracts.watch.Watch as of_watch;

use crate::{Filler, Fillers, Watch};

// Gives its caller the clause that trait search finds for a type.
fn goes<T: Send>()
    ensures { IsSend T.row }
{}

/// A `Watch`, a `Filler` and a `Fillers` are `Send`.
pub fn cells_cross()
    ensures watches { IsSend of_watch.the_row }
    ensures fillers { IsSend of_filler.the_row }
    ensures registers { IsSend of_fillers.the_row }
{
    goes::<Watch>();
    goes::<Filler>();
    goes::<Fillers>();
}
