ghost use Rattle.std.specs.Prelude.{IsTrue};
ghost use Rattle.moves.specs.Run.{RunsAreMoves};

use disk::Disk;

/// A law, with nothing to run: a run of steps, on one thread or on many, is a move. So the theorem holds of what `run_with` and
/// the drivers of the layers above return.
pub fn runs_are_moves<D: Disk>()
    ensures { RunsAreMoves D.Disk }
{}
