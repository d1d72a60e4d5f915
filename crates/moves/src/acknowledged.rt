ghost use Rattle.moves.specs.Order.{AcknowledgedStays, Forgets, MadeStays};

use disk::Disk;

/// Laws of the commit order, with nothing to run: what was made stays in front of what comes later, so each acknowledged commit is there, in its place;
/// and a worked example, of a commit that would be forgotten.
pub fn acknowledged_stays<D: Disk>()
    ensures made { MadeStays D }
    ensures acknowledged { AcknowledgedStays D }
    ensures example { Forgets D }
{}
