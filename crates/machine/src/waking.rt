ghost use Rattle.machine.specs.Waking.{EachWaits, Wakes};

use instances::Instances;
use terms::{Inst, orders_are_total};

/// Makes the waiting instances ready. It begins with the last, because each goes to the front: so they run in the order in
/// which they came.
pub(crate) fn wake_all(instances: &mut Instances, waiters: &[Inst])
    requires { EachWaits instances.old waiters.now }
    ensures { Wakes instances.old instances.new waiters.now }
{
    orders_are_total();
    for number in (0..waiters.len()).rev() {
        let waiter = waiters[number];
        instances.wake(waiter);
    }
}
