//! The laws that show that the definition of the disk is the right one. Each is a contract, with nothing to run.
ghost use Rattle.disk.specs.Laws.{CrashesAlike, UntouchedStays, WriteWithin, WritePast, WriteLeavesExactly, WriteExample, CutLeaves, CutExample, TouchesAddUp, MixturesLeft, FailureTakesNothingBack, FailedWriteLeaves, FailedCutLeaves, WriteKeepsReads, CutKeepsReads, FailureKeepsReads, SyncKeepsReads};

/// Crashes one after another: none of them makes anything durable, and if nothing is touched all leave what reads give.
pub fn crashes_again()
    ensures alike { CrashesAlike }
    ensures untouched { UntouchedStays }
{}

/// A write within the synced bytes may leave any bytes in its range, and changes nothing else. A write that reaches
/// past their end may leave any bytes from where it begins, in any number.
pub fn write_leaves()
    ensures within { WriteWithin }
    ensures past { WritePast }
    ensures exactly { WriteLeavesExactly }
    ensures example { WriteExample }
{}

/// A cut may leave any bytes from the new end on, the old ones among them.
pub fn cut_leaves()
    ensures exactly { CutLeaves }
    ensures example { CutExample }
{}

/// Two writes or cuts with no sync between: what may be left after either may be left after both, and so may any
/// mixture of the two.
pub fn touches_add_up()
    ensures either { TouchesAddUp }
    ensures mixtures { MixturesLeft }
{}

/// A write or a cut that failed takes nothing back, and may leave exactly what one that succeeds may leave.
pub fn failure_leaves()
    ensures before { FailureTakesNothingBack }
    ensures write { FailedWriteLeaves }
    ensures cut { FailedCutLeaves }
{}

/// A crash may leave what reads give, after each kind of call.
pub fn reads_are_left()
    ensures write { WriteKeepsReads }
    ensures cut { CutKeepsReads }
    ensures failure { FailureKeepsReads }
    ensures sync { SyncKeepsReads }
{}
