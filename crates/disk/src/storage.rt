ghost use Rattle.std.specs.Prelude.{◌≡◌, ◌≤◌, ◌↔◌, ◌+◌, ℕ, Bool, IsTrue, length, take, drop, IfOk, OnOk};
ghost use Rattle.disk.specs.declared.side.Side.{Side};
ghost use Rattle.disk.specs.File.{File, MayLeave, Writes, Cuts, Syncs};
ghost use Rattle.disk.specs.Time.{Contents, MayLeaveNow, OtherStays, Elapses, HasCause, CountsRefusal};

use crate::{DiskError, Side};

/// Two files that can be read, written, cut and synced, and that a crash may catch at any moment.
///
/// The clauses about bytes hold if the disk is honest. The clauses about causes always hold.
pub trait Disk {
    /// Whether the disk keeps the clauses about bytes.
    ghost is_honest: { Bool };

    /// Each file now.
    ghost files: { Self → Side → File };

    /// The present moment, as a number that does not fall.
    ghost moment: { Self → ℕ };

    /// What a crash at a moment may have left, during a call or between two calls.
    ghost left_at: { Self → ℕ → Contents → Type 0 };

    /// How often the device has failed.
    ghost failures: { Self → ℕ };

    /// A number that changes with each call that returns `NoMemory`, and with no other call.
    ghost refusals: { Self → ℕ };

    /// The number of bytes that reads give of a file.
    fn len(&mut self, side: Side) -> Result<u64, DiskError>
        ensures value { IsTrue is_honest → IfOk result (λ count. count ≡ length (files self.old side).content) }
        ensures same { IsTrue is_honest → (each : Side) → files self.new each ≡ files self.old each }
        ensures time { IsTrue is_honest → Elapses (moment self.old) (moment self.new) (left_at self.old) (left_at self.new) }
        ensures cause { HasCause (failures self.old) (failures self.new) result }
        ensures refused { CountsRefusal (refusals self.old) (refusals self.new) result };

    /// Fills the buffer with the bytes from a position on. After an error the buffer holds any bytes.
    fn read(&mut self, side: Side, at: u64, buffer: &mut [u8]) -> Result<(), DiskError>
        requires { IsTrue is_honest → at + length buffer.old ≤ length (files self.old side).content }
        ensures value { IsTrue is_honest → OnOk result (buffer.new ≡ take (length buffer.old) (drop at (files self.old side).content)) }
        ensures same { IsTrue is_honest → (each : Side) → files self.new each ≡ files self.old each }
        ensures time { IsTrue is_honest → Elapses (moment self.old) (moment self.new) (left_at self.old) (left_at self.new) }
        ensures cause { HasCause (failures self.old) (failures self.new) result }
        ensures refused { CountsRefusal (refusals self.old) (refusals self.new) result };

    /// Writes over what is there from a position on, and past the end.
    fn write_at(&mut self, side: Side, at: u64, bytes: &[u8]) -> Result<(), DiskError>
        requires { IsTrue is_honest → at ≤ length (files self.old side).content }
        ensures file { IsTrue is_honest → Writes at bytes.now result (files self.old side) (files self.new side) }
        ensures other { IsTrue is_honest → OtherStays side (files self.old) (files self.new) }
        ensures time { IsTrue is_honest → Elapses (moment self.old) (moment self.new) (left_at self.old) (left_at self.new) }
        ensures cause { HasCause (failures self.old) (failures self.new) result }
        ensures refused { CountsRefusal (refusals self.old) (refusals self.new) result };

    /// Cuts a file to its first `count` bytes.
    fn cut(&mut self, side: Side, count: u64) -> Result<(), DiskError>
        requires { IsTrue is_honest → count ≤ length (files self.old side).content }
        ensures file { IsTrue is_honest → Cuts count result (files self.old side) (files self.new side) }
        ensures other { IsTrue is_honest → OtherStays side (files self.old) (files self.new) }
        ensures time { IsTrue is_honest → Elapses (moment self.old) (moment self.new) (left_at self.old) (left_at self.new) }
        ensures cause { HasCause (failures self.old) (failures self.new) result }
        ensures refused { CountsRefusal (refusals self.old) (refusals self.new) result };

    /// After `Ok`, a crash leaves of this file what reads give, until the file is written or cut again.
    fn sync(&mut self, side: Side) -> Result<(), DiskError>
        ensures file { IsTrue is_honest → Syncs result (files self.old side) (files self.new side) }
        ensures other { IsTrue is_honest → OtherStays side (files self.old) (files self.new) }
        ensures time { IsTrue is_honest → Elapses (moment self.old) (moment self.new) (left_at self.old) (left_at self.new) }
        ensures cause { HasCause (failures self.old) (failures self.new) result }
        ensures refused { CountsRefusal (refusals self.old) (refusals self.new) result };

    /// At the present moment, `left_at` is what a crash now may leave.
    ghost at_now: { IsTrue is_honest → (disk : Self) (contents : Contents) → left_at disk (moment disk) contents ↔ MayLeaveNow (files disk) contents };

    /// A crash may leave what reads give.
    ghost reads_left: { IsTrue is_honest → (disk : Self) (side : Side) → MayLeave (files disk side).durable (files disk side).content };
}
