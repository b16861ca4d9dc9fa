//! What a disk of two sides promises.
ghost use Rattle.std.specs.Prelude.{◌≡◌, ◌≤◌, ◌+◌, ◌++◌, ℕ, length, take, drop, IsTrue, IfOk, OnOk, IsErr};
ghost use Rattle.slee_disk.specs.Sides.{Sides, on, given, AtSide, Holds, Torn, Cut};
ghost use Rattle.slee_disk.specs.Disk.{DiskState, Looks, Changes, KeepsSettled, Settles};

use crate::{Failed, Side};

/// A disk of two sides. A write is sure to stay only after a sync of its side: until then a crash may leave any bytes
/// in its range.
pub trait Disk {
    /// What is known of it.
    ghost disk: { Self → DiskState };

    /// How many bytes a side has.
    fn len(&mut self, side: Side) -> Result<u64, Failed>
        ensures length { IsTrue (disk self.old).told → IfOk result (λ n. n ≡ length (on side (disk self.old).seen)) }
        ensures looks { Looks (disk self.old) (disk self.new) (IsErr result) }
        ensures settled { KeepsSettled (disk self.old) (disk self.new) };

    /// Gives as many bytes as there are from a place on, up to `into`.
    fn read(&mut self, side: Side, at: u64, into: &mut [u8]) -> Result<usize, Failed>
        ensures count { IfOk result (λ n. n ≤ length into.old) }
        ensures bytes { IsTrue (disk self.old).told → IfOk result (λ n.
            let bytes = given at (length into.old) (on side (disk self.old).seen) in
            (n ≡ length bytes) × (into.new ≡ bytes ++ drop n into.old)) }
        ensures looks { Looks (disk self.old) (disk self.new) (IsErr result) }
        ensures settled { KeepsSettled (disk self.old) (disk self.new) };

    /// Writes over what is there, and past the end, with zeros in a gap. One that fails counts as made in what a crash
    /// may leave.
    fn write_at(&mut self, side: Side, at: u64, bytes: &[u8]) -> Result<(), Failed>
        ensures written { IsTrue (disk self.old).told → OnOk result (AtSide side (Holds at bytes.now) (disk self.old).seen (disk self.new).seen) }
        ensures changes { Changes side (Torn at (length bytes.now)) (disk self.old) (disk self.new) (IsErr result) };

    /// Cuts a side to a length; past the end it changes nothing. Until a sync, a crash may leave any bytes from there on.
    fn cut(&mut self, side: Side, length: u64) -> Result<(), Failed>
        ensures cut { IsTrue (disk self.old).told → OnOk result (AtSide side (λ old new. new ≡ take length old) (disk self.old).seen (disk self.new).seen) }
        ensures changes { Changes side (Cut length) (disk self.old) (disk self.new) (IsErr result) };

    /// After it, a crash leaves what a read gives of this side. One that fails promises nothing.
    fn sync(&mut self, side: Side) -> Result<(), Failed>
        ensures durable { IsTrue (disk self.old).told → OnOk result ((image : Sides) → (disk self.new).images image → on side image ≡ on side (disk self.old).seen) }
        ensures looks { Looks (disk self.old) (disk self.new) (IsErr result) }
        ensures settled { Settles side (disk self.old) (disk self.new) result };
}
