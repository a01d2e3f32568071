// Crashes.
ghost use Rattle.std.specs.Prelude.{◌≡◌, ◌+◌, ◌-◌, ◌^◌, ℕ, List, Option, Some, None, min, OnOk, OnErr};
ghost use Rattle.cq_disk.specs.declared.name.Name.{Name};
ghost use Rattle.cq_disk.specs.Files.{NamesAre, SameFiles};
ghost use Rattle.cq_memdisk.specs.Crash.{Crashed, SameLeft, image_of};

use cq_disk::Disk;
use std::alloc::AllocError;

/// A disk that tells its files and can be made to crash.
pub trait Crashable: Disk {
    /// After this many further calls each call fails, until the next crash. Nothing else changes.
    fn fuse(&mut self, calls: u64)
        ensures set { Self.fuse self.new ≡ Some (min (Self.moment self.old + calls) (2 ^ 64 - 1)) }
        ensures files { SameFiles (Self.files self.old) (Self.files self.new) }
        ensures left { SameLeft (Self.left self.old) (Self.left self.new) }
        ensures moment { Self.moment self.new ≡ Self.moment self.old }
        ensures faults { Self.faults self.new ≡ Self.faults self.old }
        ensures struck { Self.struck self.new ≡ Self.struck self.old }
        ensures planned { Self.planned self.new ≡ Self.planned self.old };

    /// Becomes image n of the files, one of those that a crash may leave now. Nothing waits for a sync then, the fuse is
    /// gone, and no count changes.
    ///
    /// Image 0 has what is on the disk, image 1 what reads give. Images 2 to 257 have the largest length of each file and
    /// n - 2 in each byte that waits for a sync. From 258 on the i-th file in the order of names, from 0, is as for 1
    /// where bit i modulo 32 of n - 258 is set, and else as for 0. Where memory is refused nothing changes.
    fn crash(&mut self, n: u64) -> Result<(), AllocError>
        ensures image { OnOk result
            ((names : List Name) × NamesAre (Self.files self.old) names
            × Crashed n names (Self.files self.old) (Self.files self.new)) }
        ensures left { OnOk result
            (Self.left self.old (Self.moment self.old) (Self.moment self.old) (image_of (Self.files self.new))) }
        ensures fuse { OnOk result (Self.fuse self.new ≡ None) }
        ensures err { OnErr result
            ((Self.fuse self.new ≡ Self.fuse self.old) × SameFiles (Self.files self.old) (Self.files self.new)
            × SameLeft (Self.left self.old) (Self.left self.new)) }
        ensures moment { Self.moment self.new ≡ Self.moment self.old }
        ensures faults { Self.faults self.new ≡ Self.faults self.old }
        ensures struck { Self.struck self.new ≡ Self.struck self.old }
        ensures planned { Self.planned self.new ≡ Self.planned self.old };

    /// It tells its files.
    ghost told: { Self.tells };
}
