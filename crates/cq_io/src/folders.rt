// Folders that are opened as disks.
ghost use Rattle.std.specs.Prelude.{◌≡◌, ◌↔◌, ℕ, List, Bool, false, IfOk, IsErr, IsErrOf, IsSome};
ghost use Rattle.std.specs.declared.option.Option.{Option};
ghost use Rattle.cq_disk.specs.declared.disk.DiskError.TheVariants.{Fault as disk_fault};
ghost use Rattle.cq_io.specs.Folders.{HandsOut, TakesBack, LeavesOthers, LeavesAll, CountsFaults, TakesOver};

use cq_disk::{Disk, DiskError};
use std::alloc::Global;

/// Folders, each of which is opened by its path as a disk that is handed back.
///
/// Folders tell what stands in them, or they don't; this depends on their type alone, and each clause on that is said
/// where they tell.
pub trait Folders {
    /// A folder that is open.
    type D: Disk + Drop + Send;

    /// Whether clauses speak of what the folders hold. It depends on the type alone.
    ghost tells: { Type 0 };

    /// The disk of the folder at a path; None while it is handed out, and where there is no such folder.
    ghost inside: { Self → List ℕ → Option Self.D };

    /// Whether a path can be opened now.
    ghost opens: { Self → List ℕ → Bool };

    /// With how many faults the disk of a path was handed out; None where it isn't handed out. It is said whether
    /// folders tell or not.
    ghost given: { Self → List ℕ → Option ℕ };

    /// How many openings failed.
    ghost faults: { Self → ℕ };

    /// How many disks were handed back with more faults than they had.
    ghost disk_faults: { Self → ℕ };

    /// Opens the folder at this path, which is made where it is absent. A path that was opened and not handed back since
    /// is a fault. An opening that fails changes nothing but the count.
    fn open_folder(&mut self, alloc: Global, path: &str) -> Result<Self::D, DiskError>
        ensures once { IsSome (given self.old path.now) → IsErrOf result disk_fault }
        ensures ok { IfOk result (λ disk. HandsOut tells inside opens given Self.D.faults path.now self.old self.new disk) }
        ensures refused { tells → IsErrOf result disk_fault ↔ (opens self.old path.now ≡ false) }
        ensures others { LeavesOthers tells inside opens given path.now self.old self.new }
        ensures same { IsErr result → LeavesAll tells inside opens given self.old self.new }
        ensures counted { CountsFaults tells disk_fault (faults self.old) (faults self.new) result }
        ensures disks { disk_faults self.new ≡ disk_faults self.old };

    /// Hands a disk back. The path was opened, and wasn't handed back since.
    fn close_folder(&mut self, path: &str, disk: Self::D)
        requires { IsSome (given self.old path.now) }
        ensures back { TakesBack tells inside given path.now self.new disk }
        ensures others { LeavesOthers tells inside opens given path.now self.old self.new }
        ensures faults { faults self.new ≡ faults self.old }
        ensures disks { TakesOver (given self.old path.now) (Self.D.faults disk)
            (disk_faults self.old) (disk_faults self.new) };

    /// How many openings failed so far. It never falls, and stays at its last value.
    fn faults(&self) -> u64
        ensures { result ≡ faults self.now };

    /// How many disks were handed back so far with more faults than they had, or as many as can be counted. It never
    /// falls, and stays at its last value.
    fn disk_faults(&self) -> u64
        ensures { result ≡ disk_faults self.now };

    /// Folders that tell give disks that do.
    ghost tells_disks: { tells → Self.D.tells };
}
