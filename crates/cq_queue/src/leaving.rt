// Entries that go from a segment, and a segment whose files are removed.
ghost use Rattle.std.specs.Prelude.{◌≡◌, ◌+◌, [], length, OnOk, IsErr, None, true, false, if◌then◌else◌};
ghost use Rattle.cq_disk.specs.declared.name.Name.{Name};
ghost use Rattle.cq_disk.specs.Files.{BecomesOrNot, HasFile, Removes};
ghost use Rattle.cq_disk.specs.Run.{Ran, LeavesOnly};

use crate::QueueSegment;
use cq_disk::{Disk, Fault, Kind, Name};

impl QueueSegment {
    ghost use Rattle.cq_queue.specs.QueueSegment.{CanLose, HasLost, HasNoFiles, IsLess, KnowsFiles, LosesOnly, RemovesOnly, SameSmall, number_of, present_of, queue_of, removal_calls};

    /// Marks some present entries, at rising places, as gone, and syncs. It takes no memory.
    pub fn gone<D: Disk>(&mut self, disk: &mut D, at: &[u32]) -> Result<(), Fault>
        requires at { CanLose self.old at.now }
        requires knows { D.tells → KnowsFiles self.old (D.files disk.old) }
        ensures same { SameSmall self.old self.new }
        ensures shown { OnOk result (IsLess self.old self.new at.now) }
        ensures knows { OnOk result (D.tells → KnowsFiles self.new (D.files disk.new)) }
        ensures ok { OnOk result (D.tells → HasLost D.Disk self.old disk.old disk.new at.now) }
        ensures touches { D.tells → LosesOnly D.Disk self.old disk.old disk.new at.now }
        ensures ran { Ran D.Disk disk.old disk.new (IsErr result) }
        ensures calls { OnOk result (D.moment disk.new ≡ D.moment disk.old + (length at.now + 1)) }
    {
        self.index.gone(disk, at)
    }

    /// Removes the index and then the small store, each where it is there, of a segment without a present entry. It takes
    /// no memory.
    pub fn remove<D: Disk>(self, disk: &mut D) -> Result<(), Fault>
        requires over { present_of self ≡ [] }
        requires knows { D.tells → KnowsFiles self (D.files disk.old) }
        ensures none { OnOk result (D.tells → HasNoFiles self (D.files disk.new)) }
        ensures touches { D.tells → RemovesOnly D.Disk self disk.old disk.new }
        ensures ran { Ran D.Disk disk.old disk.new (IsErr result) }
        ensures calls { OnOk result (D.moment disk.new ≡ D.moment disk.old + removal_calls self) }
    {
        let index = self.name(Kind::Index);
        let small = self.name(Kind::Small);
        remove_file(disk, index, self.index.is_vacant())?;
        remove_file(disk, small, self.small.is_vacant())
    }

    /// The name of its file of a kind.
    pub(crate) fn name(&self, kind: Kind) -> Name
        ensures { result ≡ record { kind = kind; queue = queue_of self.now; number = number_of self.now } }
    {
        Name {
            kind,
            queue: self.queue,
            number: self.number,
        }
    }
}

/// Removes a file, if it is there.
fn remove_file<D: Disk>(disk: &mut D, name: Name, absent: bool) -> Result<(), Fault>
    requires there { D.tells → absent ≡ false → HasFile (D.files disk.old name) }
    requires absent { D.tells → absent ≡ true → D.files disk.old name ≡ None }
    ensures ok { OnOk result (D.tells → D.files disk.new name ≡ None) }
    ensures either { D.tells → BecomesOrNot name None (D.files disk.old) (D.files disk.new) }
    ensures any_moment { D.tells → LeavesOnly D.Disk disk.old disk.new (Removes name (D.files disk.old)) }
    ensures ran { Ran D.Disk disk.old disk.new (IsErr result) }
    ensures calls { OnOk result (D.moment disk.new ≡ D.moment disk.old + (if absent then 0 else 1)) }
{
    if absent {
        return Ok(());
    }
    disk.remove(name)
}
