// Entries that go from a segment.
ghost use Rattle.std.specs.Prelude.{◌≡◌, ◌↔◌, ◌+◌, ◌≤◌, ◌<◌, ℕ, All, Contains, length, vec_len, vec_capacity, filter, not, IfOk, OnOk, IsErr};
ghost use Rattle.std.specs.List.Sorted.{IsStrictlyIncreasing};
ghost use Rattle.cq_bytes.specs.Numbers.{contains};
ghost use Rattle.cq_disk.specs.Files.{IsThere};
ghost use Rattle.cq_disk.specs.Run.{Ran};
ghost use Rattle.cq_gate.specs.Calls.{Moves, Touches};
ghost use Rattle.cq_gate.specs.Calls.{Same as SameGate};
ghost use Rattle.cq_gate.specs.Gate.{IsGate, kind_of};
ghost use Rattle.cq_gate.specs.Gate.{len_of as gate_len, name_of as gate_name};
ghost use Rattle.cq_index.specs.Gone.{AreGone, StatusesOnly};
ghost use Rattle.cq_index.specs.Places.{place_of};

use crate::read::{has, place_of};
use crate::segment::Segment;
use cq_disk::{Disk, Fault};
use cq_gate::Gate;

impl Segment {
    ghost use Rattle.cq_index.specs.Segments.{name_of, present_of, IsOpen, IsSegment, IsVacant};
    ghost use Rattle.cq_index.specs.Calls.{Loses, HasLost};

    /// Marks present entries, at rising places, as gone: writes the status 0 for each in turn, then syncs. It takes no memory.
    pub fn gone<D: Disk>(&mut self, disk: &mut D, at: &[u32]) -> Result<(), Fault>
        requires at { IsStrictlyIncreasing at.now × All (Contains (present_of self.old)) at.now }
        requires segment { D.tells → IsSegment self.old (D.files disk.old (name_of self.old)) }
        ensures same { (name_of self.new ≡ name_of self.old) × (IsVacant self.old → disk.new ≡ disk.old) }
        ensures shown { OnOk result (Loses self.old self.new at.now) }
        ensures ok { OnOk result (D.tells → HasLost D.Disk self.old self.new disk.old disk.new at.now) }
        // A crash at any moment leaves every byte as it was but the statuses of these entries.
        ensures touches { D.tells → IsOpen self.old
            → Touches D.Disk (name_of self.old) disk.old disk.new (StatusesOnly 1 at.now) }
        ensures ran { Ran D.Disk disk.old disk.new (IsErr result) }
        ensures calls { OnOk result (IsOpen self.old → D.moment disk.new ≡ D.moment disk.old + (length at.now + 1)) }
    {
        let Some(gate) = self.gate.take() else {
            return Ok(());
        };
        match mark(gate, disk, at) {
            Ok(gate) => {
                self.gate = Some(gate);
                remove(&mut self.present, at);
                Ok(())
            }
            Err(Fault) => {
                self.count = 0;
                self.present.clear();
                Err(Fault)
            }
        }
    }
}

/// Writes the status 0 over each of these entries, and syncs.
fn mark<D: Disk>(mut gate: Gate, disk: &mut D, at: &[u32]) -> Result<Gate, Fault>
    requires inside { All (λ k. place_of k < gate_len gate) at.now }
    requires gate { D.tells → IsThere (D.files disk.old (gate_name gate)) (IsGate gate) }
    ensures same { IfOk result (SameGate gate) }
    ensures gate { IfOk result (λ next. D.tells → IsThere (D.files disk.new (gate_name gate)) (IsGate next)) }
    ensures ok { OnOk result (D.tells → Moves D.Disk (gate_name gate) disk.old disk.new (AreGone at.now)) }
    ensures touches { D.tells → Touches D.Disk (gate_name gate) disk.old disk.new (StatusesOnly (kind_of gate) at.now) }
    ensures ran { Ran D.Disk disk.old disk.new (IsErr result) }
    ensures calls { OnOk result (D.moment disk.new ≡ D.moment disk.old + (length at.now + 1)) }
{
    for number in at {
        gate.patch(disk, place_of(*number), &[0])?;
    }
    gate.sync(disk)?;
    Ok(gate)
}

/// Takes these numbers out of a rising list.
fn remove(numbers: &mut Vec<u32>, gone: &[u32])
    requires rising { IsStrictlyIncreasing numbers.old.items }
    requires gone { IsStrictlyIncreasing gone.now }
    ensures rising { IsStrictlyIncreasing numbers.new.items }
    ensures len { vec_len numbers.new ≤ vec_len numbers.old }
    ensures capacity { vec_capacity numbers.old ≤ vec_capacity numbers.new }
    ensures kept { numbers.new.items ≡ filter (λ x. not (contains gone.now x)) numbers.old.items }
    ensures left { (k : ℕ) → Contains numbers.new.items k ↔ (Contains numbers.old.items k × (Contains gone.now k → ⊥)) }
{
    numbers.retain(|number| !has(gone, *number));
}
