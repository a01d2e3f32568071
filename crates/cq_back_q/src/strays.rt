// Small stores whose index isn't there.
ghost use Rattle.std.specs.Prelude.{◌≡◌, ◌↔◌, ℕ, true, None, OnOk, IsErr, Contains};
ghost use Rattle.std.specs.List.Sorted.{IsStrictlySortedBy};
ghost use Rattle.cq_disk.specs.declared.name.Name.{Name};
ghost use Rattle.cq_disk.specs.declared.name.Kind.TheVariants.{Small};
ghost use Rattle.cq_disk.specs.Files.{NamesAre};
ghost use Rattle.cq_disk.specs.Names.{name_cmp};
ghost use Rattle.cq_disk.specs.Run.{Ran, LeavesOnly};
ghost use Rattle.cq_index.specs.Places.{index_name};
ghost use Rattle.cq_back_q.specs.Folder.{HasLostStrays, IsImageOrWithout};

use cq_disk::{Disk, Fault, Kind, Name};

/// Removes the small stores among these files, which are all, whose index isn't there.
pub(crate) fn remove_strays<D: Disk>(disk: &mut D, names: &[Name]) -> Result<(), Fault>
    requires { D.tells → NamesAre (D.files disk.old) names.now }
    ensures gone { OnOk result (D.tells → HasLostStrays (D.files disk.old) (D.files disk.new)) }
    ensures no_new { D.tells → (n : Name) → D.files disk.old n ≡ None → D.files disk.new n ≡ None }
    ensures any_moment { D.tells → LeavesOnly D.Disk disk.old disk.new (IsImageOrWithout (D.files disk.old)) }
    ensures ran { Ran D.Disk disk.old disk.new (IsErr result) }
{
    for name in names {
        if is_stray(names, name) {
            disk.remove(*name)?;
        }
    }
    Ok(())
}

/// Whether this is the name of a small store whose index isn't among these names, which are in order.
fn is_stray(names: &[Name], name: &Name) -> bool
    ensures kind { result ≡ true → name.now.kind ≡ Small }
    ensures alone { IsStrictlySortedBy name_cmp names.now → name.now.kind ≡ Small
        → (result ≡ true) ↔ (Contains names.now (index_name name.now.queue name.now.number) → ⊥) }
{
    if name.kind != Kind::Small {
        return false;
    }
    let index = Name {
        kind: Kind::Index,
        queue: name.queue,
        number: name.number,
    };
    names.binary_search(&index).is_err()
}
