//! What the files of a folder hold, and what a crash leaves: the messages of each queue, images that agree with a journal,
//! and a journal that is steady. Definitions and their laws.
#![tactic(auto)]

ghost use Rattle.cq_folder.specs.HeldLaws.{KeepsHeld, KeepsHeldOn};
ghost use Rattle.cq_folder.specs.Laws.{AgreesIsSound, AgreesSurvives, EntriesAreHeld, HeldHaveEntries, HeldHaveRecords, KeepsStanding, KeepsSteady, ReplacesOne, SoundHoldsOnce};

use cq_disk::Disk;

/// What is true of all images, contents and journals. Each law is a clause; there is nothing to run.
pub fn laws()
    ensures sound_holds_once { SoundHoldsOnce }
    ensures entries_are_held { EntriesAreHeld }
    ensures held_have_entries { HeldHaveEntries }
    ensures held_have_records { HeldHaveRecords }
    ensures agrees_is_sound { AgreesIsSound }
    ensures agrees_survives { AgreesSurvives }
    ensures keeps_standing { KeepsStanding }
    ensures replaces_one { ReplacesOne }
    ensures keeps_held { KeepsHeld }
{}

/// What keeps a journal steady on a disk that tells its files, over all runs of its calls.
pub fn steady_laws<D: Disk>()
    ensures steady { D.tells → KeepsSteady D.moment D.left D.files }
    ensures held { D.tells → KeepsHeldOn D.moment D.left D.files }
{}
