//! What a queue's files hold, told from its messages in memory and the history: laws that a node composes.
#![tactic(auto)]

ghost use Rattle.cq_stored.specs.InStep.{InStepLaws, PassingLaws};
ghost use Rattle.cq_stored.specs.Passed.{PassedLaws};
ghost use Rattle.cq_stored.specs.Queues.{QueuesLaws};
ghost use Rattle.cq_stored.specs.Steps.{OtherStays, SmallNeedNoShelf, StepLaws};
ghost use Rattle.cq_stored.specs.Stored.{StoredLaws};

use cq_disk::Disk;

/// What is true of every queue. Each law is a clause; there is nothing to run.
pub fn laws()
    ensures stored { StoredLaws }
    ensures in_step { InStepLaws }
    ensures passing { PassingLaws }
    ensures passed { PassedLaws }
    ensures queues { QueuesLaws }
    ensures others { OtherStays }
    ensures small { SmallNeedNoShelf }
{}

/// What a node's steps on one of its queues keep, on a disk that tells its files.
pub fn step_laws<D: Disk>()
    ensures steps { D.tells → StepLaws D.Disk }
{}
