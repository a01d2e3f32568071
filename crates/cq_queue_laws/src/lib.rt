//! How the messages of a queue in memory follow a history: the items are the messages that aren't settled, in line order,
//! each with the holder that the history tells.
#![tactic(auto)]

ghost use Rattle.cq_queue_laws.specs.Laws.{EntriesKeep, ItemsTell, OthersStay, PassingKeeps, RefsCount, SettlingKeeps, UndecidedChanges};

/// What is true of every queue whose items follow a legal history, and of references. Each law is a clause, over all
/// histories and items; there is nothing to run.
pub fn laws()
    ensures entries_keep { EntriesKeep }
    ensures others_stay { OthersStay }
    ensures passing_keeps { PassingKeeps }
    ensures settling_keeps { SettlingKeeps }
    ensures items_tell { ItemsTell }
    ensures undecided_changes { UndecidedChanges }
    ensures refs_count { RefsCount }
{}
