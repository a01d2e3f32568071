//! Laws of legal histories, on the definitions of cq_journal alone.
#![tactic(auto)]

ghost use Rattle.cq_journal_laws.specs.Laws.{AckedChanges, DeliveriesHaveKeys, EndUndoesGet, FirstIsFree, LineChanges, NonePairsUp, SettledChanges, SettledWasAcked, UnackedChanges, WaitingChanges};

/// What is true of every legal history. Each law is a clause, over all histories; there is nothing to run.
pub fn laws()
    // what an entry changes, told from what stood before it
    ensures line { LineChanges }
    ensures waiting { WaitingChanges }
    ensures unacked { UnackedChanges }
    ensures acked { AckedChanges }
    ensures settled { SettledChanges }

    // what holds between entries
    ensures first_is_free { FirstIsFree }
    ensures none_pairs_up { NonePairsUp }
    ensures have_keys { DeliveriesHaveKeys }
    ensures settled_was_acked { SettledWasAcked }
    ensures end_undoes_get { EndUndoesGet }
{}
