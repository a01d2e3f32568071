// One session of a script, from an opening to its end.
ghost use Rattle.std.specs.Prelude.{◌≡◌, ◌++◌, ◌∷◌, List, None, OnOk, IfSome};
ghost use Rattle.cq_node.specs.View.{disk_of, opened_of};
ghost use Rattle.cq_script.specs.declared.script.StepWord.{StepWord};
ghost use Rattle.cq_replay.specs.Sessions.{IsEnded};
ghost use Rattle.cq_replay.specs.Going.{HasBegun, AreWords, FailsOnly, MakesSession, Leaves, KeepsSession, EndsWell};

use crate::player::Player;
use cq_inbox::Request;
use cq_journal::Session;
use cq_memdisk::Crashable;
use cq_node::{NodeError, Released, Waiting};
use cq_script::StepWord;
use std::alloc::Global;
use std::collections::VecDeque;

/// A session that was served: what it says, the requests that it left, those that were handed in first, and the disk.
#[derive(Drop)]
pub struct Finished<C: Crashable> {
    pub session: Session,
    pub waiting: Waiting,
    pub rest: VecDeque<Request>,
    pub disk: C,
    pub served: Result<(), NodeError>,
}

/// Serves the words of a session and what ends it.
pub fn serve_session<C: Crashable>(
    alloc: Global,
    mut player: Player<C>,
    words: &[StepWord],
    end: Option<StepWord>,
) -> Finished<C>
    requires begun { HasBegun player.node player.after.items }
    requires words { AreWords words.now end }
    ensures makes { MakesSession player.node player.rest.items words.now result.session }
    ensures leaves { Leaves (opened_of player.node) player.rest.items
        (result.waiting.requests ++ result.rest.items) result.session.journal.entries }
    // Where a crash ends the session, all its words were done unless an error was answered.
    ensures ended { OnOk result.served
        (IfSome end
        (λ w. (later : List StepWord)
        → IsEnded player.rest.items (words.now ++ w ∷ later)
        (result.waiting.requests ++ result.rest.items) later result.session)) }
    // Where none does, all is served.
    ensures all { end ≡ None
        → OnOk result.served (EndsWell C.Disk result.disk player.rest.items words.now result.session) }
    ensures keeps { KeepsSession C.Disk result.disk (opened_of player.node) result.session }
    ensures fails { FailsOnly C.Disk (disk_of player.node) result.disk result.served }
{
    let served = player.serve(words, end);
    let Player { node, rest, after } = player;
    let Released {
        disk,
        journal,
        waiting,
    } = node.release();
    let session = Session {
        journal,
        cut: Vec::new(alloc),
        after,
    };
    Finished {
        session,
        waiting,
        rest,
        disk,
        served,
    }
}
