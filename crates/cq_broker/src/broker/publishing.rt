// Publishes.
ghost use Rattle.std.specs.Prelude.{◌≡◌, ◌<◌, length, IfOk, IfErr, OnOk, OnErr};
ghost use Rattle.cq_inbox.specs.declared.request.Request.TheVariants as request;
ghost use Rattle.cq_journal.specs.Legal.{Legal};
ghost use Rattle.cq_core.specs.Answers.{Answers};
ghost use Rattle.cq_history.specs.History.{CanAnswer};
ghost use Rattle.cq_queues.specs.Changes.{AreReserved, ChangesRoom};
ghost use Rattle.cq_queues.specs.Queues.{queue_at as queue_in};
ghost use Rattle.cq_broker.specs.Publishing.{AreCopiesOf, HasJoinedNext, HasPublished};

use super::Broker;
use cq_bytes::{Body, Queues};
use cq_history::Unpublished;
use cq_queues::NodeQueues;
use std::alloc::{AllocError, Global};

/// What a publish hands to its queues: their numbers, and a copy of its body for each.
#[derive(Drop)]
struct Copies {
    numbers: Queues,
    bodies: Vec<Body>,
}

/// Copies a publish for its queues.
fn copies_of(alloc: Global, queues: &Queues, body: &Body) -> Result<Copies, AllocError>
    ensures { IfOk result (λ copies. AreCopiesOf queues.now body.now copies.numbers copies.bodies.items) }
{
    let numbers = queues.clone()?;
    let bytes = body.bytes();
    let mut bodies = Vec::new(alloc);
    for _copy in 0..queues.numbers().len() {
        bodies.push(Body::copy(alloc, bytes)?)?;
    }
    Ok(Copies { numbers, bodies })
}

/// Takes the memory that the queues of a publish need: the copies for them, and room for one more message in each. Where
/// memory runs out no message has changed.
fn prepare(
    alloc: Global,
    all: &mut NodeQueues,
    queues: &Queues,
    body: &Body,
) -> Result<Copies, AllocError>
    ensures copies { IfOk result (λ copies. AreCopiesOf queues.now body.now copies.numbers copies.bodies.items) }
    ensures reserved { OnOk result (AreReserved (queue_in all.new) queues.now) }
    ensures room { ChangesRoom (queue_in all.old) (queue_in all.new) }
{
    let copies = copies_of(alloc, queues, body)?;
    all.reserve(queues.numbers())?;
    Ok(copies)
}

impl Broker {
    ghost use Rattle.cq_broker.specs.Broker.{entries_of, history_of, queue_at};
    ghost use Rattle.cq_broker.specs.InMemory.{KeepsInStep};

    /// Answers a publish: a message with the next id, at the end of each of these queues. Where memory runs out the request is
    /// handed back, and nothing has changed but for how many messages there is room.
    pub fn publish(
        &mut self,
        client: u32,
        stamp: u64,
        queues: Queues,
        body: Body,
    ) -> Result<(), Unpublished>
        requires ready { CanAnswer client stamp (history_of self.old) }
        requires some { 0 < length queues }
        ensures answers { OnOk result
            (Answers client (request.Publish queues body) stamp (entries_of self.old) (entries_of self.new)) }
        ensures published { OnOk result (HasPublished client stamp queues body (history_of self.old) (history_of self.new)) }
        ensures joined { OnOk result
            (HasJoinedNext (entries_of self.old) body queues (queue_at self.old) (queue_at self.new)) }
        ensures back { IfErr result (λ back. (back.queues ≡ queues) × (back.body ≡ body)) }
        ensures history { OnErr result (history_of self.new ≡ history_of self.old) }
        ensures room { OnErr result (ChangesRoom (queue_at self.old) (queue_at self.new)) }
        ensures legal { Legal (entries_of self.new) }
        ensures keeps { KeepsInStep (queue_at self.old) (queue_at self.new) (entries_of self.old) (entries_of self.new) }
    {
        match prepare(self.alloc, &mut self.queues, &queues, &body) {
            Ok(copies) => self.publish_copies(client, stamp, queues, body, copies),
            Err(_) => Err(Unpublished { queues, body }),
        }
    }

    /// Answers a publish for which the memory of the queues is taken.
    fn publish_copies(
        &mut self,
        client: u32,
        stamp: u64,
        queues: Queues,
        body: Body,
        copies: Copies,
    ) -> Result<(), Unpublished>
        requires ready { CanAnswer client stamp (history_of self.old) }
        requires some { 0 < length queues }
        requires reserved { AreReserved (queue_at self.old) queues }
        requires copies { AreCopiesOf queues body copies.numbers copies.bodies.items }
        ensures answers { OnOk result
            (Answers client (request.Publish queues body) stamp (entries_of self.old) (entries_of self.new)) }
        ensures published { OnOk result (HasPublished client stamp queues body (history_of self.old) (history_of self.new)) }
        ensures joined { OnOk result
            (HasJoinedNext (entries_of self.old) body queues (queue_at self.old) (queue_at self.new)) }
        ensures back { IfErr result (λ back. (back.queues ≡ queues) × (back.body ≡ body)) }
        ensures history { OnErr result (history_of self.new ≡ history_of self.old) }
        ensures queues { OnErr result (queue_at self.new ≡ queue_at self.old) }
        ensures legal { Legal (entries_of self.new) }
        ensures keeps { KeepsInStep (queue_at self.old) (queue_at self.new) (entries_of self.old) (entries_of self.new) }
    {
        let Copies { numbers, bodies } = copies;
        let id = self.history.next_id();
        let len = body.bytes().len() as u32;
        match self.history.publish(client, stamp, queues, body) {
            Ok(()) => {
                self.queues.publish(numbers.numbers(), id, bodies, len);
                Ok(())
            }
            Err(back) => Err(back),
        }
    }
}
