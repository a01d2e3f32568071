// The answers to gets, acknowledgements and ends. They take no memory.
ghost use Rattle.std.specs.Prelude.{◌≡◌, ◌<◌, [], length, map};
ghost use Rattle.std.specs.List.{AllByRecursion};
ghost use Rattle.cq_inbox.specs.declared.request.Request.TheVariants as request;
ghost use Rattle.cq_journal.specs.declared.reply.Reply.TheVariants as reply;
ghost use Rattle.cq_journal.specs.History.{unacked, waiting};
ghost use Rattle.cq_journal.specs.Legal.{IsFirst, Legal};
ghost use Rattle.cq_core.specs.Answers.{Answers};
ghost use Rattle.cq_history.specs.Accounts.{after_ack, after_delivery, after_end, after_reply};
ghost use Rattle.cq_client.specs.Client.{queue_of};
ghost use Rattle.cq_history.specs.History.{AreWhole, CanAnswer, account_at};
ghost use Rattle.cq_history.specs.Steps.{ChangesAccount, IsFirstMessage, MayGet};
ghost use Rattle.cq_queues.specs.Changes.{HasGivenBack, StayOnDisk};
ghost use Rattle.cq_queues.specs.Queues.{queue_at as queue_in};

use super::Broker;
use cq_bytes::Body;
use cq_client::OpenDelivery;
use cq_queues::NodeQueues;

/// What a client has open goes back to its old place in the queues that it came from. It takes no memory.
fn give_back(queues: &mut NodeQueues, client: u32, opens: &[OpenDelivery])
    requires { AllByRecursion (λ o. o.queue < 256) opens.now }
    ensures back { HasGivenBack client (map (λ o. o.queue) opens.now) (queue_in queues.old) (queue_in queues.new) }
    ensures files { StayOnDisk (queue_in queues.old) (queue_in queues.new) }
{
    for open in opens {
        queues.give_back(client, &[open.queue]);
    }
}

impl Broker {
    ghost use Rattle.cq_broker.specs.Broker.{entries_of, history_of, queue_at};
    ghost use Rattle.cq_broker.specs.InMemory.{KeepsInStep};

    /// Answers a get where 64 deliveries are open.
    pub fn busy(&mut self, client: u32, queue: u32, stamp: u64)
        requires ready { CanAnswer client stamp (history_of self.old) }
        requires full { length (unacked (entries_of self.old) client) ≡ 64 }
        ensures answers { Answers client (request.Get queue) stamp (entries_of self.old) (entries_of self.new) }
        ensures legal { Legal (entries_of self.new) }
        ensures changes { ChangesAccount client (after_reply (reply.Busy queue)) (history_of self.old) (history_of self.new) }
        ensures queues { queue_at self.new ≡ queue_at self.old }
        ensures whole { AreWhole (history_of self.old) → AreWhole (history_of self.new) }
        ensures keeps { KeepsInStep (queue_at self.old) (queue_at self.new) (entries_of self.old) (entries_of self.new) }
    {
        self.history.busy(client, queue, stamp);
    }

    /// Answers a get where nothing waits.
    pub fn empty(&mut self, client: u32, queue: u32, stamp: u64)
        requires ready { CanAnswer client stamp (history_of self.old) }
        requires few { length (unacked (entries_of self.old) client) < 64 }
        requires none { waiting (entries_of self.old) queue ≡ [] }
        ensures answers { Answers client (request.Get queue) stamp (entries_of self.old) (entries_of self.new) }
        ensures legal { Legal (entries_of self.new) }
        ensures changes { ChangesAccount client (after_reply (reply.Empty queue)) (history_of self.old) (history_of self.new) }
        ensures queues { queue_at self.new ≡ queue_at self.old }
        ensures whole { AreWhole (history_of self.old) → AreWhole (history_of self.new) }
        ensures keeps { KeepsInStep (queue_at self.old) (queue_at self.new) (entries_of self.old) (entries_of self.new) }
    {
        self.history.empty(client, queue, stamp);
    }

    /// Answers a get by the first message that waits, which has this id, with this body.
    pub fn deliver(&mut self, client: u32, queue: u32, stamp: u64, id: u128, body: Body)
        requires ready { CanAnswer client stamp (history_of self.old) }
        requires queue { queue < 256 }
        requires may { MayGet client (entries_of self.old) }
        requires first { IsFirst id (waiting (entries_of self.old) queue) }
        ensures answers { Answers client (request.Get queue) stamp (entries_of self.old) (entries_of self.new) }
        ensures legal { Legal (entries_of self.new) }
        ensures changes { ChangesAccount client (after_delivery queue body) (history_of self.old) (history_of self.new) }
        ensures whole { IsFirstMessage id body (waiting (entries_of self.old) queue)
            → AreWhole (history_of self.old) → AreWhole (history_of self.new) }
        ensures keeps { KeepsInStep (queue_at self.old) (queue_at self.new) (entries_of self.old) (entries_of self.new) }
    {
        let delivery = self.history.delivered(client);
        self.queues.deliver(queue, client, delivery);
        self.history.deliver(client, queue, stamp, id, body);
    }

    /// Answers an acknowledgement: the message leaves its queue, where the client has the delivery open.
    pub fn ack(&mut self, client: u32, delivery: u32, stamp: u64)
        requires ready { CanAnswer client stamp (history_of self.old) }
        ensures answers { Answers client (request.Ack delivery) stamp (entries_of self.old) (entries_of self.new) }
        ensures legal { Legal (entries_of self.new) }
        ensures changes { ChangesAccount client
            (after_ack delivery (queue_of delivery (account_at (history_of self.old).clients client).opens))
            (history_of self.old) (history_of self.new) }
        ensures whole { AreWhole (history_of self.old) → AreWhole (history_of self.new) }
        ensures keeps { KeepsInStep (queue_at self.old) (queue_at self.new) (entries_of self.old) (entries_of self.new) }
    {
        if let Some(queue) = self.history.ack(client, delivery, stamp) {
            self.queues.acked(queue, client, delivery);
        }
    }

    /// Answers the end of a client: all that it has open goes back to its old place.
    pub fn end(&mut self, client: u32, stamp: u64)
        requires ready { CanAnswer client stamp (history_of self.old) }
        ensures answers { Answers client request.End stamp (entries_of self.old) (entries_of self.new) }
        ensures legal { Legal (entries_of self.new) }
        ensures changes { ChangesAccount client after_end (history_of self.old) (history_of self.new) }
        ensures whole { AreWhole (history_of self.old) → AreWhole (history_of self.new) }
        ensures keeps { KeepsInStep (queue_at self.old) (queue_at self.new) (entries_of self.old) (entries_of self.new) }
    {
        give_back(&mut self.queues, client, self.history.opens(client));
        self.history.end(client, stamp);
    }
}
