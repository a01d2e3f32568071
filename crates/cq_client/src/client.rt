// What is kept of one client.
ghost use Rattle.std.specs.Prelude.{◌≡◌, ◌<◌, ◌≤◌, ◌+◌, ◌-◌, ◌^◌, ◌∷◌, ◌++◌, [], length, IfOk, OnOk, OnErr, MatchBool, Option};
ghost use Rattle.cq_journal.specs.declared.reply.Reply.TheVariants.{Published, Got, Empty, Busy, Acked, Unknown, Ended};
ghost use Rattle.cq_client.specs.Client.{no_account, queue_of, without};

use crate::OpenDelivery;
use cq_bytes::Body;
use cq_journal::Reply;
use std::alloc::{AllocError, Global};
use std::marker::Model;

/// How many deliveries of a client may be open.
const MOST_OPEN: usize = 64;

/// What a node keeps of a client. A contract sees its account, and for how many more replies room is spare.
#[derive(Debug, Drop)]
pub struct Client {
    opens: Vec<OpenDelivery>,
    published: u64,
    delivered: u32,
    replies: Vec<Reply>,
}

impl Model for Client {
    ghost use Rattle.std.specs.Prelude.{◌-◌, ◌≤◌, length, vec_len, vec_capacity};
    ghost use Rattle.cq_client.specs.Client.{ClientValue};

    ghost Value = { ClientValue };

    ghost view = { λ c. record {
      account = record { opens = c.opens.items; published = c.published; delivered = c.delivered; replies = c.replies.items };
      room = vec_capacity c.replies - vec_len c.replies;
    } };

    ghost invariant = { λ c. (length c.opens.items ≤ 64) × (64 ≤ vec_capacity c.opens) };
}

impl Client {
    /// A client without deliveries, with the memory for all that it may have open.
    pub fn new(alloc: Global) -> Result<Client, AllocError>
        ensures { IfOk result (λ client. client.account ≡ no_account) }
    {
        Ok(Client {
            opens: Vec::with_capacity(alloc, MOST_OPEN)?,
            published: 0,
            delivered: 0,
            replies: Vec::new(alloc),
        })
    }

    /// Takes the memory for one more reply. Where there is none, the client is as before.
    pub fn reserve(&mut self) -> Result<(), AllocError>
        ensures account { self.new.account ≡ self.old.account }
        ensures room { OnOk result (0 < self.new.room) }
    {
        self.replies.reserve(1)
    }

    /// Whether as many deliveries are open as may be: 64.
    pub fn is_full(&self) -> bool
        ensures { MatchBool result (length self.now.account.opens ≡ 64) (length self.now.account.opens < 64) }
    {
        self.opens.len() >= MOST_OPEN
    }

    /// The queue of an open delivery. `None` exactly where it isn't open.
    pub fn queue_of(&self, delivery: u32) -> Option<u32>
        ensures { result ≡ queue_of delivery self.now.account.opens }
    {
        for open in &self.opens {
            if open.delivery == delivery {
                return Some(open.queue);
            }
        }
        None
    }

    /// The open deliveries, the oldest first; at most 64.
    pub fn opens(&self) -> &[OpenDelivery]
        ensures { result.now ≡ self.now.account.opens }
    {
        &self.opens
    }

    /// How many publishes there were.
    pub fn published(&self) -> u64
        ensures { result ≡ self.now.account.published }
    {
        self.published
    }

    /// How many deliveries there were.
    pub fn delivered(&self) -> u32
        ensures { result ≡ self.now.account.delivered }
    {
        self.delivered
    }

    /// The replies, the oldest first.
    pub fn replies(&self) -> &[Reply]
        ensures { result.now ≡ self.now.account.replies }
    {
        &self.replies
    }

    /// Notes a publish, and the reply to it. It takes no memory.
    pub fn publish(&mut self)
        requires room { 0 < self.old.room }
        requires few { self.old.account.published + 1 < 2 ^ 64 }
        ensures { self.new.account ≡ record self.old.account {
          published = self.old.account.published + 1;
          replies = self.old.account.replies ++ Published self.old.account.published ∷ [];
        } }
    {
        self.replies.push_reserved(Reply::Published {
            number: self.published,
        });
        self.published += 1;
    }

    /// Notes a delivery of a message of a queue, with its body as the reply. It takes no memory.
    pub fn deliver(&mut self, queue: u32, body: Body)
        requires room { 0 < self.old.room }
        requires open { length self.old.account.opens < 64 }
        requires few { self.old.account.delivered + 1 < 2 ^ 32 }
        ensures { self.new.account ≡ record self.old.account {
          opens = self.old.account.opens ++ (record { delivery = self.old.account.delivered; queue = queue }) ∷ [];
          delivered = self.old.account.delivered + 1;
          replies = self.old.account.replies ++ Got self.old.account.delivered queue body ∷ [];
        } }
    {
        let delivery = self.delivered;
        self.replies.push_reserved(Reply::Got {
            delivery,
            queue,
            body,
        });
        self.opens.push_reserved(OpenDelivery { delivery, queue });
        self.delivered += 1;
    }

    /// Notes that nothing waits in a queue. It takes no memory.
    pub fn empty(&mut self, queue: u32)
        requires { 0 < self.old.room }
        ensures { self.new.account ≡ record self.old.account { replies = self.old.account.replies ++ Empty queue ∷ [] } }
    {
        self.replies.push_reserved(Reply::Empty { queue });
    }

    /// Notes that a get of a queue is refused, since 64 deliveries are open. It takes no memory.
    pub fn busy(&mut self, queue: u32)
        requires { 0 < self.old.room }
        ensures { self.new.account ≡ record self.old.account { replies = self.old.account.replies ++ Busy queue ∷ [] } }
    {
        self.replies.push_reserved(Reply::Busy { queue });
    }

    /// Notes that an open delivery is acknowledged. It takes no memory.
    pub fn ack(&mut self, delivery: u32)
        requires { 0 < self.old.room }
        ensures { self.new.account ≡ record self.old.account {
          opens = without delivery self.old.account.opens;
          replies = self.old.account.replies ++ Acked delivery ∷ [];
        } }
    {
        self.opens.retain(|open| open.delivery != delivery);
        self.replies.push_reserved(Reply::Acked { delivery });
    }

    /// Notes that a delivery that is acknowledged isn't open. It takes no memory.
    pub fn unknown(&mut self, delivery: u32)
        requires { 0 < self.old.room }
        ensures { self.new.account
            ≡ record self.old.account { replies = self.old.account.replies ++ Unknown delivery ∷ [] } }
    {
        self.replies.push_reserved(Reply::Unknown { delivery });
    }

    /// Notes that all that was open was given back. It takes no memory.
    pub fn end(&mut self)
        requires { 0 < self.old.room }
        ensures { self.new.account ≡ record self.old.account {
          opens = [];
          replies = self.old.account.replies ++ Ended ∷ [];
        } }
    {
        self.opens.clear();
        self.replies.push_reserved(Reply::Ended);
    }
}
