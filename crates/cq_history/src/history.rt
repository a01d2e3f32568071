// What happened on a node.
ghost use Rattle.std.specs.Prelude.{◌≡◌, ◌<◌, ◌≤◌, ◌+◌, ◌^◌, ◌∷◌, [], ℕ, List, ◌==◌, if◌then◌else◌, Option, None, Some, IsSome, is_some, true, false, length, map, IfOk, IfErr, IfSome, OnOk, OnErr, MatchBool};
ghost use Rattle.std.specs.List.{AllByRecursion};
ghost use Rattle.std.specs.FinMap as finite;
ghost use Rattle.cq_inbox.specs.declared.request.Request.TheVariants as request;
ghost use Rattle.cq_bytes.specs.Numbers.{contains};
ghost use Rattle.cq_journal.specs.declared.event.Event.TheVariants as event;
ghost use Rattle.cq_journal.specs.declared.reply.Reply.TheVariants as reply;
ghost use Rattle.cq_journal.specs.History.{unacked, waiting, acked, settled};
ghost use Rattle.cq_journal.specs.Legal.{Legal, AreLines, IsFirst, newest, delivered};
ghost use Rattle.cq_journal.specs.Asks.{replies};
ghost use Rattle.cq_journal.specs.Confirms.{AreConfirmed};
ghost use Rattle.cq_core.specs.Answers.{Answers, bodiless};
ghost use Rattle.cq_core.specs.Core.{IsNextId, TakesNextIds};
ghost use Rattle.cq_client.specs.Client.{no_account, queue_of};
ghost use Rattle.cq_history.specs.Accounts.{after_reply, after_publish, after_delivery, after_ack, after_end};
ghost use Rattle.cq_history.specs.History.{account_at};
ghost use Rattle.cq_history.specs.Steps.{confirmed_by};

use cq_bytes::{Body, Queues};
use cq_client::{Client, OpenDelivery};
use cq_confirm::{Lacks, Sure};
use cq_core::Ids;
use cq_journal::{Entry, Event, Journal, Lines, Reply};
use std::alloc::{AllocError, Global};
use std::marker::Model;

/// A publish that was refused for want of memory.
#[derive(Debug, Drop)]
pub struct Unpublished {
    pub queues: Queues,
    pub body: Body,
}

/// What happened on a node, as its clients were told. A contract sees the entries of the journal, the newest first, for how many
/// more room is spare, each client's account, and how many queues each message lacks that isn't safe in each of its queues yet.
#[derive(Drop)]
pub struct History {
    journal: Journal,
    clients: Vec<Client>,
    lacks: Lacks,
    ids: Ids,
}

impl Model for History {
    ghost use Rattle.std.specs.Prelude.{length};
    ghost use Rattle.std.specs.FinMap as finite;
    ghost use Rattle.std.specs.Ordering.{nat_cmp};
    ghost use Rattle.std.specs.Coded.{codes, coded_ℕ};
    ghost use Rattle.cq_confirm.specs.Lacking.{lack_code};
    ghost use Rattle.cq_history.specs.History.{HistoryValue, account_at};
    ghost use Rattle.cq_history.specs.Kept.{IsHistory};

    ghost Value = { HistoryValue };

    ghost coded = { Prim.hlevel (codes, finite.code {R = nat_cmp} coded_ℕ lack_code) };

    ghost view = { λ h. record { entries = h.journal.entries; room = h.journal.room; clients = h.clients.items; lacks = h.lacks } };

    ghost invariant = { λ h. IsHistory h.journal.entries (account_at h.clients.items) (length h.clients.items) h.lacks h.ids };
}

impl History {
    ghost use Rattle.cq_history.specs.History.{AreWhole, CanAnswer, NoneLacks, room_at};
    ghost use Rattle.cq_history.specs.Kept.{AreAccounts, AreDecided, AreIdsOf, AreOwed, open_of};
    ghost use Rattle.cq_history.specs.Steps.{AddsAlone, AddsPublish, ChangesAccount, IsFirstMessage, IsOpenFrom, MayGet, Passes, SaysTheSame, ack_event, noted};

    /// A history of so many clients whose folder held these lines; `taken` are their ids. The opening is its one entry, with this
    /// stamp.
    pub fn new(
        alloc: Global,
        clients: u32,
        lines: Lines,
        taken: Vec<u128>,
        stamp: u64,
    ) -> Result<History, AllocError>
        requires lines { AreLines lines }
        requires taken { AreIdsOf lines taken.items }
        ensures opened { IfOk result (λ history. history.entries ≡ noted (event.Opened lines) stamp []) }
        ensures count { IfOk result (λ history. length history.clients ≡ clients) }
        ensures accounts { IfOk result (λ history. (c : ℕ) → account_at history.clients c ≡ no_account) }
        ensures lacks { IfOk result (λ history. history.lacks ≡ finite.empty) }
    {
        let mut journal = Journal::new(alloc);
        journal.reserve(1)?;
        let ids = Ids::new(taken)?;
        let clients = clients_of(alloc, clients)?;
        let event = Event::Opened { lines };
        journal.push(Entry { event, stamp });
        Ok(History {
            journal,
            clients,
            lacks: Lacks::new(alloc),
            ids,
        })
    }

    /// Makes room for one more entry, and for one more reply to a client. Where memory runs out nothing that is told has changed.
    pub fn reserve(&mut self, client: u32) -> Result<(), AllocError>
        requires client { client < length self.old.clients }
        ensures same { SaysTheSame self.old self.new }
        ensures room { OnOk result (0 < self.new.room) }
        ensures reply_room { OnOk result (0 < room_at self.new.clients client) }
    {
        self.journal.reserve(1)?;
        self.clients[client as usize].reserve()?;
        Ok(())
    }

    /// Makes room for so many more entries. Where memory runs out nothing that is told has changed.
    pub fn reserve_entries(&mut self, count: usize) -> Result<(), AllocError>
        ensures entries { self.new.entries ≡ self.old.entries }
        ensures clients { self.new.clients ≡ self.old.clients }
        ensures lacks { self.new.lacks ≡ self.old.lacks }
        ensures room { OnOk result (count ≤ self.new.room) }
        ensures kept { self.old.room ≤ self.new.room }
    {
        self.journal.reserve(count)
    }

    /// The id that the next publish gets: the least positive number that no message has.
    pub fn next_id(&self) -> u128
        ensures { IsNextId self.now.entries result }
    {
        self.ids.next()
    }

    /// Whether a message isn't known to be safe in each of its queues yet.
    pub fn is_lacking(&self, id: u128) -> bool
        ensures { result ≡ is_some (finite.get self.now.lacks id) }
    {
        self.lacks.is_lacking(id)
    }

    /// Answers a publish: its message gets the next id, and lacks each of these queues. Where memory runs out the request is handed
    /// back, and nothing has changed.
    pub fn publish(
        &mut self,
        client: u32,
        stamp: u64,
        queues: Queues,
        body: Body,
    ) -> Result<(), Unpublished>
        requires ready { CanAnswer client stamp self.old }
        requires some { 0 < length queues }
        ensures answers { OnOk result (Answers client (request.Publish queues body) stamp self.old.entries self.new.entries) }
        ensures adds { OnOk result
            ((id : ℕ) → IsNextId self.old.entries id → AddsPublish client id stamp queues body self.old self.new) }
        ensures accounts { OnOk result ((c : ℕ) → account_at self.new.clients c
            ≡ (if client == c then after_publish (account_at self.old.clients c) else account_at self.old.clients c)) }
        ensures legal { Legal self.new.entries }
        ensures whole { AreWhole self.old → AreWhole self.new }
        ensures back { IfErr result (λ back. (back.queues ≡ queues) × (back.body ≡ body)) }
        ensures err { OnErr result (self.new ≡ self.old) }
    {
        let id = self.ids.next();
        let number = self.clients[client as usize].published();
        let count = queues.numbers().len() as u32;
        if self.lacks.add(client, number, id, count).is_err() {
            return Err(Unpublished { queues, body });
        }
        let event = Event::Published {
            client,
            number,
            id,
            queues,
            body,
        };
        self.journal.push(Entry { event, stamp });
        let _ = count_of(&self.journal);
        self.ids.advance();
        self.clients[client as usize].publish();
        Ok(())
    }

    /// Answers a get where 64 deliveries are open.
    pub fn busy(&mut self, client: u32, queue: u32, stamp: u64)
        requires ready { CanAnswer client stamp self.old }
        requires full { length (unacked self.old.entries client) ≡ 64 }
        ensures entries { self.new.entries ≡ noted (event.Busy client queue) stamp self.old.entries }
        ensures answers { Answers client (request.Get queue) stamp self.old.entries self.new.entries }
        ensures legal { Legal self.new.entries }
        ensures changes { ChangesAccount client (after_reply (reply.Busy queue)) self.old self.new }
        ensures whole { AreWhole self.old → AreWhole self.new }
    {
        let event = Event::Busy { client, queue };
        self.journal.push(Entry { event, stamp });
        self.clients[client as usize].busy(queue);
    }

    /// Answers a get where nothing waits.
    pub fn empty(&mut self, client: u32, queue: u32, stamp: u64)
        requires ready { CanAnswer client stamp self.old }
        requires few { length (unacked self.old.entries client) < 64 }
        requires none { waiting self.old.entries queue ≡ [] }
        ensures entries { self.new.entries ≡ noted (event.Empty client queue) stamp self.old.entries }
        ensures answers { Answers client (request.Get queue) stamp self.old.entries self.new.entries }
        ensures legal { Legal self.new.entries }
        ensures changes { ChangesAccount client (after_reply (reply.Empty queue)) self.old self.new }
        ensures whole { AreWhole self.old → AreWhole self.new }
    {
        let event = Event::Empty { client, queue };
        self.journal.push(Entry { event, stamp });
        self.clients[client as usize].empty(queue);
    }

    /// Answers a get by the first message that waits, which has this id, with this body.
    pub fn deliver(&mut self, client: u32, queue: u32, stamp: u64, id: u128, body: Body)
        requires ready { CanAnswer client stamp self.old }
        requires queue { queue < 256 }
        requires may { MayGet client self.old.entries }
        requires first { IsFirst id (waiting self.old.entries queue) }
        ensures entries { self.new.entries
            ≡ noted (event.Delivered client (account_at self.old.clients client).delivered queue id) stamp self.old.entries }
        ensures answers { Answers client (request.Get queue) stamp self.old.entries self.new.entries }
        ensures legal { Legal self.new.entries }
        ensures changes { ChangesAccount client (after_delivery queue body) self.old self.new }
        ensures whole { IsFirstMessage id body (waiting self.old.entries queue) → AreWhole self.old → AreWhole self.new }
    {
        let delivery = self.clients[client as usize].delivered();
        let event = Event::Delivered {
            client,
            delivery,
            queue,
            id,
        };
        self.journal.push(Entry { event, stamp });
        self.clients[client as usize].deliver(queue, body);
    }

    /// Answers an acknowledgement, and tells the queue that the delivery came from; `None` where it isn't open.
    pub fn ack(&mut self, client: u32, delivery: u32, stamp: u64) -> Option<u32>
        requires ready { CanAnswer client stamp self.old }
        ensures queue { result ≡ queue_of delivery (account_at self.old.clients client).opens }
        ensures from { IfSome result (IsOpenFrom client delivery self.old.entries) }
        ensures entries { self.new.entries ≡ noted (ack_event client delivery result) stamp self.old.entries }
        ensures answers { Answers client (request.Ack delivery) stamp self.old.entries self.new.entries }
        ensures legal { Legal self.new.entries }
        ensures changes { ChangesAccount client (after_ack delivery result) self.old self.new }
        ensures whole { AreWhole self.old → AreWhole self.new }
    {
        let queue = self.clients[client as usize].queue_of(delivery);
        match queue {
            Some(_) => self.acked(client, delivery, stamp),
            None => self.unknown(client, delivery, stamp),
        }
        queue
    }

    /// Answers the end of a client: all that it has open goes back.
    pub fn end(&mut self, client: u32, stamp: u64)
        requires ready { CanAnswer client stamp self.old }
        ensures entries { self.new.entries ≡ noted (event.Ended client) stamp self.old.entries }
        ensures answers { Answers client request.End stamp self.old.entries self.new.entries }
        ensures legal { Legal self.new.entries }
        ensures changes { ChangesAccount client after_end self.old self.new }
        ensures whole { AreWhole self.old → AreWhole self.new }
    {
        let event = Event::Ended { client };
        self.journal.push(Entry { event, stamp });
        self.clients[client as usize].end();
    }

    /// Notes that a message is safe in one queue more. Where it was the last one that it lacked its publish is confirmed. It takes
    /// no memory.
    pub fn pass(&mut self, id: u128, stamp: u64)
        requires lacks { IsSome (finite.get self.old.lacks id) }
        requires room { 0 < self.old.room }
        requires later { newest self.old.entries ≤ stamp }
        ensures passes { Passes id stamp self.old self.new }
        ensures legal { Legal self.new.entries }
        ensures whole { AreWhole self.old → AreWhole self.new }
    {
        let sure = self.lacks.pass(id);
        note_confirmed(&mut self.journal, stamp, id, sure);
    }

    /// Notes that an acknowledged message is gone from the disk. It takes no memory.
    pub fn settle(&mut self, queue: u32, id: u128, stamp: u64)
        requires acked { contains (acked self.old.entries queue) id ≡ true }
        requires unsettled { contains (settled self.old.entries queue) id ≡ false }
        requires room { 0 < self.old.room }
        requires later { newest self.old.entries ≤ stamp }
        ensures adds { AddsAlone (event.Settled queue id) stamp self.old self.new }
        ensures legal { Legal self.new.entries }
        ensures whole { AreWhole self.old → AreWhole self.new }
    {
        let event = Event::Settled { queue, id };
        self.journal.push(Entry { event, stamp });
    }

    /// What happened so far.
    pub fn journal(&self) -> &Journal
        ensures same { result.now.entries ≡ self.now.entries }
        ensures legal { Legal self.now.entries }
        // Each publish took the least positive number that no message had.
        ensures ids { TakesNextIds self.now.entries }
        ensures owed { AreOwed self.now.entries self.now.lacks }
        ensures decided { AreDecided self.now.entries self.now.lacks }
        ensures confirmed { NoneLacks self.now.lacks → AreConfirmed self.now.entries }
        ensures accounts { AreAccounts self.now.entries (length self.now.clients) (account_at self.now.clients) }
    {
        &self.journal
    }

    /// How many clients there are.
    pub fn clients(&self) -> u32
        ensures { result ≡ length self.now.clients }
    {
        self.clients.len() as u32
    }

    /// Whether a client has 64 deliveries open, so that a get is refused.
    pub fn is_full(&self, client: u32) -> bool
        requires client { client < length self.now.clients }
        ensures { MatchBool result (length (unacked self.now.entries client) ≡ 64) (length (unacked self.now.entries client) < 64) }
    {
        self.clients[client as usize].is_full()
    }

    /// The open deliveries of a client, the oldest first.
    pub fn opens(&self, client: u32) -> &[OpenDelivery]
        requires client { client < length self.now.clients }
        ensures account { result.now ≡ (account_at self.now.clients client).opens }
        ensures journal { result.now ≡ map open_of (unacked self.now.entries client) }
        ensures below { AllByRecursion (λ o. o.queue < 256) result.now }
    {
        self.clients[client as usize].opens()
    }

    /// How many deliveries a client had.
    pub fn delivered(&self, client: u32) -> u32
        requires client { client < length self.now.clients }
        ensures account { result ≡ (account_at self.now.clients client).delivered }
        ensures journal { result ≡ delivered self.now.entries client }
    {
        self.clients[client as usize].delivered()
    }

    /// The replies to a client, the oldest first.
    pub fn replies(&self, client: u32) -> &[Reply]
        requires client { client < length self.now.clients }
        ensures account { result.now ≡ (account_at self.now.clients client).replies }
        ensures journal { map bodiless result.now ≡ map bodiless (replies self.now.entries client) }
    {
        self.clients[client as usize].replies()
    }

    /// Answers an acknowledgement of an open delivery, which came from this queue.
    fn acked(&mut self, client: u32, delivery: u32, stamp: u64)
        requires ready { CanAnswer client stamp self.old }
        requires open_ { is_some (queue_of delivery (account_at self.old.clients client).opens) ≡ true }
        ensures entries { self.new.entries ≡ noted (event.Acked client delivery) stamp self.old.entries }
        ensures legal { Legal self.new.entries }
        ensures changes { ChangesAccount client (after_ack delivery (Some 0)) self.old self.new }
        ensures whole { AreWhole self.old → AreWhole self.new }
    {
        let event = Event::Acked { client, delivery };
        self.journal.push(Entry { event, stamp });
        self.clients[client as usize].ack(delivery);
    }

    /// Answers an acknowledgement of a delivery that isn't open.
    fn unknown(&mut self, client: u32, delivery: u32, stamp: u64)
        requires ready { CanAnswer client stamp self.old }
        requires closed { queue_of delivery (account_at self.old.clients client).opens ≡ None }
        ensures entries { self.new.entries ≡ noted (event.Unknown client delivery) stamp self.old.entries }
        ensures legal { Legal self.new.entries }
        ensures changes { ChangesAccount client (after_ack delivery None) self.old self.new }
        ensures whole { AreWhole self.old → AreWhole self.new }
    {
        let event = Event::Unknown { client, delivery };
        self.journal.push(Entry { event, stamp });
        self.clients[client as usize].unknown(delivery);
    }
}

/// Notes that a publish is confirmed, where it is one.
fn note_confirmed(journal: &mut Journal, stamp: u64, id: u128, sure: Option<Sure>)
    requires { 0 < journal.old.room }
    ensures entries { journal.new.entries ≡ confirmed_by stamp id sure journal.old.entries }
    ensures room { journal.old.room ≤ journal.new.room + 1 }
{
    if let Some(sure) = sure {
        let event = Event::Confirmed {
            client: sure.client,
            number: sure.number,
            id,
        };
        journal.push(Entry { event, stamp });
    }
}

/// How many entries a journal has.
fn count_of(journal: &Journal) -> usize
    ensures count { result ≡ length journal.now.entries }
    ensures few { length journal.now.entries < 2 ^ 64 }
{
    journal.entries().len()
}

/// So many clients of which nothing is kept.
fn clients_of(alloc: Global, count: u32) -> Result<Vec<Client>, AllocError>
    ensures { IfOk result (λ clients. (length clients.items ≡ count)
        × ((c : ℕ) → account_at clients.items c ≡ no_account)) }
{
    let mut clients = Vec::new(alloc);
    for _client in 0..count {
        clients.push(Client::new(alloc)?)?;
    }
    Ok(clients)
}
