// A node over a disk.
ghost use Rattle.std.specs.Prelude.{◌≡◌, ◌<◌, ◌≤◌, ◌+◌, ◌-◌, ◌*◌, ◌^◌, ◌∷◌, ◌++◌, [], ℕ, List, Some, true, false, min, IfOk, IfErr, OnOk, OnErr, IsErrOf, IsOk, MatchResult, ◌↔◌, length, map};
ghost use Rattle.cq_disk.specs.declared.disk.OpenError.TheVariants.{Fault as open_fault};
ghost use Rattle.cq_disk.specs.Files.{IsImage, SameFiles};
ghost use Rattle.cq_disk.specs.Call.{BeforeFuse};
ghost use Rattle.cq_disk.specs.Run.{Ran, LeavesOnly};
ghost use Rattle.cq_memdisk.specs.Crash.{SameLeft};
ghost use Rattle.cq_small.specs.Store.{small_name, len_of as small_len};
ghost use Rattle.cq_index.specs.Codec.{entry_len};
ghost use Rattle.cq_index.specs.Places.{index_name};
ghost use Rattle.cq_index.specs.Segments.{count_of};
ghost use Rattle.cq_inbox.specs.Config.{clients_of as clients_in};
ghost use Rattle.cq_inbox.specs.Requests.{publishes};
ghost use Rattle.cq_journal.specs.declared.event.Message.{Message};
ghost use Rattle.cq_journal.specs.Confirms.{AreConfirmed, confirmed};
ghost use Rattle.cq_journal.specs.History.{line};
ghost use Rattle.cq_journal.specs.Legal.{Legal, newest};
ghost use Rattle.cq_journal.specs.Lawful.{Legal-prop};
ghost use Rattle.cq_journal.specs.Asks.{asks, replies};
ghost use Rattle.cq_folder.specs.Held.{as_read, contents_of, Held};
ghost use Rattle.cq_folder.specs.Steady.{IsUnsound, SoundBy, Steady, SteadyWhere-prop};
ghost use Rattle.cq_folder.specs.Standing.{Standing, StillSound};
ghost use Rattle.cq_back.specs.Cause.{HasCause};
ghost use Rattle.cq_back.specs.Folder.{ReadsSame, no_sharing};
ghost use Rattle.cq_back.specs.Found.{BreaksFolder};
ghost use Rattle.cq_core.specs.Answers.{bodiless};
ghost use Rattle.cq_core.specs.Core.{HasReplies, TakesNextIds};
ghost use Rattle.cq_core.specs.Found.{Finds};
ghost use Rattle.cq_core.specs.Stored.{AreAt, content_in, unsent};
ghost use Rattle.cq_node.specs.declared.outcome.NodeError.TheVariants.{Fault as node_fault};
ghost use Rattle.cq_node.specs.Agreeing.{stored_lines};
ghost use Rattle.cq_node.specs.Files.{HasNoOther, HasFew, IsSmallFile, IsIndexFile};
ghost use Rattle.cq_node.specs.Opening.{IsOpening, IfBroken, spot_of, told_of, AreWithin, WithinWhere-prop, PlacedWhere-prop};
ghost use Rattle.cq_node.specs.Turned.{Turned, Answered, Wrote, IsIdle, HasDone};
ghost use Rattle.cq_node.specs.Waiting.{is_servable, kept_count};

use crate::outcome::{NodeError, Step, Turn};
use crate::queue_files::QueueFiles;
use crate::waiting::Waiting;
use cq_back::{BackError, FoundQueue, HeldEntry, open_folder};
use cq_bytes::{Body, Queues};
use cq_core::{Core, Next, RecordPlace, batch_of};
use cq_disk::{Disk, OpenError};
use cq_inbox::{Config, PlainInbox, Request};
use cq_index::Segment;
use cq_journal::{Journal, Message, Reply};
use cq_memdisk::Crashable;
use cq_small::SmallStore;
use std::alloc::{AllocError, Global};

/// The storage of one client's one queue on a disk. It answers the client's requests, journals what happens, and writes
/// messages to the queue's files when the writer's step is made.
///
/// It serves publishes to queue 0 and gets of it: as many publishes as the one segment of the index has room for, which has
/// 4096 entries at most.
#[derive(Drop)]
pub struct Node<D: Disk> {
    alloc: Global,
    config: Config,
    core: Core,
    waiting: Waiting,
    store: QueueFiles<D>,
    /// How many entries the index had at the opening.
    opened: u32,

    ghost stamped: { newest core.entries ≤ D.moment store.disk },
    ghost few: { opened + publishes (asks core.entries 0) + publishes waiting.requests ≤ 4096 },
    ghost counted: { store.halted ≡ false → count_of store.index ≡ opened + confirmed core.entries },
    ghost within: { store.halted ≡ false → AreWithin (small_len store.small) core.places } by { WithinWhere-prop (store.halted ≡ false) (small_len store.small) core.places },
    ghost placed: { store.halted ≡ false → D.tells → AreAt (content_in (D.files store.disk (small_name 0 0))) core.places (unsent core.entries) } by { PlacedWhere-prop (store.halted ≡ false) D.tells (content_in (D.files store.disk (small_name 0 0))) core.places (unsent core.entries) },
    ghost whole: { D.tells → HasReplies core },
    ghost legal: { Legal core.entries } by { Legal-prop core.entries },
    ghost standing: { store.halted ≡ false → D.tells → ∥ Standing (D.files store.disk) no_sharing core.entries (stored_lines core.entries) ∥₁ },
    ghost steady: { D.tells → Steady (D.left store.disk) (D.moment store.disk) core.entries } by { SteadyWhere-prop D.tells (D.left store.disk) (D.moment store.disk) core.entries },
    ghost short: { store.halted ≡ false → D.tells → HasFew (D.files store.disk (index_name 0 0)) (opened + confirmed core.entries) },
    ghost bounded: { D.tells → HasFew (D.files store.disk (index_name 0 0)) (opened + publishes (asks core.entries 0)) },
    ghost one_client: { config.clients ≡ 1 },
}

/// What an opening hands back where it was refused.
#[derive(Drop)]
pub struct OpenRefused<D: Disk> {
    pub error: OpenError,
    pub disk: D,
    pub inbox: PlainInbox,
}

/// What a node hands back at its end.
#[derive(Drop)]
pub struct Released<D: Disk> {
    pub disk: D,
    pub journal: Journal,
    /// The requests that weren't answered.
    pub waiting: Waiting,
}

/// What an opening finds: the queue in memory, and its two files.
#[derive(Drop)]
struct Opened {
    core: Core,
    segment: Segment,
    small: SmallStore,
}

impl<D: Disk> Node<D> {
    ghost use Rattle.cq_node.specs.View.{entries, requests, waiting, disk_of, moment_of, opened_of, config_of, clients_of, is_kept, calls_of_write, IsRunning, SameQueue, SameStore, SameButRequests, Steps, Turns, Writes};

    /// Opens a folder with at most the two files of one segment of queue 0, for the requests of an inbox for one client, in
    /// which there is none yet: syncs every file, reads what they hold, and removes a small store whose index isn't there. The
    /// messages found are the one entry of the journal.
    ///
    /// `Damaged` tells the first rule that the folder breaks; then it isn't sound, and it has only been synced and read. Where
    /// it is refused all is handed back.
    pub fn open(
        alloc: Global,
        mut disk: D,
        config: Config,
        inbox: PlainInbox,
    ) -> Result<Node<D>, OpenRefused<D>>
        requires one_client { clients_in config ≡ 1 }
        requires one_queue { D.tells → HasNoOther (D.files disk) }
        requires none_waits { inbox ≡ [] ∷ [] }
        // The opening is the one entry, stamped at the disk's moment: it has exactly what the files held, and whatever a crash
        // leaves now holds that.
        ensures opened { IfOk result (λ node. IsOpening (moment_of node) (entries node)) }
        ensures held { IfOk result (λ node. D.tells → SoundBy (as_read (D.files disk)) (line (entries node))) }
        ensures entries { IfOk result (λ node. D.tells → length (contents_of (as_read (D.files disk)) (index_name 0 0)) ≡ entry_len * (opened_of node)) }
        ensures requests { IfOk result (λ node. (waiting node) ≡ record { requests = []; kept = false }) }
        ensures running { IfOk result (λ node. (IsRunning node) × (config_of node ≡ config)) }
        ensures inbox { IfErr result (λ back. back.inbox ≡ inbox) }
        // Damage is told of bytes that were read, on each disk.
        ensures cause { IfErr result (λ back. IfBroken back.error HasCause) }
        ensures damaged { IfErr result (λ back. IfBroken back.error (λ name place found. D.tells → BreaksFolder (as_read (D.files disk)) name place found)) }
        ensures refuses { IfErr result (λ back. IfBroken back.error (λ name place found. D.tells → IsUnsound (as_read (D.files disk)))) }
        // Where a rule is broken, nothing else than syncs and reads was done.
        ensures reads { IfErr result (λ back. IfBroken back.error (λ name place found. D.tells → ReadsSame (D.files disk) (D.files back.disk))) }
        ensures only_reads { IfErr result (λ back. IfBroken back.error (λ name place found. D.tells → LeavesOnly D.Disk disk back.disk (IsImage (D.files disk)))) }
        // Nor was anything else done to a folder that isn't sound, whichever the refusal.
        ensures unsound { IfErr result (λ back. D.tells → IsUnsound (as_read (D.files disk)) → LeavesOnly D.Disk disk back.disk (IsImage (D.files disk))) }
        // If whatever a crash could leave before held some messages, it holds them at every moment meanwhile, whichever the
        // answer; and no file is new.
        ensures meanwhile { (lines : ℕ → List Message) → D.tells → StillSound (D.files disk) lines → IfOk result (λ node. LeavesOnly D.Disk disk (disk_of node) (λ image. SoundBy image lines)) × IfErr result (λ back. LeavesOnly D.Disk disk back.disk (λ image. SoundBy image lines)) }
        ensures alone { IfErr result (λ back. D.tells → HasNoOther (D.files back.disk)) }
        ensures ran { MatchResult result (λ node. Ran D.Disk disk (disk_of node) ⊥) (λ back. Ran D.Disk disk back.disk (back.error ≡ open_fault)) }
    {
        match open_queue(alloc, &mut disk) {
            Ok(
                Opened {
                    core,
                    segment,
                    small,
                },
            ) => {
                let opened = segment.count();
                Ok(Node {
                    alloc,
                    config,
                    core,
                    waiting: Waiting::new(inbox),
                    store: QueueFiles::new(disk, small, segment),
                    opened,
                })
            }
            Err(error) => Err(OpenRefused { error, disk, inbox }),
        }
    }

    /// Hands in a client's request. It comes back exactly where 64 are in the inbox. It takes no memory.
    pub fn put(&mut self, client: u32, request: Request) -> Result<(), Request>
        requires client { client < clients_of self.old }
        requires servable { is_servable request ≡ true }
        requires few { opened_of self.old + publishes (asks (entries self.old) 0) + publishes (requests self.old) + publishes (request ∷ []) ≤ 4096 }
        ensures room { IsOk result ↔ (length (requests self.old) < 64 + kept_count (waiting self.old)) }
        ensures ok { OnOk result (requests self.new ≡ (requests self.old) ++ request ∷ []) }
        ensures back { IfErr result (λ back. back ≡ request) }
        ensures err { OnErr result (waiting self.new ≡ waiting self.old) }
        ensures same { SameButRequests self.old self.new }
    {
        self.waiting.put(request)
    }

    /// Answers the client's oldest request. `Done` exactly where it has none. After want of memory or a fault the request
    /// stands before the others, and nothing else of the journal and the requests has changed.
    pub fn turn(&mut self, client: u32) -> Result<Turn, NodeError>
        requires client { client < clients_of self.old }
        ensures turned { Turns self.old self.new result }
        ensures none_kept { OnOk result (is_kept self.new ≡ false) }
        ensures steps { Steps self.old self.new result }
    {
        if self.store.halted {
            return Err(NodeError::Stopped);
        }
        if self.core.reserve(1).is_err() {
            return Err(NodeError::Memory);
        }
        match self.waiting.take() {
            None => Ok(Turn::Done),
            Some(Request::Publish { queues, body }) => self.publish(queues, body),
            Some(Request::Get { queue: _ }) => self.get(),
            Some(_) => unreachable!(),
        }
    }

    /// Answers a publish that was taken.
    fn publish(&mut self, queues: Queues, body: Body) -> Result<Turn, NodeError>
        requires open { IsRunning self.old }
        requires reserved { 0 < self.old.core.reserved }
        requires taken { is_kept self.old ≡ false }
        requires one_queue { queues ≡ 0 ∷ [] }
        requires few { opened_of self.old + publishes (asks (entries self.old) 0) + publishes (requests self.old) < 4096 }
        ensures turned { Turned result (moment_of self.old) (entries self.old) (entries self.new) (Request.Publish queues body ∷ (requests self.old)) (requests self.new) }
        ensures none_kept { OnOk result (is_kept self.new ≡ false) }
        ensures steps { Steps self.old self.new result }
    {
        let Ok(copy) = Body::copy(self.alloc, body.bytes()) else {
            self.waiting.keep(Request::Publish { queues, body });
            return Err(NodeError::Memory);
        };
        let stamp = self.store.disk.moment();
        self.core.publish(stamp, queues, body, copy);
        Ok(Turn::Moved)
    }

    /// Answers a get that was taken.
    fn get(&mut self) -> Result<Turn, NodeError>
        requires open { IsRunning self.old }
        requires reserved { 0 < self.old.core.reserved }
        requires taken { is_kept self.old ≡ false }
        ensures turned { Turned result (moment_of self.old) (entries self.old) (entries self.new) (Request.Get 0 ∷ (requests self.old)) (requests self.new) }
        ensures none_kept { OnOk result (is_kept self.new ≡ false) }
        ensures steps { Steps self.old self.new result }
    {
        match self.answer_get() {
            Ok(()) => Ok(Turn::Moved),
            Err(error) => {
                self.waiting.keep(Request::Get { queue: 0 });
                Err(error)
            }
        }
    }

    /// Journals the answer to a get.
    fn answer_get(&mut self) -> Result<(), NodeError>
        requires open { IsRunning self.old }
        requires reserved { 0 < self.old.core.reserved }
        ensures answered { Answered (Request.Get 0) result (moment_of self.old) (entries self.old) (entries self.new) }
        ensures waiting { waiting self.new ≡ waiting self.old }
        ensures steps { Steps self.old self.new result }
    {
        let stamp = self.store.disk.moment();
        match self.core.next() {
            Next::Busy => {
                self.core.busy(stamp);
                Ok(())
            }
            Next::Empty => {
                self.core.empty(stamp);
                Ok(())
            }
            Next::Held => {
                let Ok(Message { id, body }) = self.core.held_message() else {
                    return Err(NodeError::Memory);
                };
                self.core.deliver(stamp, id, body);
                Ok(())
            }
            Next::Stored(spot) => self.deliver_stored(spot),
        }
    }

    /// Reads the body of the first message that waits from the small store, and hands the message out.
    fn deliver_stored(&mut self, spot: RecordPlace) -> Result<(), NodeError>
        requires open { IsRunning self.old }
        requires reserved { 0 < self.old.core.reserved }
        requires found { Finds (Next.Stored spot) self.old.core }
        ensures answered { Answered (Request.Get 0) result (moment_of self.old) (entries self.old) (entries self.new) }
        ensures waiting { waiting self.new ≡ waiting self.old }
        ensures steps { Steps self.old self.new result }
    {
        let Ok(mut bytes) = vec![in self.alloc; 0; spot.len as usize] else {
            return Err(NodeError::Memory);
        };
        if self.store.read(spot.place, &mut bytes).is_err() {
            return Err(NodeError::Fault);
        }
        let stamp = self.store.disk.moment();
        self.core.deliver(stamp, spot.id, Body::from_vec(bytes));
        Ok(())
    }

    /// Makes the writer's next step: it writes all messages that aren't confirmed to the small store, then their entries
    /// to the index, and confirms them. `Idle` exactly where all are confirmed; then the files hold exactly the messages
    /// of the queue. After want of memory nothing has changed.
    pub fn write_step(&mut self) -> Result<Step, NodeError>
        ensures wrote { Writes self.old self.new result }
        ensures idle { IsIdle result → AreConfirmed (entries self.new) × SameStore self.old self.new }
        ensures held { IsIdle result → D.tells → ∥ Held (as_read (D.files (disk_of self.new))) (line (entries self.new)) ∥₁ }
        ensures calls { HasDone result → moment_of self.new ≡ moment_of self.old + calls_of_write self.old }
        ensures waiting { waiting self.new ≡ waiting self.old }
        ensures steps { Steps self.old self.new result }
    {
        if self.store.halted {
            return Err(NodeError::Stopped);
        }
        let count = self.core.undecided().len();
        if count == 0 {
            return Ok(Step::Idle);
        }
        let base = self.store.base();
        let Ok(batch) = batch_of(self.alloc, self.core.undecided(), base) else {
            return Err(NodeError::Memory);
        };
        if self.core.reserve(count).is_err() || self.store.reserve(count).is_err() {
            return Err(NodeError::Memory);
        }
        let written = self.store.commit(&batch.records, &batch.entries);
        if written.is_err() {
            return Err(NodeError::Fault);
        }
        let stamp = self.store.disk.moment();
        self.core.confirm_all(stamp, &batch.spots);
        Ok(Step::Did)
    }

    /// The numbers that the node was opened with.
    pub fn config(&self) -> &Config
        ensures { result.now ≡ config_of self.now }
    {
        &self.config
    }

    /// What happened so far. It is always legal, and each publish took the least positive number that no message had.
    pub fn journal(&self) -> &Journal
        ensures same { result.now.entries ≡ entries self.now }
        ensures legal { Legal (entries self.now) }
        ensures ids { TakesNextIds (entries self.now) }
    {
        self.core.journal()
    }

    /// The replies to a client so far, the oldest first: those of the journal, with whole bodies where the disk tells.
    pub fn replies(&self, client: u32) -> &[Reply]
        requires { client < clients_of self.now }
        ensures same { map bodiless result.now ≡ map bodiless (replies (entries self.now) client) }
        ensures whole { D.tells → result.now ≡ replies (entries self.now) client }
    {
        self.core.replies()
    }

    /// The moment of the disk.
    pub fn moment(&self) -> u64
        ensures { result ≡ moment_of self.now }
    {
        self.store.disk.moment()
    }

    /// Ends the node.
    pub fn release(self) -> Released<D>
        ensures disk { result.disk ≡ disk_of self }
        ensures journal { result.journal.entries ≡ entries self }
        ensures waiting { result.waiting ≡ waiting self }
        ensures legal { Legal result.journal.entries }
        ensures ids { TakesNextIds result.journal.entries }
        // Every image that a crash may have left since an entry, and until the next one, agrees with the journal up to it.
        ensures steady { D.tells → Steady (D.left result.disk) (D.moment result.disk) result.journal.entries }
        ensures few { D.tells → HasFew (D.files result.disk (index_name 0 0)) (opened_of self + publishes (asks result.journal.entries 0)) }
        ensures alone { D.tells → HasNoOther (D.files result.disk) }
    {
        let Node {
            alloc: _,
            config: _,
            core,
            waiting,
            store,
            opened: _,
        } = self;
        Released {
            disk: store.disk,
            journal: core.into_journal(),
            waiting,
        }
    }
}

impl<D: Crashable> Node<D> {
    ghost use Rattle.cq_node.specs.View.{disk_of, moment_of, SameButDisk};

    /// After this many further device calls each one fails. Nothing else changes.
    pub fn fuse(&mut self, calls: u64)
        ensures set { D.fuse (disk_of self.new) ≡ Some (min (moment_of self.old + calls) (2 ^ 64 - 1)) }
        ensures same { SameButDisk self.old self.new }
        ensures files { SameFiles (D.files (disk_of self.old)) (D.files (disk_of self.new)) }
        ensures left { SameLeft (D.left (disk_of self.old)) (D.left (disk_of self.new)) }
        ensures moment { moment_of self.new ≡ moment_of self.old }
        ensures faults { D.faults (disk_of self.new) ≡ D.faults (disk_of self.old) }
        ensures struck { D.struck (disk_of self.new) ≡ D.struck (disk_of self.old) }
        ensures planned { D.planned (disk_of self.new) ≡ D.planned (disk_of self.old) }
    {
        self.store.fuse(calls);
    }
}

/// Opens the folder: what its files hold, and the queue in memory with that as its one entry.
fn open_queue<D: Disk>(alloc: Global, disk: &mut D) -> Result<Opened, OpenError>
    requires one_queue { D.tells → HasNoOther (D.files disk.old) }
    ensures opened { IfOk result (λ found. IsOpening (D.moment disk.new) found.core.entries) }
    ensures told { IfOk result (λ found. (found.core.told ≡ []) × Legal found.core.entries) }
    ensures held { IfOk result (λ found. D.tells → SoundBy (as_read (D.files disk.old)) (line found.core.entries)) }
    ensures standing { IfOk result (λ found. D.tells → ∥ Standing (D.files disk.new) no_sharing found.core.entries (stored_lines found.core.entries) ∥₁) }
    ensures steady { IfOk result (λ found. D.tells → Steady (D.left disk.new) (D.moment disk.new) found.core.entries) }
    ensures placed { IfOk result (λ found. D.tells → AreAt (content_in (D.files disk.new (small_name 0 0))) found.core.places (unsent found.core.entries)) }
    ensures within { IfOk result (λ found. AreWithin (small_len found.small) found.core.places) }
    ensures small { IfOk result (λ found. IsSmallFile D.tells found.small (D.files disk.new (small_name 0 0))) }
    ensures index { IfOk result (λ found. IsIndexFile D.tells found.segment (D.files disk.new (index_name 0 0))) }
    ensures count { IfOk result (λ found. D.tells → length (contents_of (as_read (D.files disk.old)) (index_name 0 0)) ≡ entry_len * count_of found.segment) }
    ensures few { IfOk result (λ found. D.tells → HasFew (D.files disk.new (index_name 0 0)) (count_of found.segment)) }
    ensures alone { D.tells → HasNoOther (D.files disk.new) }
    ensures cause { IfErr result (λ error. IfBroken error HasCause) }
    ensures damaged { IfErr result (λ error. IfBroken error (λ name place found. D.tells → BreaksFolder (as_read (D.files disk.old)) name place found)) }
    ensures refuses { IfErr result (λ error. IfBroken error (λ name place found. D.tells → IsUnsound (as_read (D.files disk.old)))) }
    ensures reads { IfErr result (λ error. IfBroken error (λ name place found. D.tells → ReadsSame (D.files disk.old) (D.files disk.new))) }
    ensures only_reads { IfErr result (λ error. IfBroken error (λ name place found. D.tells → LeavesOnly D.Disk disk.old disk.new (IsImage (D.files disk.old)))) }
    ensures unsound { IfErr result (λ error. D.tells → IsUnsound (as_read (D.files disk.old)) → LeavesOnly D.Disk disk.old disk.new (IsImage (D.files disk.old))) }
    ensures meanwhile { D.tells → (lines : ℕ → List Message) → StillSound (D.files disk.old) lines → LeavesOnly D.Disk disk.old disk.new (λ image. SoundBy image lines) }
    ensures ran { Ran D.Disk disk.old disk.new (IsErrOf result open_fault) }
{
    let found = match open_folder(alloc, disk) {
        Ok(found) => found,
        Err(error) => return Err(as_open_error(error)),
    };
    let stamp = disk.moment();
    let FoundQueue {
        segment,
        small,
        held,
        lines,
    } = found;
    let (Ok(places), Ok(taken)) = (places_of(alloc, &held), ids_of(alloc, &held)) else {
        return Err(OpenError::Memory);
    };
    match Core::open(alloc, stamp, lines, places, taken) {
        Ok(core) => Ok(Opened {
            core,
            segment,
            small,
        }),
        Err(_) => Err(OpenError::Memory),
    }
}

/// Where the messages of these entries stand.
fn places_of(alloc: Global, held: &[HeldEntry]) -> Result<Vec<RecordPlace>, AllocError>
    ensures { IfOk result (λ places. places.items ≡ map spot_of held.now) }
{
    held.iter().map(|one| spot_of(one)).collect(alloc)
}

/// Where the message of an entry stands.
fn spot_of(held: &HeldEntry) -> RecordPlace
    ensures { result ≡ spot_of held.now }
{
    RecordPlace {
        id: held.entry.id,
        place: held.entry.place,
        len: held.entry.len,
    }
}

/// The ids of these entries.
fn ids_of(alloc: Global, held: &[HeldEntry]) -> Result<Vec<u128>, AllocError>
    ensures { IfOk result (λ ids. ids.items ≡ map (λ h. h.entry.id) held.now) }
{
    held.iter().map(|one| one.entry.id).collect(alloc)
}

/// Why a folder can't be opened, as the node tells it.
fn as_open_error(error: BackError) -> OpenError
    ensures { result ≡ told_of error }
{
    match error {
        BackError::Fault => OpenError::Fault,
        BackError::Memory => OpenError::Memory,
        BackError::Damaged { name, place, found } => OpenError::Damaged(name, place, found),
    }
}

#[cfg(test)]
mod tests;
