// A script that is served in sessions, one after another.
ghost use Rattle.std.specs.Prelude.{◌≡◌, ◌≢◌, ◌≤◌, ◌<◌, ◌+◌, ◌++◌, ◌∷◌, [], ℕ, List, Option, Ok, None, IfOk, IfErr, IfSome, IsSome, OnOk, IsErrOf, true, false, length, vec_len, vec_capacity};
ghost use Rattle.std.specs.List.{list_all};
ghost use Rattle.cq_disk.specs.declared.name.Name.{Name};
ghost use Rattle.cq_disk.specs.Rose.{Rose};
ghost use Rattle.cq_disk.specs.Run.{RanOn};
ghost use Rattle.cq_disk.specs.Files.{IsImage, NamesAre, SameFiles};
ghost use Rattle.cq_disk.specs.Call.{Image, CausedOf};
ghost use Rattle.cq_folder.specs.Held.{as_read, Held};
ghost use Rattle.cq_folder.specs.Steady.{Agrees, Sound};
ghost use Rattle.cq_inbox.specs.declared.request.Request.{Request};
ghost use Rattle.cq_inbox.specs.Requests.{publishes};
ghost use Rattle.cq_index.specs.Places.{index_name};
ghost use Rattle.cq_io.specs.Streams.{Adds};
ghost use Rattle.cq_journal.specs.declared.event.Entry.{Entry};
ghost use Rattle.cq_journal.specs.History.{line};
ghost use Rattle.cq_journal.specs.Legal.{Legal};
ghost use Rattle.cq_memdisk.specs.Crash.{Crashed};
ghost use Rattle.cq_node.specs.Files.{HasFew, HasNoOther};
ghost use Rattle.cq_node.specs.Opening.{IfBroken};
ghost use Rattle.cq_inbox.specs.Config.{clients_of};
ghost use Rattle.cq_node.specs.View.{entries, disk_of};
ghost use Rattle.cq_node.specs.Waiting.{is_servable};
ghost use Rattle.cq_print.specs.Text.{text_of};
ghost use Rattle.cq_script.specs.declared.script.StepWord.{StepWord};
ghost use Rattle.cq_script.specs.Scripts.{KeepsLimits, is_crash, crashes};
ghost use Rattle.cq_replay.specs.Between.{image_in, CanRestart, IsSplit, LacksMemory, Restarts, IsReady, IsUpTo, TakesOn, HasPlayed, TakesToEnd, TakesTexts};
ghost use Rattle.cq_replay.specs.Going.{HasBegun};
ghost use Rattle.cq_replay.specs.Sessions.{AllTexts, texts_of};
ghost use Rattle.cq_replay.specs.Played.{AreSessions, IsRight, EndsOn, IfFailed, InSession, IsEmpty, IsLeft, IsServed, LastSteady, Puts};

use crate::player::Player;
use crate::session::{Finished, serve_session};
use cq_disk::OpenError;
use cq_inbox::{Config, PlainInbox, Request};
use cq_io::Sink;
use cq_journal::Session;
use cq_memdisk::Crashable;
use cq_node::{Node, NodeError, OpenRefused, Waiting};
use cq_print::{PutError, put_session};
use cq_script::{Script, StepWord, Streams};
use std::alloc::{AllocError, Global};
use std::collections::VecDeque;

/// How the serving of a script ended.
#[derive(Clone, Copy, Debug, PartialEq, Eq)]
pub enum Ending {
    /// All was served.
    Served,
    /// An opening failed: a fault of the disk.
    Opening(OpenError),
    /// A step of the node failed: a fault of the disk.
    Failed(NodeError),
    /// The sink failed.
    Output,
    /// Memory ran out.
    Memory,
}

/// How the serving of a script ended, the sessions that were served, in order, and the scratch disk.
#[derive(Drop)]
pub struct Played<C: Crashable> {
    pub ending: Ending,
    pub sessions: Vec<Session>,
    pub scratch: C,
}

/// Serves a script on a scratch disk that has no files and no fuse, by its schedule and then to its end. A crash of the schedule
/// ends a session: the disk becomes the image that it names, the folder is opened again, and the client goes on from its first
/// request without an entry. The text of each session is put when it ends, unless memory ran out in it.
pub fn play<C: Crashable, W: Sink>(
    alloc: Global,
    script: Script,
    scratch: C,
    sink: &mut W,
) -> Played<C>
    requires limits { KeepsLimits script }
    requires empty { IsEmpty C.Disk scratch }
    // Whatever the ending, the sessions are those of the script: what each did was allowed, the requests are answered in their
    // order and the words done in theirs, each session but the last was ended by a crash, and what the next opening found
    // survives its journal.
    ensures sessions { AreSessions script.streams script.steps result.sessions.items }
    // Where all was served, all requests and words are. Then the last session's publishes are confirmed, the files hold exactly
    // its messages, and the sink took the lines of all texts.
    ensures served { result.ending ≡ Ending.Served
        → IsServed C.Disk W.Sink script.streams script.steps result.scratch sink.old sink.new result.sessions.items }
    // A crash at any moment of the last session has left what agrees with its journal; and whatever the ending, a crash leaves
    // that now.
    ensures steady { InSession result.ending
        → LastSteady (C.left result.scratch) (C.moment result.scratch) result.sessions.items }
    ensures left { IsLeft C.Disk result.scratch result.sessions.items }
    // A fault is answered only where one came.
    ensures ends { EndsOn C.Disk scratch result.scratch result.ending }
    ensures puts { Puts W.Sink sink.old sink.new (result.ending ≡ Ending.Output) }
{
    let Script {
        config,
        streams,
        steps,
        scheduled: _,
    } = script;
    let words = steps.words();
    let mut sessions = Vec::new(alloc);
    if sessions.reserve(crashes_of(words) + 1).is_err() {
        return Played {
            ending: Ending::Memory,
            sessions,
            scratch,
        };
    }
    let pause = Pause {
        words,
        rest: first_stream(alloc, streams),
        scratch,
    };
    play_on(alloc, config, pause, sessions, sink)
}

/// Where a script stands while no session is open: the words of the schedule that are left, the client's requests that have no
/// entry, in order, and the scratch disk.
#[derive(Drop)]
struct Pause<'a, C: Crashable> {
    words: &'a [StepWord],
    rest: VecDeque<Request>,
    scratch: C,
}

/// How the serving ended, and the scratch disk.
#[derive(Drop)]
struct Over<C: Crashable> {
    ending: Ending,
    scratch: C,
}

/// The words of a session, the crash that ends it, where one does, and the words behind it.
#[derive(Clone, Copy)]
struct Part<'a> {
    plain: &'a [StepWord],
    end: Option<StepWord>,
    later: &'a [StepWord],
}

/// The requests of the one client.
fn first_stream(alloc: Global, streams: Streams) -> VecDeque<Request>
    requires { IsRight streams }
    ensures servable { list_all is_servable result.items ≡ true }
    ensures few { publishes result.items ≤ 4096 }
    ensures same { streams ≡ result.items ∷ [] }
{
    match streams.into_vec().pop() {
        Some(stream) => VecDeque::from_vec(stream),
        None => VecDeque::new(alloc),
    }
}

/// Whether a word ends its session.
fn ends_session(word: &StepWord) -> bool
    ensures { result ≡ is_crash word.now }
{
    matches!(word, StepWord::Crash { .. } | StepWord::Stop { .. })
}

/// How many of the words end a session.
fn crashes_of(words: &[StepWord]) -> usize
    ensures { result ≡ crashes words.now }
{
    words.iter().filter(|word| ends_session(word)).count()
}

/// Splits the words of a schedule at the first crash.
fn split(words: &[StepWord]) -> Part<'_>
    ensures { IsSplit words.now result.plain.now result.end result.later.now }
{
    for (place, word) in words.iter().enumerate() {
        if ends_session(word) {
            return Part {
                plain: &words[..place],
                end: Some(*word),
                later: &words[place + 1..],
            };
        }
    }
    Part {
        plain: words,
        end: None,
        later: &[],
    }
}

/// Serves the sessions of a script, the first of them in an empty folder.
fn play_on<C: Crashable, W: Sink>(
    alloc: Global,
    config: Config,
    mut pause: Pause<'_, C>,
    mut sessions: Vec<Session>,
    sink: &mut W,
) -> Played<C>
    requires one_client { clients_of config ≡ 1 }
    requires none { sessions.items ≡ [] }
    requires room { crashes pause.words.now < vec_capacity sessions }
    requires few { crashes pause.words.now ≤ 1000 }
    requires empty { (n : Name) → C.files pause.scratch n ≡ None }
    requires ready { IsReady (C.files pause.scratch) (C.fuse pause.scratch) pause.rest.items }
    ensures played { HasPlayed pause.entry.rest.items pause.entry.words.now result.ending result.sessions.items
        (C.files result.scratch) (C.left result.scratch) (C.moment result.scratch) }
    ensures texts { result.ending ≡ Ending.Served
        → AllTexts (W.pieces sink.old) (W.pieces sink.new) result.sessions.items }
    ensures ends { EndsOn C.Disk pause.entry.scratch result.scratch result.ending }
    ensures puts { Puts W.Sink sink.old sink.new (result.ending ≡ Ending.Output) }
{
    loop {
        match next_session(alloc, config, pause, &mut sessions, sink) {
            Ok(next) => pause = next,
            Err(over) => {
                return Played {
                    ending: over.ending,
                    sessions,
                    scratch: over.scratch,
                };
            }
        }
    }
}

/// Serves one session, and answers where the script stands then, if a crash ended it and another one follows.
fn next_session<'a, C: Crashable, W: Sink>(
    alloc: Global,
    config: Config,
    pause: Pause<'a, C>,
    sessions: &mut Vec<Session>,
    sink: &mut W,
) -> Result<Pause<'a, C>, Over<C>>
    requires one_client { clients_of config ≡ 1 }
    requires room { length sessions.old.items + crashes pause.words.now < vec_capacity sessions.old }
    requires few { length sessions.old.items + crashes pause.words.now ≤ 1000 }
    requires ready { IsReady (C.files pause.scratch) (C.fuse pause.scratch) pause.rest.items }
    ensures ready { IfOk result (λ next. IsReady (C.files next.scratch) (C.fuse next.scratch) next.rest.items) }
    ensures takes_on { IfOk result
        (λ next. TakesOn C.Disk sessions.old.items pause.entry.rest.items pause.entry.words.now pause.entry.scratch sessions.new.items next.rest.items next.words.now next.scratch) }
    ensures takes_to_end { IfErr result
        (λ over. TakesToEnd C.Disk sessions.old.items pause.entry.rest.items pause.entry.words.now pause.entry.scratch over.ending sessions.new.items over.scratch) }
    // There is one session more, and at least one crash less.
    ensures one_more { IfOk result
        (λ next. (length sessions.new.items ≡ length sessions.old.items + 1)
        × (crashes next.words.now + 1 ≤ crashes pause.entry.words.now)) }
    ensures capacity { vec_capacity sessions.new ≡ vec_capacity sessions.old }
    ensures texts { IfOk result
        (λ next. TakesTexts (W.pieces sink.old) sessions.old.items (W.pieces sink.new) sessions.new.items) }
    ensures last_text { IfErr result
        (λ over. over.ending ≡ Ending.Served
        → TakesTexts (W.pieces sink.old) sessions.old.items (W.pieces sink.new) sessions.new.items) }
    ensures ran { IfOk result (λ next. RanOn C.Disk pause.entry.scratch next.scratch ⊥) }
    ensures ends { IfErr result (λ over. EndsOn C.Disk pause.entry.scratch over.scratch over.ending) }
    ensures output { IfErr result (λ over. over.ending ≡ Ending.Output → Rose (W.faults sink.old) (W.faults sink.new)) }
    ensures sink_later { W.faults sink.old ≤ W.faults sink.new }
{
    let Pause {
        words,
        rest,
        scratch,
    } = pause;
    let part = split(words);
    let number = sessions.len() as u32;
    let player = match open(alloc, config, number, rest, scratch) {
        Ok(player) => player,
        Err(over) => return Err(over),
    };
    let Finished {
        session,
        waiting,
        rest,
        disk,
        served,
    } = serve_session(alloc, player, part.plain, part.end);
    let ending = put_text(alloc, u64::from(number), &session, served, sink);
    sessions.push_reserved(session);
    match ending {
        Ending::Served => match part.end {
            Some(crash) => restart(waiting, rest, disk, crash, part.later),
            None => Err(Over {
                ending,
                scratch: disk,
            }),
        },
        _ => Err(Over {
            ending,
            scratch: disk,
        }),
    }
}

/// Opens the folder as the session of this number, for the requests that are left.
fn open<C: Crashable>(
    alloc: Global,
    config: Config,
    number: u32,
    rest: VecDeque<Request>,
    scratch: C,
) -> Result<Player<C>, Over<C>>
    requires one_client { clients_of config ≡ 1 }
    requires ready { IsReady (C.files scratch) (C.fuse scratch) rest.items }
    ensures begun { IfOk result (λ player. HasBegun player.node player.after.items) }
    ensures rest { IfOk result (λ player. player.rest.items ≡ rest.items) }
    ensures numbered { IfOk result (λ player. player.node.config.session ≡ number) }
    ensures found { IfOk result (λ player. Held (as_read (C.files scratch)) (line (entries player.node))) }
    ensures ran { IfOk result (λ player. RanOn C.Disk scratch (disk_of player.node) ⊥) }
    // Where it failed, a crash leaves what agrees with the journals that the folder agreed with.
    ensures between { IfErr result (λ over. InSession over.ending → ⊥) }
    ensures agrees { IfErr result
        (λ over. (past : List Entry) → Agrees (as_read (C.files scratch)) past → (image : Image)
        → IsImage (C.files over.scratch) image → Agrees image past) }
    ensures ends { IfErr result (λ over. EndsOn C.Disk scratch over.scratch over.ending) }
{
    let Ok(inbox) = PlainInbox::new(alloc, 1) else {
        return Err(Over {
            ending: Ending::Memory,
            scratch,
        });
    };
    match Node::open(alloc, scratch, numbered(config, number), inbox) {
        Ok(node) => Ok(Player {
            node,
            rest,
            after: Vec::new(alloc),
        }),
        Err(
            OpenRefused {
                error,
                disk,
                inbox: _,
            },
        ) => Err(Over {
            ending: unopened(error),
            scratch: disk,
        }),
    }
}

/// The numbers of the node in the session of this number.
fn numbered(config: Config, number: u32) -> Config
    ensures clients { clients_of result ≡ clients_of config }
    ensures session { result.session ≡ number }
{
    let Some(config) = Config::new(
        config.clients(),
        config.segment(),
        config.threshold(),
        config.limit(),
        number,
    ) else {
        unreachable!();
    };
    config
}

/// The ending where a folder that isn't broken can't be opened.
fn unopened(error: OpenError) -> Ending
    requires { IfBroken error (λ name place found. ⊥) }
    ensures fault { error ≡ OpenError.Fault → result ≡ Ending.Opening OpenError.Fault }
    ensures memory { error ≡ OpenError.Memory → result ≡ Ending.Memory }
{
    match error {
        OpenError::Fault => Ending::Opening(OpenError::Fault),
        OpenError::Memory => Ending::Memory,
        OpenError::Damaged(_, _, _) => unreachable!(),
    }
}

/// Puts the text of a session, unless memory ran out in it, and answers how it ended.
fn put_text<W: Sink>(
    alloc: Global,
    number: u64,
    session: &Session,
    served: Result<(), NodeError>,
    sink: &mut W,
) -> Ending
    requires { Legal session.now.journal.entries }
    ensures served { result ≡ Ending.Served → served ≡ Ok tt }
    ensures text { result ≡ Ending.Served
        → Adds (W.pieces sink.old) (W.pieces sink.new)
        (text_of number session.now.journal.entries session.now.cut.items) }
    ensures failed { IfFailed result (λ error. (served ≡ Err error) × (error ≢ NodeError.Memory)) }
    ensures opened { (error : OpenError) → result ≡ Ending.Opening error → ⊥ }
    ensures output { result ≡ Ending.Output → Rose (W.faults sink.old) (W.faults sink.new) }
    ensures sink_later { W.faults sink.old ≤ W.faults sink.new }
{
    if let Err(NodeError::Memory) = served {
        return Ending::Memory;
    }
    match put_session(alloc, number, session, sink) {
        Ok(()) => match served {
            Ok(()) => Ending::Served,
            Err(error) => Ending::Failed(error),
        },
        Err(PutError::Output) => Ending::Output,
        Err(PutError::Memory) => Ending::Memory,
    }
}

/// Makes the disk crash, and puts the requests without an entry before the others. Where memory runs out the files are as
/// they were.
fn restart<'a, C: Crashable>(
    mut waiting: Waiting,
    mut rest: VecDeque<Request>,
    mut disk: C,
    crash: StepWord,
    later: &'a [StepWord],
) -> Result<Pause<'a, C>, Over<C>>
    requires crash { is_crash crash ≡ true }
    requires can { CanRestart C.Disk disk (waiting.requests ++ rest.items) }
    ensures words { IfOk result (λ next. next.words.now ≡ later.now) }
    ensures rest { IfOk result (λ next. next.rest.items ≡ waiting.requests ++ rest.items) }
    ensures restarts { IfOk result (λ next. Restarts C.Disk disk next.scratch crash next.rest.items) }
    ensures fails { IfErr result (λ over. LacksMemory C.Disk disk over.scratch over.ending) }
{
    let image = image_of(crash);
    let back = put_back(&mut waiting, &mut rest);
    if back.is_err() {
        return Err(Over {
            ending: Ending::Memory,
            scratch: disk,
        });
    }
    match disk.crash(image) {
        Ok(()) => Ok(Pause {
            words: later,
            rest,
            scratch: disk,
        }),
        Err(_) => Err(Over {
            ending: Ending::Memory,
            scratch: disk,
        }),
    }
}

/// The image that a crash leaves.
fn image_of(crash: StepWord) -> u64
    requires { is_crash crash ≡ true }
    ensures { result ≡ image_in crash }
{
    match crash {
        StepWord::Crash { image } => image,
        StepWord::Stop {
            image,
            calls: _,
            step: _,
        } => image,
        StepWord::Client(_) | StepWord::Turn(_) | StepWord::Write => unreachable!(),
    }
}

/// Puts the requests that wait, of which there are at most 65, before the others.
fn put_back(waiting: &mut Waiting, rest: &mut VecDeque<Request>) -> Result<(), AllocError>
    ensures { OnOk result (rest.new.items ≡ waiting.old.requests ++ rest.old.items) }
{
    let Some(request) = waiting.take() else {
        return Ok(());
    };
    put_back(waiting, rest)?;
    match rest.push_front(request) {
        Ok(()) => Ok(()),
        Err(_) => Err(AllocError),
    }
}
