// Scripts with their texts, statuses and files.
ghost use Rattle.std.specs.Prelude.{◌≡◌, ℕ, Option, IsTrue};
ghost use Rattle.cq_disk.specs.declared.name.Name.{Name};
ghost use Rattle.cq_disk.specs.File.{File};
ghost use Rattle.cq_disk.specs.Files.{NamesAre};
ghost use Rattle.cq_node.specs.Files.{HasNoOther};

use cq_disk::{Disk, Kind, Name};
use cq_inbox::{Config, PlainInbox};
use cq_io::{MemSink, MemSource, Status};
use cq_journal::{After, Entry, Event, Session};
use cq_memdisk::MemDisk;
use cq_node::Node;
use cq_replay::offline;
use std::alloc::{AllocError, Global};
use std::test::Fail;

const HELLO: &[u8] = b"client 0\npublish 0 text hello\nget 0\nschedule c0 t0 w c0 t0\n";

const INDEX: Name = Name {
    kind: Kind::Index,
    queue: 0,
    number: 0,
};

const SMALL: Name = Name {
    kind: Kind::Small,
    queue: 0,
    number: 0,
};

/// What a call answered, and the sink of its text.
#[derive(Drop)]
struct Row {
    status: Status,
    sessions: Vec<Session>,
    disk: MemDisk,
    sink: MemSink,
}

/// An input, of which the reads with these numbers fail.
fn source_of(alloc: Global, script: &[u8], reads: &[u64]) -> Result<MemSource, AllocError> {
    Ok(MemSource::new(script.to_vec(alloc)?, reads.to_vec(alloc)?))
}

/// A sink, of which the puts with these numbers fail.
fn sink_of(alloc: Global, puts: &[u64]) -> Result<MemSink, AllocError> {
    Ok(MemSink::new(alloc, puts.to_vec(alloc)?))
}

/// The call with these words and this input, of which the reads, device calls and puts with these numbers fail.
fn replayed(
    alloc: Global,
    words: &[&str],
    script: &[u8],
    reads: &[u64],
    calls: &[u64],
    puts: &[u64],
) -> Result<Row, AllocError> {
    let mut source = source_of(alloc, script, reads)?;
    let mut sink = sink_of(alloc, puts)?;
    let disk = MemDisk::new(alloc, calls.to_vec(alloc)?);
    let outcome = offline(alloc, words, &mut source, disk, &mut sink);
    Ok(Row {
        status: outcome.status,
        sessions: outcome.sessions,
        disk: outcome.scratch,
        sink,
    })
}

/// The call with this input, in which nothing fails.
fn served(alloc: Global, script: &[u8]) -> Result<Row, AllocError> {
    replayed(alloc, &["replay"], script, &[], &[], &[])
}

/// Whether a call answered so.
fn answers(row: &Row, status: Status, text: &[u8]) -> bool {
    row.status == status && row.sink.taken() == text
}

/// Scripts and their texts.
const TEXTS: [(&[u8], &[u8]); 4] = [
    (
        HELLO,
        b"session 0\nc0 published 0\nc0 got 0 q0 5 text hello\nc0 confirmed 0\nok\n",
    ),
    (b"", b"session 0\nok\n"),
    (
        b"client 0\nget 0\nschedule c0 t0",
        b"session 0\nc0 empty q0\nok\n",
    ),
    (
        b"client 0\npublish 0 text a\npublish 0 text b\nget 0\nget 0\nget 0\n",
        b"session 0\nc0 published 0\nc0 published 1\nc0 got 0 q0 1 text a\nc0 got 1 q0 1 text b\nc0 empty q0\nc0 confirmed 0\nc0 confirmed 1\nok\n",
    ),
];

/// Whether a script is served with this text.
fn has_text(alloc: Global, script: &[u8], text: &[u8]) -> Result<bool, AllocError> {
    let row = served(alloc, script)?;
    Ok(answers(&row, Status::Ok, text))
}

#[test]
fn scripts_have_their_texts(rt: HostRuntime) -> Result<(), Fail> {
    for (script, text) in TEXTS {
        assert!(rt; has_text(rt.alloc(), script, text)?);
    }
    Ok(())
}

/// The disk after a script was served.
fn disk_after(alloc: Global, script: &[u8]) -> Result<MemDisk, AllocError> {
    let row = served(alloc, script)?;
    Ok(row.disk)
}

#[test]
fn an_empty_script_makes_no_file(rt: HostRuntime) -> Result<(), Fail> {
    let disk = disk_after(rt.alloc(), b"")?;
    assert!(rt; disk.bytes(INDEX).is_none());
    assert!(rt; disk.bytes(SMALL).is_none());
    Ok(())
}

/// Words, an input and the puts that fail, where the call is refused, and the answer.
const REFUSED: [(&[&str], &[u8], &[u64], Status, &[u8]); 4] = [
    (&["bogus"], HELLO, &[], Status::Words, b"refused words\n"),
    (
        &["replay", "replay"],
        HELLO,
        &[],
        Status::Words,
        b"refused words\n",
    ),
    (
        &["replay"],
        b"client 0\npublish 1 text a\n",
        &[],
        Status::Script,
        b"refused script\n",
    ),
    (&["bogus"], HELLO, &[0], Status::Words, b""),
];

/// Whether a call with these words and this input, in which these puts fail, answers so.
fn refuses(
    alloc: Global,
    words: &[&str],
    script: &[u8],
    puts: &[u64],
    status: Status,
    text: &[u8],
) -> Result<bool, AllocError> {
    let row = replayed(alloc, words, script, &[], &[], puts)?;
    Ok(answers(&row, status, text))
}

#[test]
fn what_is_refused_has_its_status(rt: HostRuntime) -> Result<(), Fail> {
    for (words, script, puts, status, text) in REFUSED {
        assert!(rt; refuses(rt.alloc(), words, script, puts, status, text)?);
    }
    Ok(())
}

/// Which read, device call and put fail, and the answer. Each line is one put.
const FAULTS: [(&[u64], &[u64], &[u64], Status, &[u8]); 8] = [
    (&[0], &[], &[], Status::InputFault, b"fault input\n"),
    (
        &[],
        &[13],
        &[],
        Status::DiskFault,
        b"session 0\nc0 published 0\nfault disk\n",
    ),
    (
        &[],
        &[14],
        &[],
        Status::DiskFault,
        b"session 0\nc0 published 0\nfault disk\n",
    ),
    (&[], &[], &[0], Status::OutputFault, b""),
    (&[], &[], &[1], Status::OutputFault, b"session 0\n"),
    (
        &[],
        &[],
        &[2],
        Status::OutputFault,
        b"session 0\nc0 published 0\n",
    ),
    (
        &[],
        &[],
        &[3],
        Status::OutputFault,
        b"session 0\nc0 published 0\nc0 got 0 q0 5 text hello\n",
    ),
    (
        &[],
        &[],
        &[4],
        Status::OutputFault,
        b"session 0\nc0 published 0\nc0 got 0 q0 5 text hello\nc0 confirmed 0\n",
    ),
];

/// Whether a call in which these fail answers so.
fn fails(
    alloc: Global,
    reads: &[u64],
    calls: &[u64],
    puts: &[u64],
    status: Status,
    text: &[u8],
) -> Result<bool, AllocError> {
    let row = replayed(alloc, &["replay"], HELLO, reads, calls, puts)?;
    Ok(answers(&row, status, text))
}

#[test]
fn each_fault_has_its_status(rt: HostRuntime) -> Result<(), Fail> {
    for (reads, calls, puts, status, text) in FAULTS {
        assert!(rt; fails(rt.alloc(), reads, calls, puts, status, text)?);
    }
    Ok(())
}

/// A place of the small store or of the index, and what stands there.
const STANDING: [(Name, usize, &[u8]); 5] = [
    (SMALL, 128, b"\x00\x00\x00\x05hello\xff"),
    (INDEX, 0, b"CQGATE01\x01\x01\x00\x00\x00\x00\x00\x00\x01"),
    (INDEX, 32, b"\x00\x00\x00\x00\x00\x00\x00\x80"),
    (INDEX, 64, b"\x00\x00\x00\x00\x00\x00\x00\xa0"),
    (
        INDEX,
        128,
        b"\x01\x01\x00\x00\x00\x00\x00\x05\x00\x00\x00\x00\x00\x00\x00\x00\x00\x00\x00\x00\x00\x00\x00\x01\x00\x00\x00\x00\x00\x00\x00\x80",
    ),
];

/// Whether these bytes stand at a place of a file.
fn stands(disk: &MemDisk, name: Name, at: usize, bytes: &[u8]) -> bool {
    disk.bytes(name)
        .and_then(|file| file.get(at..))
        .is_some_and(|rest| rest.starts_with(bytes))
}

#[test]
fn a_message_stands_in_two_files(rt: HostRuntime) -> Result<(), Fail> {
    let disk = disk_after(rt.alloc(), HELLO)?;
    for (name, at, bytes) in STANDING {
        assert!(rt; stands(&disk, name, at, bytes), "at {at}");
    }
    Ok(())
}

/// A script, how many device calls were made, the first of them by the opening, and the lengths of the small store and of
/// the index.
const COMMITS: [(&[u8], (u64, usize, usize)); 4] = [
    (
        b"client 0\npublish 0 text a\npublish 0 text bc\npublish 0 text d\nschedule c0 t0 c0 t0 c0 t0 w\n",
        (17, 147, 224),
    ),
    (
        b"client 0\npublish 0 text a\npublish 0 text bc\nschedule w c0 t0 w c0 t0 w\n",
        (27, 141, 192),
    ),
    (
        b"client 0\npublish 0 text a\nget 0\nschedule w\n",
        (18, 134, 160),
    ),
    (
        b"client 0\npublish 0 text a\nget 0\nschedule c0 t0 w c0 t0 w\n",
        (18, 134, 160),
    ),
];

/// The length of a file, 0 where it isn't there.
fn len_of(disk: &MemDisk, name: Name) -> usize {
    disk.bytes(name).map_or(0, |file| file.len())
}

/// How many device calls were made, and the lengths of the small store and of the index.
fn sizes(disk: &MemDisk) -> (u64, usize, usize) {
    (disk.moment(), len_of(disk, SMALL), len_of(disk, INDEX))
}

/// Whether a script is served by so many device calls, and leaves files of these lengths.
fn makes(alloc: Global, script: &[u8], expected: (u64, usize, usize)) -> Result<bool, AllocError> {
    let row = served(alloc, script)?;
    Ok(row.status == Status::Ok && sizes(&row.disk) == expected)
}

#[test]
fn a_commit_is_one_append_to_each_file(rt: HostRuntime) -> Result<(), Fail> {
    for (script, expected) in COMMITS {
        assert!(rt; makes(rt.alloc(), script, expected)?);
    }
    Ok(())
}

/// Whether a script is served in one session, with these states after its words.
fn has_states(alloc: Global, script: &[u8], expected: &[After]) -> Result<bool, AllocError> {
    let row = served(alloc, script)?;
    match row.sessions.as_slice() {
        [session] => Ok(session.after.as_slice() == expected),
        _ => Ok(false),
    }
}

/// A state of so many entries, at this moment of the disk.
fn after(entries: u64, moment: u64) -> After {
    After { entries, moment }
}

#[test]
fn the_state_after_each_word_is_kept(rt: HostRuntime) -> Result<(), Fail> {
    // The opening, which lists the files; a publish; its confirm; a get, which reads the small store.
    let expected = [
        after(1, 1),
        after(2, 1),
        after(3, 17),
        after(3, 17),
        after(4, 18),
    ];
    assert!(rt; has_states(rt.alloc(), HELLO, &expected)?);
    Ok(())
}

/// The texts one after another.
fn joined(alloc: Global, texts: &[&str]) -> Result<Vec<u8>, AllocError> {
    let mut bytes = Vec::new(alloc);
    for text in texts {
        bytes.extend_from_slice(text.as_bytes())?;
    }
    Ok(bytes)
}

/// The script of a client that publishes a message and gets one, before its schedule.
const CLIENT: &str = "client 0\npublish 0 text hello\nget 0\nschedule ";

const CONFIRMED: &[u8] =
    b"session 0\nc0 published 0\nc0 confirmed 0\nsession 1\nopened q0 1\nc0 got 0 q0 5 text hello\nok\n";

const WRITTEN: &[u8] =
    b"session 0\nc0 published 0\nsession 1\nopened q0 1\nc0 got 0 q0 5 text hello\nok\n";

const AGAIN: &[u8] =
    b"session 0\nsession 1\nc0 published 0\nc0 got 0 q0 5 text hello\nc0 confirmed 0\nok\n";

const LOST: &[u8] = b"session 0\nc0 published 0\nsession 1\nc0 empty q0\nok\n";

/// The schedule, the text, and the byte that selects the index's slot in the end. In the fourth row both requests were
/// handed in and none was answered. In the last two only the last sync of the index is missing.
const CRASHES: [(&str, &[u8], Option<u8>); 6] = [
    ("c0 t0 w !0 c0 t0", CONFIRMED, Some(1)),
    ("c0 t0 w !1 c0 t0", CONFIRMED, Some(1)),
    ("c0 t0 !1 c0 t0", LOST, None),
    ("c0 c0 !0", AGAIN, Some(1)),
    ("c0 t0 !57/15:w c0 t0", WRITTEN, Some(55)),
    ("c0 t0 !2/15:w c0 t0", LOST, Some(0)),
];

/// The call of the client with this schedule.
fn scheduled(alloc: Global, schedule: &str) -> Result<Row, AllocError> {
    let script = joined(alloc, &[CLIENT, schedule])?;
    served(alloc, &script)
}

/// The byte that selects the index's slot.
fn selector(disk: &MemDisk) -> Option<u8> {
    disk.bytes(INDEX)?.get(16).copied()
}

/// Whether this schedule is served with this text, and leaves an index with this selector.
fn goes(
    alloc: Global,
    schedule: &str,
    text: &[u8],
    selected: Option<u8>,
) -> Result<bool, AllocError> {
    let row = scheduled(alloc, schedule)?;
    Ok(answers(&row, Status::Ok, text) && selector(&row.disk) == selected)
}

#[test]
fn a_crash_begins_the_next_session(rt: HostRuntime) -> Result<(), Fail> {
    for (schedule, text, selected) in CRASHES {
        assert!(rt; goes(rt.alloc(), schedule, text, selected)?, "{schedule}");
    }
    Ok(())
}

/// Images that a crash leaves.
const IMAGES: [&str; 10] = ["0", "1", "2", "3", "57", "257", "258", "259", "260", "261"];

/// After how many calls the disk stops before the 16 calls of the commit are made.
const EARLY: [&str; 16] = [
    "0", "1", "2", "3", "4", "5", "6", "7", "8", "9", "10", "11", "12", "13", "14", "15",
];

/// The call in which the commit stops after so many device calls, and the crash leaves the image of this number.
fn stopped(alloc: Global, image: &str, calls: &str) -> Result<Row, AllocError> {
    let script = joined(alloc, &[CLIENT, "c0 t0 !", image, "/", calls, ":w c0 t0"])?;
    served(alloc, &script)
}

/// Whether the text is one of these two, where the commit stops so.
fn is_either(
    alloc: Global,
    image: &str,
    calls: &str,
    one: &[u8],
    other: &[u8],
) -> Result<bool, AllocError> {
    let row = stopped(alloc, image, calls)?;
    Ok(row.sink.taken() == one || row.sink.taken() == other)
}

/// Whether the message or none stands in this image after each early stop.
fn leaves_it_or_none(alloc: Global, image: &str) -> Result<bool, AllocError> {
    for calls in EARLY {
        if !is_either(alloc, image, calls, WRITTEN, LOST)? {
            return Ok(false);
        }
    }
    Ok(true)
}

/// Whether the message is confirmed, and stands in this image, once all the commit's calls were made.
fn confirms(alloc: Global, image: &str) -> Result<bool, AllocError> {
    let last = is_either(alloc, image, "16", CONFIRMED, CONFIRMED)?;
    let none = is_either(alloc, image, "17", CONFIRMED, CONFIRMED)?;
    Ok(last && none)
}

#[test]
fn a_stop_at_each_call_leaves_the_message_or_none(rt: HostRuntime) -> Result<(), Fail> {
    // Where all 16 calls were made the message is confirmed, and stands in whatever the crash leaves.
    let alloc = rt.alloc();
    for image in IMAGES {
        let is_kept = leaves_it_or_none(alloc, image)? && confirms(alloc, image)?;
        assert!(rt; is_kept, "image {image}");
    }
    Ok(())
}

/// Whether the names are those of the index and the small store. Then a folder with these names has no other file.
fn are_both(names: &[Name]) -> bool
    ensures { (files : Name → Option File) → IsTrue result → NamesAre files names.now → HasNoOther files }
{
    if names.len() != 2 {
        return false;
    }
    is_file(names[0], Kind::Index) && is_file(names[1], Kind::Small)
}

/// Whether the name is that of queue 0's file of this kind with number 0.
fn is_file(name: Name, kind: Kind) -> bool
    ensures { IsTrue result → name ≡ record { kind = kind; queue = 0; number = 0 } }
{
    name.kind == kind && name.queue == 0 && name.number == 0
}

/// Whether the journal is that of an opening alone, which found no message.
fn begins_empty(entries: &[Entry]) -> bool {
    let [entry] = entries else {
        return false;
    };
    match &entry.event {
        Event::Opened { lines } => lines.line(0).is_none(),
        _ => false,
    }
}

/// Whether a folder whose files are the index and the small store opens, with no message.
fn opens_empty(alloc: Global, mut disk: MemDisk) -> Result<bool, AllocError> {
    let Ok(names) = disk.list(alloc) else {
        return Ok(false);
    };
    if !are_both(&names) {
        return Ok(false);
    }
    let Some(config) = Config::new(1, 4096, 4096, 16_777_216, 1) else {
        return Ok(false);
    };
    let Ok(node) = Node::open(alloc, disk, config, PlainInbox::new(alloc, 1)?) else {
        return Ok(false);
    };
    Ok(begins_empty(node.journal().entries()))
}

/// Whether the disk fails where its call with this number does, and the same folder then opens with no message.
fn leaves_none(alloc: Global, call: u64) -> Result<bool, AllocError> {
    let row = replayed(alloc, &["replay"], HELLO, &[], &[call], &[])?;
    Ok(row.status == Status::DiskFault && opens_empty(alloc, row.disk)?)
}

#[test]
fn a_failed_sync_leaves_no_message(rt: HostRuntime) -> Result<(), Fail> {
    // After the one call of the opening, the fifth sync of the commit is its 14th call.
    assert!(rt; leaves_none(rt.alloc(), 14)?);
    Ok(())
}
