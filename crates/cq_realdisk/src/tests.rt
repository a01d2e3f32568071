// Folders of the operating system, under the system's temporary folder.
use crate::RealFolders;
use crate::disk::RealDisk;
use crate::names::name_of;
use cq_disk::{Disk, Kind, Name};
use cq_io::Folders;
use cq_memdisk::{Altered, MemDisk};
use std::alloc::Global;
use std::test::Fail;
use std::thread::{Threads, join};
use std::{env, fs, io, process};

fn name(kind: Kind, queue: u32, number: u64) -> Name {
    Name {
        kind,
        queue,
        number,
    }
}

const INDEX: Name = Name {
    kind: Kind::Index,
    queue: 0,
    number: 0,
};

const SECOND: Name = Name {
    kind: Kind::Index,
    queue: 255,
    number: 10,
};

const SHARED: Name = Name {
    kind: Kind::Shared,
    queue: 0,
    number: 7,
};
/// A name that no file can have.
const NO_FILE: Name = Name {
    kind: Kind::Shared,
    queue: 3,
    number: 7,
};

/// The path of a folder for one test of this process, which isn't there.
fn fresh_path(rt: &HostRuntime, test: &str) -> io::Result<String> {
    let folder = env::temp_dir(rt)?;
    let number = process::id(rt.process());
    let path = format!(in rt.alloc(); "{}/cq_realdisk_{number}_{test}", folder.as_str())?;
    fs::remove_dir_all(rt, path.as_str()).ok();
    Ok(path)
}

/// A call of a disk.
#[derive(Clone, Copy)]
enum Call {
    List,
    Len(Name),
    Read(Name, u64),
    Write(Name, u64, &'static [u8]),
    Cut(Name, u64),
    Sync(Name),
    Create(Name),
    Remove(Name),
}

/// What a call answers.
#[derive(Clone, Copy, Debug, PartialEq, Eq)]
enum Answer {
    Fault,
    Done,
    Listed(usize, Option<Name>),
    Length(Option<u64>),
    Bytes([u8; 4]),
}

fn made<D: Disk>(alloc: Global, disk: &mut D, call: Call) -> Answer
    requires { D.tells → ⊥ }
{
    let done = match call {
        Call::List => {
            return match disk.list(alloc) {
                Ok(names) => Answer::Listed(names.len(), names.last().copied()),
                Err(_) => Answer::Fault,
            };
        }
        Call::Len(name) => {
            return match disk.len(name) {
                Ok(len) => Answer::Length(len),
                Err(_) => Answer::Fault,
            };
        }
        Call::Read(name, at) => {
            let mut piece = [0; 4];
            return match disk.read(name, at, &mut piece) {
                Ok(()) => Answer::Bytes(piece),
                Err(_) => Answer::Fault,
            };
        }
        Call::Write(name, at, bytes) => disk.write(name, at, bytes),
        Call::Cut(name, len) => disk.cut(name, len),
        Call::Sync(name) => disk.sync(name),
        Call::Create(name) => disk.create(name),
        Call::Remove(name) => disk.remove(name),
    };
    if done.is_ok() {
        Answer::Done
    } else {
        Answer::Fault
    }
}

const CALLS: [Call; 26] = [
    Call::List,
    Call::Create(INDEX),
    Call::Create(INDEX),
    Call::Create(SHARED),
    Call::Create(NO_FILE),
    Call::Create(SECOND),
    Call::List,
    Call::Write(INDEX, 0, b"hello world"),
    Call::Sync(INDEX),
    Call::Read(INDEX, 6),
    Call::Read(INDEX, 8),
    Call::Write(INDEX, 9, b"king"),
    Call::Write(SHARED, 0, b"shared"),
    Call::Write(SHARED, 1 << 62, b"far"),
    Call::Len(INDEX),
    Call::Cut(INDEX, 12),
    Call::Read(INDEX, 8),
    Call::Len(INDEX),
    Call::Len(NO_FILE),
    Call::Sync(NO_FILE),
    Call::Cut(SHARED, 0),
    Call::Len(SHARED),
    Call::Remove(SECOND),
    Call::Remove(SECOND),
    Call::Len(SECOND),
    Call::List,
];

#[test]
fn calls_answer_as_in_memory(rt: HostRuntime) -> Result<(), Fail> {
    let alloc = rt.alloc();
    let path = fresh_path(&rt, "calls")?;
    let mut real = RealDisk::open(rt.clone()?, path.clone()?)?;
    let mut other = Altered::new(MemDisk::new(alloc, Vec::new(alloc)));
    for call in CALLS {
        let expected = made(alloc, &mut other, call);
        assert_eq!(rt; made(alloc, &mut real, call), expected);
    }
    assert_eq!(rt;
        (real.moment(), real.faults()),
        (other.moment(), other.faults())
    );
    let file = format!(in alloc; "{path}/q0-0.qi")?;
    assert_eq!(rt;
        fs::read(&rt, file.as_str())?.as_slice(),
        b"hello workin".as_slice()
    );
    fs::remove_dir_all(&rt, path.as_str())?;
    Ok(())
}

#[test]
fn texts_are_read_as_names(rt: HostRuntime) -> Result<(), Fail> {
    let alloc = rt.alloc();
    let rows = [
        ("q0-0.qi", Some(INDEX)),
        ("q255-10.qi", Some(SECOND)),
        (
            "q1-9223372036854775807.qs",
            Some(name(Kind::Small, 1, (1 << 63) - 1)),
        ),
        ("7.rdq", Some(SHARED)),
        ("0.rdq", Some(name(Kind::Shared, 0, 0))),
        ("", None),
        (".rdq", None),
        ("q256-0.qi", None),
        ("q0-9223372036854775808.qi", None),
        ("9223372036854775808.rdq", None),
        ("07.rdq", None),
        ("+7.rdq", None),
        ("q00-0.qi", None),
        ("q0-00.qi", None),
        ("q0-+1.qi", None),
        ("q-1.qi", None),
        ("q0-.qi", None),
        ("q0.qi", None),
        ("0-0.qi", None),
        ("q0-0-0.qi", None),
        ("Q0-0.qi", None),
        ("q0-0.QI", None),
        ("q0-0.rdq", None),
        ("q0-0.qi ", None),
        ("q0-0.qi.qi", None),
    ];
    for (text, expected) in rows {
        assert_eq!(rt; name_of(alloc, text)?, expected);
    }
    Ok(())
}

#[test]
fn other_names_are_passed_over(rt: HostRuntime) -> Result<(), Fail> {
    let alloc = rt.alloc();
    let path = fresh_path(&rt, "others")?;
    let mut disk = RealDisk::open(rt.clone()?, path.clone()?)?;
    let other = format!(in alloc; "{path}/q00-1.qi")?;
    fs::write(&rt, other.as_str(), "kept")?;
    assert_eq!(rt; made(alloc, &mut disk, Call::Create(SHARED)), Answer::Done);
    assert_eq!(rt;
        made(alloc, &mut disk, Call::List),
        Answer::Listed(1, Some(SHARED))
    );
    assert_eq!(rt;
        fs::read(&rt, other.as_str())?.as_slice(),
        b"kept".as_slice()
    );
    fs::remove_dir_all(&rt, path.as_str())?;
    Ok(())
}

/// More files than are kept open: each reads as it was written.
#[test]
fn files_give_way(rt: HostRuntime) -> Result<(), Fail> {
    let alloc = rt.alloc();
    let path = fresh_path(&rt, "way")?;
    let mut disk = RealDisk::open(rt.clone()?, path.clone()?)?;
    for number in 0..70 {
        let file = name(Kind::Small, 9, number);
        assert_eq!(rt; made(alloc, &mut disk, Call::Create(file)), Answer::Done);
        assert!(rt; disk.write(file, 0, &[number as u8; 4]).is_ok());
    }
    for number in 0..70 {
        let file = name(Kind::Small, 9, number);
        assert_eq!(rt;
            made(alloc, &mut disk, Call::Read(file, 0)),
            Answer::Bytes([number as u8; 4])
        );
    }
    assert_eq!(rt; disk.faults(), 0);
    fs::remove_dir_all(&rt, path.as_str())?;
    Ok(())
}

/// A value that was in another thread.
fn through_a_thread<T: Send + Drop, R: Threads>(rt: &R, value: T) -> T {
    let (value, ()) = join(rt, move || value, || ());
    value
}

#[test]
fn a_folder_is_open_once(rt: HostRuntime) -> Result<(), Fail> {
    let alloc = rt.alloc();
    let path = fresh_path(&rt, "once")?;
    let mut folders = RealFolders::new(rt.clone()?);
    let Ok(disk) = folders.open_folder(alloc, path.as_str()) else {
        return Err(Fail::from("no folder"));
    };
    assert!(rt; folders.open_folder(alloc, path.as_str()).is_err());
    assert_eq!(rt; folders.faults(), 1);
    let mut disk = through_a_thread(&rt, disk);
    assert!(rt; disk.create(INDEX).is_ok());
    assert!(rt; disk.sync(SECOND).is_err());
    folders.close_folder(path.as_str(), disk);
    assert_eq!(rt; folders.disk_faults(), 1);
    let Ok(mut disk) = folders.open_folder(alloc, path.as_str()) else {
        return Err(Fail::from("no folder"));
    };
    assert_eq!(rt; disk.len(INDEX), Ok(Some(0)));
    folders.close_folder(path.as_str(), disk);
    assert_eq!(rt; folders.disk_faults(), 1);
    let deep = format!(in alloc; "{path}/absent/deep")?;
    assert!(rt; folders.open_folder(alloc, deep.as_str()).is_err());
    assert_eq!(rt; folders.faults(), 2);
    fs::remove_dir_all(&rt, path.as_str())?;
    Ok(())
}
