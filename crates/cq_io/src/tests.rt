// Sources, sinks and a folder in memory, with ample memory and with planned faults.
use crate::{Folders, InputFault, MemFolders, MemSink, MemSource, OutputFault, Sink, Source};
use cq_disk::Disk;
use cq_memdisk::MemDisk;
use std::alloc::Global;
use std::test::Fail;

#[test]
fn a_source_is_read_to_its_end(rt: HostRuntime) -> Result<(), Fail> {
    let alloc = rt.alloc();
    let mut source = MemSource::new(vec![in alloc; 1, 2, 3]?, vec![in alloc; 1]?);
    let mut piece = [0; 2];
    assert_eq!(rt; source.read(&mut piece), Ok(2));
    assert_eq!(rt; piece, [1, 2]);
    assert!(rt; source.read(&mut piece).is_err());
    assert_eq!(rt; source.faults(), 1);
    assert_eq!(rt; source.read(&mut piece), Ok(1));
    assert_eq!(rt; piece[0], 3);
    assert_eq!(rt; source.read(&mut piece), Ok(0));
    Ok(())
}

#[test]
fn a_sink_takes_what_is_put(rt: HostRuntime) -> Result<(), Fail> {
    let alloc = rt.alloc();
    let mut sink = MemSink::new(alloc, vec![in alloc; 1]?);
    assert!(rt; sink.put(b"one\n").is_ok());
    assert!(rt; sink.put(b"two\n").is_err());
    assert!(rt; sink.put(b"three\n").is_ok());
    assert_eq!(rt; sink.taken(), b"one\nthree\n".as_slice());
    assert_eq!(rt; sink.lengths(), [4, 6].as_slice());
    assert_eq!(rt; sink.faults(), 1);
    assert_eq!(rt; sink.refused(), 0);
    Ok(())
}

/// Opens a folder, lists it and hands its disk back, through the bound. What becomes of it, in a word.
fn used<F: Folders>(alloc: Global, folders: &mut F, path: &str) -> &'static str {
    let Ok(mut disk) = folders.open_folder(alloc, path) else {
        return "refused";
    };
    let listed = disk.list(alloc).is_ok();
    folders.close_folder(path, disk);
    if listed { "listed" } else { "failed" }
}

#[test]
fn a_folder_in_memory_is_opened_once(rt: HostRuntime) -> Result<(), Fail> {
    let alloc = rt.alloc();
    // (moments at which its disk fails, what becomes of the path "f", faults of disks after it)
    let rows: [(&[u64], &str, u64); 2] = [(&[1], "listed", 0), (&[0], "failed", 1)];
    for (fails, becomes, disk_faults) in rows {
        let path = String::from_str(alloc, "f")?;
        let mut folders = MemFolders::new(path, MemDisk::new(alloc, fails.to_vec(alloc)?));
        assert!(rt; folders.disk("f").is_some() && folders.disk("g").is_none());
        assert_eq!(rt; used(alloc, &mut folders, "g"), "refused");
        assert_eq!(rt; folders.faults(), 1);
        assert_eq!(rt; used(alloc, &mut folders, "f"), becomes);
        assert_eq!(rt; folders.disk_faults(), disk_faults);
        assert_eq!(rt; used(alloc, &mut folders, "f"), "refused");
        assert_eq!(rt; folders.faults(), 2);
        assert!(rt; folders.disk("f").is_some());
    }
    Ok(())
}

#[test]
fn faults_are_told_in_words(rt: HostRuntime) -> Result<(), Fail> {
    let alloc = rt.alloc();
    assert_eq!(rt;
        format!(in alloc; "{InputFault}, {OutputFault}")?.as_str(),
        "the input failed, the output failed"
    );
    Ok(())
}
