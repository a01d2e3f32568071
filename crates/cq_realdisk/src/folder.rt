// A folder of the operating system: each call makes one call of the system, but for the opening of a file that isn't open.
ghost use Rattle.std.specs.Prelude.{◌<◌, ◌≤◌, ◌+◌, ◌^◌, length, vec_len, All, IsTrue, IfOk, IfSome, OnOk};
ghost use Rattle.cq_disk.specs.Names.{IsInRange};

use crate::handles::Handles;
use crate::names::{name_of, path_of};
use cq_disk::Name;
use std::alloc::Global;
use std::fs;
use std::fs::{File, OpenOptions};
use std::io::{self, ErrorKind};
use std::os::unix::fs::FileExt;
use std::rt::Files;

/// No file is longer than this, in bytes.
const LONGEST: u64 = 1 << 62;

/// An open folder.
#[derive(Drop)]
pub(crate) struct Folder<R: Files<File = File> + AllocGlobal + Clone + Drop> {
    rt: R,
    path: String,
    folder: File,
    handles: Handles,
}

fn too_long() -> io::Error {
    io::Error::from(ErrorKind::FileTooLarge)
}

impl<R: Files<File = File> + AllocGlobal + Clone + Drop> Folder<R> {
    /// Opens a folder, which is made where it is absent. The folder and the names in it last then, also where an earlier
    /// process was stopped before it had made sure of them.
    pub(crate) fn open(rt: R, path: String) -> io::Result<Folder<R>> {
        match rt.create_dir(path.as_str()) {
            Ok(()) => {}
            Err(error) if error.kind() == ErrorKind::AlreadyExists => {}
            Err(error) => return Err(error),
        }
        let folder = File::open(&rt, path.as_str())?;
        folder.sync_all()?;
        let parent = format!(in rt.alloc(); "{path}/..")?;
        File::open(&rt, parent.as_str())?.sync_all()?;
        let handles = Handles::new(rt.alloc())?;
        Ok(Folder {
            rt,
            path,
            folder,
            handles,
        })
    }

    /// Asks for a file, which is opened if it isn't open. Answers whether there is one of this name.
    fn find(&mut self, name: Name) -> io::Result<bool>
        ensures { IfOk result (λ there. IsTrue there → 0 < vec_len self.new.handles.list) }
    {
        if self.handles.ask(name) {
            return Ok(true);
        }
        if !name.is_in_range() {
            return Ok(false);
        }
        let path = path_of(self.rt.alloc(), self.path.as_str(), name)?;
        match OpenOptions::new()
            .read(true)
            .write(true)
            .open(&self.rt, path.as_str())
        {
            Ok(file) => {
                self.handles.keep(name, file)?;
                Ok(true)
            }
            Err(error) if error.kind() == ErrorKind::NotFound => Ok(false),
            Err(error) => Err(error),
        }
    }

    /// Asks for a file that is there.
    fn ask(&mut self, name: Name) -> io::Result<()>
        ensures { OnOk result (0 < vec_len self.new.handles.list) }
    {
        if self.find(name)? {
            Ok(())
        } else {
            Err(io::Error::from(ErrorKind::NotFound))
        }
    }

    /// The path of a file that is to be made or removed.
    fn path_in_range(&self, name: Name) -> io::Result<String> {
        if !name.is_in_range() {
            return Err(io::Error::from(ErrorKind::InvalidInput));
        }
        Ok(path_of(self.rt.alloc(), self.path.as_str(), name)?)
    }

    /// The names of the files, in order. Other names are passed over.
    pub(crate) fn list(&mut self, alloc: Global) -> io::Result<Vec<Name>>
        ensures { IfOk result (λ names. All IsInRange names.items) }
    {
        let mut names = Vec::new(alloc);
        for entry in fs::read_dir(&self.rt, self.path.as_str())? {
            match entry {
                Ok(entry) => {
                    if let Some(name) = name_of(alloc, entry.file_name())? {
                        names.push(name)?;
                    }
                }
                // A name that is no text.
                Err(error) if error.kind() == ErrorKind::InvalidFilename => {}
                Err(error) => return Err(error),
            }
        }
        names.sort()?;
        Ok(names)
    }

    /// The length of a file, at most 2^62; None where it isn't there.
    pub(crate) fn len(&mut self, name: Name) -> io::Result<Option<u64>>
        ensures { IfOk result (λ len. IfSome len (λ n. n ≤ 2 ^ 62)) }
    {
        if !self.find(name)? {
            return Ok(None);
        }
        let len = self.handles.file().metadata()?.len();
        if len > LONGEST {
            return Err(too_long());
        }
        Ok(Some(len))
    }

    /// Fills the buffer from this place on.
    pub(crate) fn read(&mut self, name: Name, at: u64, into: &mut [u8]) -> io::Result<()> {
        self.ask(name)?;
        self.handles.file().read_exact_at(into, at)
    }

    /// Writes the bytes from this place on.
    pub(crate) fn write(&mut self, name: Name, at: u64, bytes: &[u8]) -> io::Result<()>
        ensures { OnOk result (at + length bytes.now ≤ 2 ^ 62) }
    {
        if at > LONGEST || bytes.len() as u64 > LONGEST - at {
            return Err(too_long());
        }
        self.ask(name)?;
        self.handles.change().write_all_at(bytes, at)
    }

    /// Cuts the file to this length.
    pub(crate) fn cut(&mut self, name: Name, len: u64) -> io::Result<()> {
        self.ask(name)?;
        self.handles.change().set_len(len)
    }

    /// Makes sure of the file's bytes and length.
    pub(crate) fn sync(&mut self, name: Name) -> io::Result<()> {
        self.ask(name)?;
        self.handles.sync()
    }

    /// Makes an empty file where none is, and makes sure of its name.
    pub(crate) fn create(&mut self, name: Name) -> io::Result<()> {
        let path = self.path_in_range(name)?;
        let file = OpenOptions::new()
            .read(true)
            .write(true)
            .create_new(true)
            .open(&self.rt, path.as_str())?;
        self.folder.sync_all()?;
        self.handles.keep(name, file)
    }

    /// Removes a file, and makes sure that it stays so.
    pub(crate) fn remove(&mut self, name: Name) -> io::Result<()> {
        let path = self.path_in_range(name)?;
        self.handles.forget(name);
        fs::remove_file(&self.rt, path.as_str())?;
        self.folder.sync_all()
    }
}
