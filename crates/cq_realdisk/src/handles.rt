// A small table of open files.
ghost use Rattle.std.specs.Prelude.{◌≡◌, ◌<◌, ◌≤◌, OnOk, IsTrue, vec_len};

use cq_disk::Name;
use std::alloc::{AllocError, Global};
use std::fs::File;
use std::io;

/// How many files are open at most.
const MOST: usize = 64;

/// An open file.
#[derive(Drop)]
struct Handle {
    name: Name,
    file: File,
    /// Whether it was changed since it was last synced.
    changed: bool,
}

/// The files that are open, at most 64, the one that was asked for last at the end. The first one gives way.
#[derive(Drop)]
pub(crate) struct Handles {
    list: Vec<Handle>,

    ghost few: { vec_len list ≤ 64 },
}

impl Handles {
    /// No open files.
    pub(crate) fn new(alloc: Global) -> Result<Handles, AllocError> {
        Ok(Handles {
            list: Vec::with_capacity(alloc, MOST)?,
        })
    }

    /// Asks for the file of this name, and answers whether it is open.
    pub(crate) fn ask(&mut self, name: Name) -> bool
        ensures { IsTrue result → 0 < vec_len self.new.list }
    {
        let Some(at) = self.list.iter().position(|handle| handle.name == name) else {
            return false;
        };
        self.list[at..].rotate_left(1);
        true
    }

    /// Keeps an open file. Where the table is full another one is closed, which is synced first if it was changed.
    pub(crate) fn keep(&mut self, name: Name, file: File) -> io::Result<()>
        ensures { OnOk result (0 < vec_len self.new.list) }
    {
        if self.list.len() >= MOST {
            if self.list[0].changed {
                self.list[0].file.sync_data()?;
            }
            self.list.remove(0);
        }
        self.list.push(Handle {
            name,
            file,
            changed: false,
        })?;
        Ok(())
    }

    /// Closes the file of this name, if it is open.
    pub(crate) fn forget(&mut self, name: Name) {
        if self.ask(name) {
            self.list.pop();
        }
    }

    /// The file that was asked for last, to be read.
    pub(crate) fn file(&self) -> &File
        requires { 0 < vec_len self.now.list }
    {
        &self.list[self.list.len() - 1].file
    }

    /// The file that was asked for last, to be changed.
    pub(crate) fn change(&mut self) -> &File
        requires { 0 < vec_len self.old.list }
    {
        self.mark(true);
        self.file()
    }

    /// Makes sure of the bytes and the length of the file that was asked for last.
    pub(crate) fn sync(&mut self) -> io::Result<()>
        requires { 0 < vec_len self.old.list }
    {
        self.file().sync_data()?;
        self.mark(false);
        Ok(())
    }

    /// Whether the file that was asked for last waits for a sync.
    fn mark(&mut self, changed: bool)
        requires { 0 < vec_len self.old.list }
        ensures { vec_len self.new.list ≡ vec_len self.old.list }
    {
        let last = self.list.len() - 1;
        self.list[last].changed = changed;
    }
}
