// The bodies of a small store, read by windows of its content.
ghost use Rattle.std.specs.Prelude.{◌≡◌, ◌≤◌, ◌+◌, ◌^◌, Option, length, true, not, take, drop, ◌-◌, IfOk, IsErrOf, OnOk};
ghost use Rattle.cq_disk.specs.File.{File};
ghost use Rattle.cq_disk.specs.Files.{IsThere};
ghost use Rattle.cq_disk.specs.Run.{Ran, OnlyReads};
ghost use Rattle.cq_small.specs.Store.{name_of};
ghost use Rattle.cq_bulk.specs.declared.error.BodyError.TheVariants.{Fault as body_fault, Memory};

use crate::error::BodyError;
use crate::read::{fits, read_bytes};
use crate::record::body_in;
use cq_bytes::Body;
use cq_disk::{Disk, Kind, Name};
use cq_gate::HEADER_LEN;
use cq_small::SmallStore;
use std::alloc::Global;

/// How many bytes a window has, where the store goes so far.
const WINDOW: u64 = 131_072;

/// A reader of the bodies of one small store. It keeps a window of the store's content: where places rise, one read of
/// 128 KiB serves all records that lie in it.
#[derive(Drop)]
pub struct Bodies {
    start: u64,
    bytes: Vec<u8>,

    ghost low: { start ≤ 2 ^ 62 },
}

impl Bodies {
    ghost use Rattle.cq_bulk.specs.Bodies.{IsWindow, KnowsBoth, IsFound, Slides, Slid, has_record, range_of};

    /// A reader with an empty window. It takes no memory.
    pub fn new(alloc: Global) -> Bodies
        ensures { (slot : Option File) → IsWindow result slot }
    {
        Bodies {
            start: 0,
            bytes: Vec::new(alloc),
        }
    }

    /// Empties the window, for another store or for a file that has changed.
    pub fn clear(&mut self)
        ensures { (slot : Option File) → IsWindow self.new slot }
    {
        self.bytes.clear();
    }

    /// The body of the record at a place of a store of this queue, whose length is given: out of the window where the record
    /// lies in it, else by one read, from the place on, of 128 KiB, as far as the store goes, or of the record where it is
    /// longer. `None` exactly where no record of a body of this length stands there; where its range doesn't lie in the
    /// store, nothing is read. It takes its memory before the read.
    pub fn body<D: Disk>(
        &mut self,
        alloc: Global,
        disk: &mut D,
        queue: u32,
        store: &SmallStore,
        place: u64,
        len: u32,
    ) -> Result<Option<Body>, BodyError>
        requires given { (len ≤ 1048576) × ((name_of store.now).queue ≡ queue) }
        requires store { D.tells → KnowsBoth self.old store.now (D.files disk.old (name_of store.now)) }
        ensures body { IfOk result (λ body. IsFound D.Disk store.now disk.old place len body) }
        ensures window { D.tells → IsWindow self.new (D.files disk.old (name_of store.now)) }
        ensures slides { OnOk result (Slides D.Disk self.old self.new store.now place len disk.old disk.new) }
        ensures memory { IsErrOf result Memory → (self.new ≡ self.old) × (disk.new ≡ disk.old) }
        ensures reads { D.tells → OnlyReads D.Disk disk.old disk.new }
        ensures ran { Ran D.Disk disk.old disk.new (IsErrOf result body_fault) }
    {
        let reach = store.end().min(store.len());
        if !fits(HEADER_LEN, reach, place, len) {
            return Ok(None);
        }
        let room = Vec::with_capacity(alloc, len as usize)?;
        let name = Name {
            kind: Kind::Small,
            queue,
            number: store.number(),
        };
        self.slide(alloc, disk, name, reach, place, len)?;
        Ok(body_in(self.range(place, len), room))
    }

    /// Sees to it that the record of a body of this length, which lies in the file, lies in the window.
    fn slide<D: Disk>(
        &mut self,
        alloc: Global,
        disk: &mut D,
        name: Name,
        reach: u64,
        place: u64,
        len: u32,
    ) -> Result<(), BodyError>
        requires lies { (place + len + 5 ≤ reach) × (reach ≤ 2 ^ 62) }
        requires file { D.tells → IsThere (D.files disk.old name) (λ f. reach ≤ length f.reads) }
        requires window { D.tells → IsWindow self.old (D.files disk.old name) }
        ensures has { OnOk result (has_record self.new place len ≡ true) }
        ensures window { D.tells → IsWindow self.new (D.files disk.old name) }
        ensures slides { OnOk result
            (Slid D.Disk (not (has_record self.old place len)) self.old self.new reach place len disk.old disk.new) }
        ensures memory { IsErrOf result Memory → (self.new ≡ self.old) × (disk.new ≡ disk.old) }
        ensures reads { D.tells → OnlyReads D.Disk disk.old disk.new }
        ensures ran { Ran D.Disk disk.old disk.new (IsErrOf result body_fault) }
    {
        if self.has(place, len) {
            return Ok(());
        }
        let size = (reach - place).min(WINDOW.max(len as u64 + 5));
        let bytes = read_bytes(alloc, disk, name, place, size as usize)?;
        self.start = place;
        self.bytes = bytes;
        Ok(())
    }

    /// Whether the record of a body of this length at a place lies in the window.
    fn has(&self, place: u64, len: u32) -> bool
        ensures { result ≡ has_record self.now place len }
    {
        fits(self.start, self.start + self.bytes.len() as u64, place, len)
    }

    /// The bytes of the record of a body of this length, which lies in the window.
    fn range(&self, place: u64, len: u32) -> &[u8]
        requires { has_record self.now place len ≡ true }
        ensures { result.now ≡ range_of self.now place len }
    {
        let from = (place - self.start) as usize;
        &self.bytes[from..from + len as usize + 5]
    }
}
