// The table of the shared store.
ghost use Rattle.std.specs.Prelude.{◌≡◌, ◌≢◌, ℕ, ◌+◌, ◌^◌, ◌<◌, ◌≤◌, None, Some, IfOk, OnOk, OnErr, IsPermutation};
ghost use Rattle.std.specs.Ordering.{nat_cmp};
ghost use Rattle.std.specs.List.Sorted.{IsNonDecreasingBy};
ghost use Rattle.std.specs.FinMap as map;
ghost use Rattle.cq_block.specs.declared.layout.Block.{Block as SeenBlock};
ghost use Rattle.cq_table.specs.declared.Place.{Place as SeenPlace};
ghost use Rattle.cq_table.specs.Records.{in_file, live_bytes, blocks_of};
ghost use Rattle.cq_table.specs.Located.{content_of};

use crate::Place;
use crate::files::{FileRecords, list_in, live_in, put_in, take_from};
use cq_block::Block;
use cq_map::NumberMap;
use std::alloc::{AllocError, Global};
use std::marker::Model;

/// The place of each record of the shared store by its message's id, and for each file the bytes of its content and of
/// its records in the table. A contract sees the places and the noted contents.
#[derive(Drop)]
pub struct Table {
    alloc: Global,
    by_id: NumberMap<Place>,
    by_file: NumberMap<FileRecords>,
    noted: NumberMap<u64>,
}

impl Model for Table {
    ghost use Rattle.cq_table.specs.Located.{Located, located_code, IsByFile};

    ghost Value = { Located };

    ghost coded = { located_code };

    ghost view = { λ t. record { places = t.by_id; contents = t.noted } };

    ghost invariant = { λ t. IsByFile t.by_id t.by_file };
}

impl Table {
    /// No record and no file. It takes no memory.
    pub fn new(alloc: Global) -> Table
        ensures { result ≡ record { places = map.empty; contents = map.empty } }
    {
        Table {
            alloc,
            by_id: NumberMap::new(alloc),
            by_file: NumberMap::new(alloc),
            noted: NumberMap::new(alloc),
        }
    }

    /// Where a message's record stands. `None` exactly where the id isn't there.
    pub fn get(&self, id: u128) -> Option<Place>
        ensures { result ≡ map.get self.now.places id }
    {
        self.by_id.get(id).copied()
    }

    /// Sets where a message's record stands, in place of where it stood. Memory is wanted only where the id isn't there
    /// in the same file; nothing changes then.
    pub fn set(&mut self, id: u128, place: Place) -> Result<(), AllocError>
        requires short { place.len ≤ 1048576 }
        requires small { live_bytes (map.insert self.old.places id place) place.file < 2 ^ 63 }
        ensures ok { OnOk result (self.new ≡ record self.old { places = map.insert self.old.places id place }) }
        ensures err { OnErr result (self.new ≡ self.old) }
        ensures elsewhere { OnErr result ((p : SeenPlace) → map.get self.old.places id ≡ Some p → p.file ≢ place.file) }
    {
        let old = self.get(id);
        put_in(&mut self.by_file, self.alloc, id, place)?;
        if let Err(error) = self.by_id.insert(id, place) {
            take_from(&mut self.by_file, self.alloc, place.file, id);
            return Err(error);
        }
        if let Some(old) = old {
            if old.file != place.file {
                take_from(&mut self.by_file, self.alloc, old.file, id);
            }
        }
        Ok(())
    }

    /// Takes a message's record out of the table, and answers where it stood. `None` exactly where the id isn't there.
    pub fn take(&mut self, id: u128) -> Option<Place>
        ensures place { result ≡ map.get self.old.places id }
        ensures rest { self.new ≡ record self.old { places = map.remove self.old.places id } }
    {
        let place = self.by_id.remove(id)?;
        take_from(&mut self.by_file, self.alloc, place.file, id);
        Some(place)
    }

    /// The sum of the whole lengths of a file's records in the table.
    pub fn live(&self, file: u64) -> u64
        ensures { result ≡ live_bytes self.now.places file }
    {
        live_in(&self.by_file, file)
    }

    /// The bytes of a file's content that were noted, 0 where none were.
    pub fn content(&self, file: u64) -> u64
        ensures { result ≡ content_of self.now.contents file }
    {
        self.noted.get(u128::from(file)).copied().unwrap_or(0)
    }

    /// Notes the bytes of a file's content. Memory is wanted only where none were noted of it; nothing changes then.
    pub fn note(&mut self, file: u64, content: u64) -> Result<(), AllocError>
        ensures ok { OnOk result (self.new ≡ record self.old { contents = map.insert self.old.contents file content }) }
        ensures err { OnErr result (self.new ≡ self.old) }
        ensures absent { OnErr result (map.get self.old.contents file ≡ None) }
    {
        self.noted.insert(u128::from(file), content)
    }

    /// Forgets a file's content.
    pub fn forget(&mut self, file: u64)
        requires { live_bytes self.old.places file ≡ 0 }
        ensures { self.new ≡ record self.old { contents = map.remove self.old.contents file } }
    {
        self.noted.remove(u128::from(file));
        self.by_file.remove(u128::from(file));
    }

    /// The records of a file in the table, by rising place.
    pub fn records(&self, file: u64) -> Result<Vec<Block>, AllocError>
        ensures all { IfOk result (λ list. IsPermutation (blocks_of (in_file self.now.places file)) list.items) }
        ensures rising { IfOk result (λ list. IsNonDecreasingBy (λ (b : SeenBlock). b.at) list.items) }
    {
        list_in(&self.by_file, self.alloc, file)
    }
}
