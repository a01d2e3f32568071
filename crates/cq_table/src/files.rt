// The records of each file.
ghost use Rattle.std.specs.Prelude.{◌≡◌, ℕ, ◌+◌, ◌^◌, ◌<◌, ◌≤◌, None, IsSome, IfOk, OnOk, OnErr, IsPermutation, map as list_map};
ghost use Rattle.std.specs.Ordering.{nat_cmp};
ghost use Rattle.cq_block.specs.declared.layout.Block.{Block as SeenBlock};
ghost use Rattle.std.specs.List.Sorted.{IsNonDecreasingBy};
ghost use Rattle.std.specs.FinMap as map;
ghost use Rattle.cq_map.specs.Totals.{total};
ghost use Rattle.cq_table.specs.Records.{whole_len, len_at, block_of, blocks_of, records_at, ChangesFile};

use crate::Place;
use cq_block::Block;
use cq_map::NumberMap;
use std::alloc::{AllocError, Global};
use std::marker::Model;

/// The records of a file, and the sum of their whole lengths. A contract sees their places by message id.
#[derive(Drop)]
pub(crate) struct FileRecords {
    records: NumberMap<Place>,
    live: u64,
}

impl Model for FileRecords {
    ghost use Rattle.std.specs.Prelude.{◌≡◌};
    ghost use Rattle.std.specs.FinMap as map;
    ghost use Rattle.std.specs.Coded.{coded_ℕ};
    ghost use Rattle.cq_map.specs.Totals.{total};
    ghost use Rattle.cq_table.specs.Records.{Places, place_code, whole_len};

    ghost Value = { Places };

    ghost coded = { map.code coded_ℕ place_code };

    ghost view = { λ f. f.records };

    ghost invariant = { λ f. f.live ≡ total whole_len f.records };
}

/// The whole length of a record.
fn whole_len(place: &Place) -> u64
    ensures { result ≡ whole_len place.now }
{
    u64::from(place.len) + 25
}

/// Records as blocks.
fn blocks(alloc: Global, pairs: &[(u128, Place)]) -> Result<Vec<Block>, AllocError>
    ensures { IfOk result (λ list. list.items ≡ list_map block_of pairs.now) }
{
    pairs
        .iter()
        .map(|(id, place)| Block {
            at: place.at,
            len: whole_len(place),
            id: *id,
        })
        .collect(alloc)
}

impl FileRecords {
    /// No record. It takes no memory.
    fn new(alloc: Global) -> FileRecords
        ensures { result ≡ map.empty }
    {
        FileRecords {
            records: NumberMap::new(alloc),
            live: 0,
        }
    }

    /// The sum of the whole lengths.
    fn live(&self) -> u64
        ensures { result ≡ total whole_len self.now }
    {
        self.live
    }

    /// The whole length of a message's record, 0 where there is none.
    fn len_of(&self, id: u128) -> u64
        ensures { result ≡ len_at self.now id }
    {
        match self.records.get(id) {
            Some(place) => whole_len(place),
            None => 0,
        }
    }

    /// Puts a record, in place of one with its id. Memory is wanted only where there is none; nothing changes then.
    fn put(&mut self, id: u128, place: Place) -> Result<(), AllocError>
        requires { total whole_len (map.insert self.old id place) < 2 ^ 64 }
        ensures ok { OnOk result (self.new ≡ map.insert self.old id place) }
        ensures err { OnErr result (self.new ≡ self.old) }
        ensures absent { OnErr result (map.get self.old id ≡ None) }
    {
        let freed = self.len_of(id);
        self.records.insert(id, place)?;
        self.live = self.live - freed + whole_len(&place);
        Ok(())
    }

    /// Takes a message's record out, if it is there.
    fn take(&mut self, id: u128)
        ensures { self.new ≡ map.remove self.old id }
    {
        let freed = self.len_of(id);
        self.records.remove(id);
        self.live -= freed;
    }

    /// The records as blocks, by rising place.
    fn list(&self, alloc: Global) -> Result<Vec<Block>, AllocError>
        ensures all { IfOk result (λ list. IsPermutation (blocks_of self.now) list.items) }
        ensures rising { IfOk result (λ list. IsNonDecreasingBy (λ (b : SeenBlock). b.at) list.items) }
    {
        let pairs = self.records.pairs(alloc)?;
        let mut list = blocks(alloc, &pairs)?;
        list.sort_by_key(|block| block.at)?;
        Ok(list)
    }
}

/// The live bytes of a file.
pub(crate) fn live_in(files: &NumberMap<FileRecords>, file: u64) -> u64
    ensures { result ≡ total whole_len (records_at files.now file) }
{
    match files.get(u128::from(file)) {
        Some(records) => records.live(),
        None => 0,
    }
}

/// The records of a file as blocks, by rising place.
pub(crate) fn list_in(
    files: &NumberMap<FileRecords>,
    alloc: Global,
    file: u64,
) -> Result<Vec<Block>, AllocError>
    ensures all { IfOk result (λ list. IsPermutation (blocks_of (records_at files.now file)) list.items) }
    ensures rising { IfOk result (λ list. IsNonDecreasingBy (λ (b : SeenBlock). b.at) list.items) }
{
    match files.get(u128::from(file)) {
        Some(records) => records.list(alloc),
        None => Ok(Vec::new(alloc)),
    }
}

/// Makes sure that a file has a list of records. No file's records change.
fn open(files: &mut NumberMap<FileRecords>, alloc: Global, file: u128) -> Result<(), AllocError>
    ensures there { OnOk result (IsSome (map.get files.new file)) }
    ensures absent { OnErr result (records_at files.old file ≡ map.empty) }
    ensures same { (f : ℕ) → records_at files.new f ≡ records_at files.old f }
{
    if files.get(file).is_some() {
        return Ok(());
    }
    files.insert(file, FileRecords::new(alloc))
}

/// Puts a record into its file, in place of one with its id. Memory is wanted only where there is none there; no file's
/// records change then.
pub(crate) fn put_in(
    files: &mut NumberMap<FileRecords>,
    alloc: Global,
    id: u128,
    place: Place,
) -> Result<(), AllocError>
    requires { total whole_len (map.insert (records_at files.old place.file) id place) < 2 ^ 64 }
    ensures ok { OnOk result
        (ChangesFile files.old files.new place.file (map.insert (records_at files.old place.file) id place)) }
    ensures err { OnErr result ((f : ℕ) → records_at files.new f ≡ records_at files.old f) }
    ensures absent { OnErr result (map.get (records_at files.old place.file) id ≡ None) }
{
    let file = u128::from(place.file);
    open(files, alloc, file)?;
    let mut records = files.replace(file, FileRecords::new(alloc));
    let put = records.put(id, place);
    files.replace(file, records);
    put
}

/// Takes a message's record out of a file, if it is there.
pub(crate) fn take_from(files: &mut NumberMap<FileRecords>, alloc: Global, file: u64, id: u128)
    ensures { ChangesFile files.old files.new file (map.remove (records_at files.old file) id) }
{
    let file = u128::from(file);
    if files.get(file).is_none() {
        return;
    }
    let mut records = files.replace(file, FileRecords::new(alloc));
    records.take(id);
    files.replace(file, records);
}
