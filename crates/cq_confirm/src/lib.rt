//! Which published messages aren't safe in each of their queues yet.
#![tactic(auto)]

ghost use Rattle.std.specs.Prelude.{◌≡◌, ◌<◌, ◌↔◌, None, Some, IsSome, is_some, OnOk, OnErr};
ghost use Rattle.std.specs.FinMap as map;
ghost use Rattle.cq_confirm.specs.Lacking.{count_of, passed, sure_of};

mod lack;

use cq_map::NumberMap;
pub use lack::{Lack, Sure};
use std::alloc::{AllocError, Global};
use std::marker::Model;

/// The messages that lack a queue. A contract sees a finite map from their ids to what each lacks.
#[derive(Drop)]
pub struct Lacks {
    lacks: NumberMap<Lack>,
}

impl Model for Lacks {
    ghost use Rattle.std.specs.Ordering.{nat_cmp};
    ghost use Rattle.std.specs.FinMap as map;
    ghost use Rattle.std.specs.Coded.{coded_ℕ};
    ghost use Rattle.cq_confirm.specs.declared.lack.Lack.{Lack};
    ghost use Rattle.cq_confirm.specs.Lacking.{EachLacks, lack_code};

    ghost Value = { map.FinMap nat_cmp Lack };

    ghost coded = { map.code coded_ℕ lack_code };

    ghost view = { λ l. l.lacks };

    ghost invariant = { λ l. EachLacks l.lacks };
}

impl Lacks {
    /// No message. It takes no memory.
    pub fn new(alloc: Global) -> Lacks
        ensures { result ≡ map.empty }
    {
        Lacks {
            lacks: NumberMap::new(alloc),
        }
    }

    /// Whether a message lacks a queue.
    pub fn is_lacking(&self, id: u128) -> bool
        ensures { result ≡ is_some (map.get self.now id) }
    {
        self.lacks.get(id).is_some()
    }

    /// A message, by the publish that it came from, lacks so many queues. Where memory runs out nothing has changed.
    pub fn add(&mut self, client: u32, number: u64, id: u128, queues: u32) -> Result<(), AllocError>
        requires fresh { map.get self.old id ≡ None }
        requires some { 0 < queues }
        ensures ok { OnOk result
            (self.new ≡ map.insert self.old id (record { client = client; number = number; queues = queues })) }
        ensures err { OnErr result (self.new ≡ self.old) }
    {
        let lack = Lack {
            client,
            number,
            queues,
        };
        self.lacks.insert(id, lack)
    }

    /// The message is safe in one queue more. Its publish is answered exactly where this was the last queue that it
    /// lacked; the message is then forgotten. It takes no memory.
    pub fn pass(&mut self, id: u128) -> Option<Sure>
        requires { IsSome (map.get self.old id) }
        ensures last { IsSome result ↔ (count_of (map.get self.old id) ≡ 1) }
        ensures sure { result ≡ sure_of (map.get self.old id) }
        ensures rest { self.new ≡ passed self.old id (map.get self.old id) }
    {
        match self.lacks.get(id).copied() {
            Some(lack) => {
                if lack.queues == 1 {
                    self.lacks.remove(id);
                    return Some(Sure {
                        client: lack.client,
                        number: lack.number,
                    });
                }
                let fewer = Lack {
                    queues: lack.queues - 1,
                    ..lack
                };
                // The id is there, so this wants no memory.
                let _ = self.lacks.insert(id, fewer);
                None
            }
            None => None,
        }
    }
}

#[cfg(test)]
mod tests;
