// One client that is served by a node, step by step.
ghost use Rattle.std.specs.Prelude.{◌≡◌, ℕ, ◌<◌, ◌≤◌, ◌+◌, ◌++◌, ◌∷◌, [], None, true, false, length, OnOk, OnErr, IfSome, IsErrOf, reverse, vec_len, vec_capacity, Some, min, ◌-◌, ◌^◌};
ghost use Rattle.std.specs.List.{list_all};
ghost use Rattle.cq_disk.specs.Run.{RanOn};
ghost use Rattle.cq_inbox.specs.Requests.{publishes};
ghost use Rattle.cq_journal.specs.Asks.{asks};
ghost use Rattle.cq_node.specs.declared.outcome.NodeError.TheVariants.{Fault as node_fault};
ghost use Rattle.cq_node.specs.Turned.{IsIdle, HasDone};
ghost use Rattle.cq_script.specs.Scripts.{is_crash};
ghost use Rattle.cq_replay.specs.Done.{DoesWords, AreBy, reached};
ghost use Rattle.cq_replay.specs.Sessions.{plain_words, entries_after, EndsBy};
ghost use Rattle.cq_replay.specs.Running.{WordDid, IsFresh, demand, hands, stands};
ghost use Rattle.cq_node.specs.View.{clients_of, entries, requests, waiting, disk_of, moment_of, opened_of, IsRunning, SameQueue, SameStore, Turns, Writes};
ghost use Rattle.cq_node.specs.Waiting.{is_servable};
ghost use Rattle.cq_replay.specs.Going.{Moves, MovesBy, HasBegun, AreWords, HasDoneWords, FailsOnly, Goes, IsWritten, IsFinished};

use cq_inbox::Request;
use cq_journal::After;
use cq_memdisk::Crashable;
use cq_node::{Node, NodeError, Step, Turn};
use cq_script::{Halt, StepWord};
use std::collections::VecDeque;

/// A node, what its one client hasn't handed in yet, in order, and the state after each word that was done.
#[derive(Drop)]
pub(crate) struct Player<D: Crashable> {
    pub node: Node<D>,
    pub rest: VecDeque<Request>,
    pub after: Vec<After>,

    ghost servable: { list_all is_servable rest.items ≡ true },
    ghost few: { opened_of node + publishes (asks (entries node) 0) + publishes (requests node) + publishes rest.items ≤ 4096 },
    ghost one_client: { clients_of node ≡ 1 },
}

impl<D: Crashable> Player<D> {
    /// Serves the words of a schedule before its first crash, in which there is none, and what ends the session: where no crash
    /// does, all that is left is served. A fault that a stop brings about isn't answered.
    pub fn serve(&mut self, words: &[StepWord], end: Option<StepWord>) -> Result<(), NodeError>
        requires begun { HasBegun self.old.node self.old.after.items }
        requires words { AreWords words.now end }
        ensures moves { MovesBy self.old.node self.new.node self.old.rest.items self.new.rest.items }
        ensures done { HasDoneWords (length self.old.rest.items)
            (entries self.new.node) words.now self.new.after.items result }
        // Where a crash ends the session.
        ensures ends { OnOk result
            (IfSome end
            (λ w. EndsBy w
            (entries_after (length self.old.rest.items) (entries self.new.node) words.now self.new.after.items)
            (entries self.new.node))) }
        // Where none does.
        ensures finished { end ≡ None → OnOk result (IsFinished self.new.node self.new.rest.items) }
        ensures fails { FailsOnly D.Disk (disk_of self.old.node) (disk_of self.new.node) result }
        // The moments that were kept have passed.
        ensures by { AreBy (moment_of self.new.node) self.new.after.items }
    {
        let total = self.rest.len();
        self.run(words)?;
        match end {
            None => self.finish(total),
            Some(word) => match word {
                StepWord::Stop {
                    image: _,
                    calls,
                    step,
                } => self.stop(calls, step),
                _ => Ok(()),
            },
        }
    }

    /// Serves the words of a schedule, in which there is no crash.
    fn run(&mut self, words: &[StepWord]) -> Result<(), NodeError>
        requires open { IsRunning self.old.node }
        requires fresh { IsFresh (moment_of self.old.node) (entries self.old.node)
            (waiting self.old.node) self.old.after.items }
        requires plain { plain_words words.now ≡ words.now }
        ensures moves { Moves self.old.node self.new.node self.old.rest.items self.new.rest.items }
        ensures none_kept { OnOk result ((waiting self.new.node).kept ≡ false) }
        ensures done { DoesWords (length self.old.rest.items) (entries self.new.node) words.now self.new.after.items }
        ensures all_words { OnOk result (length self.new.after.items ≡ length words.now) }
        ensures stands { OnOk result
            (reached (length self.old.rest.items) (entries self.new.node) (reverse words.now)
            (reverse self.new.after.items) ≡ stands (entries self.new.node) (waiting self.new.node)
            (moment_of self.new.node)) }
        ensures goes { Goes self.old.node self.new.node result }
        ensures by { AreBy (moment_of self.new.node) self.new.after.items }
    {
        if self.after.reserve(words.len()).is_err() {
            return Err(NodeError::Memory);
        }
        for word in words {
            self.step(*word)?;
        }
        Ok(())
    }

    /// Makes the step of a stop, within which the disk may fail: after so many further device calls each one does. Only want of
    /// memory is answered.
    fn stop(&mut self, calls: u64, step: Halt) -> Result<(), NodeError>
        requires open { IsRunning self.old.node }
        requires none_kept { (waiting self.old.node).kept ≡ false }
        ensures moves { Moves self.old.node self.new.node self.old.rest.items self.new.rest.items }
        ensures same { (self.new.rest ≡ self.old.rest) × (self.new.after ≡ self.old.after)
            × ((opened_of self.new.node) ≡ (opened_of self.old.node)) }
        ensures fuse { D.fuse (disk_of self.new.node) ≡ Some (min (moment_of self.old.node + calls) (2 ^ 64 - 1)) }
        ensures ends { OnOk result
            ((image : ℕ)
            → EndsBy (StepWord.Stop image calls step) (length (entries self.old.node)) (entries self.new.node)) }
        ensures memory { OnErr result (result ≡ Err NodeError.Memory) }
        ensures ran { RanOn D.Disk (disk_of self.old.node) (disk_of self.new.node) ⊥ }
    {
        self.node.fuse(calls);
        let stopped = match step {
            Halt::Turn(_) => self.turn().map(|_| ()),
            Halt::Write => self.write().map(|_| ()),
        };
        match stopped {
            Err(NodeError::Memory) => Err(NodeError::Memory),
            _ => Ok(()),
        }
    }

    /// Does one word of the schedule, and records where the session stands then.
    fn step(&mut self, word: StepWord) -> Result<(), NodeError>
        requires plain { is_crash word ≡ false }
        requires open { IsRunning self.old.node }
        requires none_kept { (waiting self.old.node).kept ≡ false }
        requires room { vec_len self.old.after < vec_capacity self.old.after }
        ensures moves { Moves self.old.node self.new.node self.old.rest.items self.new.rest.items }
        ensures none_kept { OnOk result ((waiting self.new.node).kept ≡ false) }
        ensures capacity { vec_capacity self.new.after ≡ vec_capacity self.old.after }
        ensures after { OnErr result (self.new.after.items ≡ self.old.after.items) }
        ensures pushed { OnOk result
            (self.new.after.items ≡ self.old.after.items ++ record {
              entries = length
                  (entries self.new.node);
              moment = moment_of self.new.node;
            } ∷ []) }
        ensures did { OnOk result
            (WordDid (length (demand (entries self.old.node) (waiting self.old.node) self.old.rest.items)) word
            (entries self.old.node) (entries self.new.node) (waiting self.old.node) (waiting self.new.node)
            (moment_of self.old.node) (moment_of self.new.node)) }
        ensures goes { Goes self.old.node self.new.node result }
    {
        self.do_word(word)?;
        let after = After {
            entries: self.node.journal().entries().len() as u64,
            moment: self.node.moment(),
        };
        self.after.push_reserved(after);
        Ok(())
    }

    /// Does one word of the schedule.
    fn do_word(&mut self, word: StepWord) -> Result<(), NodeError>
        requires plain { is_crash word ≡ false }
        requires open { IsRunning self.old.node }
        requires none_kept { (waiting self.old.node).kept ≡ false }
        ensures moves { Moves self.old.node self.new.node self.old.rest.items self.new.rest.items }
        ensures none_kept { OnOk result ((waiting self.new.node).kept ≡ false) }
        ensures after { self.new.after ≡ self.old.after }
        ensures did { OnOk result
            (WordDid (length (demand (entries self.old.node) (waiting self.old.node) self.old.rest.items)) word
            (entries self.old.node) (entries self.new.node) (waiting self.old.node) (waiting self.new.node)
            (moment_of self.old.node) (moment_of self.new.node)) }
        ensures goes { Goes self.old.node self.new.node result }
    {
        match word {
            StepWord::Client(_) => {
                self.hand_in();
                Ok(())
            }
            StepWord::Turn(_) => {
                let _ = self.turn()?;
                Ok(())
            }
            StepWord::Write => {
                let _ = self.write()?;
                Ok(())
            }
            StepWord::Crash { image: _ } | StepWord::Stop { .. } => unreachable!(),
        }
    }

    /// Hands in the next request, where there is one and the lane isn't full.
    fn hand_in(&mut self)
        requires none_kept { (waiting self.old.node).kept ≡ false }
        ensures opened { (opened_of self.new.node) ≡ (opened_of self.old.node) }
        ensures store { SameStore self.old.node self.new.node }
        ensures core { SameQueue self.old.node self.new.node }
        ensures moved { (requests self.new.node) ++ self.new.rest.items ≡
            (requests self.old.node) ++ self.old.rest.items }
        ensures one { length (requests self.new.node) ≡ length (requests self.old.node) + hands
            (length self.old.rest.items) (length (requests self.old.node)) }
        ensures none_kept { (waiting self.new.node).kept ≡ false }
        ensures after { self.new.after ≡ self.old.after }
    {
        let Some(request) = self.rest.pop_front() else {
            return;
        };
        if let Err(back) = self.node.put(0, request) {
            self.rest.push_front_reserved(back);
        }
    }

    /// A turn of the client.
    fn turn(&mut self) -> Result<Turn, NodeError>
        requires open { IsRunning self.old.node }
        requires none_kept { (waiting self.old.node).kept ≡ false }
        ensures turned { Turns self.old.node self.new.node result }
        ensures rest { self.new.rest ≡ self.old.rest }
        ensures none_kept { OnOk result ((waiting self.new.node).kept ≡ false) }
        ensures after { self.new.after ≡ self.old.after }
        ensures goes { Goes self.old.node self.new.node result }
    {
        self.node.turn(0)
    }

    /// A step of the writer.
    fn write(&mut self) -> Result<Step, NodeError>
        requires open { IsRunning self.old.node }
        requires none_kept { (waiting self.old.node).kept ≡ false }
        ensures wrote { Writes self.old.node self.new.node result }
        ensures same { ((waiting self.new.node) ≡ (waiting self.old.node)) × (self.new.rest ≡ self.old.rest) }
        ensures idle { IsIdle result → IsWritten self.new.node }
        ensures calls { HasDone result → moment_of self.old.node < moment_of self.new.node }
        ensures after { self.new.after ≡ self.old.after }
        ensures goes { Goes self.old.node self.new.node result }
    {
        self.node.write_step()
    }

    /// Serves all that is left of so many requests, and writes until nothing is left to write.
    fn finish(&mut self, total: usize) -> Result<(), NodeError>
        requires open { IsRunning self.old.node }
        requires none_kept { (waiting self.old.node).kept ≡ false }
        requires total { length (demand (entries self.old.node) (waiting self.old.node) self.old.rest.items) ≡ total }
        ensures moves { Moves self.old.node self.new.node self.old.rest.items self.new.rest.items }
        ensures after { self.new.after ≡ self.old.after }
        ensures finished { OnOk result (IsFinished self.new.node self.new.rest.items) }
        ensures goes { Goes self.old.node self.new.node result }
    {
        let answered = self.node.replies(0).len();
        for _round in 0..total.saturating_sub(answered) {
            self.round()?;
        }
        self.write_all()
    }

    /// Answers one request that is left, and makes one write step.
    fn round(&mut self) -> Result<(), NodeError>
        requires open { IsRunning self.old.node }
        requires none_kept { (waiting self.old.node).kept ≡ false }
        requires left { 0 < length (requests self.old.node) + length self.old.rest.items }
        ensures moves { Moves self.old.node self.new.node self.old.rest.items self.new.rest.items }
        ensures none_kept { OnOk result ((waiting self.new.node).kept ≡ false) }
        ensures after { self.new.after ≡ self.old.after }
        ensures fewer { OnOk result
            (length (requests self.old.node) + length self.old.rest.items ≡ length
            (requests self.new.node) + length self.new.rest.items + 1) }
        ensures goes { Goes self.old.node self.new.node result }
    {
        self.answer_one()?;
        let _ = self.write()?;
        Ok(())
    }

    /// Answers one request that is left.
    fn answer_one(&mut self) -> Result<(), NodeError>
        requires open { IsRunning self.old.node }
        requires none_kept { (waiting self.old.node).kept ≡ false }
        requires left { 0 < length (requests self.old.node) + length self.old.rest.items }
        ensures moves { Moves self.old.node self.new.node self.old.rest.items self.new.rest.items }
        ensures none_kept { OnOk result ((waiting self.new.node).kept ≡ false) }
        ensures after { self.new.after ≡ self.old.after }
        ensures fewer { OnOk result
            (length (requests self.old.node) + length self.old.rest.items ≡ length
            (requests self.new.node) + length self.new.rest.items + 1) }
        ensures goes { Goes self.old.node self.new.node result }
    {
        match self.turn()? {
            Turn::Moved => Ok(()),
            Turn::Done => {
                self.hand_in();
                let _ = self.turn()?;
                Ok(())
            }
        }
    }

    /// Makes write steps until nothing is left to write.
    fn write_all(&mut self) -> Result<(), NodeError>
        requires open { IsRunning self.old.node }
        requires none_kept { (waiting self.old.node).kept ≡ false }
        ensures moves { Moves self.old.node self.new.node self.old.rest.items self.new.rest.items }
        ensures same { ((waiting self.new.node) ≡ (waiting self.old.node)) × (self.new.rest ≡ self.old.rest) }
        ensures written { OnOk result (IsWritten self.new.node) }
        ensures after { self.new.after ≡ self.old.after }
        ensures goes { Goes self.old.node self.new.node result }
    {
        loop {
            match self.write()? {
                Step::Did => {}
                Step::Idle => return Ok(()),
            }
        }
    }
}
