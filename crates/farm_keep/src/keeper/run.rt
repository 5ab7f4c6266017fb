//! One call after another.
ghost use Rattle.std.specs.Prelude.{◌≡◌, true, false, IfOk, IfErr, MatchResult, Some, None, []};
ghost use Rattle.std.specs.Prelude.{vec_len};
ghost use Rattle.std.specs.Result.{result_err};
ghost use Rattle.sqlite.specs.Held.{state};
ghost use Rattle.sqlite.specs.State.{HasCleanDisk};
ghost use Rattle.farm_types.specs.Sound.{IsSound};
ghost use Rattle.farm_keep.specs.Faults.{IsFindFault};
ghost use Rattle.farm_store.specs.Holds.{ReadsOnly};
ghost use Rattle.farm_keep.specs.Headline.{GivesNoKeeper, Resumes, Runs};
ghost use Rattle.farm_keep.specs.Found.{LooksForFarm};

use crate::fault::KeepFault;
use crate::keeper::{Keeper, Unkept};
use farm_types::{Answer, Call};
use sqlite::{Alter, Connection};
use std::alloc::Global;

/// How far a run over some calls went.
#[derive(Debug, Drop)]
pub struct RunEnd {
    /// How many calls were answered: the first so many.
    pub done: usize,
    /// Their answers, in order.
    pub answers: Vec<Answer>,
    /// The fault that ended the run; none where all calls were answered.
    pub fault: Option<KeepFault>,
}

impl<S: Alter> Keeper<S> {
    /// Adopts the farm whose tables the store holds, then runs: it gives a keeper where `adopt`
    /// gives one, and all that `run` says is true from there on. A fault of the run stands in its
    /// end; a fault of the adoption gives no keeper, and is the one that `adopt` would report.
    pub fn resume(
        alloc: Global,
        conn: Connection<S>,
        calls: &[Call],
    ) -> Result<(Keeper<S>, RunEnd), Unkept<S>>
        requires autocommit { conn.in_transaction ≡ false }
        ensures resumed { IfOk result (λ r. Resumes S.Store conn r.0 r.1 calls.now) }
        ensures fault { IfErr result (λ u. IsFindFault u.fault) }
        ensures denied { IfErr result (λ u. HasCleanDisk (state S.Store u.conn)
            → GivesNoKeeper (state S.Store conn) u.fault) }
        ensures version { MatchResult result
            (λ r. HasCleanDisk (state S.Store r.0.conn)
            → LooksForFarm None (state S.Store conn).now)
            (λ u. HasCleanDisk (state S.Store u.conn)
            → LooksForFarm (Some u.fault) (state S.Store conn).now) }
        ensures only { IfErr result (λ u. ReadsOnly (state S.Store conn) (state S.Store u.conn)) }
    {
        let mut keeper = Keeper::adopt(alloc, conn)?;
        let end = keeper.run(calls);
        Ok((keeper, end))
    }

    /// One call after another, up to the first fault. Room for all answers is made first: where
    /// there is no memory for it, nothing is done and the keeper is closed. Any other fault of an
    /// open keeper comes at a call whose answer is a change's, and closes it; a closed keeper does
    /// nothing, and says so where there is a call.
    pub fn run(&mut self, calls: &[Call]) -> RunEnd
        ensures { Runs S.Store self.old self.new result calls.now }
    {
        let mut answers = Vec::new(self.alloc);
        let fault = self.run_into(&mut answers, calls).err();
        RunEnd {
            done: answers.len(),
            answers,
            fault,
        }
    }

    /// `run`, whose answers are put behind one another.
    fn run_into(&mut self, answers: &mut Vec<Answer>, calls: &[Call]) -> Result<(), KeepFault>
        requires sound { self.old.is_open ≡ true → IsSound self.old.farm.farm }
        requires none { answers.old.items ≡ [] }
        ensures { Runs S.Store self.old self.new (record {
          done = vec_len answers.new;
          answers = answers.new;
          fault = result_err result;
        }) calls.now }
    {
        if answers.reserve_exact(calls.len()).is_err() {
            self.is_open = false;
            return Err(KeepFault::NoMemory);
        }
        for call in calls {
            answers.push_reserved(self.act(call)?);
        }
        Ok(())
    }
}
