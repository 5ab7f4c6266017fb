//! Importing a lab file's text: its calls are done, up to the first refusal or fault.
ghost use Rattle.std.specs.Prelude.{◌≡◌, ◌≤◌};
ghost use Rattle.sqlite.specs.Held.{state};
ghost use Rattle.sqlite_trees.specs.View.{doubt};
ghost use Rattle.farm_serve.specs.Names.{DoesCalls, IsImport};

use crate::fault::DeskFault;
use farm_jobfile::lab_of;
use farm_keep::Keeper;
use farm_types::{Answer, Call, Refusal};
use sqlite::Alter;
use std::alloc::Global;

/// How far an import went.
#[derive(Debug, Default, Drop)]
pub struct ImportEnd {
    /// The number of commands that were accepted.
    pub accepted: usize,
    /// The number of those that had been accepted before: they were answered by kept replies.
    pub kept: usize,
    /// The place of the command that was refused, counted from 1, and its refusal.
    pub stopped: Option<(usize, Refusal)>,
    /// The fault that ended it.
    pub fault: Option<DeskFault>,
}

/// Adds the types and the boards of a lab file at a moment, in seconds since 1970-01-01 00:00:00
/// UTC, up to the first refusal or fault; the commands before it stay done.
///
/// A file that is bad, or that there is no memory to read, is the fault `File`, and nothing is
/// done. Costs one reading of the file and one transaction for each type and board that is new.
pub fn import<S: Alter>(alloc: Global, keeper: &mut Keeper<S>, text: &[u8], now: u64) -> ImportEnd
    ensures import { IsImport S.Store keeper.old keeper.new text.now now result }
    ensures clean { doubt (state S.Store keeper.old.conn).is_clean ≤ doubt
        (state S.Store keeper.new.conn).is_clean }
{
    match lab_of(alloc, text, now) {
        Ok(calls) => do_calls(keeper, calls.as_slice()),
        Err(fault) => ImportEnd {
            fault: Some(DeskFault::File(fault)),
            ..ImportEnd::default()
        },
    }
}

/// Does one call after another, up to the first refusal or fault.
fn do_calls<S: Alter>(keeper: &mut Keeper<S>, calls: &[Call]) -> ImportEnd
    ensures does { DoesCalls S.Store keeper.old keeper.new calls.now result }
    ensures clean { doubt (state S.Store keeper.old.conn).is_clean ≤ doubt
        (state S.Store keeper.new.conn).is_clean }
{
    let mut end = ImportEnd::default();
    for call in calls {
        match keeper.act(call) {
            Ok(answer) => match &answer {
                Answer::Did(_, _) => end.accepted += 1,
                Answer::Kept(_) => end.kept += 1,
                Answer::Refused(refusal) => {
                    end.stopped = Some((end.accepted + end.kept + 1, *refusal));
                    return end;
                }
            },
            Err(fault) => {
                end.fault = Some(DeskFault::Keep(fault));
                return end;
            }
        }
    }
    end
}
