//! Scripted clients as two lists: those that wait, and room for those that were served.
ghost use Rattle.std.specs.Prelude.{◌+◌, ◌≤◌, length, vec_capacity};
ghost use Rattle.std.specs.Vec.Iter.{into_iter_items};

use super::{ScriptedClient, ServedClient};
use std::vec::IntoIter;

/// Clients whose bytes are known beforehand, with what the served ones were answered.
#[derive(Drop)]
pub struct ScriptedClients<'a> {
    /// Those that are to be served, in their order.
    pub(super) waiting: IntoIter<ScriptedClient<'a>>,
    /// Those that were, in their order; it has room for all.
    pub(super) served: Vec<ServedClient<'a>>,
    ghost room: { length (into_iter_items waiting) + length served.items ≤ vec_capacity served },
}
