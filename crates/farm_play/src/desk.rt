//! What a farm is asked and answers. These functions have no clause, so that a player's proof
//! doesn't carry a keeper's clauses from one step to the next.
use crate::script::{Deed, Step};
use crate::text::{first_word, shown};
use farm_core::Farm;
use farm_keep::{KeepFault, Keeper};
use farm_report::{boards_text, queue_text, reservations_text, zone_of};
use farm_serve::{DeskFault, ImportEnd, Input, Output, converse, import};
use sqlite::{Alter, Connection};
use std::alloc::{AllocError, Global};

/// A farm, by its keeper.
pub struct Desk<S: Alter> {
    keeper: Keeper<S>,
}

// It is written out, so that nothing here proves again how each part of a keeper is dropped.
impl<S: Alter + Drop> Drop for Desk<S> {
    fn drop(self) {
        let Desk { keeper } = self;
        drop(keeper.into_connection());
    }
}

impl<S: Alter + Drop> Desk<S> {
    /// The empty farm, whose tables are made in a store.
    pub fn fresh(alloc: Global, conn: Connection<S>) -> Option<Desk<S>> {
        if !conn.is_autocommit() {
            return None;
        }
        match Keeper::fresh(alloc, conn) {
            Ok(keeper) => Some(Desk { keeper }),
            Err(_) => None,
        }
    }

    /// The farm whose tables are in a store.
    pub fn adopt(alloc: Global, conn: Connection<S>) -> Result<Desk<S>, KeepFault> {
        if !conn.is_autocommit() {
            return Err(KeepFault::Store);
        }
        match Keeper::adopt(alloc, conn) {
            Ok(keeper) => Ok(Desk { keeper }),
            Err(unkept) => Err(unkept.fault()),
        }
    }

    /// The connection to the store of a farm that ends.
    pub fn into_connection(self) -> Connection<S> {
        let Desk { keeper } = self;
        keeper.into_connection()
    }

    /// The store of a farm that ends.
    pub fn into_store(self) -> S {
        self.into_connection().into_store()
    }

    /// Whether no fault has closed the keeper.
    pub fn is_open(&self) -> bool {
        self.keeper.farm().is_some()
    }

    /// The farm in words, all that it holds among them.
    pub fn in_words(&self, alloc: Global) -> Result<String, AllocError> {
        let farm = self.keeper.farm();
        format!(in alloc; "{farm:?}")
    }

    /// What a step that asks gives.
    pub fn does(&mut self, alloc: Global, step: &Step) -> Result<Vec<u8>, AllocError> {
        match step.deed {
            Deed::Ask | Deed::Raw => asked(alloc, &mut self.keeper, step),
            Deed::Import => imported(alloc, &mut self.keeper, step),
            _ => looked(alloc, self.keeper.farm(), step),
        }
    }
}

/// Converses once.
fn converse_once<R: Input, W: Output, S: Alter>(
    alloc: Global,
    keeper: &mut Keeper<S>,
    reader: &mut R,
    writer: &mut W,
    now: u64,
) -> Result<u16, DeskFault> {
    converse(alloc, keeper, reader, writer, now)
}

/// With what an answer begins that has this status, or ends that has this fault.
fn mark_of(alloc: Global, end: Result<u16, DeskFault>) -> Result<String, AllocError> {
    match end {
        Ok(status) => format!(in alloc; "HTTP/1.1 {status} "),
        Err(fault) => {
            let code = fault.code();
            format!(in alloc; "{{\"code\":{code},\"text\":\"{fault}\"}}")
        }
    }
}

/// Adds how a conversation ended, where its answer neither begins nor ends with that.
fn show_end(output: &mut Vec<u8>, mark: &[u8]) -> Result<(), AllocError> {
    if output.starts_with(mark) || output.ends_with(mark) {
        return Ok(());
    }
    output.extend_from_slice(b"\nended ")?;
    output.extend_from_slice(mark)
}

/// Writes the answer to a request; where it doesn't show how the conversation ended, that follows.
fn answer<S: Alter>(
    alloc: Global,
    keeper: &mut Keeper<S>,
    now: u64,
    mut request: &[u8],
    output: &mut Vec<u8>,
) -> Result<(), AllocError> {
    let end = converse_once(alloc, keeper, &mut request, output, now);
    let mark = mark_of(alloc, end)?;
    show_end(output, mark.as_bytes())
}

/// Adds the length of a body and the empty line.
fn push_length(alloc: Global, bytes: &mut Vec<u8>, length: usize) -> Result<(), AllocError> {
    let line = format!(in alloc; "content-length: {length}\r\n\r\n")?;
    bytes.extend_from_slice(line.as_bytes())
}

/// Adds the bytes of a step's request.
fn push_request(alloc: Global, bytes: &mut Vec<u8>, step: &Step) -> Result<(), AllocError> {
    bytes.extend_from_slice(step.head.as_slice())?;
    if matches!(step.deed, Deed::Ask) {
        push_length(alloc, bytes, step.body.len())?;
    }
    bytes.extend_from_slice(step.body.as_slice())
}

/// The bytes of a step's request.
fn request(alloc: Global, step: &Step) -> Result<Vec<u8>, AllocError> {
    let mut bytes = Vec::new(alloc);
    push_request(alloc, &mut bytes, step)?;
    Ok(bytes)
}

/// The answer to these bytes.
fn answer_to<S: Alter>(
    alloc: Global,
    keeper: &mut Keeper<S>,
    now: u64,
    request: &[u8],
) -> Result<Vec<u8>, AllocError> {
    let mut output = Vec::new(alloc);
    answer(alloc, keeper, now, request, &mut output)?;
    Ok(output)
}

/// The answer to a step's request.
fn asked<S: Alter>(
    alloc: Global,
    keeper: &mut Keeper<S>,
    step: &Step,
) -> Result<Vec<u8>, AllocError> {
    let bytes = request(alloc, step)?;
    answer_to(alloc, keeper, step.now, bytes.as_slice())
}

/// How an import went, in words.
fn import_words(alloc: Global, end: &ImportEnd) -> Result<String, AllocError> {
    if let Some(fault) = &end.fault {
        let code = fault.code();
        return format!(in alloc; "{code} {fault}\n");
    }
    if let Some((place, refusal)) = &end.stopped {
        let code = refusal.code;
        return format!(in alloc; "{code} {refusal} at {place}\n");
    }
    let (accepted, kept) = (end.accepted, end.kept);
    format!(in alloc; "accepted {accepted}, kept {kept}\n")
}

/// Imports a lab file; how that went.
fn imported<S: Alter>(
    alloc: Global,
    keeper: &mut Keeper<S>,
    step: &Step,
) -> Result<Vec<u8>, AllocError> {
    let end = import(alloc, keeper, step.body.as_slice(), step.now);
    let words = import_words(alloc, &end)?;
    Ok(words.into_bytes())
}

/// The report of that name, with moments so many minutes east of UTC.
fn report_of(alloc: Global, farm: &Farm, words: &str) -> Option<String> {
    let (name, east) = first_word(words);
    let zone = zone_of(east.parse::<i64>().ok()?)?;
    match name {
        "queue" => queue_text(alloc, farm).ok(),
        "boards" => boards_text(alloc, farm, zone).ok(),
        "reservations" => reservations_text(alloc, farm, zone).ok(),
        _ => None,
    }
}

/// What a step that looks at a farm gives.
fn look(alloc: Global, farm: &Farm, step: &Step) -> Result<String, AllocError> {
    if matches!(step.deed, Deed::Count) {
        let count = farm.status().count;
        return format!(in alloc; "{count}\n");
    }
    match report_of(alloc, farm, shown(step.head.as_slice())) {
        Some(text) => Ok(text),
        None => String::from_str(alloc, "no report\n"),
    }
}

/// The same where the farm is open.
fn looked(alloc: Global, farm: Option<&Farm>, step: &Step) -> Result<Vec<u8>, AllocError> {
    match farm {
        Some(farm) => Ok(look(alloc, farm, step)?.into_bytes()),
        None => Vec::from_slice(alloc, b"closed\n"),
    }
}

/// One statement on a store, and how many rows it changed; None where it is refused.
pub fn executed<S: Alter + Drop>(
    alloc: Global,
    mut conn: Connection<S>,
    statement: &str,
) -> Option<(Connection<S>, String)> {
    let rows = conn.execute(statement, &[]).ok()?;
    let text = format!(in alloc; "{rows}\n").ok()?;
    Some((conn, text))
}
