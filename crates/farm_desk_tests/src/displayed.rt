//! What refusals and faults display, their numbers and their statuses.
use farm_desk::{DeskFault, print_fault};
use farm_jobfile::{FileFault, FileKind, Reason};
use farm_keep::KeepFault;
use farm_types::{Refusal, WordFault};
use std::alloc::{AllocError, Global};
use std::test::Fail;

/// The number, the HTTP status and the text of each; status 0 where it is never answered over HTTP.
const TEXTS: [(u16, u16, &str); 36] = [
    (1, 503, "no memory"),
    (2, 400, "bad moment"),
    (3, 403, "forbidden"),
    (4, 409, "full"),
    (5, 400, "bad name"),
    (6, 400, "bad tag"),
    (7, 400, "bad count"),
    (10, 404, "no such type"),
    (11, 409, "type exists"),
    (12, 404, "no such board"),
    (13, 409, "board exists"),
    (14, 409, "board is held"),
    (15, 409, "board is retired"),
    (20, 404, "no such job"),
    (21, 409, "wrong job state"),
    (22, 409, "no such boards"),
    (23, 400, "bad priority"),
    (30, 404, "no such reservation"),
    (31, 409, "reservation expired"),
    (32, 409, "wrong reservation state"),
    (40, 409, "key reused"),
    (41, 400, "bad key"),
    (50, 400, "bad request"),
    (51, 413, "too large"),
    (52, 404, "no such route"),
    (53, 405, "wrong method"),
    (54, 501, "bad coding"),
    (60, 503, "store fault"),
    (61, 503, "closed"),
    (62, 0, "bad store"),
    (63, 0, "old schema"),
    (64, 0, "new schema"),
    (70, 400, "bad job file"),
    (71, 0, "bad lab file"),
    (80, 0, "read fault"),
    (81, 0, "write fault"),
];

fn shown(alloc: Global, refusal: Refusal) -> Result<String, AllocError> {
    format!(in alloc; "{refusal}")
}

fn word_shown(alloc: Global, fault: WordFault) -> Result<String, AllocError> {
    format!(in alloc; "{fault}")
}

/// Whether a refusal has this text, by itself and as a word's fault, and this status.
fn is_reported(alloc: Global, code: u16, status: u16, text: &str) -> Result<bool, AllocError> {
    let refusal = Refusal { code };
    let (own, word) = (
        shown(alloc, refusal)?,
        word_shown(alloc, WordFault::Refused(refusal))?,
    );
    Ok(own.as_str() == text && word.as_str() == text && refusal.status().unwrap_or(0) == status)
}

#[test]
fn texts_of_all_codes(rt: HostRuntime) -> Result<(), Fail> {
    for (code, status, text) in &TEXTS {
        assert!(rt; is_reported(rt.alloc(), *code, *status, text)?, "{code}");
    }
    assert!(rt; is_reported(rt.alloc(), 99, 0, "")?);
    let no_memory = word_shown(rt.alloc(), WordFault::NoMemory)?;
    assert_eq!(rt; no_memory.as_str(), "no memory");
    Ok(())
}

/// The keeper's faults by number.
const KEEP_FAULTS: [(KeepFault, u16); 6] = [
    (KeepFault::NoMemory, 1),
    (KeepFault::Store, 60),
    (KeepFault::Closed, 61),
    (KeepFault::BadStore, 62),
    (KeepFault::OldSchema, 63),
    (KeepFault::NewSchema, 64),
];

fn keep_shown(alloc: Global, fault: KeepFault) -> Result<String, AllocError> {
    format!(in alloc; "{fault}")
}

#[test]
fn faults_read_as_in_the_table(rt: HostRuntime) -> Result<(), Fail> {
    for (fault, code) in &KEEP_FAULTS {
        let refusal = Refusal { code: *code };
        assert_eq!(rt; fault.code(), *code);
        assert_eq!(rt; keep_shown(rt.alloc(), *fault)?.as_str(), refusal.text());
    }
    Ok(())
}

/// What is reported of a fault, and the exit status.
fn reported(alloc: Global, fault: DeskFault) -> (u8, Vec<u8>) {
    let mut line = Vec::new(alloc);
    let status = print_fault(&mut line, fault);
    (status, line)
}

/// Each fault with its exit status and its line.
const FAULTS: [(DeskFault, u8, &str); 13] = [
    (DeskFault::NoMemory, 5, "farm: 1 no memory\n"),
    (DeskFault::Read, 4, "farm: 80 read fault\n"),
    (DeskFault::Write, 4, "farm: 81 write fault\n"),
    (
        DeskFault::Keep(KeepFault::NoMemory),
        5,
        "farm: 1 no memory\n",
    ),
    (
        DeskFault::Keep(KeepFault::Store),
        4,
        "farm: 60 store fault\n",
    ),
    (DeskFault::Keep(KeepFault::Closed), 4, "farm: 61 closed\n"),
    (
        DeskFault::Keep(KeepFault::BadStore),
        4,
        "farm: 62 bad store\n",
    ),
    (
        DeskFault::Keep(KeepFault::OldSchema),
        4,
        "farm: 63 old schema\n",
    ),
    (
        DeskFault::Keep(KeepFault::NewSchema),
        4,
        "farm: 64 new schema\n",
    ),
    (
        DeskFault::File(FileFault::NoMemory),
        5,
        "farm: 1 no memory\n",
    ),
    (
        DeskFault::File(FileFault::Word(Refusal { code: 5 })),
        3,
        "farm: 5 bad name\n",
    ),
    (
        DeskFault::File(FileFault::Bad {
            kind: FileKind::JobFile,
            reason: Reason::Both,
        }),
        3,
        "farm: 70 bad job file\n",
    ),
    (
        DeskFault::File(FileFault::Bad {
            kind: FileKind::LabFile,
            reason: Reason::Missing,
        }),
        3,
        "farm: 71 bad lab file\n",
    ),
];

#[test]
fn lines_of_all_faults(rt: HostRuntime) {
    for (fault, status, line) in &FAULTS {
        let (ended, written) = reported(rt.alloc(), *fault);
        assert!(rt; written.as_slice() == line.as_bytes());
        assert_eq!(rt; ended, *status);
    }
}
