//! Why job files and lab files are bad, and that want of memory is reported as such.
use farm_jobfile::{FileFault, Reason, job_of, lab_of};
use std::alloc::Global;
use std::test::Fail;

/// Why a job file is bad; none where it spells a command, or where one of its words is refused.
fn why_no_job(alloc: Global, text: &[u8]) -> Option<Reason> {
    match job_of(alloc, text) {
        Err(FileFault::Bad { reason, .. }) => Some(reason),
        _ => None,
    }
}

/// Why a lab file is bad.
fn why_no_lab(alloc: Global, text: &[u8]) -> Option<Reason> {
    match lab_of(alloc, text, 7) {
        Err(FileFault::Bad { reason, .. }) => Some(reason),
        _ => None,
    }
}

const BAD_JOBS: [(&[u8], Reason); 27] = [
    (b"device_type = \"bbb\"\n", Reason::Missing),
    (b"job_name = \"\"\npriority = true\n", Reason::Missing),
    (b"job_name = 1\n", Reason::WrongKind),
    (b"job_name = {}\n", Reason::WrongKind),
    (b"job_name = \"\xff\"\n", Reason::NotToml),
    (b"job_name boot\n", Reason::NotToml),
    (b"job_name = \"boot\"\n", Reason::Missing),
    (b"job_name = \"boot\"\ntags = []\n", Reason::Missing),
    (
        b"job_name = \"boot\"\ndevice_type = \"bbb\"\npriority = true\n",
        Reason::WrongKind,
    ),
    (b"job_name = \"boot\"\ndevice_type = 1\n", Reason::WrongKind),
    (
        b"job_name = \"boot\"\ndevice_type = \"bbb\"\ntags = \"a\"\n",
        Reason::WrongKind,
    ),
    (
        b"job_name = \"boot\"\ndevice_type = \"bbb\"\ntags = [\"a b\", 1]\n",
        Reason::WrongKind,
    ),
    (
        b"job_name = \"boot\"\ndevice_type = {}\n",
        Reason::WrongKind,
    ),
    (
        b"job_name = \"boot\"\ndevice_type = \"b\"\npriority = {}\n",
        Reason::WrongKind,
    ),
    (
        b"job_name = \"boot\"\ndevice_type = \"b\"\ntags = {}\n",
        Reason::WrongKind,
    ),
    (
        b"job_name = \"boot\"\ndevice_type = \"b\"\ntags = [{}]\n",
        Reason::WrongKind,
    ),
    (
        b"job_name = \"boot\"\ntags = []\n[roles.a]\ndevice_type = \"b\"\ncount = 1\n",
        Reason::Both,
    ),
    (b"job_name = \"boot\"\ntags = []\n[roles]\n", Reason::Both),
    (
        b"job_name = \"boot\"\ndevice_type = 1\n[roles]\n",
        Reason::Both,
    ),
    (b"job_name = \"boot\"\nroles = 1\n", Reason::WrongKind),
    (b"job_name = \"boot\"\nroles.a = 1\n", Reason::WrongKind),
    (
        b"job_name = \"boot\"\n[roles.a]\ncount = 1\n",
        Reason::Missing,
    ),
    (
        b"job_name = \"boot\"\n[roles.a]\ndevice_type = \"b\"\n",
        Reason::Missing,
    ),
    (
        b"job_name = \"boot\"\n[roles.a]\ndevice_type = \"b\"\ncount = \"1\"\n",
        Reason::WrongKind,
    ),
    (
        b"job_name = \"boot\"\n[roles.a]\ndevice_type = {}\ncount = 1\n",
        Reason::WrongKind,
    ),
    (
        b"job_name = \"boot\"\n[roles.a]\ndevice_type = \"b\"\ncount = {}\n",
        Reason::WrongKind,
    ),
    (
        b"job_name = \"boot\"\n[roles.a]\ndevice_type = \"b\"\ncount = 1\ntags = [{}]\n",
        Reason::WrongKind,
    ),
];

#[test]
fn bad_job_files(rt: HostRuntime) {
    for (text, reason) in &BAD_JOBS {
        assert_eq!(rt; why_no_job(rt.alloc(), text), Some(*reason), "{text:?}");
    }
}

/// Blanks up to the most bytes of a job file, and bytes above it.
#[test]
fn long_job_files(rt: HostRuntime) -> Result<(), Fail> {
    let alloc = rt.alloc();
    let blank = vec![in alloc; b' '; 65_536]?;
    assert_eq!(rt; why_no_job(alloc, blank.as_slice()), Some(Reason::Missing));
    let long = vec![in alloc; 255u8; 65_537]?;
    assert_eq!(rt; why_no_job(alloc, long.as_slice()), Some(Reason::TooLong));
    Ok(())
}

const BAD_LABS: [(&[u8], Reason); 13] = [
    (b"\xff", Reason::NotToml),
    (b"[types.a]\ncheck = \"hours\"\n", Reason::Missing),
    (
        b"[types.a]\ncheck = \"hours\"\nevery = 10001\n",
        Reason::WrongKind,
    ),
    (
        b"[types.a]\ncheck = \"days\"\nevery = 1\n",
        Reason::WrongKind,
    ),
    (b"types = []\n", Reason::WrongKind),
    (b"[types.a]\ncheck = {}\n", Reason::WrongKind),
    (
        b"[types.a]\ncheck = \"jobs\"\nevery = {}\n",
        Reason::WrongKind,
    ),
    (b"[boards.a]\ntype = {}\n", Reason::WrongKind),
    (
        b"[boards.a]\ntype = \"t\"\ntags = [{}]\n",
        Reason::WrongKind,
    ),
    (
        b"[boards.\"a b\"]\n[types.a]\ncheck = 1\n",
        Reason::WrongKind,
    ),
    (b"boards = []\n", Reason::WrongKind),
    (b"[boards.a]\n", Reason::Missing),
    (b"types = 1\n", Reason::WrongKind),
];

#[test]
fn bad_lab_files(rt: HostRuntime) {
    for (text, reason) in &BAD_LABS {
        assert_eq!(rt; why_no_lab(rt.alloc(), text), Some(*reason), "{text:?}");
    }
}

#[test]
fn long_lab_file(rt: HostRuntime) -> Result<(), Fail> {
    let long = vec![in rt.alloc(); b' '; 1_048_577]?;
    assert_eq!(rt;
        why_no_lab(rt.alloc(), long.as_slice()),
        Some(Reason::TooLong)
    );
    Ok(())
}

const GROUP: &[u8] =
    b"job_name = \"net\"\n[roles.a]\ndevice_type = \"b\"\ncount = 2\ntags = [\"x\"]\n";

const LAB: &[u8] = b"[types.bbb]\n[boards.b1]\ntype = \"bbb\"\ntags = [\"hdmi\"]\n";

/// The number of the command that a job file spells.
fn kind_of(alloc: Global, text: &[u8]) -> Result<u64, FileFault> {
    Ok(job_of(alloc, text)?.kind())
}

/// How many calls a lab file spells.
fn calls_of(alloc: Global, text: &[u8]) -> Result<usize, FileFault> {
    Ok(lab_of(alloc, text, 7)?.len())
}

/// Where memory is refused, at whatever place, no other fault is reported.
#[test]
fn refused_memory(rt: HostRuntime) {
    match kind_of(rt.alloc(), GROUP) {
        Ok(kind) => assert_eq!(rt; kind, 5),
        Err(fault) => assert_eq!(rt; fault, FileFault::NoMemory),
    }
    match calls_of(rt.alloc(), LAB) {
        Ok(calls) => assert_eq!(rt; calls, 2),
        Err(fault) => assert_eq!(rt; fault, FileFault::NoMemory),
    }
}
