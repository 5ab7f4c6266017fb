//! Carrying out an order: its files are opened or made, its task done, and what it did printed.
ghost use Rattle.std.specs.Prelude.{◌≡◌, IfErr, IfOk, None, List, Option, ℕ};
ghost use Rattle.sqlite.specs.Files.{over_files};
ghost use Rattle.sqlite_wal.specs.Files.{image_at};
ghost use Rattle.farm_serve.specs.Conversations.{desk};
ghost use Rattle.farm_desk.specs.Lines.{counts_line, port_line, ready_line, PrintsLine, PrintsImport};
ghost use Rattle.farm_desk.specs.Orders.{streams, DoesInFiles, DoesInMemory, DoesOrder, Inits};
ghost use Rattle.farm_desk.specs.Orders.{MigratesFile, OpensMemory, PrintsIfDone, AnswersOne, IsLocal};
ghost use Rattle.farm_desk.specs.Orders.{DoesTask, ImportsFile, PrintsReportOf, ServesIfThere};
ghost use Rattle.farm_desk.specs.InFiles.{IsUpgradeFault, RaisesFarm};

use crate::files::{FileKeeper, make_farm, make_new_farm, migrate_farm, open_farm};
use crate::lab_files::{LabFiles, lab_fault, read_lab};
use crate::new_file::NewFile;
use crate::open_files::OpenFiles;
use crate::report::{report_text, zone_between};
use crate::socket_clients::SocketClients;
use crate::spent::{Spent, close};
use arrayvec::ArrayString;
use farm_cli::{Database, Order, Report};
use farm_http::{Input, Output};
use farm_keep::{KeepFault, Keeper};
use farm_serve::{Clients, DeskFault, ImportEnd, converse, import};
use farm_types::Refusal;
use farm_wire::{OK, write_whole};
use itoa::Buffer;
use sqlite::{Alter, Connection, FileFrom, FileStore, MemStore, Start, Unknown};
use sqlite_disk::Disk;
use std::alloc::Global;
use std::io::{IsTerminal, Write};
use std::net::{Ipv4Addr, SocketAddr, SocketAddrV4, TcpListener};
use std::os::fd::AsFd;
use std::{fs, io};

/// A file of so many megabytes may take longer than two seconds to migrate or to open.
const LARGE_FILE: u64 = 16;

/// The room for a line with numbers: more than any of them takes.
const LINE_ROOM: usize = 128;

/// How an order ended that met no fault.
#[derive(Clone, Copy, Debug, PartialEq, Eq)]
pub enum End {
    /// It was carried out.
    Done,
    /// Its request was refused, as the answer on the output shows.
    Refused,
    /// The command at that place of its lab file, counted from 1, was refused.
    RefusedAt(usize, Refusal),
}

/// How an order ended, or the fault that ended it.
type Ended = Result<End, DeskFault>;

/// Carries out an order. Faults are found in this order: those of the store, of the lab file or the
/// listener, then of the input and the output. Files are opened with the reading of a crash that
/// most disks keep, that a torn write leaves each byte old or new: so most commits sync once.
pub fn carry_out<R: Input, W: Output>(
    rt: &HostRuntime,
    alloc: Global,
    order: Order,
    input: &mut R,
    output: &mut W,
) -> Result<End, DeskFault>
    ensures { DoesOrder (λ _. None) R.never_fails (W.has_room output.old)
        (streams (R.remaining input.old) (W.contents output.old))
        (streams (R.remaining input.new) (W.contents output.new))
        ⟦<FileFrom<Unknown> as Disk>⟧ (image_at ⟦<Unknown as Start>⟧)
        ⟦<FileFrom<NewFile> as Disk>⟧ (image_at ⟦<NewFile as Start>⟧) order result }
{
    carry_out_from(rt, alloc, order, Unknown, rt, input, output)
}

/// The same over files of which `S` says what they held, as `open_farm` opens them, and with the lab
/// files of `labs`.
pub fn carry_out_from<S: Start, L: LabFiles, R: Input, W: Output>(
    rt: &HostRuntime,
    alloc: Global,
    order: Order,
    start: S,
    labs: &L,
    input: &mut R,
    output: &mut W,
) -> Result<End, DeskFault>
    ensures { DoesOrder (L.contents labs.now) R.never_fails (W.has_room output.old)
        (streams (R.remaining input.old) (W.contents output.old))
        (streams (R.remaining input.new) (W.contents output.new))
        ⟦<FileFrom<S> as Disk>⟧ (image_at S.Start)
        ⟦<FileFrom<NewFile> as Disk>⟧ (image_at ⟦<NewFile as Start>⟧) order result }
{
    match order {
        Order::Once { database, at } => match database {
            Database::Memory => answer_in_memory(alloc, at, input, output),
            Database::File(file) => {
                let task = Task::Answer { at };
                do_in_files(rt, file.as_str(), start, task, labs, input, output)
            }
        },
        Order::Init { file } => init(rt, file.as_str(), start, output),
        Order::Migrate { file } => migrate(rt, file.as_str(), start, output),
        Order::Import { file, at, lab } => {
            let task = Task::Import { at, lab };
            do_in_files(rt, file.as_str(), start, task, labs, input, output)
        }
        Order::Report {
            file,
            east,
            west,
            which,
        } => {
            let task = Task::Report { east, west, which };
            do_in_files(rt, file.as_str(), start, task, labs, input, output)
        }
        Order::Serve { file, port, max } => {
            print_size_note(rt, file.as_str(), "opening");
            let task = Task::Serve { port, max };
            do_in_files(rt, file.as_str(), start, task, labs, input, output)
        }
    }
}

/// Answers one request of an empty farm in memory.
fn answer_in_memory<R: Input, W: Output>(
    alloc: Global,
    at: u64,
    input: &mut R,
    output: &mut W,
) -> Ended
    ensures { (labs : List ℕ → Option (List ℕ)) → DoesInMemory labs R.never_fails
        (W.has_room output.old) (streams (R.remaining input.old) (W.contents output.old))
        (streams (R.remaining input.new) (W.contents output.new)) (Task.Answer at) result }
{
    let mut keeper = memory_keeper(alloc)?;
    answer_one(alloc, &mut keeper, input, output, at)
}

/// Opens the farm in a file, and does a task with it.
fn do_in_files<S: Start, L: LabFiles, R: Input, W: Output>(
    rt: &HostRuntime,
    file: &str,
    start: S,
    task: Task,
    labs: &L,
    input: &mut R,
    output: &mut W,
) -> Ended
    ensures { DoesInFiles (L.contents labs.now) R.never_fails (W.has_room output.old)
        (streams (R.remaining input.old) (W.contents output.old))
        (streams (R.remaining input.new) (W.contents output.new))
        ⟦<FileFrom<S> as Disk>⟧ (image_at S.Start) task result }
{
    let keeper = open_farm(rt, rt.alloc(), file, start)?;
    let (spent, ended) = do_with_files(rt, file, keeper, task, labs, input, output);
    let_go(spent);
    ended
}

/// What is done with a farm that is there.
#[derive(Drop)]
enum Task {
    /// One request is answered, at a moment.
    Answer { at: u64 },
    /// The lab file at a path is imported, at a moment.
    Import { at: u64, lab: String },
    /// A report is printed, with moments so many minutes east and west of UTC.
    Report { east: u64, west: u64, which: Report },
    /// So many connections to a port are served.
    Serve { port: u16, max: u64 },
}

/// Does a task with the farm in a file, which is spent then. That its one call is of any store keeps
/// its proof short.
fn do_with_files<S: Start, L: LabFiles, R: Input, W: Output>(
    rt: &HostRuntime,
    file: &str,
    mut keeper: FileKeeper<S>,
    task: Task,
    labs: &L,
    input: &mut R,
    output: &mut W,
) -> (Spent<FileKeeper<S>>, Ended)
    ensures { DoesTask over_files (L.contents labs.now) task
        (desk keeper (R.remaining input.old) (W.contents output.old))
        (desk result.0.it (R.remaining input.new) (W.contents output.new))
        R.never_fails (W.has_room output.old) result.1 }
{
    let ended = do_task(rt, file, &mut keeper, &task, labs, input, output);
    (Spent::of(keeper), ended)
}

/// Lets the farm in a file go. That nothing else drops one keeps the proofs of the others short.
fn let_go<S: Start>(_spent: Spent<FileKeeper<S>>) {}

/// Does a task with a keeper's farm, which was opened in a file.
fn do_task<L: LabFiles, R: Input, W: Output, S: Alter>(
    rt: &HostRuntime,
    file: &str,
    keeper: &mut Keeper<S>,
    task: &Task,
    labs: &L,
    input: &mut R,
    output: &mut W,
) -> Ended
    ensures { DoesTask S.Store (L.contents labs.now) task.now
        (desk keeper.old (R.remaining input.old) (W.contents output.old))
        (desk keeper.new (R.remaining input.new) (W.contents output.new))
        R.never_fails (W.has_room output.old) result }
{
    let alloc = rt.alloc();
    match task {
        Task::Answer { at } => answer_one(alloc, keeper, input, output, *at),
        Task::Import { at, lab } => import_file(alloc, keeper, labs, lab.as_str(), *at, output),
        Task::Report { east, west, which } => {
            print_report(alloc, keeper, (*east, *west), *which, output)
        }
        Task::Serve { port, max } => serve(rt, file, keeper, *port, *max, output),
    }
}

/// Answers one request of a keeper's farm.
fn answer_one<R: Input, W: Output, S: Alter>(
    alloc: Global,
    keeper: &mut Keeper<S>,
    input: &mut R,
    output: &mut W,
    at: u64,
) -> Ended
    ensures { AnswersOne S.Store (desk keeper.old (R.remaining input.old) (W.contents output.old))
        (desk keeper.new (R.remaining input.new) (W.contents output.new)) at
        R.never_fails (W.has_room output.old) result }
{
    match converse(alloc, keeper, input, output, at)? {
        OK => Ok(End::Done),
        _ => Ok(End::Refused),
    }
}

/// The keeper of an empty farm in memory.
fn memory_keeper(alloc: Global) -> Result<Keeper<MemStore>, DeskFault>
    ensures { OpensMemory result }
{
    let conn = Connection::open_in_memory(alloc).map_err(|_| DeskFault::NoMemory)?;
    Ok(Keeper::fresh(alloc, conn)?)
}

/// Makes the empty farm in a file, which is a new one where there is none.
fn init<S: Start, W: Output>(rt: &HostRuntime, file: &str, start: S, output: &mut W) -> Ended
    ensures { Inits (W.has_room output.old) (W.contents output.old) (W.contents output.new)
        ⟦<FileFrom<S> as Disk>⟧ (image_at S.Start)
        ⟦<FileFrom<NewFile> as Disk>⟧ (image_at ⟦<NewFile as Start>⟧) result }
{
    match make_new_farm(rt, rt.alloc(), file) {
        Some(made) => print_made(made, output),
        None => print_made(make_farm(rt, rt.alloc(), file, start), output),
    }
}

/// Prints that a farm was made.
fn print_made<S: Start, W: Output>(made: Result<FileKeeper<S>, DeskFault>, output: &mut W) -> Ended
    ensures { PrintsIfDone (W.has_room output.old) (W.contents output.old) (W.contents output.new)
        made ready_line result }
{
    let_go(Spent::of(made?));
    print_line(output, b"ready\n")
}

/// Prints the lines of an order that was done.
fn print_line<W: Output>(output: &mut W, line: &[u8]) -> Ended
    ensures { PrintsLine (W.has_room output.old) (W.contents output.old) (W.contents output.new)
        line.now result }
{
    write_whole(output, line).map_err(|_| DeskFault::Write)?;
    Ok(End::Done)
}

/// Prints, where standard error is a terminal, what is done with a large file, since that takes a
/// few seconds.
fn print_size_note(rt: &HostRuntime, file: &str, what: &str) {
    let mut errors = rt.stderr();
    let size = fs::metadata(rt, file).map_or(0, |found| found.len() / 1_000_000);
    if size >= LARGE_FILE && errors.is_terminal() {
        let _ = writeln!(errors, "farm: {what} {size} MB, which takes a few seconds");
    }
}

/// Brings the first edition's farm of a file to this one, and closes the file.
fn migrate<S: Start, W: Output>(rt: &HostRuntime, file: &str, start: S, output: &mut W) -> Ended
    ensures { MigratesFile (W.has_room output.old) (W.contents output.old) (W.contents output.new)
        ⟦<FileFrom<S> as Disk>⟧ (image_at S.Start) result }
{
    print_size_note(rt, file, "migrating");
    let spent = raise(rt, file, start)?;
    drop(close(spent));
    print_line(output, b"migrated\n")
}

/// The store over a file, whose farm was brought to this edition.
fn raise<S: Start>(
    rt: &HostRuntime,
    file: &str,
    start: S,
) -> Result<Spent<Connection<FileStore<FileFrom<S>>>>, DeskFault>
    ensures raised { IfOk result (λ spent. RaisesFarm (image_at S.Start) spent.it) }
    ensures fault { IfErr result IsUpgradeFault }
{
    match migrate_farm(rt, rt.alloc(), file, start) {
        Ok(conn) => Ok(Spent::of(conn)),
        Err(fault) => Err(fault),
    }
}

/// Adds what the lab file at a path lists to a keeper's farm, as far as it can be read, and prints
/// how much that was.
fn import_file<L: LabFiles, W: Output, S: Alter>(
    alloc: Global,
    keeper: &mut Keeper<S>,
    labs: &L,
    lab: &str,
    at: u64,
    output: &mut W,
) -> Ended
    ensures { ImportsFile S.Store (W.has_room output.old) (L.contents labs.now lab.now) keeper.old
        keeper.new (W.contents output.old) (W.contents output.new) at result }
{
    match read_lab(alloc, labs, lab) {
        Ok(text) => print_import(&import(alloc, keeper, text.as_slice(), at), output),
        Err(error) => Err(lab_fault(&error)),
    }
}

/// Prints how far an import went, where nothing stopped it.
fn print_import<W: Output>(end: &ImportEnd, output: &mut W) -> Ended
    ensures { PrintsImport (W.has_room output.old) end.now (W.contents output.old)
        (W.contents output.new) result }
{
    match (end.fault, end.stopped) {
        (Some(fault), _) => Err(fault),
        (None, Some((place, refusal))) => Ok(End::RefusedAt(place, refusal)),
        (None, None) => print_line(output, counts_line(end.accepted, end.kept).as_bytes()),
    }
}

/// The line of how many commands were accepted, and how many had been before.
fn counts_line(accepted: usize, kept: usize) -> ArrayString<LINE_ROOM>
    ensures { result.bytes ≡ counts_line accepted kept }
{
    let mut digits = Buffer::new();
    let mut line = ArrayString::new();
    line.push_str("accepted ");
    line.push_str(digits.format(accepted));
    line.push_str(", kept ");
    line.push_str(digits.format(kept));
    line.push_str("\n");
    line
}

/// Serves so many connections to a port of 127.0.0.1 from a keeper's farm, as long as its file and
/// the log of that are there. Where somebody takes one away meanwhile, nobody else is answered, and
/// that is a fault of the store, since what would be written then is lost.
#[tactic(auto, using(crate::proofs::HeardLemmas::hears))]
fn serve<W: Output, S: Alter>(
    rt: &HostRuntime,
    file: &str,
    keeper: &mut Keeper<S>,
    port: u16,
    max: u64,
    output: &mut W,
) -> Ended
    ensures { ServesIfThere S.Store (W.has_room output.old) keeper.old keeper.new
        (W.contents output.old) (W.contents output.new) port max result }
{
    let Some(files) = OpenFiles::new(rt, file) else {
        return Err(DeskFault::Keep(KeepFault::Store));
    };
    let listener = listen(rt, port).map_err(|_| DeskFault::Read)?;
    let mut clients = SocketClients::new(rt.alloc(), &listener, max, rt, Some(&files));
    if clients.is_over() {
        return Err(DeskFault::Read);
    }
    print_line(output, port_line(port).as_bytes())?;
    let ended = farm_serve::serve(rt.alloc(), keeper, &mut clients, max);
    clients.send_rest();
    ended?;
    if files.are_lost() {
        return Err(DeskFault::Keep(KeepFault::Store));
    }
    Ok(End::Done)
}

/// A listener on a port of 127.0.0.1, behind which as many connections wait as the system allows:
/// behind std's own 128 wait, and what further ones send is dropped.
fn listen(rt: &HostRuntime, port: u16) -> io::Result<TcpListener> {
    let listener = mio::net::TcpListener::bind(rt, local_address(port))?;
    Ok(TcpListener::from(listener.as_fd().try_clone_to_owned()?))
}

/// A port of 127.0.0.1.
fn local_address(port: u16) -> SocketAddr
    ensures { IsLocal result port }
{
    SocketAddr::V4(SocketAddrV4::new(Ipv4Addr::LOCALHOST, port))
}

/// The line of the port on which clients are accepted from now on.
fn port_line(port: u16) -> ArrayString<LINE_ROOM>
    ensures { result.bytes ≡ port_line port }
{
    let mut digits = Buffer::new();
    let mut line = ArrayString::new();
    line.push_str("listening ");
    line.push_str(digits.format(port));
    line.push_str("\n");
    line
}

/// Prints a report of a keeper's farm.
fn print_report<W: Output, S: Alter>(
    alloc: Global,
    keeper: &Keeper<S>,
    zone: (u64, u64),
    which: Report,
    output: &mut W,
) -> Ended
    ensures { PrintsReportOf (W.has_room output.old) keeper.now (W.contents output.old)
        (W.contents output.new) zone.0 zone.1 which result }
{
    let farm = keeper.farm().ok_or(DeskFault::Keep(KeepFault::Closed))?;
    let zone = zone_between(zone.0, zone.1);
    let text = report_text(alloc, farm, which, zone).map_err(|_| DeskFault::NoMemory)?;
    print_line(output, text.as_bytes())
}
