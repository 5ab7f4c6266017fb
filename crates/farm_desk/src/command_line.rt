//! The program: its words, its faults and its exit status.
ghost use Rattle.std.specs.Prelude.{◌≡◌, None, Ok, Result, map, string_bytes};
ghost use Rattle.std.specs.Io.KnownBytes.{WriteAppends};
ghost use Rattle.sqlite_wal.specs.Files.{image_at};
ghost use Rattle.farm_cli.specs.declared.order.Order.{Order as Ordered};
ghost use Rattle.farm_cli.specs.declared.fault.OrderFault.{OrderFault as Unordered};
ghost use Rattle.farm_serve.specs.Faults.{desk_fault_code};
ghost use Rattle.farm_desk.specs.Faults.{exit_status, order_status};
ghost use Rattle.farm_desk.specs.Lines.{fault_line, refusal_line, error_line, WritesPart};
ghost use Rattle.farm_desk.specs.Orders.{streams, DoesOrder};
ghost use Rattle.farm_desk.specs.Program.{EndsAsRead, EndsOrder, EndsUnread, IsReadOf};

use crate::new_file::NewFile;
use crate::orders::{End, carry_out};
use farm_cli::{Order, OrderFault, order_of};
use farm_http::{Input, Output};
use farm_jobfile::FileFault;
use farm_keep::KeepFault;
use farm_serve::DeskFault;
use farm_types::Refusal;
use farm_wire::write_whole;
use itoa::Buffer;
use sqlite::{FileFrom, Start, Unknown};
use sqlite_disk::Disk;
use std::alloc::Global;
use std::io::{self, IoSlice, Write};

/// The order was carried out; a request was answered 200.
pub const DONE: u8 = 0;
/// The words name no order.
pub const WRONG_WORDS: u8 = 2;
/// The request was refused, as its answer shows, or the file of an import.
pub const REFUSED: u8 = 3;
/// The store, the input, the output or the listener failed.
pub const FAILED: u8 = 4;
/// There was no memory.
pub const OUT_OF_MEMORY: u8 = 5;

/// Carries out the order that the words name, and returns the exit status. Help goes to the output;
/// the text of refused words, the line of a fault, `farm: CODE TEXT`, and that of a lab file's
/// refused command, `farm: CODE TEXT at N`, go to `errors`. The runtime is for the orders that open
/// files, sockets and the clock.
pub fn program<R: Input, W: Output, E: Output>(
    rt: &HostRuntime,
    alloc: Global,
    words: &[String],
    input: &mut R,
    output: &mut W,
    errors: &mut E,
) -> u8
    // The words are read as an order or as a fault. An order does what it is to do with the files,
    // of which nothing is known, and with the input and the output; a fault of the words is
    // printed.
    ensures { (read : Result Ordered Unordered) × IsReadOf (map string_bytes words.now) read
        × EndsAsRead (W.has_room output.old) (E.has_room errors.old)
        (DoesOrder (λ _. None) R.never_fails (W.has_room output.old)
        (streams (R.remaining input.old) (W.contents output.old))
        (streams (R.remaining input.new) (W.contents output.new))
        ⟦<FileFrom<Unknown> as Disk>⟧ (image_at ⟦<Unknown as Start>⟧)
        ⟦<FileFrom<NewFile> as Disk>⟧ (image_at ⟦<NewFile as Start>⟧)) read
        (streams (R.remaining input.old) (W.contents output.old))
        (streams (R.remaining input.new) (W.contents output.new))
        (E.contents errors.old) (E.contents errors.new) result }
{
    match order_of(alloc, words) {
        Ok(order) => perform(rt, alloc, order, input, output, errors),
        Err(fault) => print_order_fault(fault, output, errors),
    }
}

/// Prints why words name no order, and returns the exit status.
fn print_order_fault<W: Output, E: Output>(fault: OrderFault, output: &mut W, errors: &mut E) -> u8
    ensures { EndsUnread (W.has_room output.old) (E.has_room errors.old) fault
        (W.contents output.old) (W.contents output.new)
        (E.contents errors.old) (E.contents errors.new) result }
{
    match fault {
        OrderFault::Help(text) => match write_whole(output, text.as_bytes()) {
            Ok(()) => DONE,
            Err(_) => print_fault(errors, DeskFault::Write),
        },
        OrderFault::Words(text) => {
            let _ = write_whole(errors, text.as_bytes());
            WRONG_WORDS
        }
        OrderFault::NoMemory => print_fault(errors, DeskFault::NoMemory),
    }
}

/// Carries out an order, and returns the exit status. The lines of faults and of a lab file's
/// refused command go to `errors`.
pub fn perform<R: Input, W: Output, E: Output>(
    rt: &HostRuntime,
    alloc: Global,
    order: Order,
    input: &mut R,
    output: &mut W,
    errors: &mut E,
) -> u8
    // The order does what it is to do with some end, and the status and what is printed are those
    // of that end.
    ensures { EndsOrder (DoesOrder (λ _. None) R.never_fails (W.has_room output.old)
        (streams (R.remaining input.old) (W.contents output.old))
        (streams (R.remaining input.new) (W.contents output.new))
        ⟦<FileFrom<Unknown> as Disk>⟧ (image_at ⟦<Unknown as Start>⟧)
        ⟦<FileFrom<NewFile> as Disk>⟧ (image_at ⟦<NewFile as Start>⟧) order)
        (E.contents errors.old) (E.contents errors.new) result }
{
    status_of(errors, carry_out(rt, alloc, order, input, output))
}

/// The exit status of an order that ended so; what no answer shows is printed to `errors`.
fn status_of<E: Write>(errors: &mut E, ended: Result<End, DeskFault>) -> u8
    ensures status { result ≡ order_status ended }
    ensures printed { WritesPart (E.contents errors.old) (E.contents errors.new) (error_line ended) }
{
    match ended {
        Ok(end) => status_at(errors, end),
        Err(fault) => print_fault(errors, fault),
    }
}

/// The exit status of an order that met no fault; a lab file's refused command is printed.
fn status_at<E: Write>(errors: &mut E, end: End) -> u8
    ensures status { result ≡ order_status (Ok end) }
    ensures printed { WritesPart (E.contents errors.old) (E.contents errors.new)
        (error_line (Ok end)) }
{
    match end {
        End::Done => DONE,
        End::Refused => REFUSED,
        End::RefusedAt(place, refusal) => {
            let _ = write_refusal(errors, place, refusal);
            REFUSED
        }
    }
}

/// Writes the line of a fault, `farm: CODE TEXT`, and returns its exit status. It takes no memory.
/// That the writer took only a part of the line, or none of it, isn't reported.
pub fn print_fault<E: Write>(errors: &mut E, fault: DeskFault) -> u8
    ensures status { result ≡ exit_status fault }

    // What is written is this fault's line, as far as the writer took it.
    ensures printed { WritesPart (E.contents errors.old) (E.contents errors.new)
        (fault_line (desk_fault_code fault)) }
{
    let _ = write_fault(errors, fault.code());
    status_after(fault)
}

/// The exit status after a fault.
fn status_after(fault: DeskFault) -> u8
    ensures { result ≡ exit_status fault }
{
    match fault {
        DeskFault::NoMemory
        | DeskFault::Keep(KeepFault::NoMemory)
        | DeskFault::File(FileFault::NoMemory) => OUT_OF_MEMORY,
        DeskFault::File(_) => REFUSED,
        _ => FAILED,
    }
}

/// Writes the line of a fault of that number, or a part of it, and returns how many bytes were
/// taken.
fn write_fault<E: Write>(errors: &mut E, code: u16) -> io::Result<usize>
    ensures { WriteAppends (E.contents errors.old) (E.contents errors.new) result
        (fault_line code) }
{
    let mut number = Buffer::new();
    errors.write_vectored(&[
        IoSlice::new(b"farm: "),
        IoSlice::new(number.format(code).as_bytes()),
        IoSlice::new(b" "),
        IoSlice::new(Refusal { code }.text().as_bytes()),
        IoSlice::new(b"\n"),
    ])
}

/// Writes the line of a lab file's refused command, whose place is counted from 1, or a part of it.
fn write_refusal<E: Write>(errors: &mut E, place: usize, refusal: Refusal) -> io::Result<usize>
    ensures { WriteAppends (E.contents errors.old) (E.contents errors.new) result
        (refusal_line refusal.code place) }
{
    let (mut number, mut place_text) = (Buffer::new(), Buffer::new());
    errors.write_vectored(&[
        IoSlice::new(b"farm: "),
        IoSlice::new(number.format(refusal.code).as_bytes()),
        IoSlice::new(b" "),
        IoSlice::new(refusal.text().as_bytes()),
        IoSlice::new(b" at "),
        IoSlice::new(place_text.format(place).as_bytes()),
        IoSlice::new(b"\n"),
    ])
}
