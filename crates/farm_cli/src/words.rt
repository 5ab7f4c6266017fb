//! Reading the words.
ghost use Rattle.std.specs.Prelude.{◌≡◌, ◌≤◌, ◌⊎◌, [], IfErr, IfOk, IfSome, None, Some, codes};
ghost use Rattle.std.specs.Prelude.{false, map, option_map, string_bytes, true};
ghost use Rattle.clap.specs.Words.{app_of, fault_of as kinds_of, first_of, found_of, rows_of};
ghost use Rattle.clap.specs.Words.{rule_of, subcommand_of, subcommand_rows_of, takes};
ghost use Rattle.farm_cli.specs.App.{AddsShape, at_rule, bare_app, db_rule, farm_app};
ghost use Rattle.farm_cli.specs.App.{last_port, most_minutes};
ghost use Rattle.farm_cli.specs.App.{import_app, init_app, max_rule, memory_rule, migrate_app};
ghost use Rattle.farm_cli.specs.App.{offset_rule, once_app, text_rule};
ghost use Rattle.farm_cli.specs.App.{port_rule, positional_rule, report_app, serve_app};
ghost use Rattle.farm_cli.specs.Faults.{IsFaultAmong, open_text};
ghost use Rattle.farm_cli.specs.Orders.{IsInBounds, argument_number, form_of, has_flag};
ghost use Rattle.farm_cli.specs.Orders.{import_in, init, migrate, minutes_in, once_in};
ghost use Rattle.farm_cli.specs.Orders.{order_in, port_in, report_in, report_of, serve_in};
ghost use Rattle.farm_cli.specs.Orders.{which_in};
ghost use Rattle.farm_cli.specs.declared.fault.OrderFault.TheVariants.{NoMemory};

use crate::fault::{OrderFault, fault_of};
use crate::order::{Database, Order, Report};
use clap::{Arg, ArgAction, ArgMatches, Command};
use std::alloc::{AllocError, Global};

/// The order that the words give; the first word is the program's name.
pub fn order_of(alloc: Global, words: &[String]) -> Result<Order, OrderFault>
    // The order is the one that the subcommand and its values name, and the words have no fault.
    ensures order { IfOk result (λ order. Some (form_of order)
        ≡ order_in (subcommand_of farm_app (map string_bytes words.now))) }
    ensures faultless { IfOk result (λ order.
        kinds_of farm_app (map string_bytes words.now) ≡ []) }
    ensures bounds { IfOk result (λ order. IsInBounds (form_of order)) }

    // Help comes where the words ask for it or for the version, and Words where something else is
    // wrong with them.
    ensures fault { IfErr result (IsFaultAmong
        (kinds_of farm_app (map string_bytes words.now))
        (subcommand_of farm_app (map string_bytes words.now))) }

    // Words that `clap` takes are refused for want of memory, or where they name no order.
    ensures taken { takes farm_app (map string_bytes words.now) ≡ true → IfErr result (λ fault.
        (fault ≡ NoMemory)
        ⊎ (order_in (subcommand_of farm_app (map string_bytes words.now)) ≡ None)) }
{
    match farm_command(alloc)?.try_get_matches_from(words) {
        Ok(matches) => match named(alloc, &matches)? {
            Some(order) => Ok(order),
            None => Err(OrderFault::Words(String::from_str(alloc, open_choice(&matches))?)),
        },
        Err(error) => Err(fault_of(alloc, &error)),
    }
}

/// What is wrong with words that `clap` takes and that name no order.
fn open_choice(matches: &ArgMatches<'_>) -> &'static str
    ensures { result.now ≡ open_text (subcommand_rows_of matches.now) }
{
    match matches.subcommand() {
        Some((name, _)) if name == "once" => NO_PLACE,
        _ => NO_REPORT,
    }
}

/// The program's version, which `--version` prints behind its name.
const VERSION: &str = "2.0";

/// The ports are 1 to this one.
const LAST_PORT: i64 = 65535;

/// How far a report's clock may be from UTC, in minutes.
const MOST_MINUTES: i64 = 840;

const NO_PLACE: &str = "\
error: exactly one of '--memory' and '--db <FILE>' has to be provided

Usage: farm once <--memory|--db <FILE>> --at <SECONDS>

For more information, try '--help'.
";

const NO_REPORT: &str = "\
error: invalid value for '<WHICH>'
  [possible values: queue, boards, reservations]

For more information, try '--help'.
";

/// The order that the matches name.
fn named(alloc: Global, matches: &ArgMatches<'_>) -> Result<Option<Order>, AllocError>
    ensures order { IfOk result (λ order.
        option_map form_of order ≡ order_in (subcommand_rows_of matches.now)) }
    ensures bounds { IfOk result (λ order. IfSome order (λ order. IsInBounds (form_of order))) }
{
    let Some((name, given)) = matches.subcommand() else {
        return Ok(None);
    };
    let file = text(alloc, given, "db")?;
    match name {
        "once" => Ok(once_named(given, file)),
        "init" => Ok(init_named(file)),
        "migrate" => Ok(migrate_named(file)),
        "import" => Ok(import_named(given, file, text(alloc, given, "lab")?)),
        "serve" => Ok(serve_named(given, file)),
        "report" => Ok(report_named(given, file)),
        _ => Ok(None),
    }
}

fn init_named(file: Option<String>) -> Option<Order>
    ensures order { option_map form_of result
        ≡ option_map (λ file. init file) (option_map string_bytes file) }
    ensures bounds { IfSome result (λ order. IsInBounds (form_of order)) }
{
    let file = file?;
    Some(Order::Init { file })
}

fn migrate_named(file: Option<String>) -> Option<Order>
    ensures order { option_map form_of result
        ≡ option_map (λ file. migrate file) (option_map string_bytes file) }
    ensures bounds { IfSome result (λ order. IsInBounds (form_of order)) }
{
    let file = file?;
    Some(Order::Migrate { file })
}

fn once_named(given: &ArgMatches<'_>, file: Option<String>) -> Option<Order>
    requires { option_map string_bytes file
        ≡ first_of (codes "db") (rows_of (found_of given.now)) }
    ensures order { option_map form_of result ≡ once_in (rows_of (found_of given.now)) }
    ensures bounds { IfSome result (λ order. IsInBounds (form_of order)) }
{
    let database = match (flag(given, "memory"), file) {
        (true, None) => Database::Memory,
        (false, Some(file)) => Database::File(file),
        (true, Some(_)) | (false, None) => return None,
    };
    let at = number(given, "at")?;
    Some(Order::Once { database, at })
}

fn import_named(given: &ArgMatches<'_>, file: Option<String>, lab: Option<String>) -> Option<Order>
    requires file { option_map string_bytes file
        ≡ first_of (codes "db") (rows_of (found_of given.now)) }
    requires lab { option_map string_bytes lab
        ≡ first_of (codes "lab") (rows_of (found_of given.now)) }
    ensures order { option_map form_of result ≡ import_in (rows_of (found_of given.now)) }
    ensures bounds { IfSome result (λ order. IsInBounds (form_of order)) }
{
    let (file, at, lab) = (file?, number(given, "at")?, lab?);
    Some(Order::Import { file, at, lab })
}

fn serve_named(given: &ArgMatches<'_>, file: Option<String>) -> Option<Order>
    requires { option_map string_bytes file
        ≡ first_of (codes "db") (rows_of (found_of given.now)) }
    ensures order { option_map form_of result ≡ serve_in (rows_of (found_of given.now)) }
    ensures bounds { IfSome result (λ order. IsInBounds (form_of order)) }
{
    let (file, port, max) = (file?, port(given)?, number(given, "max")?);
    Some(Order::Serve { file, port, max })
}

fn report_named(given: &ArgMatches<'_>, file: Option<String>) -> Option<Order>
    requires { option_map string_bytes file
        ≡ first_of (codes "db") (rows_of (found_of given.now)) }
    ensures order { option_map form_of result ≡ report_in (rows_of (found_of given.now)) }
    ensures bounds { IfSome result (λ order. IsInBounds (form_of order)) }
{
    Some(Order::Report {
        file: file?,
        east: minutes(given, "east")?,
        west: minutes(given, "west")?,
        which: which(given)?,
    })
}

/// Whether a flag was given.
fn flag(given: &ArgMatches<'_>, id: &str) -> bool
    ensures { result ≡ has_flag id.now (rows_of (found_of given.now)) }
{
    given.get_one::<bool>(id).unwrap_or(false)
}

/// The number that an argument has.
fn number(given: &ArgMatches<'_>, id: &str) -> Option<u64>
    ensures { result ≡ argument_number id.now (rows_of (found_of given.now)) }
{
    given.get_one::<u64>(id)
}

fn port(given: &ArgMatches<'_>) -> Option<u16>
    ensures port { result ≡ port_in (rows_of (found_of given.now)) }
    ensures range { IfSome result (λ port. (1 ≤ port) × (port ≤ last_port)) }
{
    let port = number(given, "port")?;
    if port >= 1 && port <= LAST_PORT as u64 {
        Some(port as u16)
    } else {
        None
    }
}

/// The minutes of an offset, 0 where it wasn't given.
fn minutes(given: &ArgMatches<'_>, id: &str) -> Option<u64>
    ensures minutes { result ≡ minutes_in id.now (rows_of (found_of given.now)) }
    ensures range { IfSome result (λ minutes. minutes ≤ most_minutes) }
{
    let minutes = number(given, id).unwrap_or(0);
    if minutes <= MOST_MINUTES as u64 {
        Some(minutes)
    } else {
        None
    }
}

/// The text that an argument has.
fn text(alloc: Global, given: &ArgMatches<'_>, id: &str) -> Result<Option<String>, AllocError>
    ensures { IfOk result (λ text.
        option_map string_bytes text ≡ first_of id.now (rows_of (found_of given.now))) }
{
    let text = given.get_str(id).map(|text| String::from_str(alloc, text));
    text.transpose()
}

/// The report that is asked for.
fn which(given: &ArgMatches<'_>) -> Option<Report>
    ensures { result ≡ which_in (rows_of (found_of given.now)) }
{
    report_called(given.get_str("which")?)
}

/// The report of a name.
fn report_called(name: &str) -> Option<Report>
    ensures { result ≡ report_of name.now }
{
    match name {
        "queue" => Some(Report::Queue),
        "boards" => Some(Report::Boards),
        "reservations" => Some(Report::Reservations),
        _ => None,
    }
}

/// The program, before it has its subcommands.
fn bare_command<'a>(alloc: Global) -> Command<'a>
    ensures { app_of result ≡ bare_app }
{
    Command::new(alloc, "farm")
        .about("The desk of a board farm: people and queued test jobs share the boards of a lab")
        .version(VERSION)
        .subcommand_required(true)
}

/// The program, with a subcommand for each order.
fn farm_command<'a>(alloc: Global) -> Result<Command<'a>, AllocError>
    ensures { IfOk result (λ command. app_of command ≡ farm_app) }
{
    bare_command(alloc)
        .subcommand(once_command(alloc)?)?
        .subcommand(init_command(alloc)?)?
        .subcommand(migrate_command(alloc)?)?
        .subcommand(import_command(alloc)?)?
        .subcommand(serve_command(alloc)?)?
        .subcommand(report_command(alloc)?)
}

fn once_command<'a>(alloc: Global) -> Result<Command<'a>, AllocError>
    ensures { IfOk result (AddsShape once_app.top) }
{
    Command::new(alloc, "once")
        .about("Answers one HTTP request from the input: give just one of --memory and --db")
        .arg(memory_flag(alloc))?
        .arg(file(alloc, false))?
        .arg(moment(alloc))
}

fn init_command<'a>(alloc: Global) -> Result<Command<'a>, AllocError>
    ensures { IfOk result (AddsShape init_app.top) }
{
    Command::new(alloc, "init")
        .about("Makes an empty farm in a file that has none")
        .arg(file(alloc, true))
}

fn migrate_command<'a>(alloc: Global) -> Result<Command<'a>, AllocError>
    ensures { IfOk result (AddsShape migrate_app.top) }
{
    Command::new(alloc, "migrate")
        .about("Brings a farm of the first edition to this one: copy its files before")
        .arg(file(alloc, true))
}

fn import_command<'a>(alloc: Global) -> Result<Command<'a>, AllocError>
    ensures { IfOk result (AddsShape import_app.top) }
{
    Command::new(alloc, "import")
        .about("Adds the types and boards of a lab file to a farm")
        .arg(file(alloc, true))?
        .arg(moment(alloc))?
        .arg(word(alloc, "lab", "LAB").help("The lab file, in TOML"))
}

fn serve_command<'a>(alloc: Global) -> Result<Command<'a>, AllocError>
    ensures { IfOk result (AddsShape serve_app.top) }
{
    Command::new(alloc, "serve")
        .about("Answers HTTP requests on a port of 127.0.0.1, one connection after another")
        .arg(file(alloc, true))?
        .arg(port_option(alloc))?
        .arg(max_option(alloc))
}

fn report_command<'a>(alloc: Global) -> Result<Command<'a>, AllocError>
    ensures { IfOk result (AddsShape report_app.top) }
{
    Command::new(alloc, "report")
        .about("Prints the queue, the boards or the reservations of a farm")
        .arg(file(alloc, true))?
        .arg(offset(alloc, "east").help("How many minutes the zone lies east of UTC, up to 840"))?
        .arg(offset(alloc, "west").help("How many minutes the zone lies west of UTC, up to 840"))?
        .arg(word(alloc, "which", "WHICH").help("What to print: queue, boards or reservations"))
}

/// A word of its own, which has to be there.
fn word<'a>(alloc: Global, id: &'a str, name: &'a str) -> Arg<'a>
    ensures rule { rule_of result ≡ positional_rule id.now }
    ensures local { result.global ≡ false }
{
    Arg::new(alloc, id)
        .value_name(name)
        .required(true)
        .action(ArgAction::Set)
}

/// An option with a value, which has to be there.
fn option<'a>(alloc: Global, id: &'a str, name: &'a str) -> Arg<'a>
    ensures rule { rule_of result ≡ text_rule id.now true }
    ensures local { result.global ≡ false }
{
    word(alloc, id, name).long(id)
}

fn memory_flag<'a>(alloc: Global) -> Arg<'a>
    ensures rule { rule_of result ≡ memory_rule }
    ensures local { result.global ≡ false }
{
    Arg::new(alloc, "memory")
        .long("memory")
        .help("Begin with an empty farm, kept in memory alone")
        .action(ArgAction::SetTrue)
}

fn file<'a>(alloc: Global, required: bool) -> Arg<'a>
    ensures rule { rule_of result ≡ db_rule required }
    ensures local { result.global ≡ false }
{
    option(alloc, "db", "FILE")
        .help("The file that keeps the farm")
        .required(required)
}

fn moment<'a>(alloc: Global) -> Arg<'a>
    ensures rule { rule_of result ≡ at_rule }
    ensures local { result.global ≡ false }
{
    option(alloc, "at", "SECONDS")
        .help("The moment of the call, in seconds since 1970-01-01 00:00:00 UTC")
        .value_parser(clap::value_parser!(u64))
}

fn port_option<'a>(alloc: Global) -> Arg<'a>
    ensures rule { rule_of result ≡ port_rule }
    ensures local { result.global ≡ false }
{
    option(alloc, "port", "PORT")
        .help("The port to listen on, from 1 to 65535")
        .value_parser(clap::value_parser!(u64).range(1..=LAST_PORT))
}

fn max_option<'a>(alloc: Global) -> Arg<'a>
    ensures rule { rule_of result ≡ max_rule }
    ensures local { result.global ≡ false }
{
    option(alloc, "max", "CONNECTIONS")
        .help("How many connections to serve before the program ends")
        .value_parser(clap::value_parser!(u64))
}

fn offset<'a>(alloc: Global, id: &'a str) -> Arg<'a>
    ensures rule { rule_of result ≡ offset_rule id.now }
    ensures local { result.global ≡ false }
{
    option(alloc, id, "MINUTES")
        .required(false)
        .value_parser(clap::value_parser!(u64).range(0..=MOST_MINUTES))
}
