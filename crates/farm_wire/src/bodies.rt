//! The commands that bodies spell.
ghost use Rattle.std.specs.Prelude.{◌≡◌, IsTrue, IfOk};
ghost use Rattle.serde_json.specs.View.{view};
ghost use Rattle.farm_types.specs.Limits.{is_every};
ghost use Rattle.farm_types.specs.Proper.{is_frequency, is_proper_cmd};
ghost use Rattle.farm_types.specs.Reads.{OrNoMemory, by_code, refused_code};
ghost use Rattle.farm_wire.specs.Commands.{unit_in, every_in, check_in, add_type, new_tags_in};
ghost use Rattle.farm_wire.specs.Commands.{add_board, set_tags, set_health, finish, submit};
ghost use Rattle.farm_wire.specs.Commands.{priority_from, priority_in, reserve};
ghost use Rattle.farm_wire.specs.Reading.{fault_of_file};

use crate::fields::{BAD, Read, board_tags, name_of, object_of, tags_from, tags_of, text_of};
use crate::head::{board_of, job_of};
use farm_jobfile::FileFault;
use farm_types::{
    BAD_PRIORITY, Check, CheckUnit, Cmd, Health, Outcome, Priority, Refusal, Tags, WordFault,
    is_every,
};
use json::Scratch;
use serde_json::Value;
use std::alloc::Global;

/// The unit under the key `check`.
#[tactic(auto, unfolding(crate::specs::Commands::unit_in))]
fn unit_of(value: &Value) -> Result<CheckUnit, Refusal>
    ensures { by_code result ≡ unit_in (view value.now) }
{
    let Some(field) = value.get("check") else {
        return Ok(CheckUnit::None);
    };
    field.as_str().and_then(CheckUnit::called).ok_or(BAD)
}

/// The frequency under the key `every`.
#[tactic(auto, unfolding(crate::specs::Commands::every_in))]
fn every_of(value: &Value) -> Result<u64, Refusal>
    ensures every { by_code result ≡ every_in (view value.now) }
    ensures range { IfOk result (λ every. IsTrue (is_every every)) }
{
    let every = value.get("every").and_then(Value::as_u64);
    every.filter(|every| is_every(*every)).ok_or(BAD)
}

/// The check that the keys `check` and `every` spell.
#[tactic(auto, unfolding(crate::specs::Commands::check_in))]
fn check_of(value: &Value) -> Result<Check, Refusal>
    ensures check { by_code result ≡ check_in (view value.now) }
    ensures frequency { IfOk result (λ check. IsTrue (is_frequency check)) }
{
    match unit_of(value)? {
        CheckUnit::None => Ok(Check::Never),
        CheckUnit::Hours => Ok(Check::Hours(every_of(value)?)),
        CheckUnit::Jobs => Ok(Check::Jobs(every_of(value)?)),
    }
}

/// The type that a body adds.
#[tactic(auto, unfolding(crate::specs::Commands::add_type))]
pub(crate) fn add_type_of(alloc: Global, scratch: &mut Scratch, body: &[u8]) -> Read<Cmd>
    ensures meaning { OrNoMemory refused_code (λ cmd. cmd) result (add_type body.now) }
    ensures proper { IfOk result (λ cmd. IsTrue (is_proper_cmd cmd)) }
{
    let value = object_of(alloc, scratch, body)?;
    let name = name_of(&value, "name")?;
    let check = check_of(&value)?;
    Ok(Cmd::add_type(name, check))
}

/// A new board's tags: those under the key `tags`, or none where it is absent.
#[tactic(auto, unfolding(crate::specs::Commands::new_tags_in))]
fn new_tags_of(alloc: Global, value: &Value) -> Read<Tags>
    ensures { OrNoMemory refused_code (λ tags. tags) result (new_tags_in (view value.now)) }
{
    let field = value.get("tags");
    field.map_or(Ok(Tags::none(alloc)), |field| tags_from(alloc, field))
}

/// The board that a body adds.
#[tactic(auto, unfolding(crate::specs::Commands::add_board))]
pub(crate) fn add_board_of(alloc: Global, scratch: &mut Scratch, body: &[u8]) -> Read<Cmd>
    ensures meaning { OrNoMemory refused_code (λ cmd. cmd) result (add_board body.now) }
    ensures proper { IfOk result (λ cmd. IsTrue (is_proper_cmd cmd)) }
{
    let value = object_of(alloc, scratch, body)?;
    let name = name_of(&value, "name")?;
    let kind = name_of(&value, "type")?;
    let tags = board_tags(new_tags_of(alloc, &value)?)?;
    Ok(Cmd::add_board(name, kind, tags))
}

/// The tags that the board of a path gets.
#[tactic(auto, unfolding(crate::specs::Commands::set_tags))]
pub(crate) fn set_tags_of(
    alloc: Global,
    scratch: &mut Scratch,
    path: &str,
    body: &[u8],
) -> Read<Cmd>
    ensures meaning { OrNoMemory refused_code (λ cmd. cmd) result (set_tags path.now body.now) }
    ensures proper { IfOk result (λ cmd. IsTrue (is_proper_cmd cmd)) }
{
    let name = board_of(path)?;
    let value = object_of(alloc, scratch, body)?;
    let tags = board_tags(tags_of(alloc, &value)?)?;
    Ok(Cmd::set_tags(name, tags))
}

/// The health that the board of a path gets.
#[tactic(auto, unfolding(crate::specs::Commands::set_health))]
pub(crate) fn set_health_of(
    alloc: Global,
    scratch: &mut Scratch,
    path: &str,
    body: &[u8],
) -> Read<Cmd>
    ensures meaning { OrNoMemory refused_code (λ cmd. cmd) result (set_health path.now body.now) }
    ensures proper { IfOk result (λ cmd. IsTrue (is_proper_cmd cmd)) }
{
    let name = board_of(path)?;
    let value = object_of(alloc, scratch, body)?;
    let health = Health::called(text_of(&value, "health")?).ok_or(BAD)?;
    Ok(Cmd::set_health(name, health))
}

/// The command of the job file that a body is. A bad file is refused as one, a bad word in it as
/// that word.
#[tactic(auto, unfolding(crate::specs::Commands::submit))]
pub(crate) fn submit_of(alloc: Global, body: &[u8]) -> Read<Cmd>
    ensures meaning { OrNoMemory refused_code (λ cmd. cmd) result (submit body.now) }
    ensures proper { IfOk result (λ cmd. IsTrue (is_proper_cmd cmd)) }
{
    farm_jobfile::job_of(alloc, body).map_err(word_fault)
}

/// Why a job file is not read, as of a word: a bad file is refused as one.
fn word_fault(fault: FileFault) -> WordFault
    ensures { result ≡ fault_of_file fault }
{
    match fault {
        FileFault::Bad { kind, .. } => WordFault::Refused(Refusal { code: kind.code() }),
        FileFault::Word(refusal) => WordFault::Refused(refusal),
        FileFault::NoMemory => WordFault::NoMemory,
    }
}

/// The end of the job that a path names.
#[tactic(auto, unfolding(crate::specs::Commands::finish, farm_types::specs::Proper::is_proper_cmd))]
pub(crate) fn finish_of(alloc: Global, scratch: &mut Scratch, path: &str, body: &[u8]) -> Read<Cmd>
    ensures meaning { OrNoMemory refused_code (λ cmd. cmd) result (finish path.now body.now) }
    ensures proper { IfOk result (λ cmd. IsTrue (is_proper_cmd cmd)) }
{
    let number = job_of(path)?;
    let value = object_of(alloc, scratch, body)?;
    let outcome = Outcome::called(text_of(&value, "outcome")?).ok_or(BAD)?;
    Ok(Cmd::Finish(number, outcome))
}

/// The refusal of a word or a number that is no priority.
const NO_PRIORITY: Refusal = Refusal { code: BAD_PRIORITY };

/// The priority that a value spells: a word, or a whole number.
#[tactic(auto, unfolding(crate::specs::Commands::priority_from))]
fn priority_from(field: &Value) -> Result<Priority, Refusal>
    ensures { by_code result ≡ priority_from (view field.now) }
{
    match field {
        Value::String(word) => Priority::called(word.as_str()).ok_or(NO_PRIORITY),
        Value::Number(_) => Priority::of(field.as_u64().ok_or(NO_PRIORITY)?),
        _ => Err(BAD),
    }
}

/// The priority under the key `priority`; absent means medium.
#[tactic(auto, unfolding(crate::specs::Commands::priority_in))]
fn priority_in(value: &Value) -> Result<Priority, Refusal>
    ensures { by_code result ≡ priority_in (view value.now) }
{
    let field = value.get("priority");
    field.map_or(Ok(Priority::medium()), priority_from)
}

/// The reservation that a body asks for.
#[tactic(auto, unfolding(crate::specs::Commands::reserve))]
pub(crate) fn reserve_of(alloc: Global, scratch: &mut Scratch, body: &[u8]) -> Read<Cmd>
    ensures meaning { OrNoMemory refused_code (λ cmd. cmd) result (reserve body.now) }
    ensures proper { IfOk result (λ cmd. IsTrue (is_proper_cmd cmd)) }
{
    let value = object_of(alloc, scratch, body)?;
    let tags = tags_of(alloc, &value)?;
    let priority = priority_in(&value)?;
    Ok(Cmd::reserve(priority, tags))
}
