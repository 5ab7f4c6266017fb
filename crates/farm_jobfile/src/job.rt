//! The job that a job file asks for.
ghost use Rattle.std.specs.Prelude.{◌≡◌, replicate, IfOk, IsTrue};
ghost use Rattle.toml.specs.View.{view, table_view};
ghost use Rattle.farm_types.specs.Reads.{OrNoMemory, viewed};
ghost use Rattle.farm_types.specs.Proper.{is_proper_cmd};
ghost use Rattle.farm_jobfile.specs.Job.{priority_from, priority_in, count_in, role_in};
ghost use Rattle.farm_jobfile.specs.Job.{playing_in, title_in, single_in, members_in, job};
ghost use Rattle.farm_jobfile.specs.Fields.{all_in};
ghost use Rattle.farm_jobfile.specs.Reading.{text_fault};

use crate::fault::{Fault, FileFault, FileKind, FileResult, Reason};
use crate::fields::{
    name_at, name_from, name_of, natural, natural_at, table_of, tags_at, text_of, tree_of,
};
use crate::group::{Member, group_of};
use farm_types::{
    BAD_COUNT, BAD_PRIORITY, Cmd, LONGEST_JOB_FILE, MOST_WANTS, Name, Priority, Refusal,
};
use std::alloc::{AllocError, Global};
use toml::{Table, Value};

/// The fault of a word or a number that is no priority.
const NO_PRIORITY: Fault = Fault::Word(Refusal { code: BAD_PRIORITY });

/// The priority that a value spells: a word, or a whole number.
#[tactic(auto, unfolding(crate::specs::Job::priority_from))]
fn priority_from(field: &Value) -> Result<Priority, Fault>
    ensures { result ≡ priority_from (view field.now) }
{
    match field {
        Value::String(word) => Priority::called(word.as_str()).ok_or(NO_PRIORITY),
        Value::Integer(number) => {
            Priority::of(natural(*number).ok_or(NO_PRIORITY)?).map_err(Fault::Word)
        }
        Value::Float(_) => Err(NO_PRIORITY),
        _ => Err(Fault::Bad(FileKind::JobFile, Reason::WrongKind)),
    }
}

/// The priority under the key `priority`; absent means medium.
#[tactic(auto, unfolding(crate::specs::Job::priority_in))]
fn priority_at(value: &Value) -> Result<Priority, Fault>
    ensures { result ≡ priority_in (view value.now) }
{
    let field = value.get("priority");
    field.map_or(Ok(Priority::medium()), priority_from)
}

/// The number of members that play a role.
#[tactic(auto, unfolding(crate::specs::Job::count_in))]
fn count_of(value: &Value) -> Result<u64, Fault>
    ensures { result ≡ count_in (view value.now) }
{
    let count = natural_at(FileKind::JobFile, value, "count")?;
    let count = count.filter(|count| *count >= 1 && *count <= MOST_WANTS as u64);
    count.ok_or(Fault::Word(Refusal { code: BAD_COUNT }))
}

/// So many equal members.
fn copies(alloc: Global, member: &Member, count: u64) -> Result<Vec<Member>, AllocError>
    ensures { IfOk result (λ members. members.items ≡ replicate count member.now) }
{
    let mut members = Vec::new(alloc);
    for _ in 0..count {
        members.push(member.copy()?)?;
    }
    Ok(members)
}

/// So many members with that role.
#[tactic(auto, unfolding(crate::specs::Job::playing_in))]
fn playing(alloc: Global, role: Option<Name>, value: &Value) -> FileResult<Vec<Member>>
    ensures { OrNoMemory text_fault (λ members. members.items) result
        (playing_in role (view value.now)) }
{
    let kind = name_at(FileKind::JobFile, value, "device_type")?;
    let count = count_of(value)?;
    let tags = tags_at(alloc, FileKind::JobFile, value)?;
    Ok(copies(alloc, &Member { role, kind, tags }, count)?)
}

/// The members that play one role.
#[tactic(auto, unfolding(crate::specs::Job::role_in))]
fn role_of(alloc: Global, name: &str, value: &Value) -> FileResult<Vec<Member>>
    ensures { OrNoMemory text_fault (λ members. members.items) result
        (role_in name.now (view value.now)) }
{
    let role = Some(name_of(name)?);
    let _table = table_of(FileKind::JobFile, value)?;
    playing(alloc, role, value)
}

/// The members of all roles, which a table has in the byte order of their names.
fn roles_of(alloc: Global, table: &Table) -> FileResult<Vec<Member>>
    ensures { OrNoMemory text_fault (λ members. members.items) result
        (all_in role_in (table_view table.now)) }
{
    let mut members = Vec::new(alloc);
    for (name, value) in table.iter() {
        let mut here = role_of(alloc, name.as_str(), value)?;
        members.append(&mut here)?;
    }
    Ok(members)
}

/// Whether the text under the key `job_name` is there and not empty.
#[tactic(auto, unfolding(crate::specs::Job::title_in))]
fn title_of(value: &Value) -> Result<&str, Fault>
    ensures { viewed (λ title. title.now) result ≡ title_in (view value.now) }
{
    let missing = Fault::Bad(FileKind::JobFile, Reason::Missing);
    match value.get("job_name").ok_or(missing)?.as_str() {
        Some("") => Err(missing),
        Some(title) => Ok(title),
        None => Err(Fault::Bad(FileKind::JobFile, Reason::WrongKind)),
    }
}

/// The one member of a job for one board.
#[tactic(auto, unfolding(crate::specs::Job::single_in))]
fn single_of(alloc: Global, kind: &Value, value: &Value) -> FileResult<Vec<Member>>
    ensures { OrNoMemory text_fault (λ members. members.items) result
        (single_in (view kind.now) (view value.now)) }
{
    let role = None;
    let kind = name_from(FileKind::JobFile, kind)?;
    let tags = tags_at(alloc, FileKind::JobFile, value)?;
    Ok(vec![in alloc; Member { role, kind, tags }]?)
}

/// The members of the job: exactly one of `device_type` and `roles` is there.
#[tactic(auto, unfolding(crate::specs::Job::members_in))]
fn members_of(alloc: Global, value: &Value) -> FileResult<Vec<Member>>
    ensures { OrNoMemory text_fault (λ members. members.items) result
        (members_in (view value.now)) }
{
    let (roles, tags) = (value.get("roles"), value.get("tags"));
    match (value.get("device_type"), roles, tags) {
        (Some(kind), None, _) => single_of(alloc, kind, value),
        (None, Some(roles), None) => roles_of(alloc, table_of(FileKind::JobFile, roles)?),
        (None, None, _) => Err(FileKind::JobFile.bad(Reason::Missing)),
        _ => Err(FileKind::JobFile.bad(Reason::Both)),
    }
}

/// The job that a job file asks for: `Submit` with the file's own text.
///
/// A job file is TOML 1.1 of at most 65,536 bytes. It has `job_name`, a text that is not empty;
/// `priority`, a whole number from 0 to 100 or one of LAVA's words `low`, `medium` and `high`, 50
/// where it is absent; and either `device_type` with, perhaps, `tags`, or `roles`, a table of
/// LAVA's MultiNode roles, each with `device_type`, `count` and, perhaps, `tags`. Other keys are
/// carried in the text. Faults come in the order in which the keys stand here; the first one
/// counts. Roles are taken in the byte order of their names, and the job has one up to four
/// members.
#[tactic(auto, unfolding(crate::specs::Job::job))]
pub fn job_of(alloc: Global, text: &[u8]) -> Result<Cmd, FileFault>
    ensures meaning { OrNoMemory text_fault (λ cmd. cmd) result (job text.now) }
    ensures proper { IfOk result (λ cmd. IsTrue (is_proper_cmd cmd)) }
{
    let text = text_of(FileKind::JobFile, LONGEST_JOB_FILE, text)?;
    let tree = tree_of(alloc, FileKind::JobFile, text)?;
    let _title = title_of(&tree)?;
    let priority = priority_at(&tree)?;
    let members = members_of(alloc, &tree)?;
    group_of(alloc, priority, members, text)
}
