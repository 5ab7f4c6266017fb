//! The command that submits a group.
ghost use Rattle.std.specs.Prelude.{◌≡◌, IfOk, ◌≤◌, IsTrue, Some, map, length, true};
ghost use Rattle.std.specs.List.{list_all};
ghost use Rattle.farm_types.specs.Limits.{longest_text};
ghost use Rattle.farm_types.specs.Proper.{is_proper_cmd};
ghost use Rattle.farm_types.specs.declared.calls.Cmd.{Cmd};
ghost use Rattle.farm_types.specs.Reads.{OrNoMemory};
ghost use Rattle.farm_jobfile.specs.Reading.{text_fault};
ghost use Rattle.farm_jobfile.specs.Job.{is_full_want, is_role, want_of, role_of, group_of};

use crate::fault::{FileFault, FileResult};
use farm_types::{Body, Cmd, Name, Priority, Roles, Tags, Want, Wants, copy_name};
use std::alloc::{AllocError, Global};

/// What one job of a group asks for.
#[derive(Debug, Drop)]
pub struct Member {
    /// The role that it plays, where the file names roles.
    pub role: Option<Name>,
    /// The type of its board.
    pub kind: Name,
    /// The tags that its board is to carry.
    pub tags: Tags,
}

impl Member {
    /// An equal member.
    pub(crate) fn copy(&self) -> Result<Member, AllocError>
        ensures { IfOk result (λ member. member ≡ self.now) }
    {
        let role = copy_name(&self.role);
        let kind = self.kind.copy();
        let tags = self.tags.copy()?;
        Ok(Member { role, kind, tags })
    }
}

// Each word is read before it goes into a want or a command: what `as_str`, `items` and `get` ensure is
// how its rule is known there.

/// The want of a board of a type that has these tags.
fn want_of(kind: Name, tags: Tags) -> Want
    ensures kind { result.kind ≡ Some kind }
    ensures tags { result.tags ≡ tags }
    ensures full { is_full_want result ≡ true }
{
    let (_kind, _tags) = (kind.as_str(), tags.items());
    let kind = Some(kind);
    Want { kind, tags }
}

/// The role as it is: a name, or none.
fn role_of(role: Option<Name>) -> Option<Name>
    ensures same { result ≡ role }
    ensures role { is_role result ≡ true }
{
    if let Some(name) = &role {
        let _name = name.as_str();
    }
    role
}

/// The wants and the roles of members.
fn parts_of(
    alloc: Global,
    members: Vec<Member>,
) -> Result<(Vec<Want>, Vec<Option<Name>>), AllocError>
    ensures wants { IfOk result (λ parts. parts.0.items ≡ map want_of members.items) }
    ensures roles { IfOk result (λ parts. parts.1.items ≡ map role_of members.items) }
    ensures full { IfOk result (λ parts. list_all is_full_want parts.0.items ≡ true) }
    ensures named { IfOk result (λ parts. list_all is_role parts.1.items ≡ true) }
{
    let mut wants = Vec::new(alloc);
    let mut roles = Vec::new(alloc);
    for member in members {
        wants.push(want_of(member.kind, member.tags))?;
        roles.push(role_of(member.role))?;
    }
    Ok((wants, roles))
}

/// The command that submits these wants, each of a type, with a role or none for each.
#[tactic(auto, unfolding(farm_types::specs::Proper::is_proper_cmd))]
fn submit(priority: Priority, wants: Wants, roles: Roles, body: Body) -> Cmd
    requires full { list_all is_full_want wants ≡ true }
    requires named { list_all is_role roles ≡ true }
    requires even { length roles ≡ length wants }
    requires short { length body ≤ longest_text }
    ensures cmd { result ≡ Cmd.Submit priority wants roles body }
    ensures proper { IsTrue (is_proper_cmd result) }
{
    let (_priority, _wants, _body) = (priority.get(), wants.items(), body.as_str());
    Cmd::Submit(priority, wants, roles, body)
}

/// The command that submits these members with a text of at most 65,536 bytes; refused as a bad
/// count where there is none, or more than four.
pub(crate) fn group_of(
    alloc: Global,
    priority: Priority,
    members: Vec<Member>,
    text: &str,
) -> FileResult<Cmd>
    requires { length text.now ≤ longest_text }
    ensures meaning { OrNoMemory text_fault (λ cmd. cmd) result
        (group_of priority members.items text.now) }
    ensures proper { IfOk result (λ cmd. IsTrue (is_proper_cmd cmd)) }
{
    let (wants, roles) = parts_of(alloc, members)?;
    let wants = Wants::of(wants).map_err(FileFault::Word)?;
    let body = Body::of(String::from_str(alloc, text)?);
    Ok(submit(priority, wants, Roles::of(roles), body))
}
