//! What answers show as JSON: rows, claims, replies, refusals and the numbers of the farm.
ghost use Rattle.std.specs.Prelude.{◌≡◌};
ghost use Rattle.farm_types.specs.Small.{every_of};
ghost use Rattle.farm_wire.specs.Shown.{job_kind};

use crate::shown::{JsonValue, ToJson, put_object};
use crate::text::Sink;
use farm_types::{
    BoardRow, Check, Claim, JobRow, Outcome, Refusal, Reply, ResRow, Status, TypeRow,
};
use std::alloc::AllocError;

/// A check's frequency, and 0 without a check.
fn every_of(check: Check) -> u64
    ensures { result ≡ every_of check }
{
    match check {
        Check::Never => 0,
        Check::Hours(every) | Check::Jobs(every) => every,
    }
}

impl ToJson for TypeRow {
    ghost use Rattle.farm_wire.specs.Shown.{type_data};

    ghost json = { type_data };

    fn print<S: Sink>(&self, sink: &mut S) -> Result<(), AllocError> {
        let members = [
            ("check", JsonValue::Text(self.check.unit().word())),
            ("every", JsonValue::Number(every_of(self.check))),
            ("name", JsonValue::Name(&self.name)),
        ];
        put_object(sink, &members)
    }
}

impl ToJson for BoardRow {
    ghost use Rattle.farm_wire.specs.Shown.{board_data};

    ghost json = { board_data };

    fn print<S: Sink>(&self, sink: &mut S) -> Result<(), AllocError> {
        let members = [
            ("health", JsonValue::Text(self.health.word())),
            ("holder", JsonValue::Holder(self.holder)),
            ("jobs_since", JsonValue::Number(self.jobs_since)),
            ("last_check", JsonValue::Number(self.last_check)),
            ("name", JsonValue::Name(&self.name)),
            ("state", JsonValue::Text(self.state.word())),
            ("tags", JsonValue::Tags(&self.tags)),
            ("type", JsonValue::Name(&self.kind)),
        ];
        put_object(sink, &members)
    }
}

/// Whether a job is a check.
fn job_kind(checking: bool) -> &'static str
    ensures { result.now ≡ job_kind checking }
{
    if checking { "check" } else { "ordinary" }
}

impl ToJson for JobRow {
    ghost use Rattle.farm_wire.specs.Shown.{job_data};

    ghost json = { job_data };

    fn print<S: Sink>(&self, sink: &mut S) -> Result<(), AllocError> {
        // How it ended; the empty text where it hasn't.
        let ended = self.outcome.map_or("", Outcome::word);
        let members = [
            ("board", JsonValue::NameOrNone(&self.board)),
            ("group", JsonValue::Number(self.group)),
            ("kind", JsonValue::Text(job_kind(self.checking))),
            ("number", JsonValue::Number(self.number)),
            ("owner", JsonValue::Name(&self.owner)),
            ("priority", JsonValue::Number(self.priority.get())),
            ("result", JsonValue::Text(ended)),
            ("role", JsonValue::NameOrNone(&self.role)),
            ("state", JsonValue::Text(self.state.word())),
            ("tags", JsonValue::Tags(&self.want.tags)),
            ("text", JsonValue::Text(self.body.as_str())),
            ("type", JsonValue::NameOrNone(&self.want.kind)),
        ];
        put_object(sink, &members)
    }
}

impl ToJson for Claim {
    ghost use Rattle.farm_wire.specs.Shown.{claim_data};

    ghost json = { claim_data };

    fn print<S: Sink>(&self, sink: &mut S) -> Result<(), AllocError> {
        let members = [
            ("boards", JsonValue::Number(self.boards)),
            ("kind", JsonValue::Text(self.kind.word())),
            ("number", JsonValue::Number(self.number)),
            ("owner", JsonValue::Name(&self.owner)),
            ("priority", JsonValue::Number(self.priority.get())),
        ];
        put_object(sink, &members)
    }
}

impl ToJson for ResRow {
    ghost use Rattle.farm_wire.specs.Shown.{res_data};

    ghost json = { res_data };

    fn print<S: Sink>(&self, sink: &mut S) -> Result<(), AllocError> {
        let members = [
            ("board", JsonValue::NameOrNone(&self.board)),
            ("deadline", JsonValue::Number(self.deadline)),
            ("number", JsonValue::Number(self.number)),
            ("owner", JsonValue::Name(&self.owner)),
            ("priority", JsonValue::Number(self.priority.get())),
            ("state", JsonValue::Text(self.state.word())),
            ("tags", JsonValue::Tags(&self.want.tags)),
        ];
        put_object(sink, &members)
    }
}

/// The number of the command whose reply counts checks, expired reservations and served claims.
const PASS: u64 = 14;

/// A reply to the command of that number.
#[derive(Drop)]
pub(crate) struct ReplyTo(pub u64, pub Reply);

impl ToJson for ReplyTo {
    ghost use Rattle.farm_wire.specs.Shown.{reply_data};

    ghost json = { λ shown. reply_data shown.0 shown.1 };

    fn print<S: Sink>(&self, sink: &mut S) -> Result<(), AllocError> {
        let Reply(first, second, third) = self.1;
        if self.0 == PASS {
            let members = [
                ("checks", JsonValue::Number(first)),
                ("expired", JsonValue::Number(second)),
                ("served", JsonValue::Number(third)),
            ];
            put_object(sink, &members)
        } else {
            put_object(sink, &[("number", JsonValue::Number(first))])
        }
    }
}

impl ToJson for Refusal {
    ghost use Rattle.farm_wire.specs.Shown.{refusal_data};

    ghost json = { λ refusal. refusal_data refusal.code };

    fn print<S: Sink>(&self, sink: &mut S) -> Result<(), AllocError> {
        let members = [
            ("code", JsonValue::Number(u64::from(self.code))),
            ("text", JsonValue::Text(self.text())),
        ];
        put_object(sink, &members)
    }
}

impl ToJson for Status {
    ghost use Rattle.farm_wire.specs.Shown.{status_data};

    ghost json = { status_data };

    fn print<S: Sink>(&self, sink: &mut S) -> Result<(), AllocError> {
        let members = [
            ("boards", JsonValue::Number(self.boards)),
            ("clock", JsonValue::Number(self.clock)),
            ("collector", JsonValue::Number(self.collector)),
            ("count", JsonValue::Number(self.count)),
            ("jobs", JsonValue::Number(self.jobs)),
            ("next", JsonValue::Number(self.next)),
            ("reservations", JsonValue::Number(self.reservations)),
            ("types", JsonValue::Number(self.types)),
        ];
        put_object(sink, &members)
    }
}
