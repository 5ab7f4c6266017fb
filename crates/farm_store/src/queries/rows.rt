//! The rows of a table, read one after another, and their columns as words and numbers.
ghost use Rattle.std.specs.Prelude.{◌≡◌, ◌≢◌, pos, false, IsTrue, IfErr, IfOk, IfSome, MatchResult};
ghost use Rattle.std.specs.Prelude.{unwrap_or, ⊤, []};
ghost use Rattle.std.specs.Option.{option_map_or};
ghost use Rattle.sqlite.specs.Held.{state};
ghost use Rattle.sqlite.specs.State.{HasCleanDisk};
ghost use Rattle.sqlite.specs.declared.types.Value.TheVariants.{Int, Text};
ghost use Rattle.sqlite_value.specs.Order.{column};
ghost use Rattle.farm_types.specs.Words.{IsTags, IsText, is_word};
ghost use Rattle.farm_types.specs.Tags.{tags_text};
ghost use Rattle.farm_types.specs.Codes.{outcome_code};
ghost use Rattle.farm_store.specs.Columns.{TableRows, checking_code};
ghost use Rattle.farm_store.specs.Editions.{IsStateIn, state_code_in};
ghost use Rattle.farm_store.specs.Holds.{ReadsOnly};
ghost use Rattle.farm_store.specs.Reading.{ReadsAll, ReadsAs, ReadsWord, IsNoVersionFault, StandsIn};

use crate::edition::Edition;
use crate::fault::StoreFault;
use crate::stored::Stored;
use farm_types::{BAD_STORE, Body, JobState, Outcome, Refusal, Tags, Word, WordFault};
use sqlite::types::ValueRef;
use sqlite::{Alter, Connection, Row};
use std::alloc::{AllocError, Global};

/// How many lists of tags are remembered.
const MOST: usize = 64;

/// What a table's rows are read with. It remembers the first lists of tags that were read, each once,
/// so that rows with equal tags have them in the same memory.
#[derive(Drop)]
pub(crate) struct Reader {
    pub(crate) alloc: Global,
    pub(crate) edition: Edition,
    lists: Vec<Tags>,
}

impl Reader {
    /// Equal tags, in the memory of those that came before, where they are remembered. They are
    /// compared with at most `MOST` lists.
    pub(crate) fn share(&mut self, tags: Tags) -> Result<Tags, AllocError>
        ensures same { IfOk result (λ shared. shared ≡ tags) }
        ensures edition { self.new.edition ≡ self.old.edition }
    {
        if let Some(seen) = self.lists.iter().find(|seen| seen.is(&tags)) {
            return seen.copy();
        }
        if self.lists.len() < MOST {
            self.lists.push(tags.copy()?)?;
        }
        Ok(tags)
    }
}

/// What all rows of the table stand for in an edition, in order of their keys. It holds one row of
/// the store at a time, and begins with room for the rows that are expected, if there is any.
pub(crate) fn read<R: Stored, S: Alter>(
    alloc: Global,
    conn: &mut Connection<S>,
    edition: Edition,
    expected: usize,
) -> Result<Vec<R>, StoreFault>
    requires autocommit { conn.old.in_transaction ≡ false }
    ensures only { ReadsOnly (state S.Store conn.old) (state S.Store conn.new) }
    ensures read { HasCleanDisk (state S.Store conn.new) → (T : TableRows)
        → StandsIn edition (state S.Store conn.old) T
        → ReadsAll result (λ all. all.items) (R.IsGood edition) (R.columns edition)
        ((R.place edition).rows T) }
    ensures fault { IfErr result IsNoVersionFault }
{
    let mut all = Vec::new(alloc);
    let _room = all.reserve_exact(expected);
    let mut reader = Reader {
        alloc,
        edition,
        lists: Vec::new(alloc),
    };
    let mut rows = conn.query(R::query(edition), &[])?;
    'rows: for _ in 0..u64::MAX {
        let Some(row) = rows.next()? else {
            return Ok(all);
        };
        let stored = R::of(row, &mut reader)?;
        let Ok(()) = all.push(stored) else {
            return Err(StoreFault::NoMemory);
        };
    }
    // (no memory holds so many rows)
    Err(StoreFault::NoMemory)
}

/// The refusal of what stands in no row of a farm.
pub(crate) const BAD: Refusal = Refusal { code: BAD_STORE };

pub(crate) fn text_at(row: &Row, at: usize) -> Result<&[u8], Refusal>
    ensures { MatchResult result (λ text. column row.now at ≡ Text text.now)
        (λ _. (text : _) → column row.now at ≢ Text text) }
{
    match row.get_ref(at) {
        Ok(ValueRef::Text(text)) => Ok(text),
        _ => Err(BAD),
    }
}

pub(crate) fn number_at(row: &Row, at: usize) -> Result<u64, Refusal>
    ensures { ReadsAs result (λ _. ⊤) (λ n. Int (pos n)) (column row.now at) }
{
    match row.get_ref(at) {
        Ok(ValueRef::Int(n)) => u64::try_from(n).map_err(|_| BAD),
        _ => Err(BAD),
    }
}

pub(crate) fn word_at<const MOST: usize, const CODE: u16>(
    row: &Row,
    at: usize,
) -> Result<Word<MOST, CODE>, Refusal>
    ensures { ReadsAs result (λ word. IsTrue (is_word MOST word)) Text (column row.now at) }
{
    Word::parse(text_at(row, at)?)
}

/// No word where the text is empty.
pub(crate) fn word_if_any_at<const MOST: usize, const CODE: u16>(
    row: &Row,
    at: usize,
) -> Result<Option<Word<MOST, CODE>>, Refusal>
    ensures { ReadsAs result (λ word. IfSome word (λ w. IsTrue (is_word MOST w)))
        (λ word. Text (unwrap_or word [])) (column row.now at) }
{
    let text = text_at(row, at)?;
    if text.is_empty() {
        return Ok(None);
    }
    Ok(Some(Word::parse(text)?))
}

pub(crate) fn tags_at(row: &Row, at: usize, reader: &mut Reader) -> Result<Tags, WordFault>
    ensures reads { ReadsWord result IsTags (λ tags. Text (tags_text tags)) (column row.now at) }
    ensures edition { reader.new.edition ≡ reader.old.edition }
{
    let tags = Tags::parse(reader.alloc, text_at(row, at)?)?;
    Ok(reader.share(tags)?)
}

pub(crate) fn body_at(row: &Row, at: usize, reader: &Reader) -> Result<Body, WordFault>
    ensures { ReadsWord result IsText Text (column row.now at) }
{
    match std::str::from_utf8(text_at(row, at)?) {
        Ok(text) => Ok(Body::of(String::from_str(reader.alloc, text)?)),
        Err(_) => Err(WordFault::Refused(BAD)),
    }
}

#[tactic(auto, using(crate::proofs::SmallCodes::first_code_is_low))]
pub(crate) fn job_state_at(row: &Row, at: usize, edition: Edition) -> Result<JobState, Refusal>
    ensures { ReadsAs result (IsStateIn edition) (λ state. Int (pos (state_code_in edition state)))
        (column row.now at) }
{
    match (edition, number_at(row, at)?) {
        (Edition::Second, code) => JobState::from_code(code).ok_or(BAD),
        (Edition::First, 0) => Ok(JobState::Submitted),
        (Edition::First, 1) => Ok(JobState::Scheduled),
        (Edition::First, 2) => Ok(JobState::Running),
        (Edition::First, 3) => Ok(JobState::Canceling),
        (Edition::First, 4) => Ok(JobState::Finished),
        (Edition::First, _) => Err(BAD),
    }
}

/// No outcome where the number is 0.
pub(crate) fn outcome_at(row: &Row, at: usize) -> Result<Option<Outcome>, Refusal>
    ensures { ReadsAs result (λ _. ⊤) (λ outcome. Int (pos (option_map_or outcome_code outcome 0)))
        (column row.now at) }
{
    match number_at(row, at)? {
        0 => Ok(None),
        code => Ok(Some(Outcome::from_code(code).ok_or(BAD)?)),
    }
}

pub(crate) fn checking_at(row: &Row, at: usize) -> Result<bool, Refusal>
    ensures { ReadsAs result (λ _. ⊤) (λ checking. Int (pos (checking_code checking)))
        (column row.now at) }
{
    match number_at(row, at)? {
        0 => Ok(false),
        1 => Ok(true),
        _ => Err(BAD),
    }
}
