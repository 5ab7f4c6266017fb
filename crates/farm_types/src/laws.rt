//! Laws over the machine.
ghost use Rattle.std.specs.Prelude.{◌≡◌, ℕ, List, [], Some, Ok};
ghost use Rattle.farm_types.specs.Agreed.{RefusalsAgree};
ghost use Rattle.farm_types.specs.Words.{IsTags, is_word, word_or};
ghost use Rattle.farm_types.specs.Reads.{by_code};
ghost use Rattle.farm_types.specs.Limits.{longest_key, longest_name};
ghost use Rattle.farm_types.specs.Refusals.{bad_key, bad_name};
ghost use Rattle.farm_types.specs.Tags.{tags_read, tags_text};
ghost use Rattle.farm_types.specs.Codes.{health_code, health_with, state_code, state_with};
ghost use Rattle.farm_types.specs.Codes.{job_state_code, job_state_with, outcome_code};
ghost use Rattle.farm_types.specs.Codes.{outcome_with, res_state_code, res_state_with};
ghost use Rattle.farm_types.specs.declared.rows.Health.{Health};
ghost use Rattle.farm_types.specs.declared.rows.State.{State};
ghost use Rattle.farm_types.specs.declared.rows.JobState.{JobState};
ghost use Rattle.farm_types.specs.declared.rows.Outcome.{Outcome};
ghost use Rattle.farm_types.specs.declared.rows.ResState.{ResState};
ghost use Rattle.farm_types.specs.Farm.{Farm};
ghost use Rattle.farm_types.specs.Machine.{run};

use crate::refusal::Refusal;
use crate::words::{Key, Name};

/// A run of no calls stays.
pub fn nothing_runs()
    ensures { (F : Farm) → run F [] ≡ F }
{}

/// The numbers of refusals that the code gives are those of the definitions.
pub fn refusals_agree()
    ensures { RefusalsAgree }
{}

/// The number of each of a few things gives it back.
pub fn codes_read_back()
    ensures health { (x : Health) → health_with (health_code x) ≡ Some x }
    ensures state { (x : State) → state_with (state_code x) ≡ Some x }
    ensures job_state { (x : JobState) → job_state_with (job_state_code x) ≡ Some x }
    ensures outcome { (x : Outcome) → outcome_with (outcome_code x) ≡ Some x }
    ensures res_state { (x : ResState) → res_state_with (res_state_code x) ≡ Some x }
{}

/// The canonical text of tags reads back as these tags, and no other text does.
pub fn tags_read_back()
    ensures back { (tags : List (List ℕ)) → IsTags tags → tags_read (tags_text tags) ≡ Ok tags }
    ensures only { (tags : List (List ℕ)) (text : List ℕ) → tags_read text ≡ Ok tags
        → tags_text tags ≡ text }
{}

/// A name is a word up to the limit of names, and any other text is refused as no name.
pub fn names_are_parsed(text: &[u8]) -> Result<Name, Refusal>
    ensures { by_code result ≡ word_or (is_word longest_name text.now) text.now bad_name }
{
    Name::parse(text)
}

/// A key is a word up to the limit of keys, and any other text is refused as no key.
pub fn keys_are_parsed(text: &[u8]) -> Result<Key, Refusal>
    ensures { by_code result ≡ word_or (is_word longest_key text.now) text.now bad_key }
{
    Key::parse(text)
}
