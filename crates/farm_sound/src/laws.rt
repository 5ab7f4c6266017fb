//! Laws over the machine's definitions.
ghost use Rattle.std.specs.Prelude.{◌≡◌, ◌≢◌, ◌<◌, ◌≤◌, ◌+◌, ◌==◌, ℕ, Bool, List, Option, IsSome};
ghost use Rattle.std.specs.Prelude.{IsSomeAnd, IfSome, Some, None, IsTrue, length, map};
ghost use Rattle.std.specs.List.{filter, AllByRecursion};
ghost use Rattle.std.specs.List.Sorted.{IsStrictlySortedBy, IsPermutation};
ghost use Rattle.std.specs.Str.{bytes_eq};
ghost use Rattle.std.specs.declared.cmp.Ordering.{Ordering};
ghost use Rattle.farm_types.specs.Limits.{longest_text, most_jobs, most_reservations, most_wants};
ghost use Rattle.farm_types.specs.Limits.{numbers_end};
ghost use Rattle.farm_types.specs.Words.{IsName, IsTags, IsText};
ghost use Rattle.farm_types.specs.Proper.{is_priority, is_want};
ghost use Rattle.farm_types.specs.Table.{put, put_all, change_where, type_cmp, board_cmp, job_cmp};
ghost use Rattle.farm_types.specs.Table.{res_cmp, kept_cmp};
ghost use Rattle.farm_types.specs.Farm.{Farm, empty_farm, type_of, board_of, job_of, res_of};
ghost use Rattle.farm_types.specs.Pick.{Claimed, claim_cmp, claims, queue, least, is_free};
ghost use Rattle.farm_types.specs.Pass.{give};
ghost use Rattle.farm_types.specs.Change.{act};
ghost use Rattle.farm_types.specs.Machine.{Changed, answer, step, run};
ghost use Rattle.farm_types.specs.Sound.{IsSound, IsSteady, IsHeldByKeys, IsHeldOnce, phase};
ghost use Rattle.farm_types.specs.declared.calls.Call.{Call};
ghost use Rattle.farm_types.specs.declared.calls.Cmd.{Cmd};
ghost use Rattle.farm_types.specs.declared.rows.BoardRow.{BoardRow};
ghost use Rattle.farm_types.specs.declared.rows.JobRow.{JobRow};
ghost use Rattle.farm_types.specs.declared.rows.JobState.{JobState};
ghost use Rattle.farm_types.specs.declared.rows.KeptRow.{KeptRow};
ghost use Rattle.farm_types.specs.declared.rows.Outcome.{Outcome};
ghost use Rattle.farm_types.specs.declared.rows.Reply.{Reply};
ghost use Rattle.farm_types.specs.declared.rows.ResRow.{ResRow};
ghost use Rattle.farm_types.specs.declared.rows.ResState.{ResState};
ghost use Rattle.farm_types.specs.declared.rows.TypeRow.{TypeRow};
ghost use Rattle.farm_types.specs.declared.rows.Want.{Want};
ghost use Rattle.farm_sound.specs.Served.{IsServed, IsCollectorUnmet};

/// Every call leaves a sound farm.
pub fn step_is_sound()
    ensures { (F : Farm) (call : Call) → IsSound F → IsSound (step F call) }
{}

/// The empty farm is sound, and so is every farm that calls make of a sound one.
pub fn run_is_sound()
    ensures empty { IsSound empty_farm }
    ensures run { (F : Farm) (calls : List Call) → IsSound F → IsSound (run F calls) }
    ensures from_empty { (calls : List Call) → IsSound (run empty_farm calls) }
{}

/// After a pass, and after a call that makes one, no claim of the farm is met by boards that are
/// free in it.
pub fn pass_serves_all()
    ensures pass { (F : Farm) (caller : List ℕ) → IsSound F
        → IsServed (act F caller Cmd.Pass).farm }
    ensures step { (F : Farm) (call : Call) (reply : Reply) → call.cmd ≡ Cmd.Pass
        → answer F call ≡ Changed reply
        → IsSound F → IsServed (step F call) }
{}

/// After a pass, and after a call that makes one, the group that collects isn't met even by the
/// free boards and its own together.
pub fn collector_is_short()
    ensures pass { (F : Farm) (caller : List ℕ) → IsSound F
        → IsCollectorUnmet (act F caller Cmd.Pass).farm }
    ensures step { (F : Farm) (call : Call) (reply : Reply) → call.cmd ≡ Cmd.Pass
        → answer F call ≡ Changed reply
        → IsSound F → IsCollectorUnmet (step F call) }
{}

/// The queue is the claims, each once, in their order.
pub fn queue_is_claims()
    ensures order { (F : Farm) → IsStrictlySortedBy claim_cmp (queue F) }
    ensures each { (F : Farm) → IsSound F → IsPermutation (claims F) (queue F) }
{}

/// Holders found by keys say that no board is held twice and that each board says who holds it, and
/// back.
pub fn held_once()
    ensures once { (F : Farm) → IsSteady F → IsHeldByKeys F → IsHeldOnce F }
    ensures keys { (F : Farm) → IsSteady F → IsHeldOnce F → IsHeldByKeys F }
{}

/// Rows with different keys are put in any order.
pub fn puts_commute()
    ensures types { (rows : List TypeRow) (a b : TypeRow) → type_cmp a b ≢ Ordering.Equal
        → put type_cmp (put type_cmp rows a) b ≡ put type_cmp (put type_cmp rows b) a }
    ensures boards { (rows : List BoardRow) (a b : BoardRow) → board_cmp a b ≢ Ordering.Equal
        → put board_cmp (put board_cmp rows a) b ≡ put board_cmp (put board_cmp rows b) a }
    ensures jobs { (rows : List JobRow) (a b : JobRow) → job_cmp a b ≢ Ordering.Equal
        → put job_cmp (put job_cmp rows a) b ≡ put job_cmp (put job_cmp rows b) a }
    ensures reservations { (rows : List ResRow) (a b : ResRow) → res_cmp a b ≢ Ordering.Equal
        → put res_cmp (put res_cmp rows a) b ≡ put res_cmp (put res_cmp rows b) a }
    ensures kept { (rows : List KeptRow) (a b : KeptRow) → kept_cmp a b ≢ Ordering.Equal
        → put kept_cmp (put kept_cmp rows a) b ≡ put kept_cmp (put kept_cmp rows b) a }
{}

/// Changing the rows that pass is putting the changed rows one after another.
pub fn changes_are_puts()
    ensures jobs { (test : JobRow → Bool) (f : JobRow → JobRow) (rows : List JobRow)
        → ((j : JobRow) → (f j).number ≡ j.number)
        → IsStrictlySortedBy job_cmp rows → put_all job_cmp rows (map f (filter test rows))
        ≡ change_where test f rows }
    ensures reservations { (test : ResRow → Bool) (f : ResRow → ResRow) (rows : List ResRow)
        → ((r : ResRow) → (f r).number ≡ r.number)
        → IsStrictlySortedBy res_cmp rows → put_all res_cmp rows (map f (filter test rows))
        ≡ change_where test f rows }
    ensures boards { (test : BoardRow → Bool) (f : BoardRow → BoardRow) (rows : List BoardRow)
        → ((b : BoardRow) → (f b).name ≡ b.name)
        → IsStrictlySortedBy board_cmp rows → put_all board_cmp rows (map f (filter test rows))
        ≡ change_where test f rows }
{}

/// Changing the row with a key is putting the changed row.
pub fn change_is_a_put()
    ensures job { (F : Farm) (f : JobRow → JobRow) (n : ℕ) (j : JobRow)
        → ((k : JobRow) → (f k).number ≡ k.number)
        → IsStrictlySortedBy job_cmp F.jobs → job_of F n ≡ Some j
        → put job_cmp F.jobs (f j) ≡ change_where (λ k. k.number == n) f F.jobs }
    ensures reservation { (F : Farm) (f : ResRow → ResRow) (n : ℕ) (r : ResRow)
        → ((q : ResRow) → (f q).number ≡ q.number)
        → IsStrictlySortedBy res_cmp F.reservations → res_of F n ≡ Some r
        → put res_cmp F.reservations (f r) ≡ change_where (λ q. q.number == n) f F.reservations }
    ensures board { (F : Farm) (f : BoardRow → BoardRow) (name : List ℕ) (b : BoardRow)
        → ((c : BoardRow) → (f c).name ≡ c.name)
        → IsStrictlySortedBy board_cmp F.boards → board_of F name ≡ Some b
        → put board_cmp F.boards (f b) ≡ change_where (λ c. bytes_eq c.name name) f F.boards }
{}

/// A claim that no free boards meet stays unmet when another claim is given boards.
pub fn unmet_stays()
    ensures { (F : Farm) (c : Claimed) (bs : List BoardRow) (t : ℕ) (wants : List Want)
        → IsStrictlySortedBy board_cmp (give F c bs t).boards
        → least F.boards (is_free F.types) wants ≡ None
        → least (give F c bs t).boards (is_free (give F c bs t).types) wants ≡ None }
{}

/// A submitted group leaves a sound farm.
pub fn submit_is_sound()
    ensures { (F : Farm) (caller : List ℕ) (priority : ℕ) (wants : List Want)
        (roles : List (Option (List ℕ))) (body : List ℕ)
        → IsSound F → IsName caller → IsTrue (is_priority priority) → length body ≤ longest_text
        → IsText body
        → AllByRecursion (λ w. IsSomeAnd w.kind (λ kind. IsSome (type_of F kind))
        × IsTrue (is_want w)) wants
        → AllByRecursion (λ r. IfSome r IsName) roles → length roles ≡ length wants
        → length wants ≤ most_wants
        → length F.jobs + length wants ≤ most_jobs → F.next + length wants ≤ numbers_end
        → IsSound (act F caller (Cmd.Submit priority wants roles body)).farm }
{}

/// The commands on a job leave a sound farm.
pub fn jobs_are_sound()
    ensures cancel { (F : Farm) (caller : List ℕ) (n : ℕ) (j : JobRow) → job_of F n ≡ Some j
        → IsSound F → IsSound (act F caller (Cmd.Cancel n)).farm }
    ensures start { (F : Farm) (caller : List ℕ) (n : ℕ) (j : JobRow) → job_of F n ≡ Some j
        → j.state ≡ JobState.Scheduled
        → IsSound F → IsSound (act F caller (Cmd.Start n)).farm }
    ensures finish { (F : Farm) (caller : List ℕ) (n : ℕ) (j : JobRow) (outcome : Outcome)
        → job_of F n ≡ Some j → phase j.state ≡ 2
        → (j.state ≡ JobState.Finished → ⊥) → IsSound F
        → IsSound (act F caller (Cmd.Finish n outcome)).farm }
{}

/// The commands on a reservation leave a sound farm.
pub fn reservations_are_sound()
    ensures reserve { (F : Farm) (caller : List ℕ) (priority : ℕ) (tags : List (List ℕ))
        → IsName caller → IsTrue (is_priority priority)
        → IsTags tags → length F.reservations < most_reservations → F.next < numbers_end
        → IsSound F → IsSound (act F caller (Cmd.Reserve priority tags)).farm }
    ensures acquire { (F : Farm) (caller : List ℕ) (n : ℕ) (r : ResRow) → res_of F n ≡ Some r
        → r.state ≡ ResState.Allocated
        → IsSound F → IsSound (act F caller (Cmd.Acquire n)).farm }
    ensures release { (F : Farm) (caller : List ℕ) (n : ℕ) (r : ResRow) → res_of F n ≡ Some r
        → r.state ≡ ResState.Acquired
        → IsSound F → IsSound (act F caller (Cmd.Release n)).farm }
    ensures refresh { (F : Farm) (caller : List ℕ) (n : ℕ) → IsSound F
        → IsSound (act F caller (Cmd.Refresh n)).farm }
    ensures cancel { (F : Farm) (caller : List ℕ) (n : ℕ) → IsSound F
        → IsSound (act F caller (Cmd.CancelRes n)).farm }
{}

/// A pass leaves a sound farm.
pub fn pass_is_sound()
    ensures { (F : Farm) (caller : List ℕ) → IsSound F → IsSound (act F caller Cmd.Pass).farm }
{}

/// While no group collects, no job is Scheduling.
pub fn none_is_scheduling()
    ensures { (F : Farm) → IsSound F → F.collector ≡ 0
        → AllByRecursion (λ j. j.state ≢ JobState.Scheduling) F.jobs }
{}
