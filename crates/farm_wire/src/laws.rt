//! Laws of the paths, of the statuses and of the keys of answers.
ghost use Rattle.std.specs.Prelude.{◌≡◌, ℕ, ◌<◌, ◌∷◌, ◌++◌, List, codes, false, Some, None};
ghost use Rattle.matchit.specs.Seek.{has_slash};
ghost use Rattle.farm_types.specs.declared.claims.Claim.{Claim};
ghost use Rattle.farm_types.specs.declared.claims.Status.{Status};
ghost use Rattle.farm_types.specs.declared.rows.BoardRow.{BoardRow};
ghost use Rattle.farm_types.specs.declared.rows.JobRow.{JobRow};
ghost use Rattle.farm_types.specs.declared.rows.Reply.{Reply};
ghost use Rattle.farm_types.specs.declared.rows.ResRow.{ResRow};
ghost use Rattle.farm_types.specs.declared.rows.TypeRow.{TypeRow};
ghost use Rattle.farm_wire.specs.Keys.{KeysRise};
ghost use Rattle.farm_wire.specs.Parameters.{parameter};
ghost use Rattle.farm_wire.specs.Replies.{ok_status, method_status, unavailable_status};
ghost use Rattle.farm_wire.specs.Routes.{LeadsTo, route_at};
ghost use Rattle.farm_wire.specs.Shown.{type_data, board_data, claim_data, res_data, job_data};
ghost use Rattle.farm_wire.specs.Shown.{status_data, refusal_data, reply_data};
ghost use Rattle.farm_wire.specs.declared.answers.TheConstants.{OK, METHOD_NOT_ALLOWED, UNAVAILABLE};
ghost use Rattle.farm_wire.specs.declared.router.CommandKind.{CommandKind};
ghost use Rattle.farm_wire.specs.declared.router.Route.{Route};
ghost use Rattle.farm_wire.specs.declared.router.ViewKind.{ViewKind};

/// The statuses that the code gives are those of the definitions.
pub fn statuses_agree()
    ensures ok { OK ≡ ok_status }
    ensures method { METHOD_NOT_ALLOWED ≡ method_status }
    ensures unavailable { UNAVAILABLE ≡ unavailable_status }
{}

/// Where each path with a parameter leads, whatever the parameter.
pub fn paths_with_a_parameter()
    ensures tags { LeadsTo (codes "/boards/") (codes "/tags") (Route.Post CommandKind.SetTags) }
    ensures health { LeadsTo (codes "/boards/") (codes "/health")
        (Route.Post CommandKind.SetHealth) }
    ensures job { (b : ℕ) (s : List ℕ) → b < 256 → has_slash (b ∷ s) ≡ false
        → route_at (codes "/jobs/" ++ (b ∷ s)) ≡ Some (Route.Get ViewKind.Job) }
    ensures cancel { LeadsTo (codes "/jobs/") (codes "/cancel") (Route.Post CommandKind.Cancel) }
    ensures start { LeadsTo (codes "/jobs/") (codes "/start") (Route.Post CommandKind.Start) }
    ensures finish { LeadsTo (codes "/jobs/") (codes "/finish") (Route.Post CommandKind.Finish) }
    ensures acquire { LeadsTo (codes "/reservations/") (codes "/acquire")
        (Route.Post CommandKind.Acquire) }
    ensures release { LeadsTo (codes "/reservations/") (codes "/release")
        (Route.Post CommandKind.Release) }
    ensures refresh { LeadsTo (codes "/reservations/") (codes "/refresh")
        (Route.Post CommandKind.Refresh) }
    ensures cancel_reservation { LeadsTo (codes "/reservations/") (codes "/cancel")
        (Route.Post CommandKind.CancelReservation) }
{}

/// The parameter of such a path is what stands between front and back.
pub fn parameters()
    ensures middle { (front s back : List ℕ) → has_slash s ≡ false
        → parameter front (front ++ (s ++ 47 ∷ back)) ≡ s }
    ensures last { (front s : List ℕ) → has_slash s ≡ false → parameter front (front ++ s) ≡ s }
{}

/// Where paths lead that are nearly those of the table.
pub fn other_paths()
    ensures empty { route_at (codes "/boards//tags") ≡ None }
    ensures slash { route_at (codes "/types/") ≡ None }
    ensures star { route_at (codes "*") ≡ None }
    ensures root { route_at (codes "/") ≡ None }
    ensures absolute { route_at (codes "http://farm/types") ≡ None }
{}

/// The keys of each object stand in byte order, whatever is shown.
pub fn keys_in_order()
    ensures reply { (kind : ℕ) (reply : Reply) → KeysRise (reply_data kind reply) }
    ensures refusal { (code : ℕ) → KeysRise (refusal_data code) }
    ensures types { (row : TypeRow) → KeysRise (type_data row) }
    ensures boards { (row : BoardRow) → KeysRise (board_data row) }
    ensures queue { (claim : Claim) → KeysRise (claim_data claim) }
    ensures reservations { (row : ResRow) → KeysRise (res_data row) }
    ensures job { (row : JobRow) → KeysRise (job_data row) }
    ensures status { (status : Status) → KeysRise (status_data status) }
{}
