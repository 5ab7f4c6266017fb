//! Laws on the least list, on a pass over the queues, and on how the queue and the free boards
//! follow from one farm to the next.
ghost use Rattle.farm_pick.specs.Follow.{CommandsFollow, BacksFollow, EndsFollow, ChecksFollow};
ghost use Rattle.farm_pick.specs.Follow.{GivingFollows, CollectingFollows};
ghost use Rattle.farm_pick.specs.Least.{SearchGivesLeast, LeastIsOne};
ghost use Rattle.farm_pick.specs.Merged.{MergingServes, UnmetStays, UnmetIsSkipped};

/// The search of the definitions, which takes the first of all lists of boards that meets the
/// wants, gives the least list.
#[tactic(auto, using(crate::proofs::Answering::least_answers))]
pub fn least_is_least()
    ensures { SearchGivesLeast }
{}

/// Some wants have one least list at most.
#[tactic(auto, using(crate::proofs::Answering::one_least))]
pub fn one_least()
    ensures { LeastIsOne }
{}

/// A pass that tries the claim of the group that collected and then, one after the other, the first
/// claim of the farm as it then stands that comes after the last one and whose queue is open or
/// that may collect, serves just what a pass over all claims serves.
#[tactic(auto, using(crate::proofs::Merging::merging_serves))]
pub fn merging_serves()
    ensures { MergingServes }
{}

/// Wants that no free boards meet stay unmet while other claims are tried.
#[tactic(auto, using(crate::proofs::Merging::unmet_stays))]
pub fn unmet_stays()
    ensures { UnmetStays }
{}

/// To try a claim with such wants changes nothing, so it may be passed over, unless it may collect.
#[tactic(auto, using(crate::proofs::Merging::unserved))]
pub fn unmet_is_skipped()
    ensures { UnmetIsSkipped }
{}

/// Submit and Reserve put one claim into the queue, Cancel and CancelRes take one from it at most,
/// and the other commands leave it as it is, a pass aside.
#[tactic(auto, using(crate::proofs::Commands::commands_follow))]
pub fn commands_follow()
    ensures { CommandsFollow }
{}

/// The collecting group that gives its boards back stays in the queue.
#[tactic(auto, using(crate::proofs::Commands::backs_follow))]
pub fn backs_follow()
    ensures { BacksFollow }
{}

/// When the dead reservations end, their claims go from the queue, and no others.
#[tactic(auto, using(crate::proofs::Ending::ends_follow))]
pub fn ends_follow()
    ensures { EndsFollow }
{}

/// The checks of a pass leave the queue as it is.
#[tactic(auto, using(crate::proofs::Checking::checks_follow))]
pub fn checks_follow()
    ensures { ChecksFollow }
{}

/// A claim that is met goes from the queue, and its boards from the free ones: no others.
pub fn giving_follows()
    ensures { GivingFollows }
{}

/// A claim that isn't met stays in the queue, also where it collects.
#[tactic(auto, using(crate::proofs::Collects::collecting_follows))]
pub fn collecting_follows()
    ensures { CollectingFollows }
{}
