//! The laws that the scripts of `specs/` come out as they were worked out by hand.
ghost use Rattle.farm_worked.specs.WorkedJobs.{AllJobsAsWorked};
ghost use Rattle.farm_worked.specs.WorkedChecks.{AllChecksAsWorked};
ghost use Rattle.farm_worked.specs.WorkedReservations.{AllReservationsAsWorked};
ghost use Rattle.farm_worked.specs.WorkedWhole.{AllAsWorked};
ghost use Rattle.farm_worked.specs.WorkedCollecting.{AllCollectingAsWorked};
ghost use Rattle.farm_worked.specs.Order.{OrderAsWorked};
ghost use Rattle.farm_worked.specs.Groups.{GroupsAsWorked};
ghost use Rattle.farm_worked.specs.Checks.{ChecksAsWorked};
ghost use Rattle.farm_worked.specs.Reservations.{ReservationsAsWorked};
ghost use Rattle.farm_worked.specs.Kept.{KeptAsWorked};
ghost use Rattle.farm_worked.specs.Limits.{LimitsAsWorked};
ghost use Rattle.farm_worked.specs.Full.{FullAsWorked};
ghost use Rattle.farm_worked.specs.Words.{WordsAsWorked};
ghost use Rattle.farm_worked.specs.Book.{BookOfWords, BookOfTables, BookOfReaders, BookOfTags};
ghost use Rattle.farm_worked.specs.Book.{BookOfCodes, BookOfCalled, BookOfRefusals, BookOfFarms};
ghost use Rattle.farm_worked.specs.Book.{BookOfPicks, BookOfPasses, BookOfReasons, BookOfSound};
ghost use Rattle.farm_worked.specs.Book.{BookOfSmall};

/// The scripts of jobs, groups and the plain pass answer and leave what was worked out by hand.
pub fn jobs_as_worked()
    ensures { AllJobsAsWorked }
{}

/// The scripts of health checks answer and leave what was worked out by hand.
pub fn checks_as_worked()
    ensures { AllChecksAsWorked }
{}

/// The scripts of reservations answer and leave what was worked out by hand.
pub fn reservations_as_worked()
    ensures { AllReservationsAsWorked }
{}

/// The scripts of the whole machine answer and leave what was worked out by hand.
pub fn all_as_worked()
    ensures { AllAsWorked }
{}

/// The scripts of groups that collect boards answer and leave what was worked out by hand.
pub fn collecting_as_worked()
    ensures { AllCollectingAsWorked }
{}

/// Rows that are added out of order, and the numbers of a group of four.
pub fn order_as_worked()
    ensures { OrderAsWorked }
{}

/// The rows of a group, from its submission to its end.
pub fn groups_as_worked()
    ensures { GroupsAsWorked }
{}

/// The rows of checks, and of the board that they check.
pub fn check_rows_as_worked()
    ensures { ChecksAsWorked }
{}

/// The rows of reservations beside jobs, and their deadlines.
pub fn reservation_rows_as_worked()
    ensures { ReservationsAsWorked }
{}

/// The kept replies of all fourteen commands.
pub fn kept_as_worked()
    ensures { KeptAsWorked }
{}

/// The last row or number that a farm takes, and the first that it refuses.
pub fn limits_as_worked()
    ensures { LimitsAsWorked }
{}

/// The same at the greatest tables.
pub fn full_as_worked()
    ensures { FullAsWorked }
{}

/// The commands that are proper at a limit, and those beyond it.
pub fn words_as_worked()
    ensures { WordsAsWorked }
{}

/// Examples of single definitions, in the order of the chapters of `docs/MACHINE.md`.
pub fn book_as_worked()
    ensures words { BookOfWords }
    ensures tables { BookOfTables }
    ensures readers { BookOfReaders }
    ensures tags { BookOfTags }
    ensures codes { BookOfCodes }
    ensures called { BookOfCalled }
    ensures refusals { BookOfRefusals }
    ensures farms { BookOfFarms }
    ensures picks { BookOfPicks }
    ensures passes { BookOfPasses }
    ensures reasons { BookOfReasons }
    ensures sound { BookOfSound }
    ensures small { BookOfSmall }
{}
