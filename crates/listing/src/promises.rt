// What is promised of listings: a function a statement, whose contract is the statement. Nothing is run; each is called
// nowhere, and the crate is built only where all are proved. The statements stand in specs/Promises.

ghost use Rattle.listing.specs.Promises.{LineByLine, PartsAreTheListing, TurnsMakeTheListing, TestsStayInTheRun, PartsStayGood, PartsGetOn, PartsStayInside, PaperListingHolds, BadLogsHold, RefusedSetupHolds};

// What is to come of a listing, by the front of its log: the end line, a record's line and what lies behind it, or
// the end line of a bad record.
#[tactic(auto, using(crate::proofs::Theorems::line_by_line))]
pub fn line_by_line()
    ensures { LineByLine }
{}

// A part, and what is still to come, are the listing: however the log is cut into parts, and whatever the buffer's
// size.
#[tactic(auto, using(crate::proofs::Theorems::parts_are_the_listing))]
pub fn parts_are_the_listing()
    ensures { PartsAreTheListing }
{}

// So whatever comes in whatever turns, once there is an end line the text is the listing of all that came.
#[tactic(auto, using(crate::proofs::Theorems::turns_make_the_listing))]
pub fn turns_make_the_listing()
    ensures { TurnsMakeTheListing }
{}

// What a test tells of every machine of a run it tells of the machine after a part.
pub fn tests_stay_in_the_run()
    ensures { TestsStayInTheRun }
{}

// So `list` never answers 15 on the way.
#[tactic(auto, using(crate::proofs::Theorems::parts_stay_good))]
pub fn parts_stay_good()
    ensures { PartsStayGood }
{}

// With room for a line and nine bytes, or the last ones, at hand a part gets on, unless the numbers might pass 64
// bits.
#[tactic(auto, using(crate::proofs::Theorems::parts_get_on))]
pub fn parts_get_on()
    ensures { PartsGetOn }
{}

// A part takes no more bytes than are at hand.
#[tactic(auto, using(crate::proofs::Theorems::parts_stay_inside))]
pub fn parts_stay_inside()
    ensures { PartsStayInside }
{}

// The listing of the worked log, to the byte.
#[tactic(auto, using(crate::proofs::Theorems::paper_listing_holds))]
pub fn paper_listing_holds()
    ensures { PaperListingHolds }
{}

// Logs that end with each log refusal, and the empty log.
#[tactic(auto, using(crate::proofs::Theorems::bad_logs_hold))]
pub fn bad_logs_hold()
    ensures { BadLogsHold }
{}

// A refused setup.
#[tactic(auto, using(crate::proofs::Theorems::refused_setup_holds))]
pub fn refused_setup_holds()
    ensures { RefusedSetupHolds }
{}
