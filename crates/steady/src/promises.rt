// What is promised of an event that is followed: a function a statement, whose contract is the statement. Nothing is
// run; each is called nowhere, and the crate is built only where all are proved. The statements stand in
// specs/Promises.

ghost use Rattle.steady.specs.Promises.{FollowsTheStep, StaysHeld, QuietKeepsTheOutput};

// Of such a machine the event comes to just what the step says.
#[tactic(auto, using(crate::proofs::Theorems::follows_the_step))]
pub fn follows_the_step()
    ensures { FollowsTheStep }
{}

// And the machine after it is such a machine again.
pub fn stays_held()
    ensures { StaysHeld }
{}

// Where it is quiet the output is the one before.
#[tactic(auto, using(crate::proofs::Theorems::quiet_keeps_the_output))]
pub fn quiet_keeps_the_output()
    ensures { QuietKeepsTheOutput }
{}
