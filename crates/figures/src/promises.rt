// What is promised of arguments: a function a statement, whose contract is the statement. Nothing is run; each is
// called nowhere, and the crate is built only where all are proved. The statements stand in specs/Promises.

ghost use Rattle.figures.specs.Promises.{LargeNumbersRefused};

// A setup of any nine numbers is refused exactly where the setup of their words is: a number above 65535 is refused
// in every place.
#[tactic(auto, using(crate::proofs::Refused::large_numbers_refused))]
pub fn large_numbers_refused()
    ensures { LargeNumbersRefused }
{}
