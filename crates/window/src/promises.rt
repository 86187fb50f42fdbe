// What is promised of windows: a function a statement, whose contract is the statement. Nothing is run; each is called
// nowhere, and the crate is built only where all are proved. The statements stand in specs/Promises.

ghost use Rattle.window.specs.Promises.{RestIsAtHand};

// Behind so many bytes of what is at hand the rest of it is.
#[tactic(auto, using(crate::proofs::Places::rest_is_at_hand))]
pub fn rest_is_at_hand()
    ensures { RestIsAtHand }
{}
