// Text made of what a reader gives, and written: a maker makes it part by part in buffers that the caller lends, so
// that any length takes the same memory. Nothing is flushed: a writer that buffers is its owner's to flush.
#![tactic(auto)]

ghost use Rattle.std.specs.Prelude.{◌≡◌, ℕ, List, true, false, ◌+◌, ◌^◌, ◌<◌, ◌≤◌, ◌⊎◌, length, take, Err, OnOk, OnErr, IfErr, IfSome};
ghost use Rattle.std.specs.Io.KnownBytes.{Appends};
ghost use Rattle.window.specs.Windows.{at_hand};
ghost use Rattle.making.specs.Making.{AppendsFront, Makes, GetsOn, IsLong, EndsAt, end_in, ended_at};
ghost use Rattle.making.specs.declared.Failure.TheVariants.{TooShort, TooLong};

use parts::Part;
use std::io;
use std::io::{Error, ErrorKind, Read, Write};
use window::Window;

// A MAKER

// What makes one text of another, part by part.
pub trait Maker {
    // What is behind by then.
    type State: Copy;

    // What is told of the whole once it has ended.
    type End: Copy;

    // The text that is still to be made, where these bytes are all that is still to come.
    ghost text: { Self.State → List ℕ → List ℕ };

    // The ends that are right then, with the state in which it ends and what it leaves of the bytes.
    ghost ends: { Self.State → List ℕ → Self.End → Self.State → List ℕ → Type 0 };

    // How many of the numbers that it counts in 64 bits are used up.
    ghost used: { Self.State → ℕ };

    // So many bytes at hand settle what comes next.
    ghost SETTLING: { ℕ };

    // So much room is enough for what comes next.
    ghost MOST: { ℕ };

    const SETTLING: usize;

    const MOST: usize;

    // The text that bytes at hand make, at the front of a buffer, as much of it as is settled and there is room for.
    // last says that no more will come.
    fn part(
        state: Self::State,
        bytes: &[u8],
        last: bool,
        out: &mut [u8],
    ) -> Part<Self::State, Self::End>
        ensures inside { (result.taken ≤ length bytes.now) × (result.place ≤ length out.new) }
        ensures same { Makes text ends state bytes.now last result (take result.place out.new) }
        ensures gets_on { GetsOn SETTLING MOST used state bytes.now last (length out.old) result };
}

// THE WHOLE

// The end: its outcome, what is behind by then, and the window on what is left.
#[derive(Clone, Copy, Debug, PartialEq, Eq)]
pub struct Ended<S, E> {
    pub outcome: E,
    pub state: S,
    pub at: Window,
}

// Why the whole was not written: a buffer is too short for what has to fit, a read or a write failed, or what is read
// is too long for 64 bits to count. What could not be written may be the last of it: then there is an end all the same.
#[derive(Clone, Copy)]
pub enum Failure<S, E> {
    TooShort,
    Reading(Error),
    Writing {
        why: Error,
        end: Option<Ended<S, E>>,
    },
    TooLong,
}

// Writes all that a maker makes of what the reader has left, from a state on.
pub fn run<M: Maker, R: Read, W: Write>(
    start: M::State,
    input: &mut R,
    output: &mut W,
    window: &mut [u8],
    out: &mut [u8],
) -> Result<Ended<M::State, M::End>, Failure<M::State, M::End>>
    // All of it.
    ensures ok { OnOk result (IfSome (R.remaining input.old) (λ bytes.
        Appends (W.contents output.old) (W.contents output.new) (M.text start bytes))) }
    // Or the front of it.
    ensures err { OnErr result (IfSome (R.remaining input.old) (λ bytes.
        AppendsFront (W.contents output.old) (W.contents output.new) (M.text start bytes))) }
    // What it ends with, and what is left then: at hand, and in the reader.
    ensures end { IfSome (end_in result) (λ end. IfSome (R.remaining input.old) (λ bytes.
        EndsAt (M.ends start bytes end.outcome end.state) (at_hand window.new end.at) (R.remaining input.new))) }
    ensures there { IfSome (end_in result) (λ end. (end.at.from ≤ end.at.to) × (end.at.to ≤ length window.new)) }
    // A buffer is too short for what settles the next of it, or for the most that comes of that; and no other is said
    // so.
    ensures too_short { IfErr result (λ why. why ≡ TooShort → (length window.old < M.SETTLING) ⊎ (length out.old < M.MOST)) }
    ensures short { (length window.old < M.SETTLING) ⊎ (length out.old < M.MOST) → result ≡ Err TooShort }
    // So much that a number of the maker's passes 64 bits, or the bytes do.
    ensures too_long { IfErr result (λ why. why ≡ TooLong → IfSome (R.remaining input.old) (λ bytes.
        (2 ^ 64 ≤ M.used start + length bytes) ⊎ IsLong bytes (M.text start bytes))) }
{
    let is_short = (window.len() < M::SETTLING) | (out.len() < M::MOST);
    if is_short {
        return Err(Failure::TooShort);
    }
    let mut state = start;
    let mut at = window::unread();
    // A loop has to end; no input uses up so many turns.
    for _ in 0..u64::MAX {
        at = match window::refill(input, window, M::SETTLING, at) {
            Ok(next) => next,
            Err(why) => return Err(Failure::Reading(why)),
        };
        let left = at.to - at.from;
        let Part {
            end,
            state: next,
            taken,
            place,
        } = M::part(state, &window[at.from..at.to], at.last, out);
        let is_stuck = is_stuck(M::SETTLING, left, at.last, taken, place);
        at = window::passed(at, taken);
        let end = ended_at(end, next, at);
        match write_whole(output, &out[..place]) {
            Ok(()) => {}
            Err(why) => return Err(Failure::Writing { why, end }),
        }
        match end {
            Some(end) => return Ok(end),
            None => {}
        }
        if is_stuck {
            return Err(Failure::TooLong);
        }
        state = next;
    }
    Err(Failure::TooLong)
}

// The end, with the window behind it, if it has come.
fn ended_at<S: Copy, E: Copy>(end: Option<E>, state: S, at: Window) -> Option<Ended<S, E>>
    ensures { result ≡ ended_at end state at }
{
    match end {
        Some(outcome) => Some(Ended { outcome, state, at }),
        None => None,
    }
}

// Whether nothing was taken and nothing made where the next was settled.
fn is_stuck(settling: usize, left: usize, last: bool, taken: usize, made: usize) -> bool
    ensures stuck { result ≡ true → ((settling ≤ left) ⊎ (last ≡ true)) × (taken ≡ 0) × (made ≡ 0) }
    ensures free { result ≡ false → (settling ≤ left) ⊎ (last ≡ true) → 0 < taken + made }
{
    ((settling <= left) | last) & (taken == 0) & (made == 0)
}

// Writes bytes, all of them unless a write fails.
pub fn write_whole<W: Write>(output: &mut W, bytes: &[u8]) -> io::Result<()>
    ensures ok { OnOk result (Appends (W.contents output.old) (W.contents output.new) bytes.now) }
    ensures err { OnErr result (AppendsFront (W.contents output.old) (W.contents output.new) bytes.now) }
{
    let mut rest = bytes;
    // A loop has to end; no input uses up so many turns.
    for _ in 0..u64::MAX {
        if rest.is_empty() {
            return Ok(());
        }
        match output.write(rest) {
            Ok(0) => return Err(none_written()),
            Ok(n) => rest = &rest[n..],
            Err(why) => {
                if why.kind() != ErrorKind::Interrupted {
                    return Err(why);
                }
            }
        }
    }
    Err(none_written())
}

// What the library says of it.
fn none_written() -> Error {
    Error::new(ErrorKind::WriteZero, "failed to write whole buffer")
}
