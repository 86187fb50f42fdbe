// A window on what is read: what is at hand of it stands in a buffer that the caller lends, and is refilled, so that a
// file of any length takes the same memory. Beside it what programs need that read and write: to fill a buffer, and to
// say what failed.
#![tactic(auto)]

ghost use Rattle.std.specs.Prelude.{◌≡◌, false, ◌-◌, ◌≤◌, length, take, IfOk, OnErr};
ghost use Rattle.std.specs.Io.KnownBytes.{Consumes, Keeps};
ghost use Rattle.window.specs.Windows.{at_hand, behind, rests, Refilled, Streams, Ends, Grows, Stays};

pub mod promises;

use std::io;
use std::io::{Error, ErrorKind, Read, Write};

// What is at hand: the bytes of the buffer from one place up to another. last says that no more will come.
#[derive(Clone, Copy, Debug, PartialEq, Eq)]
pub struct Window {
    pub from: usize,
    pub to: usize,
    pub last: bool,
}

// Nothing yet.
pub fn unread() -> Window
    ensures { result ≡ record { from = 0; to = 0; last = false } }
{
    Window {
        from: 0,
        to: 0,
        last: false,
    }
}

// The window behind so many bytes of what is at hand.
#[tactic(auto, unfolding(crate::specs::Windows::behind))]
pub fn passed(at: Window, taken: usize) -> Window
    ensures { result ≡ behind at taken }
{
    Window {
        from: at.from.saturating_add(taken).min(at.to),
        ..at
    }
}

// What is left, and behind it as many bytes as one read gives, where those left are fewer than are wanted and there is
// room for more. What was at hand is kept, at the front of the buffer, where that read fails.
pub fn refill<R: Read>(
    file: &mut R,
    buffer: &mut [u8],
    wanted: usize,
    at: Window,
) -> io::Result<Window>
    ensures refilled { IfOk result (λ next. Refilled buffer.old buffer.new wanted at next) }
    // No byte is lost or made up.
    ensures streams { IfOk result (λ next. Streams (R.remaining file.old) (R.remaining file.new)
        (at_hand buffer.old at) (at_hand buffer.new next)) }
    // The last is not said too early.
    ensures ends { IfOk result (λ next. Ends (R.remaining file.old) (R.remaining file.new) at.last next.last) }
    ensures grows { wanted ≤ length buffer.old → IfOk result (λ next.
        Grows wanted (at_hand buffer.old at) (at_hand buffer.new next) next.last) }
    ensures failed { OnErr result (Stays buffer.old buffer.new wanted at × Keeps (R.remaining file.old) (R.remaining file.new)) }
{
    let to = at.to.min(buffer.len());
    let from = at.from.min(to);
    let left = to - from;
    let rests = at.last | (wanted <= left) | (left == buffer.len());
    if rests {
        return Ok(Window { from, to, ..at });
    }
    buffer.copy_within(from..to, 0);
    let got = file.read(&mut buffer[left..])?;
    Ok(Window {
        from: 0,
        to: left + got,
        last: got == 0,
    })
}

// Says what failed, as the caller names it, a colon and the library's text for why, which is the system's where a call of
// the system failed. Of a pipe that has lost its reader nothing is said: who stops reading, as `head` does, has what was
// wanted.
pub fn say_failed<E: Write>(errors: &mut E, what: &[u8], why: Error) {
    if why.kind() == ErrorKind::BrokenPipe {
        return;
    }
    let mut text = [0u8; 160];
    let size = put_reason(&mut text, why);
    say(errors, what);
    say(errors, b": ");
    say(errors, &text[..size]);
    say(errors, b"\n");
}

// Writes bytes of which nobody hears that they could not be written.
pub fn say<E: Write>(errors: &mut E, what: &[u8]) {
    let _ = errors.write_all(what);
}

// The library's text for an error without the system's number, at the front of the buffer: how long it is.
fn put_reason(text: &mut [u8], why: Error) -> usize
    ensures { result ≤ length text.new }
{
    let room = text.len();
    let mut rest = &mut text[..];
    let _ = write!(rest, "{why}");
    // What is left is never more than there was.
    let size = room.saturating_sub(rest.len());
    match text[..size]
        .windows(11)
        .position(|w| w == b" (os error ".as_slice())
    {
        Some(n) => n,
        None => size,
    }
}

// Reads until the buffer is full, the input ends or a read fails: how many bytes were put at its front.
pub fn read_full<R: Read>(file: &mut R, buffer: &mut [u8]) -> usize
    ensures bound { result ≤ length buffer.new }
    // They are those that were next.
    ensures bytes { Consumes (R.remaining file.old) (R.remaining file.new) (take result buffer.new) }
{
    let mut done = 0;
    // How far a read gets is the file's answer, so the place to go on from is no step of an iterator.
    while done < buffer.len() {
        match file.read(&mut buffer[done..]) {
            Ok(0) => return done,
            Ok(n) => done += n,
            Err(_) => return done,
        }
    }
    done
}

#[cfg(test)]
mod tests {
    use super::*;

    // The reasons are Linux's, without the number that the library puts behind them.
    #[test]
    fn says_what_failed_and_why(rt: HostRuntime) {
        for (code, wanted) in [
            (21, b"reading the log: Is a directory\n".as_slice()),
            (28, b"reading the log: No space left on device\n".as_slice()),
            (32, b"".as_slice()),
        ] {
            let mut text = [0u8; 80];
            let mut rest = &mut text[..];
            say_failed(
                &mut rest,
                b"reading the log",
                Error::from_raw_os_error(code),
            );
            let size = 80usize.saturating_sub(rest.len());
            assert!(rt; text[..size] == wanted[..], "at {code}");
        }
    }

    // A buffer is filled as far as there is something to read, and no further.
    #[test]
    fn reads_until_full_or_at_the_end(rt: HostRuntime) {
        for (size, wanted) in [(3, 3), (5, 5), (8, 5)] {
            let mut text = b"a ".as_slice().chain(b"log".as_slice());
            let mut buffer = [0u8; 8];
            let done = read_full(&mut text, &mut buffer[..size]);
            assert_eq!(rt; done, wanted, "of {size}");
            assert!(rt; buffer[..wanted] == b"a log"[..wanted], "of {size}");
        }
    }
}
