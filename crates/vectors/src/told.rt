// How a row tells what it comes to: each part behind a space. What a format string sets apart is written in a piece of
// its own, so that a write that fails loses just that.
use model::{Answer, Event, Refusal};
use shelf::Drive;
use std::fmt;
use std::io::{self, Write};
use window::say;

// A writer of which nobody hears that a piece could not be written: the next piece is tried all the same.
#[derive(Drop)]
pub struct Unheard<W>(pub W);

impl<W: Write> Write for Unheard<W> {
    fn write(&mut self, piece: &[u8]) -> io::Result<usize> {
        say(&mut self.0, piece);
        Ok(piece.len())
    }

    fn flush(&mut self) -> io::Result<()> {
        Ok(())
    }
}

// The answer of a step: ok, the word that was read, or the refusal.
#[derive(Clone, Copy, Debug, PartialEq, Eq)]
pub struct Told(pub Answer);

impl fmt::Display for Told {
    fn fmt<W: fmt::Write>(&self, f: &mut fmt::Formatter<W>) -> fmt::Result {
        match self.0 {
            Answer::Done => write!(f, " ok"),
            Answer::Word(word) => {
                let [high, low] = word.to_be_bytes();
                write!(f, " 0x{}{}", Digits(high), Digits(low))
            }
            Answer::Refused(why) => write!(f, "{}", Refused(why)),
        }
    }
}

#[derive(Clone, Copy, Debug, PartialEq, Eq)]
pub struct Refused(pub Refusal);

impl fmt::Display for Refused {
    fn fmt<W: fmt::Write>(&self, f: &mut fmt::Formatter<W>) -> fmt::Result {
        write!(f, "{} {}", " refused", u8::from(self.0))
    }
}

// What the board has to drive: mA, mV, notice; or the refusal.
#[derive(Clone, Copy, Debug, PartialEq, Eq)]
pub struct Driven(pub Result<Drive, Refusal>);

impl fmt::Display for Driven {
    fn fmt<W: fmt::Write>(&self, f: &mut fmt::Formatter<W>) -> fmt::Result {
        match self.0 {
            Ok(
                Drive {
                    milliamps,
                    millivolts,
                    notice,
                },
            ) => write!(f, " {milliamps} {millivolts} {}", u8::from(notice)),
            Err(why) => write!(f, "{}", Refused(why)),
        }
    }
}

// An event as the row would have it: its letter and three numbers.
#[derive(Clone, Copy, Debug, PartialEq, Eq)]
pub struct AsRow(pub Event);

impl fmt::Display for AsRow {
    fn fmt<W: fmt::Write>(&self, f: &mut fmt::Formatter<W>) -> fmt::Result {
        let (letter, a, b, c) = match self.0 {
            Event::HostWrite {
                address,
                code,
                word,
            } => (" w", address, u32::from(code), word),
            Event::HostRead { address, code } => (" r", address, u32::from(code), 0),
            Event::BayWord { bay, code, word } => (" b", bay, u32::from(code), word),
            Event::Insertion { bay } => (" i", bay, 0, 0),
            Event::Removal { bay } => (" p", bay, 0, 0),
            Event::Signal { bay, ohms } => (" o", bay, ohms, 0),
            Event::Terminal { bay, millivolts } => (" v", bay, u32::from(millivolts), 0),
            Event::Ac { present } => (" a", u8::from(present), 0, 0),
            Event::Tick => (" t", 0, 0, 0),
        };
        write!(f, "{letter} {a} {b} {c}")
    }
}

// Two hexadecimal digits a byte.
#[derive(Clone, Copy, Debug, PartialEq, Eq)]
pub struct Bytes<'a>(pub &'a [u8]);

impl fmt::Display for Bytes<'_> {
    fn fmt<W: fmt::Write>(&self, f: &mut fmt::Formatter<W>) -> fmt::Result {
        for b in self.0 {
            write!(f, " {}", Digits(*b))?;
        }
        Ok(())
    }
}

// The two hexadecimal digits of a byte, in one piece.
#[derive(Clone, Copy, Debug, PartialEq, Eq)]
struct Digits(pub u8);

impl fmt::Display for Digits {
    fn fmt<W: fmt::Write>(&self, f: &mut fmt::Formatter<W>) -> fmt::Result {
        let digits = [digit(self.0 / 16), digit(self.0 % 16)];
        f.write_str(str::from_utf8(&digits).unwrap_or(""))
    }
}

fn digit(d: u8) -> u8 {
    *b"0123456789ABCDEF".get(d as usize).unwrap_or(&b'0')
}

// Whether a machine is as it was.
pub(crate) fn kept(is_same: bool) -> &'static str {
    if is_same { " kept" } else { " moved" }
}
