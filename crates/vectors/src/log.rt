// The rows that the log's reader and writer answer.
use crate::told::{AsRow, Bytes, Refused};
use layout::Record;
use model::Event;
use std::io::{self, Write};

// What is read at the front of a log, the bytes taken and the body; how many records it runs, and its end, which is 0
// or its refusal.
pub(crate) fn read<W: Write>(out: &mut W, log: &[u8]) -> io::Result<()> {
    match reader::read(log) {
        Ok(Record { event, taken }) => write!(out, "{}{} {taken}", AsRow(event), " | taken")?,
        Err(why) => write!(out, "{}", Refused(why))?,
    }
    let body = Bytes(reader::body(log));
    let ran = run::run_log(shelf::program_setup(), log);
    let records = ran.records;
    let end = match ran.end {
        Ok(()) => 0,
        Err(why) => u8::from(why),
    };
    write!(out, "{}{body}{} {records} {end}", " | body", " | run")
}

// A record written at a place of the front part of twelve bytes: what is answered, and all twelve bytes.
pub(crate) fn write<W: Write>(
    out: &mut W,
    size: usize,
    place: usize,
    event: Event,
) -> io::Result<()> {
    let mut log = [0xEEu8; 12];
    match log.get_mut(..size) {
        Some(part) => match writer::write(part, place, event) {
            Ok(next) => write!(out, " {next}")?,
            Err(why) => write!(out, "{}", Refused(why))?,
        },
        None => write!(out, " no such row")?,
    }
    write!(out, " |{}", Bytes(&log))
}
