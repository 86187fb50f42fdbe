// What is written and said, with readers and writers that fail and that do not.
use super::*;
use std::fs::File;

// The paper's log in hex, and its text, as docs/FORMATS.md has them.
const LOG: [u8; 65] = [
    0x03, 0x00, 0x08, 0x00, 0x01, 0x03, 0x00, 0x04, 0x00, 0x00, 0x07, 0x00, 0x06, 0x00, 0x00, 0x10,
    0x27, 0x00, 0x00, 0x06, 0x00, 0x01, 0x00, 0x14, 0x01, 0x1F, 0xFF, 0x06, 0x00, 0x03, 0x00, 0x00,
    0x15, 0xA0, 0x41, 0x06, 0x00, 0x03, 0x00, 0x00, 0x14, 0xDC, 0x05, 0x04, 0x00, 0x02, 0x00, 0x14,
    0x01, 0x06, 0x00, 0x03, 0x00, 0x00, 0x16, 0x00, 0x40, 0x06, 0x00, 0x03, 0x00, 0x01, 0x14, 0xDC,
    0x05,
];

const TEXT: &[u8] =
    b"ac 1 # 1\ninsertion 0 # 2\nohms 0 10000 # 3\nhost write 0x14 0x01 0xFF1F # 4\nbay word 0 0x15 16800 # 5\nbay word 0 0x14 1500 # 6\nhost read 0x14 0x01 # 7\nbay word 0 0x16 0x4000 # 8\nbay word 1 0x14 1500 # 9\n# end: 9 records, 65 bytes\n";

// Where nothing fails the log of a text is the log, all of it, and nothing is said.
#[test]
fn makes_the_log_of_a_text(rt: HostRuntime) {
    let mut made = [0u8; 100];
    let mut log = &mut made[..];
    let mut said = [0u8; 200];
    let mut errors = &mut said[..];
    let mut failed = [0u8; 80];
    let mut failures = &mut failed[..];
    let mut window = [0u8; 1025];
    let mut out = [0u8; 165];
    record_in(
        &mut TEXT,
        &mut log,
        &mut errors,
        &mut failures,
        &mut window,
        &mut out,
    );
    let size = 100usize.saturating_sub(log.len());
    assert_eq!(rt; errors.len(), 200);
    assert_eq!(rt; failures.len(), 80);
    assert!(rt; made[..size] == LOG[..]);
}

// And the text of a log is its text.
#[test]
fn makes_the_text_of_a_log(rt: HostRuntime) {
    let mut made = [0u8; 400];
    let mut text = &mut made[..];
    let mut said = [0u8; 200];
    let mut errors = &mut said[..];
    let mut failed = [0u8; 80];
    let mut failures = &mut failed[..];
    let mut window = [0u8; 9];
    let mut out = [0u8; 88];
    transcribe_in(
        &mut LOG.as_slice(),
        &mut text,
        &mut errors,
        &mut failures,
        &mut window,
        &mut out,
    );
    let size = 400usize.saturating_sub(text.len());
    assert_eq!(rt; errors.len(), 200);
    assert_eq!(rt; failures.len(), 80);
    assert!(rt; made[..size] == TEXT[..]);
}

// A read that fails in mid-stream, as a folder's does: the front of the log is written, and the failure is said.
#[test]
fn says_that_a_read_failed(rt: HostRuntime) {
    let Ok(folder) = File::open(&rt, ".") else {
        return;
    };
    let mut text = TEXT.chain(folder);
    let mut made = [0u8; 100];
    let mut log = &mut made[..];
    let mut said = [0u8; 200];
    let mut errors = &mut said[..];
    let mut failed = [0u8; 80];
    let mut failures = &mut failed[..];
    let mut window = [0u8; 1025];
    let mut out = [0u8; 165];
    record_in(
        &mut text,
        &mut log,
        &mut errors,
        &mut failures,
        &mut window,
        &mut out,
    );
    let size = 100usize.saturating_sub(log.len());
    let told = 80usize.saturating_sub(failures.len());
    assert!(rt; size <= 65);
    assert!(rt; made[..size] == LOG[..size]);
    assert_eq!(rt; errors.len(), 200);
    assert!(rt; failed[..told] == b"reading the text: Is a directory\n"[..]);
}

// The last write fails, into a buffer that is full, and the text has a wrong line: both are said, the one to each
// writer.
#[test]
fn says_both_that_failed(rt: HostRuntime) {
    let mut text = b"ac 1\ninsertion 0\nhost write 0x14 0x1FF 0\n".as_slice();
    let mut made = [0u8; 7];
    let mut log = &mut made[..];
    let mut said = [0u8; 200];
    let mut errors = &mut said[..];
    let mut failed = [0u8; 80];
    let mut failures = &mut failed[..];
    let mut window = [0u8; 1025];
    let mut out = [0u8; 165];
    record_in(
        &mut text,
        &mut log,
        &mut errors,
        &mut failures,
        &mut window,
        &mut out,
    );
    let size = 200usize.saturating_sub(errors.len());
    let told = 80usize.saturating_sub(failures.len());
    assert!(rt; made[..] == LOG[..7]);
    assert!(rt;
        said[..size]
            == b"line 3: code: expected a decimal or 0x number from 0 to 255, found 0x1FF\n"[..]
    );
    assert!(rt; failed[..told] == b"writing the log: failed to write whole buffer\n"[..]);
}

// So with a text that cannot be written and a bad record.
#[test]
fn tells_both_that_failed(rt: HostRuntime) {
    let mut log = [
        0x03, 0x00, 0x08, 0x00, 0x01, 0x03, 0x00, 0x04, 0x00, 0x00, 0x08, 0x00,
    ]
    .as_slice();
    let mut made = [0u8; 30];
    let mut text = &mut made[..];
    let mut said = [0u8; 200];
    let mut errors = &mut said[..];
    let mut failed = [0u8; 80];
    let mut failures = &mut failed[..];
    let mut window = [0u8; 100];
    let mut out = [0u8; 300];
    transcribe_in(
        &mut log,
        &mut text,
        &mut errors,
        &mut failures,
        &mut window,
        &mut out,
    );
    let size = 200usize.saturating_sub(errors.len());
    let told = 80usize.saturating_sub(failures.len());
    assert!(rt; made[..] == b"ac 1 # 1\ninsertion 0 # 2\n# end"[..]);
    assert!(rt; said[..size] == b"record 3, byte 10: refused 11, bad length\n"[..]);
    assert!(rt; failed[..told] == b"writing the text: failed to write whole buffer\n"[..]);
}
