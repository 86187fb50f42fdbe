// What is said of a wrong line, put into a buffer that the caller lends: the line's number, the field that is wrong, what was expected
// there and what was found. It asks for the room of the longest such text. Without it the answer is 14, as the log's writer has it, and
// no byte changes.
#![tactic(auto, unfolding(pieces::specs::Pieces::piece_spec, pieces::specs::Pieces::piece_after))]

ghost use Rattle.std.specs.Prelude.{◌≡◌, [], ◌+◌, ◌≤◌, length, get_or};
ghost use Rattle.layout.specs.Writing.{placed};
ghost use Rattle.pieces.specs.Pieces.{piece_spec, piece_after};
ghost use Rattle.pieces.specs.Placing.{Puts};
ghost use Rattle.notation.specs.Words.{words_of};
ghost use Rattle.notation.specs.Complaints.{name_of, number_up_to, expected, shown, all_shown, word_found, found, complaint, longest_complaint};
ghost use Rattle.complaints.specs.Saying.{subject, Finds};

use cutter::Word;
use model::Refusal;
use notation::Field;
use pieces::Line;

// The longest of these texts.
const LONGEST: usize = 165;

// A word is shown up to so many bytes.
const SHOWN: usize = 32;

// What is said of a line that is wrong in a field, at the word of that number, at a place of the buffer: the place after it, or 14.
pub fn complain(
    out: &mut [u8],
    place: usize,
    number: u64,
    line: &[u8],
    field: Field,
    word: usize,
) -> Result<usize, Refusal>
    ensures value { placed result ≡ piece_spec longest_complaint (length out.old) place (complaint number line.now field word) }
    ensures after { out.new ≡ piece_after longest_complaint out.old place (complaint number line.now field word) }
{
    pieces::room_for(out.len(), place, LONGEST)?;
    let mut said = Line { out, place };
    put_subject(&mut said, number, field);
    put_expected(&mut said, field);
    said.text(b", found ");
    put_found(&mut said, line, field, word);
    said.text(b"\n");
    Ok(said.place)
}

// The name of a field.
#[tactic(auto, unfolding(spelling::specs::Text::text, notation::specs::Complaints::name_of))]
fn name_of(field: Field) -> &'static [u8]
    ensures { result.now ≡ name_of field }
{
    match field {
        Field::Opening => b"event",
        Field::Bay => b"bay",
        Field::Address => b"address",
        Field::Code => b"code",
        Field::Word => b"word",
        Field::Ohms => b"ohms",
        Field::Millivolts => b"millivolts",
        Field::Present => b"ac",
        Field::Ticks => b"ticks",
        Field::Rest => b"end",
        Field::Length => b"length",
    }
}

// WHERE IT FITS. Each is put at the place of what is said, where it fits, and the place moves behind it.

// The number of a line and the name of a field, in front of what was expected there.
fn put_subject(said: &mut Line, number: u64, field: Field)
    requires { said.old.place + length (subject number field) ≤ length said.old.out.now }
    ensures { Puts said.old said.new (subject number field) }
{
    said.text(b"line ");
    said.decimal(number);
    said.text(b": ");
    said.text(name_of(field));
    said.text(b": expected ");
}

// What a field should hold.
fn put_expected(said: &mut Line, field: Field)
    requires { said.old.place + length (expected field) ≤ length said.old.out.now }
    ensures { Puts said.old said.new (expected field) }
{
    match field {
        Field::Opening => said.text(
            b"ac, insertion, removal, ohms, terminal, host write, host read, bay word or tick",
        ),
        Field::Bay | Field::Address | Field::Code => put_number(said, u8::MAX as u64),
        Field::Word | Field::Millivolts => put_number(said, u16::MAX as u64),
        Field::Ohms | Field::Ticks => put_number(said, u32::MAX as u64),
        Field::Present => put_number(said, 1),
        Field::Rest => said.text(b"the end of the line or a comment"),
        Field::Length => said.text(b"at most 1024 bytes"),
    }
}

// A number up to another.
fn put_number(said: &mut Line, largest: u64)
    requires { said.old.place + length (number_up_to largest) ≤ length said.old.out.now }
    ensures { Puts said.old said.new (number_up_to largest) }
{
    said.text(b"a decimal or 0x number from 0 to ");
    said.decimal(largest);
}

// What was found in a field's place.
fn put_found(said: &mut Line, line: &[u8], field: Field, word: usize)
    requires { said.old.place + length (found field (get_or (words_of line.now) word [])) ≤ length said.old.out.now }
    ensures { Puts said.old said.new (found field (get_or (words_of line.now) word [])) }
{
    match field {
        // It is the line itself that is too long, and no word of it.
        Field::Length => said.text(b"more"),
        _ => {
            let Word { from, to } = find(line, word);
            put_word(said, &line[from..to]);
        }
    }
}

// The word of that number in a line, counted from 0; an empty one if there are not so many. Whatever the number, no more words are
// passed than there are.
fn find(line: &[u8], number: usize) -> Word
    ensures { Finds line.now number result }
{
    let mut at = 0;
    for _ in 0..number {
        let w = cutter::word_from(line, at);
        if w.from == w.to {
            return w;
        }
        at = w.to;
    }
    cutter::word_from(line, at)
}

// A word that was found, or that there is none.
fn put_word(said: &mut Line, word: &[u8])
    requires { said.old.place + length (word_found word.now) ≤ length said.old.out.now }
    ensures { Puts said.old said.new (word_found word.now) }
{
    if word.is_empty() {
        said.text(b"the end of the line");
    } else if SHOWN < word.len() {
        put_shown(said, &word[..SHOWN]);
        said.text(b"..");
    } else {
        put_shown(said, word);
    }
}

// Bytes as they are shown.
fn put_shown(said: &mut Line, t: &[u8])
    requires { said.old.place + length t.now ≤ length said.old.out.now }
    ensures { Puts said.old said.new (all_shown t.now) }
{
    for (i, byte) in t.iter().enumerate() {
        said.out[said.place + i] = shown(*byte);
    }
    said.place += t.len();
}

// A byte as it is shown: a question mark where it is no printable character.
fn shown(b: u8) -> u8
    ensures { result ≡ shown b }
{
    if (33 <= b) & (b <= 126) { b } else { b'?' }
}
