// A text cut into lines, and a line into words: where they begin and end.
#![tactic(auto)]

ghost use Rattle.std.specs.Prelude.{◌≡◌};
ghost use Rattle.notation.specs.Words.{blank, stops};
ghost use Rattle.cutter.specs.Cuts.{first_line, PastBy, first_word};

// The first line of a text: its bytes, and how many it takes with its line feed. Lengths and not parts: the caller
// counts what is taken of its text.
#[derive(Clone, Copy, Debug, PartialEq, Eq)]
pub struct Line {
    pub size: usize,
    pub taken: usize,
}

// A word of a line, from one place up to another; empty where there is none. Places and not parts of the line: the next
// word is looked for from the place behind, where there is none too, and a part or an `Option` would lose it.
#[derive(Clone, Copy, Debug, PartialEq, Eq)]
pub struct Word {
    pub from: usize,
    pub to: usize,
}

// The first line of a text; all of it if there is no line feed.
pub fn line_in(text: &[u8]) -> Line
    ensures { result ≡ first_line text.now }
{
    let size = text.iter().position(|b| *b == b'\n').unwrap_or(text.len());
    Line {
        size,
        taken: text.len().min(size + 1),
    }
}

// The first word of a line from a place on.
pub fn word_from(line: &[u8], at: usize) -> Word
    ensures { result ≡ first_word line.now at }
{
    let from = past(line, at, is_blank);
    Word {
        from,
        to: past(line, from, |b| !is_stop(b)),
    }
}

// The place behind the bytes that pass a test and stand from a place on.
fn past<F: Fn(u8) -> bool>(line: &[u8], at: usize, passes: F) -> usize
    requires { F.IsAlwaysCallable passes }
    ensures { PastBy (F.post passes) line.now at result }
{
    // By places: over what is left, as a slice of its own, a short line takes up to half as much time again.
    let mut behind = at;
    for place in at..line.len() {
        if !passes(line[place]) {
            break;
        }
        behind = place + 1;
    }
    behind
}

// A space, a tab or a carriage return.
#[tactic(auto, unfolding(notation::specs::Words::blank))]
fn is_blank(b: u8) -> bool
    ensures { result ≡ blank b }
{
    (b == b' ') | (b == b'\t') | (b == b'\r')
}

// What ends a word: a blank, or the mark of a comment.
fn is_stop(b: u8) -> bool
    ensures { result ≡ stops b }
{
    is_blank(b) | (b == b'#')
}
