//! The lines of a script, and the words of a line.
ghost use Rattle.std.specs.Prelude.{◌≡◌, ◌<◌, ◌+◌, ◌^◌, ◌==◌, ◌∷◌, [], length, position, MatchOption, IsSome, IsNone, option_map};
ghost use Rattle.std.specs.Str.{bytes_eq};
ghost use Rattle.std.specs.List.{list_all};
ghost use Rattle.script_play.specs.Lines.{lines, is_ascii, is_skipped, live, first_word, after_word};
ghost use Rattle.script_play.specs.LineViews.{numbered};

/// What is left of a script, and the number of the line with which it begins.
#[derive(Clone, Copy)]
pub struct Lines<'a> {
    pub rest: &'a [u8],
    pub number: u64,
}

/// A line with its number.
#[derive(Clone, Copy)]
pub struct Line<'a> {
    pub number: u64,
    pub text: &'a [u8],
}

/// A text cut at its first space.
#[derive(Clone, Copy)]
pub struct Cut<'a> {
    pub word: &'a [u8],
    pub after: Option<&'a [u8]>,
}

// Where a byte stands first.
fn find_byte(text: &[u8], byte: u8) -> Option<usize>
    ensures { result ≡ position (λ b. b == byte) text.now }
{
    text.iter().position(|b| *b == byte)
}

/// The first word of a text, and what follows the space after it.
pub fn cut_word<'a>(text: &'a [u8]) -> Cut<'a>
    ensures word { result.word.now ≡ first_word text.now }
    ensures after { option_map (λ t. t.now) result.after ≡ after_word text.now }
{
    match find_byte(text, b' ') {
        Some(end) => Cut {
            word: &text[..end],
            after: Some(&text[end + 1..]),
        },
        None => Cut {
            word: text,
            after: None,
        },
    }
}

/// Whether a word is this one.
pub fn is_word(word: &[u8], name: &str) -> bool
    ensures { result ≡ bytes_eq word.now name.now }
{
    word == name.as_bytes()
}

// Whether all bytes of a line are ASCII.
fn is_ascii(line: &[u8]) -> bool
    ensures { result ≡ list_all is_ascii line.now }
{
    line.iter().all(|b| *b < 128)
}

// Whether a line is empty or a comment.
fn is_skipped(line: &[u8]) -> bool
    ensures { result ≡ is_skipped line.now }
{
    if line.is_empty() {
        return true;
    }
    line[0] == b'#' && is_ascii(line)
}

impl<'a> Lines<'a> {
    // The next line, skipped or not.
    fn read(&mut self) -> Option<&'a [u8]>
        requires { self.old.number + length self.old.rest.now < 2 ^ 64 }
        ensures line { MatchOption result ((lines self.old.rest.now ≡ []) × (self.new ≡ self.old)) (λ line. lines self.old.rest.now ≡ line.now ∷ lines self.new.rest.now) }
        ensures number { IsSome result → self.new.number ≡ self.old.number + 1 }
        ensures shorter { IsSome result → length self.new.rest.now < length self.old.rest.now }
    {
        let text = self.rest;
        if text.is_empty() {
            return None;
        }
        self.number += 1;
        match find_byte(text, b'\n') {
            Some(end) => {
                self.rest = &text[end + 1..];
                Some(&text[..end])
            }
            None => {
                self.rest = &text[text.len()..];
                Some(text)
            }
        }
    }

    /// The next line that isn't skipped.
    pub fn next_line(&mut self) -> Option<Line<'a>>
        requires { self.old.number + length self.old.rest.now < 2 ^ 64 }
        ensures line { MatchOption result (live self.old.number (lines self.old.rest.now) ≡ []) (λ line. live self.old.number (lines self.old.rest.now) ≡ numbered line ∷ live self.new.number (lines self.new.rest.now)) }
        ensures end { IsNone result → self.new.number ≡ self.old.number + length (lines self.old.rest.now) }
        ensures counted { self.new.number + length self.new.rest.now < 2 ^ 64 }
        ensures shorter { IsSome result → length self.new.rest.now < length self.old.rest.now }
    {
        'skipping: loop {
            let number = self.number;
            let Some(text) = self.read() else {
                return None;
            };
            if !is_skipped(text) {
                return Some(Line { number, text });
            }
        }
    }
}
