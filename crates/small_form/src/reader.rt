ghost use Rattle.std.specs.Prelude.{◌≡◌, ℕ, ◌+◌, ◌<◌, ◌≤◌, ◌↔◌, List, [], ◌∷◌, ◌++◌, length, take, IsTrue, IfSome, IfNone, OnSome, Some, false, slice_index};
ghost use Rattle.std.specs.Bool.{OnTrue, OnFalse};
ghost use Rattle.std.specs.Option.{option_copied};
ghost use Rattle.std.specs.List.{list_all};
ghost use Rattle.small_form.specs.Pieces.{is_blank as blank, is_capital as capital, is_small as small, starts_word as opens_word, continues_word as in_word, is_word as word, begins_in_word as opens_in_word, ends_in_word as closes_in_word, is_apart as apart, is_solid, Reads};

use std::marker::Model;

pub fn is_blank(byte: u8) -> bool
    ensures { result ≡ blank byte }
{
    byte == b' ' || byte == b'\t' || byte == b'\n' || byte == b'\r'
}

pub fn is_capital(byte: u8) -> bool
    ensures { result ≡ capital byte }
{
    b'A' <= byte && byte <= b'Z'
}

pub fn is_small(byte: u8) -> bool
    ensures { result ≡ small byte }
{
    b'a' <= byte && byte <= b'z'
}

pub fn starts_word(byte: u8) -> bool
    ensures { result ≡ opens_word byte }
{
    is_capital(byte) || is_small(byte) || byte == b'_'
}

pub fn continues_word(byte: u8) -> bool
    ensures { result ≡ in_word byte }
{
    starts_word(byte) || (b'0' <= byte && byte <= b'9')
}

/// How many blanks stand at the front of a text.
pub fn leading_blanks(text: &[u8]) -> usize
    ensures within { result ≤ length text.now }
    ensures blanks { IsTrue (list_all blank (take result text.now)) }
    ensures all { result < length text.now → blank (slice_index text.now result) ≡ false }
{
    for (i, byte) in text.iter().enumerate() {
        if !is_blank(*byte) {
            return i;
        }
    }
    text.len()
}

/// How many bytes at the front of a text go on with a word.
pub fn leading_word(text: &[u8]) -> usize
    ensures within { result ≤ length text.now }
    ensures word { IsTrue (list_all in_word (take result text.now)) }
    ensures all { result < length text.now → in_word (slice_index text.now result) ≡ false }
{
    for (i, byte) in text.iter().enumerate() {
        if !continues_word(*byte) {
            return i;
        }
    }
    text.len()
}

fn ends_in_word(piece: &[u8]) -> bool
    ensures { result ≡ closes_in_word piece.now }
{
    match piece.last() {
        Some(byte) => continues_word(*byte),
        None => false,
    }
}

fn begins_in_word(text: &[u8]) -> bool
    ensures { result ≡ opens_in_word text.now }
{
    match text.first() {
        Some(byte) => continues_word(*byte),
        None => false,
    }
}

fn is_apart(piece: &[u8], rest: &[u8]) -> bool
    ensures { result ≡ apart piece.now rest.now }
{
    !(ends_in_word(piece) && begins_in_word(rest))
}

/// Whether a text is a word: a letter or an underscore, and then letters, digits and underscores.
pub fn is_word(text: &[u8]) -> bool
    ensures { result ≡ word text.now }
{
    match text.first() {
        Some(byte) => starts_word(*byte) && leading_word(text) == text.len(),
        None => false,
    }
}

/// What is left of a text that is read piece by piece.
#[derive(Debug, Drop)]
pub struct Reader<'a> {
    rest: &'a [u8],
}

impl<'a> Model for Reader<'a> {
    ghost use Rattle.std.specs.Prelude.{List, ℕ};

    ghost Value = { List ℕ };

    ghost view = { λ reader. reader.rest.now };
}

impl<'a> Reader<'a> {
    pub fn new(text: &'a [u8]) -> Reader<'a>
        ensures { result ≡ text.now }
    {
        Reader { rest: text }
    }

    /// The text that is left.
    pub fn rest(&self) -> &'a [u8]
        ensures { result.now ≡ self.now }
    {
        self.rest
    }

    /// Whether blanks alone are left.
    pub fn is_finished(&self) -> bool
        ensures { IsTrue result ↔ IsTrue (list_all blank self.now) }
    {
        leading_blanks(self.rest) == self.rest.len()
    }

    /// Reads a piece that is given, and says whether it is there.
    pub fn eat(&mut self, piece: &[u8]) -> bool
        ensures read { OnTrue result (Reads (piece.now ∷ []) self.old self.new) }
        ensures kept { OnFalse result (self.new ≡ self.old) }
        ensures shorter { length self.new ≤ length self.old }
        ensures piece_shorter { OnTrue result (length piece.now + length self.new ≤ length self.old) }
        ensures exact { (pieces : List (List ℕ)) (rest : List ℕ) → IsTrue (is_solid piece.now) → Reads (piece.now ∷ pieces) self.old rest
            → IsTrue result × Reads pieces self.new rest }
    {
        let (_, text) = self.rest.split_at(leading_blanks(self.rest));
        let Some(after) = text.strip_prefix(piece) else {
            return false;
        };
        if !is_apart(piece, after) {
            return false;
        }
        self.rest = after;
        true
    }

    /// Reads a word.
    pub fn word(&mut self) -> Option<&'a [u8]>
        ensures word { IfSome result (λ piece. IsTrue (word piece.now)) }
        ensures read { IfSome result (λ piece. Reads (piece.now ∷ []) self.old self.new) }
        ensures kept { IfNone result (self.new ≡ self.old) }
        ensures shorter { OnSome result (length self.new < length self.old) }
        ensures exact { (piece : List ℕ) (pieces : List (List ℕ)) (rest : List ℕ) → IsTrue (word piece) → Reads (piece ∷ pieces) self.old rest
            → (option_copied result ≡ Some piece) × Reads pieces self.new rest }
    {
        let (_, text) = self.rest.split_at(leading_blanks(self.rest));
        let (piece, after) = text.split_at(leading_word(text));
        if !is_word(piece) {
            return None;
        }
        if !is_apart(piece, after) {
            return None;
        }
        self.rest = after;
        Some(piece)
    }
}
