//! What stands at the front of a text.
ghost use Rattle.std.specs.Prelude.{◌≡◌, ℕ, ◌+◌, ◌<◌, ◌≤◌, ◌≢◌, true, false, MatchOption, slice_index, IsTrue};
ghost use Rattle.std.specs.Str.{StartsWithNoChar};
ghost use Rattle.k_lexer.specs.Characters.{starts, continues, goes_on, is_blank as blank, is_escape as escape, is_plain as plain};
ghost use Rattle.k_lexer.specs.Tokens.{IsLineComment, IsBlockComment, IsOpenComment, opens_line, opens_block};
ghost use Rattle.k_lexer.specs.Fronts.{IsFirstChar, IsTail, NoTail, IsPart, NoPart};

use crate::token::Kind;

/// The character at the front, with the number of its bytes.
pub(crate) fn first_char(rest: &[u8]) -> Option<(char, usize)>
    ensures { MatchOption result (StartsWithNoChar rest.now) (λ first. IsFirstChar rest.now first.0 first.1) }
{
    match bstr::decode_utf8(rest) {
        (Some(first), size) => Some((first, size)),
        (None, _) => None,
    }
}

/// The byte at a place, and 0 past the end.
fn byte_at(text: &[u8], at: usize) -> u8
    ensures { result ≡ slice_index text.now at }
{
    match text.get(at) {
        Some(byte) => *byte,
        None => 0,
    }
}

/// Whether a blank stands at the front.
pub(crate) fn is_blank(rest: &[u8]) -> bool
    ensures { result ≡ blank (slice_index rest.now 0) }
{
    matches!(byte_at(rest, 0), b' ' | b'\t' | b'\n' | b'\r')
}

/// Whether a comment up to the end of its line begins here.
pub(crate) fn is_line_comment(rest: &[u8]) -> bool
    ensures { result ≡ opens_line rest.now }
{
    byte_at(rest, 0) == b'/' && byte_at(rest, 1) == b'/'
}

/// Whether a comment up to `*/` begins here.
pub(crate) fn is_block_comment(rest: &[u8]) -> bool
    ensures { result ≡ opens_block rest.now }
{
    byte_at(rest, 0) == b'/' && byte_at(rest, 1) == b'*'
}

/// How long the comment is that begins with `//`.
pub(crate) fn line_comment_size(rest: &[u8]) -> usize
    requires { IsTrue (opens_line rest.now) }
    ensures { IsLineComment rest.now result }
{
    match memchr::memchr(b'\n', rest) {
        Some(end) => end,
        None => rest.len(),
    }
}

/// How long the comment is that begins with `/*`, where it ends.
pub(crate) fn block_comment_size(rest: &[u8]) -> Option<usize>
    requires { IsTrue (opens_block rest.now) }
    ensures { MatchOption result (IsOpenComment rest.now) (λ size. IsBlockComment rest.now size) }
{
    let (_, body) = rest.split_at(2);
    let Some(end) = memchr::memmem::find(body, b"*/") else {
        return None;
    };
    Some(end + 4)
}

/// The kind of the tokens that begin with this character.
pub(crate) fn kind_of(first: char) -> Option<Kind>
    ensures { MatchOption result ((kind : _) → starts kind first ≡ false) (λ kind. starts kind first ≡ true) }
{
    if unicode_ident::is_xid_start(first) || first == '_' {
        return Some(Kind::Word);
    }
    if first.is_ascii_digit() {
        return Some(Kind::Int);
    }
    if first == '"' {
        return Some(Kind::Str);
    }
    if first.is_ascii_graphic() {
        return Some(Kind::Mark);
    }
    None
}

/// Whether this character goes on with a token that is no string.
fn continues_token(kind: Kind, next: char) -> bool
    ensures { result ≡ continues kind next }
{
    match kind {
        Kind::Word => unicode_ident::is_xid_continue(next),
        Kind::Int => next.is_ascii_digit(),
        Kind::Str => false,
        Kind::Mark => false,
    }
}

/// How many bytes at the front go on with a token that is no string.
pub(crate) fn run_size(kind: Kind, rest: &[u8]) -> usize
    requires { kind ≢ Kind.Str }
    ensures { IsTail kind rest.now result }
{
    let mut at = 0;
    'run: loop {
        let (_, left) = rest.split_at(at);
        let Some((next, size)) = first_char(left) else {
            return at;
        };
        if !continues_token(kind, next) {
            return at;
        }
        at += size;
    }
}

/// How many bytes a character or an escape of a string takes, where one stands at the front.
fn part_size(rest: &[u8]) -> Option<usize>
    ensures { MatchOption result (NoPart rest.now) (λ size. IsPart rest.now size × (0 < size)) }
{
    let Some((first, size)) = first_char(rest) else {
        return None;
    };
    if is_plain(first) {
        return Some(size);
    }
    if first != '\\' {
        return None;
    }
    if is_escape(byte_at(rest, 1)) {
        return Some(2);
    }
    None
}

/// Whether a character stands for itself in a string.
fn is_plain(next: char) -> bool
    ensures { result ≡ plain next }
{
    next >= ' ' && next != '"' && next != '\\' && next != '\u{7f}'
}

/// Whether a byte may follow a backslash in a string.
fn is_escape(byte: u8) -> bool
    ensures { result ≡ escape byte }
{
    matches!(byte, b'"' | b'\\' | b'n' | b't')
}

/// How many bytes there are of a string after its first quote.
fn string_size(rest: &[u8]) -> Option<usize>
    ensures { MatchOption result (NoTail Kind.Str rest.now) (λ size. IsTail Kind.Str rest.now size) }
{
    let mut at = 0;
    'parts: loop {
        let (_, left) = rest.split_at(at);
        let Some(size) = part_size(left) else {
            if byte_at(left, 0) == b'"' {
                return Some(at + 1);
            }
            return None;
        };
        at += size;
    }
}

/// How many bytes of a token follow its first character.
pub(crate) fn tail_size(kind: Kind, rest: &[u8]) -> Option<usize>
    ensures { MatchOption result (NoTail kind rest.now × (kind ≡ Kind.Str)) (λ size. IsTail kind rest.now size) }
{
    if kind == Kind::Str {
        return string_size(rest);
    }
    Some(run_size(kind, rest))
}
