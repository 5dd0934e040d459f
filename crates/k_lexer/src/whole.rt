//! Whether a text is one token of a kind.
ghost use Rattle.std.specs.Prelude.{◌≡◌, ◌↔◌, IsTrue};
ghost use Rattle.k_lexer.specs.declared.token.Kind.TheVariants.{Word};
ghost use Rattle.k_lexer.specs.Characters.{starts, is_mark as mark};
ghost use Rattle.k_lexer.specs.Tokens.{IsToken};

use crate::front::{first_char, run_size};
use crate::token::Kind;

fn starts_word(first: char) -> bool
    ensures { result ≡ starts Word first }
{
    unicode_ident::is_xid_start(first) || first == '_'
}

/// Whether a text is a word, with nothing before or behind.
pub fn is_word(text: &[u8]) -> bool
    ensures { IsTrue result ↔ IsToken Word text.now }
{
    let Some((first, width)) = first_char(text) else {
        return false;
    };
    if !starts_word(first) {
        return false;
    }
    let (_, tail) = text.split_at(width);
    run_size(Kind::Word, tail) == tail.len()
}

/// Whether a byte is a mark: a printable ASCII character that is no letter, digit, underscore, quote or space.
pub fn is_mark(byte: u8) -> bool
    ensures { result ≡ mark byte }
{
    byte.is_ascii_graphic() && !(byte.is_ascii_alphanumeric() || byte == b'_' || byte == b'"')
}
