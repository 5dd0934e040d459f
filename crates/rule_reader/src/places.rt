//! Where in a definition's text the parts of a rule stand.
ghost use Rattle.std.specs.Prelude.{◌≡◌, drop};
ghost use Rattle.rule_reader.specs.Places.{between as part_of, base_place as place_of_base, place_of as place_of_token, condition_place as place_of_condition};
ghost use Rattle.rule_cells.specs.Forms.{end_of as end_of_tokens};

use k_lexer::Token;
use rule_tokens::RuleToken;

/// What stands behind the first items of so many.
fn behind<T>(items: &[T], first: usize) -> &[T]
    ensures { result.now ≡ drop first items.now }
{
    match items.split_at_checked(first) {
        Some((_, rest)) => rest,
        None => &[],
    }
}

/// The items from one up to another; as many of them as there are.
pub(crate) fn between<T>(items: &[T], first: usize, past: usize) -> &[T]
    ensures { result.now ≡ part_of items.now first past }
{
    let rest = behind(items, first);
    match rest.split_at_checked(past.saturating_sub(first)) {
        Some((part, _)) => part,
        None => rest,
    }
}

/// Where a base token begins, or the end of the text.
pub(crate) fn base_place(text: &[u8], tokens: &[Token], number: usize) -> usize
    ensures { result ≡ place_of_base text.now tokens.now number }
{
    match tokens.get(number) {
        Some(token) => token.start,
        None => text.len(),
    }
}

/// Where a token of the rule begins, or the place behind the rule.
pub(crate) fn place_of(tokens: &[RuleToken], behind: usize, number: usize) -> usize
    ensures { result ≡ place_of_token tokens.now behind number }
{
    match tokens.get(number) {
        Some(token) => token.start,
        None => behind,
    }
}

/// Where the last token ends.
fn end_of(tokens: &[RuleToken]) -> usize
    ensures { result ≡ end_of_tokens tokens.now }
{
    match tokens.last() {
        Some(token) => token.end,
        None => 0,
    }
}

/// Where a condition begins that has the tokens from one on.
pub(crate) fn condition_place(tokens: &[RuleToken], first: usize) -> usize
    ensures { result ≡ place_of_condition tokens.now first }
{
    match tokens.get(first) {
        Some(token) => token.start,
        None => end_of(tokens),
    }
}
