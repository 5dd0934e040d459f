//! What the tokens of a rule are to its cells.
ghost use Rattle.std.specs.Prelude.{◌≡◌};
ghost use Rattle.rule_cells.specs.Marks.{dot_mark as mark_of_dot, terminal_mark as mark_of_terminal, kind_mark as mark_of_kind};

use k_terms::sort;
use rule_tokens::RuleKind;

/// What a token is to cells.
#[derive(Clone, Copy, Debug, PartialEq, Eq)]
pub(crate) enum Mark {
    /// The opening tag of a declared cell.
    Open(u32),
    /// The closing tag of a declared cell.
    Close(u32),
    Rewrite,
    Dots,
    /// `.Bag`.
    Bag,
    /// `.`.
    Dot,
    LeftBracket,
    RightBracket,
    /// Any other.
    Other,
}

fn dot_mark(sort: Option<u32>) -> Mark
    ensures { result ≡ mark_of_dot sort }
{
    match sort {
        None => Mark::Dot,
        Some(sort) => {
            if sort == sort::BAG {
                return Mark::Bag;
            }
            Mark::Other
        }
    }
}

fn terminal_mark(text: &[u8]) -> Mark
    ensures { result ≡ mark_of_terminal text.now }
{
    if text == b"(".as_slice() {
        return Mark::LeftBracket;
    }
    if text == b")".as_slice() {
        return Mark::RightBracket;
    }
    Mark::Other
}

/// What a token of this kind is to cells.
pub(crate) fn kind_mark(kind: &RuleKind) -> Mark
    ensures { result ≡ mark_of_kind kind.now }
{
    match kind {
        RuleKind::Open(cell) => Mark::Open(*cell),
        RuleKind::Close(cell) => Mark::Close(*cell),
        RuleKind::Rewrite => Mark::Rewrite,
        RuleKind::Dots => Mark::Dots,
        RuleKind::Dot(sort) => dot_mark(*sort),
        RuleKind::Terminal(text) => terminal_mark(text.as_slice()),
        _ => Mark::Other,
    }
}
