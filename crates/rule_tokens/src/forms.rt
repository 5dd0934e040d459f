//! What can stand at a place of a rule, beside terminals.
ghost use Rattle.std.specs.Prelude.{◌≡◌, ◌≤◌, ◌^◌, ◌&&◌, ◌++◌, ◌∷◌, [], map, length, IfOk, Some, None};
ghost use Rattle.std.specs.List.{AllByRecursion};
ghost use Rattle.k_lexer.specs.Before.{Stands, AllStand};
ghost use Rattle.program_tokens.specs.Base.{AllNumbered};
ghost use Rattle.rule_terms.specs.declared.defs.CellShape.{CellShape};
ghost use Rattle.rule_tokens.specs.Forms.{cell_number as number_of_cell, signs_at as at_signs, symbol_at as at_symbol, open_at as at_open, close_at as at_close, empty_at as at_empty, variable_at as at_variable, sorted_at as at_sorted, list_item_at as at_list_item, longer as longer_of};

use crate::signs::{Sign, bytes_at, fits};
use crate::terminals::Terminals;
use crate::token::{Found, RuleKind};
use crate::words::{is_variable, name_of};
use grammar_terms::Grammar;
use k_lexer::Token;
use k_terms::Names;
use rule_terms::CellShape;

/// The longer of two, and the first where they are as long.
pub(crate) fn longer(one: Option<Found>, other: Option<Found>) -> Option<Found>
    ensures { result ≡ longer_of one other }
{
    let Some(first) = one else {
        return other;
    };
    let Some(second) = other else {
        return Some(first);
    };
    if first.size < second.size {
        return Some(second);
    }
    Some(first)
}

/// The number of the first declared cell of a name.
fn cell_number(cells: &[CellShape], name: &[u8]) -> Option<u32>
    requires { length cells.now ≤ 2 ^ 32 }
    ensures { result ≡ number_of_cell (map (λ cell. cell.name) cells.now) name.now }
{
    for (index, cell) in cells.iter().enumerate() {
        if cell.name.as_slice() == name {
            return Some(index as u32);
        }
    }
    None
}

/// Adjacent base tokens as this token, where they are of these signs.
fn signs_at(
    text: &[u8],
    signs: &[Sign],
    kind: RuleKind,
    at: usize,
    tokens: &[Token],
) -> Option<Found>
    ensures { result ≡ at_signs text.now signs.now kind at tokens.now }
{
    if !fits(text, signs, at, tokens) {
        return None;
    }
    Some(Found {
        kind,
        size: signs.len(),
    })
}

/// `=>`, `~>`, `|->`, `...` or `.`, the longest of them that stands here.
pub(crate) fn symbol_at(text: &[u8], at: usize, tokens: &[Token]) -> Option<Found>
    ensures { result ≡ at_symbol text.now at tokens.now }
{
    let dot = signs_at(text, &[Sign::Mark(b'.')], RuleKind::Dot(None), at, tokens);
    let dots = signs_at(
        text,
        &[Sign::Mark(b'.'), Sign::Mark(b'.'), Sign::Mark(b'.')],
        RuleKind::Dots,
        at,
        tokens,
    );
    let maps_to = signs_at(
        text,
        &[Sign::Mark(b'|'), Sign::Mark(b'-'), Sign::Mark(b'>')],
        RuleKind::MapsTo,
        at,
        tokens,
    );
    let then = signs_at(
        text,
        &[Sign::Mark(b'~'), Sign::Mark(b'>')],
        RuleKind::Then,
        at,
        tokens,
    );
    let rewrite = signs_at(
        text,
        &[Sign::Mark(b'='), Sign::Mark(b'>')],
        RuleKind::Rewrite,
        at,
        tokens,
    );
    longer(rewrite, longer(then, longer(maps_to, longer(dots, dot))))
}

/// The opening tag of a declared cell.
pub(crate) fn open_at(
    cells: &[CellShape],
    text: &[u8],
    at: usize,
    tokens: &[Token],
) -> Option<Found>
    requires few { length cells.now ≤ 2 ^ 32 }
    requires stand { AllStand text.now tokens.now }
    ensures { result ≡ at_open (map (λ cell. cell.name) cells.now) text.now at tokens.now }
{
    let signs = [Sign::Mark(b'<'), Sign::Word, Sign::Mark(b'>')];
    if !fits(text, &signs, at, tokens) {
        return None;
    }
    let Some(cell) = cell_number(cells, bytes_at(text, tokens, 1)) else {
        return None;
    };
    Some(Found {
        kind: RuleKind::Open(cell),
        size: 3,
    })
}

/// The closing tag of a declared cell.
pub(crate) fn close_at(
    cells: &[CellShape],
    text: &[u8],
    at: usize,
    tokens: &[Token],
) -> Option<Found>
    requires few { length cells.now ≤ 2 ^ 32 }
    requires stand { AllStand text.now tokens.now }
    ensures { result ≡ at_close (map (λ cell. cell.name) cells.now) text.now at tokens.now }
{
    let signs = [
        Sign::Mark(b'<'),
        Sign::Mark(b'/'),
        Sign::Word,
        Sign::Mark(b'>'),
    ];
    if !fits(text, &signs, at, tokens) {
        return None;
    }
    let Some(cell) = cell_number(cells, bytes_at(text, tokens, 2)) else {
        return None;
    };
    Some(Found {
        kind: RuleKind::Close(cell),
        size: 4,
    })
}

/// `.S` with a sort S.
pub(crate) fn empty_at(grammar: &Grammar, text: &[u8], at: usize, tokens: &[Token]) -> Option<Found>
    requires { AllStand text.now tokens.now }
    ensures { result ≡ at_empty grammar.now.names text.now at tokens.now }
{
    if !fits(text, &[Sign::Mark(b'.'), Sign::Word], at, tokens) {
        return None;
    }
    let Some(sort) = grammar.sort_of_bytes(bytes_at(text, tokens, 1)) else {
        return None;
    };
    Some(Found {
        kind: RuleKind::Dot(Some(sort)),
        size: 2,
    })
}

/// `ListItem`.
pub(crate) fn list_item_at(text: &[u8], at: usize, tokens: &[Token]) -> Option<Found>
    requires { AllStand text.now tokens.now }
    ensures { result ≡ at_list_item text.now at tokens.now }
{
    if !fits(text, &[Sign::Word], at, tokens) {
        return None;
    }
    if bytes_at(text, tokens, 0) != b"ListItem".as_slice() {
        return None;
    }
    Some(Found {
        kind: RuleKind::ListItem,
        size: 1,
    })
}

/// A variable without a sort.
pub(crate) fn variable_at(
    terminals: &Terminals<'_>,
    names: &Names,
    text: &[u8],
    at: usize,
    tokens: &[Token],
) -> Option<Found>
    requires stand { AllStand text.now tokens.now }
    requires numbered { AllNumbered text.now names.now tokens.now }
    ensures { result ≡ at_variable terminals.now names.now text.now at tokens.now }
{
    if !fits(text, &[Sign::Word], at, tokens) {
        return None;
    }
    let word = bytes_at(text, tokens, 0);
    if !is_variable(terminals, word) {
        return None;
    }
    Some(Found {
        kind: RuleKind::Variable {
            name: name_of(names, word),
            sort: None,
        },
        size: 1,
    })
}

/// A variable with a sort.
pub(crate) fn sorted_at(
    terminals: &Terminals<'_>,
    grammar: &Grammar,
    names: &Names,
    text: &[u8],
    at: usize,
    tokens: &[Token],
) -> Option<Found>
    requires stand { AllStand text.now tokens.now }
    requires numbered { AllNumbered text.now names.now tokens.now }
    ensures { result ≡ at_sorted terminals.now grammar.now.names names.now text.now at tokens.now }
{
    let signs = [Sign::Word, Sign::Mark(b':'), Sign::Word];
    if !fits(text, &signs, at, tokens) {
        return None;
    }
    let word = bytes_at(text, tokens, 0);
    if !is_variable(terminals, word) {
        return None;
    }
    let Some(sort) = grammar.sort_of_bytes(bytes_at(text, tokens, 2)) else {
        return None;
    };
    Some(Found {
        kind: RuleKind::Variable {
            name: name_of(names, word),
            sort: Some(sort),
        },
        size: 3,
    })
}
