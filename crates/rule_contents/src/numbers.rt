ghost use Rattle.std.specs.Prelude.{◌≡◌, ◌+◌, IfOk, length};
ghost use Rattle.rule_contents.specs.Contents.{numbers_of as numbers_behind};

use grammar_terms::{Grammar, next_group, next_sentence};
use k_terms::Memory;

/// The numbers that the productions of contents take, behind those of a grammar for rules.
#[derive(Debug, Clone, Copy, PartialEq, Eq)]
pub struct Numbers {
    /// Their sentence.
    pub sentence: u32,
    /// Their group.
    pub group: u32,
    /// The sort of elements: items, entries, and what may become others of these.
    pub element: u32,
    /// The sort of sides: elements, and in a sequence arrows between.
    pub side: u32,
    /// The sort of whole contents.
    pub content: u32,
    /// The sort of whole contents whose right side is an expression.
    pub made: u32,
    /// The sort of values in entries.
    pub entry: u32,
}

/// The sort so many behind those that have names.
pub(crate) fn sort_behind(grammar: &Grammar, more: u32) -> Result<u32, Memory>
    ensures { IfOk result (λ sort. sort ≡ length grammar.now.names + more) }
{
    let Ok(count) = u32::try_from(grammar.count_sorts()) else {
        return Err(Memory);
    };
    count.checked_add(more).ok_or(Memory)
}

/// The numbers behind those of a grammar.
pub(crate) fn numbers_of(grammar: &Grammar) -> Result<Numbers, Memory>
    ensures { IfOk result (λ numbers. numbers ≡ numbers_behind grammar.now) }
{
    Ok(Numbers {
        sentence: next_sentence(grammar.prods())?,
        group: next_group(grammar.prods())?,
        element: sort_behind(grammar, 0)?,
        side: sort_behind(grammar, 1)?,
        content: sort_behind(grammar, 2)?,
        made: sort_behind(grammar, 3)?,
        entry: sort_behind(grammar, 4)?,
    })
}
