ghost use Rattle.std.specs.Prelude.{◌≡◌, ◌+◌, ◌≤◌, ◌<◌, ◌^◌, length, map, IfOk, option_copied};
ghost use Rattle.rule_terms.specs.declared.pattern.Pattern.{Lit};
ghost use Rattle.rule_terms.specs.Sound.{cell_limit};
ghost use Rattle.cell_trees.specs.Defaults as defaults;

use crate::declared::Declared;
use crate::tree::CellTree;
use k_terms::{Content, Many, Memory, Value, copy};
use rule_terms::{Body, CellPat, Pattern};
use std::alloc::Global;

/// No declared cell lies deeper than this.
const LEVELS: u32 = 64;

/// Values as patterns.
fn literals(alloc: Global, values: &[Value]) -> Result<Many<Pattern>, Memory>
    ensures { IfOk result (λ parts. parts ≡ map (λ v. Lit v) values.now) }
{
    let mut parts = Vec::with_capacity(alloc, values.len())?;
    for value in values {
        parts.push(Pattern::Lit(copy(alloc, value)?))?;
    }
    Ok(Many::from_vec(parts))
}

/// Entries of values as entries of patterns.
fn literal_entries(
    alloc: Global,
    entries: &[(Value, Value)],
) -> Result<Many<(Pattern, Pattern)>, Memory>
    ensures { IfOk result (λ parts. parts ≡ map (λ e. (Lit e.0, Lit e.1)) entries.now) }
{
    let mut parts = Vec::with_capacity(alloc, entries.len())?;
    for (key, value) in entries {
        parts.push((
            Pattern::Lit(copy(alloc, key)?),
            Pattern::Lit(copy(alloc, value)?),
        ))?;
    }
    Ok(Many::from_vec(parts))
}

/// A content as a body.
fn content_body(alloc: Global, content: &Content) -> Result<Body, Memory>
    ensures { IfOk result (λ body. body ≡ defaults.body_of_content content.now) }
{
    Ok(match content {
        Content::Cells => Body::Cells(Many::new(alloc), None),
        Content::Seq(values) => Body::Seq(literals(alloc, values.as_slice())?, None),
        Content::Map(entries) => Body::Map(literal_entries(alloc, entries.as_slice())?, None),
        Content::List(values) => Body::List(
            literals(alloc, values.as_slice())?,
            None,
            Many::new(alloc),
        ),
        Content::One(value) => Body::One(Pattern::Lit(copy(alloc, value)?)),
    })
}

/// The body of what a cell declares, where these cells are in it.
fn body_of(alloc: Global, held: Option<&Declared>, inside: Many<CellPat>) -> Result<Body, Memory>
    ensures { IfOk result (λ body. body ≡ defaults.body_of (option_copied held.entry) inside) }
{
    match held {
        None => Ok(Body::Cells(inside, None)),
        Some(Declared::Program { .. }) => Ok(Body::Seq(Many::new(alloc), None)),
        Some(Declared::Input) => Ok(Body::List(Many::new(alloc), None, Many::new(alloc))),
        Some(Declared::Fixed(content)) => content_body(alloc, content),
    }
}

/// A declared cell with all that is declared in it, down to so many levels, each marked by its number and so much more.
#[cycle(defaults)]
fn default_down(
    levels: u32,
    alloc: Global,
    tree: &CellTree,
    more: u32,
    cell: u32,
) -> Result<CellPat, Memory>
    requires few { more + 64 < 2 ^ 32 }
    requires declared { cell < length tree.now.shapes }
    ensures { IfOk result (λ pattern. pattern ≡ defaults.default_down levels tree.now more cell) }
{
    tree.sound();
    if levels == 0 {
        return Ok(CellPat {
            cell,
            mark: more + cell,
            body: Body::Cells(Many::new(alloc), None),
        });
    }
    let inside = defaults_in(levels - 1, alloc, tree, more, cell)?;
    Ok(CellPat {
        cell,
        mark: more + cell,
        body: body_of(alloc, tree.held(cell), inside)?,
    })
}

/// Those directly in a declared cell.
#[cycle(defaults)]
fn defaults_in(
    levels: u32,
    alloc: Global,
    tree: &CellTree,
    more: u32,
    parent: u32,
) -> Result<Many<CellPat>, Memory>
    requires few { more + 64 < 2 ^ 32 }
    ensures { IfOk result (λ patterns. patterns ≡ map (defaults.default_down levels tree.now more) (defaults.children_of tree.now parent)) }
{
    tree.sound();
    let mut patterns = Vec::new(alloc);
    for cell in 0..tree.shapes().len() as u32 {
        if tree.is_in(parent, cell) {
            patterns.push(default_down(levels, alloc, tree, more, cell)?)?;
        }
    }
    Ok(Many::from_vec(patterns))
}

/// A declared cell with all that is declared in it, each marked by its number and so much more.
pub fn default_cell(alloc: Global, tree: &CellTree, more: u32, cell: u32) -> Result<CellPat, Memory>
    requires few { more + 64 < 2 ^ 32 }
    requires declared { cell < length tree.now.shapes }
    ensures { IfOk result (λ pattern. pattern ≡ defaults.default_of tree.now more cell) }
{
    default_down(LEVELS, alloc, tree, more, cell)
}

/// A declared cell with its declared contents, each cell marked by its number. It has no variables: `$PGM` is `.K`, and `$IN`
/// is `.List`.
pub fn defaults(alloc: Global, tree: &CellTree, cell: u32) -> Result<CellPat, Memory>
    requires { cell < length tree.now.shapes }
    ensures { IfOk result (λ pattern. pattern ≡ defaults.default_of tree.now 0 cell) }
{
    default_cell(alloc, tree, 0, cell)
}
