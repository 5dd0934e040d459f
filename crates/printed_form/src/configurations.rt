ghost use Rattle.std.specs.Prelude.{◌≡◌, ◌++◌, codes, map, IfOk, OnOk};
ghost use Rattle.std.specs.List.{flat_map};
ghost use Rattle.printed_form.specs.Words.{text_at, words_of};
ghost use Rattle.printed_form.specs.Printed.{content_text};
ghost use Rattle.printed_form.specs.Configurations.{closing, opening, cell_text as text_of_cell, child_lines, configuration_text as text_of_configuration, in_order, inner_text as text_of_inner, leaf_text as text_of_leaf, names_of};

use crate::pieces::append;
use crate::values::print_content;
use crate::words::Words;
use k_terms::{Content, Memory, Text};
use rule_terms::{CellShape, Plain};
use std::alloc::Global;

/// The printed form of a configuration, whose cells are numbered by their places in `cells`. It ends with a line feed.
pub fn configuration_text(
    alloc: Global,
    words: &Words,
    cells: &[CellShape],
    plain: &Plain,
) -> Result<Text, Memory>
    ensures ok { IfOk result (λ text. text ≡
        text_of_configuration (words_of words.now) (names_of cells.now) plain.now) }
{
    cell_text(alloc, words, cells, b"", plain)
}

/// The lines of a cell after this indentation.
#[cycle(lines)]
fn cell_text(
    alloc: Global,
    words: &Words,
    cells: &[CellShape],
    indent: &[u8],
    plain: &Plain,
) -> Result<Text, Memory>
    ensures ok { IfOk result (λ text. text ≡
        text_of_cell (words_of words.now) (names_of cells.now) indent.now plain.now) }
{
    let name = name_or_nothing(cells, plain.cell);
    match &plain.content {
        Content::Cells => {
            let children = children_lines(alloc, words, cells, indent, plain.children.as_slice())?;
            inner_text(alloc, indent, name, &children)
        }
        content => leaf_text(alloc, words, indent, name, content),
    }
}

/// The declared cell and the lines of each child of a cell that stands after this indentation, in their order.
#[cycle(lines)]
fn children_lines(
    alloc: Global,
    words: &Words,
    cells: &[CellShape],
    indent: &[u8],
    children: &[Plain],
) -> Result<Vec<(u32, Text)>, Memory>
    ensures ok { IfOk result (λ lines. lines.items ≡
        in_order (map (child_lines (words_of words.now) (names_of cells.now)
        (indent.now ++ codes "  ")) children.now)) }
{
    let inner = deeper(alloc, indent)?;
    let mut lines = Vec::with_capacity(alloc, children.len())?;
    for child in children {
        lines.push((
            child.cell,
            cell_text(alloc, words, cells, inner.as_slice(), child)?,
        ))?;
    }
    lines.sort()?;
    Ok(lines)
}

/// The indentation of a cell's children.
fn deeper(alloc: Global, indent: &[u8]) -> Result<Text, Memory>
    ensures ok { IfOk result (λ deeper. deeper ≡ indent.now ++ codes "  ") }
{
    let mut out = Vec::from_slice(alloc, indent)?;
    append(b"  ", &mut out)?;
    Ok(Text::from_vec(out))
}

/// Adds the lines of children, one after the other.
fn append_lines(children: &[(u32, Text)], out: &mut Vec<u8>) -> Result<(), Memory>
    ensures ok { OnOk result (out.new.items ≡ out.old.items ++
        flat_map (λ child. child.1) children.now) }
{
    for (_, lines) in children {
        append(lines.as_slice(), out)?;
    }
    Ok(())
}

/// A leaf: one line with its tags and its content.
fn leaf_text(
    alloc: Global,
    words: &Words,
    indent: &[u8],
    name: &[u8],
    content: &Content,
) -> Result<Text, Memory>
    ensures ok { IfOk result (λ text. text ≡
        text_of_leaf indent.now name.now (content_text (words_of words.now) content.now)) }
{
    let mut out = Vec::from_slice(alloc, indent)?;
    append_opening(name, &mut out)?;
    append(b" ", &mut out)?;
    print_content(alloc, words, content, &mut out)?;
    append(b" ", &mut out)?;
    append_closing(name, &mut out)?;
    append(b"\n", &mut out)?;
    Ok(Text::from_vec(out))
}

/// A cell of cells: its children's lines between a line for each tag.
fn inner_text(
    alloc: Global,
    indent: &[u8],
    name: &[u8],
    children: &[(u32, Text)],
) -> Result<Text, Memory>
    ensures ok { IfOk result (λ text. text ≡
        text_of_inner indent.now name.now (flat_map (λ child. child.1) children.now)) }
{
    let mut out = Vec::from_slice(alloc, indent)?;
    append_opening(name, &mut out)?;
    append(b"\n", &mut out)?;
    append_lines(children, &mut out)?;
    append(indent, &mut out)?;
    append_closing(name, &mut out)?;
    append(b"\n", &mut out)?;
    Ok(Text::from_vec(out))
}

fn append_opening(name: &[u8], out: &mut Vec<u8>) -> Result<(), Memory>
    ensures ok { OnOk result (out.new.items ≡ out.old.items ++ opening name.now) }
{
    append(b"<", out)?;
    append(name, out)?;
    append(b">", out)
}

fn append_closing(name: &[u8], out: &mut Vec<u8>) -> Result<(), Memory>
    ensures ok { OnOk result (out.new.items ≡ out.old.items ++ closing name.now) }
{
    append(b"</", out)?;
    append(name, out)?;
    append(b">", out)
}

/// The name of a declared cell, and nothing where there is no such cell.
fn name_or_nothing(cells: &[CellShape], cell: u32) -> &[u8]
    ensures { result.now ≡ text_at (names_of cells.now) cell }
{
    match cells.get(cell as usize) {
        Some(shape) => shape.name.as_slice(),
        None => b"",
    }
}
