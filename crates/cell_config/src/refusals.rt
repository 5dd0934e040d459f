//! Why configurations are none.
ghost use Rattle.std.specs.Prelude.{◌≡◌, [], IfOk, option_copied};
ghost use Rattle.std.specs.List.{list_all};
ghost use Rattle.cell_config.specs.Refusals.{first_some, is_named as has_name, is_among as among, first_twice as twice_among, begun_at as begun_there, if_among as those_among, twice_of as twice_in_one, root_of as root_name, twice_in as twice_of_all, program_of as sort_of_program, is_k as named_k, is_k_with_program as k_has_program, lacks_program as program_lacks, stray_program as stray, bad_content as content_bad, too_many as more, refusal_of as first_refusal};

use crate::division::{ConfigCell, Division};
use crate::refusal::CellRefusal;
use cell_trees::Declared;
use k_terms::{Memory, Text, copy_text};
use sorted_grammar::What;
use std::alloc::Global;

/// The most cells of a configuration.
const CELL_LIMIT: usize = 64;

// ---- a name twice

fn is_named(cell: &ConfigCell, name: &Text) -> bool
    ensures { result ≡ has_name name.now cell.now }
{
    cell.name.as_slice() == name.as_slice()
}

/// Whether a cell of a name is among cells.
fn is_among(cells: &[ConfigCell], name: &Text) -> bool
    ensures { result ≡ among cells.now name.now }
{
    for cell in cells {
        if is_named(cell, name) {
            return true;
        }
    }
    false
}

/// The first name that stood before.
fn first_twice(cells: &[ConfigCell]) -> Option<&Text>
    ensures { option_copied result ≡ twice_among [] cells.now }
{
    for (number, cell) in cells.iter().enumerate() {
        let (before, _) = cells.split_at(number);
        if is_among(before, &cell.name) {
            return Some(&cell.name);
        }
    }
    None
}

/// The name that is begun where the text is none.
fn begun_at(division: &Division) -> Option<&Text>
    ensures { option_copied result ≡ begun_there division.now.place }
{
    match &division.place {
        Some(place) => place.begun.as_ref(),
        None => None,
    }
}

/// That name, where it stood before.
fn begun_twice(division: &Division) -> Option<&Text>
    ensures { option_copied result ≡ those_among division.now.cells (begun_there division.now.place) }
{
    let Some(name) = begun_at(division) else {
        return None;
    };
    if is_among(division.cells.as_slice(), name) {
        return Some(name);
    }
    None
}

/// The first name of a configuration that stood before.
fn twice_of(division: &Division) -> Option<&Text>
    ensures { option_copied result ≡ twice_in_one division.now }
{
    match first_twice(division.cells.as_slice()) {
        Some(name) => Some(name),
        None => begun_twice(division),
    }
}

/// The name of the root.
fn root_of(division: &Division) -> Option<&Text>
    ensures { option_copied result ≡ root_name division.now }
{
    match division.cells.as_slice() {
        [cell, ..] => Some(&cell.name),
        [] => begun_at(division),
    }
}

/// The name of the first root.
fn first_root(divisions: &[Division]) -> Option<&Text>
    ensures { option_copied result ≡ first_some root_name divisions.now }
{
    for division in divisions {
        if let Some(name) = root_of(division) {
            return Some(name);
        }
    }
    None
}

/// The name of the first cell that is one too many.
fn twice_in(divisions: &[Division]) -> Option<&Text>
    ensures { option_copied result ≡ twice_of_all divisions.now }
{
    let [first, others @ ..] = divisions else {
        return None;
    };
    match twice_of(first) {
        Some(name) => Some(name),
        None => first_root(others),
    }
}

// ---- no program

/// The sort of the program, where a cell declares it.
pub(crate) fn program_of(cell: &ConfigCell) -> Option<u32>
    ensures { result ≡ sort_of_program cell.now }
{
    let Some(held) = &cell.held else {
        return None;
    };
    match held {
        Declared::Program { sort } => Some(*sort),
        Declared::Input => None,
        Declared::Fixed(_) => None,
    }
}

fn is_k(cell: &ConfigCell) -> bool
    ensures { result ≡ named_k cell.now }
{
    cell.name.as_slice() == b"k".as_slice()
}

fn is_k_with_program(cell: &ConfigCell) -> bool
    ensures { result ≡ k_has_program cell.now }
{
    if is_k(cell) {
        return program_of(cell).is_some();
    }
    false
}

/// Whether a configuration is whole and no cell `k` has the program.
fn lacks_program(division: &Division) -> bool
    ensures { result ≡ program_lacks division.now }
{
    if division.place.is_some() {
        return false;
    }
    for cell in division.cells.as_slice() {
        if is_k_with_program(cell) {
            return false;
        }
    }
    true
}

fn all_lack_program(divisions: &[Division]) -> bool
    ensures { result ≡ list_all program_lacks divisions.now }
{
    for division in divisions {
        if !lacks_program(division) {
            return false;
        }
    }
    true
}

// ---- a content

/// The name of a cell outside `k` with the program.
fn stray_program(cell: &ConfigCell) -> Option<&Text>
    ensures { option_copied result ≡ stray cell.now }
{
    if program_of(cell).is_none() {
        return None;
    }
    if is_k(cell) {
        return None;
    }
    Some(&cell.name)
}

/// The name of the first such cell.
fn first_stray(cells: &[ConfigCell]) -> Option<&Text>
    ensures { option_copied result ≡ first_some stray cells.now }
{
    for cell in cells {
        if let Some(name) = stray_program(cell) {
            return Some(name);
        }
    }
    None
}

/// The name of the cell of the first bad content.
fn bad_content(division: &Division) -> Option<&Text>
    ensures { option_copied result ≡ content_bad division.now }
{
    if let Some(name) = first_stray(division.cells.as_slice()) {
        return Some(name);
    }
    match &division.place {
        Some(place) => Some(&place.inside),
        None => None,
    }
}

/// The same of all configurations.
fn first_bad(divisions: &[Division]) -> Option<&Text>
    ensures { option_copied result ≡ first_some content_bad divisions.now }
{
    for division in divisions {
        if let Some(name) = bad_content(division) {
            return Some(name);
        }
    }
    None
}

// ---- in their order

fn too_many(divisions: &[Division]) -> Option<CellRefusal>
    ensures { result ≡ more divisions.now }
{
    let [division, ..] = divisions else {
        return None;
    };
    let count = division.cells.len();
    if CELL_LIMIT < count {
        return Some(CellRefusal::TooMany {
            what: What::Cells,
            n: count as u64,
        });
    }
    None
}

/// Why configurations are none, where they are.
pub(crate) fn refusal_of(
    alloc: Global,
    divisions: &[Division],
) -> Result<Option<CellRefusal>, Memory>
    ensures { IfOk result (λ refusal. refusal ≡ first_refusal divisions.now) }
{
    if let Some(name) = twice_in(divisions) {
        let name = copy_text(alloc, name)?;
        return Ok(Some(CellRefusal::TwoCells { name }));
    }
    if all_lack_program(divisions) {
        return Ok(Some(CellRefusal::NoK));
    }
    if let Some(name) = first_bad(divisions) {
        let name = copy_text(alloc, name)?;
        return Ok(Some(CellRefusal::CellContent { name }));
    }
    Ok(too_many(divisions))
}
