use cell_forms::{CellForm, FormFault, Sign, read_form};
use k_terms::{Many, Memory, Text};
use std::alloc::Global;
use std::test::Fail;

fn text_of(alloc: Global, text: &str) -> Result<Text, Memory> {
    Ok(Text::from_vec(Vec::from_slice(alloc, text.as_bytes())?))
}

/// A word as a token: `<a`, `<a*` for an opening tag of a cell that may occur more than once, `/a`, and any other.
fn sign_of(alloc: Global, word: &str) -> Result<Sign, Memory> {
    if let Some(name) = word.strip_prefix("<") {
        if let Some(name) = name.strip_suffix("*") {
            return Ok(Sign::Open {
                name: text_of(alloc, name)?,
                many: true,
            });
        }
        return Ok(Sign::Open {
            name: text_of(alloc, name)?,
            many: false,
        });
    }
    if let Some(name) = word.strip_prefix("/") {
        return Ok(Sign::Close {
            name: text_of(alloc, name)?,
        });
    }
    Ok(Sign::Other)
}

fn signs_of(alloc: Global, words: &str) -> Result<Many<Sign>, Memory> {
    let mut signs = Many::new(alloc);
    for word in words.split_ascii_whitespace() {
        signs.push(sign_of(alloc, word)?)?;
    }
    Ok(signs)
}

/// Shows a cell: its name, `*` where it may occur more than once, its tag, the cell around it, its content.
fn show_cell(alloc: Global, line: &mut String, cell: &CellForm) -> Result<(), Memory> {
    let name = str::from_utf8(cell.name.as_slice()).unwrap_or("?");
    line.push_str(name)?;
    if cell.many {
        line.push_str("*")?;
    }
    let tag = cell.tag;
    line.push_str(&format!(in alloc; "@{tag}")?)?;
    if let Some(parent) = cell.parent {
        line.push_str(&format!(in alloc; "^{parent}")?)?;
    }
    if let Some((first, past)) = cell.content {
        line.push_str(&format!(in alloc; "[{first},{past})")?)?;
    }
    line.push_str(" ")?;
    Ok(())
}

fn show_cells(alloc: Global, line: &mut String, cells: &[CellForm]) -> Result<(), Memory> {
    for cell in cells {
        show_cell(alloc, line, cell)?;
    }
    Ok(())
}

/// What is read of words, on one line.
fn form_shown(alloc: Global, words: &str) -> Result<String, Memory> {
    let signs = signs_of(alloc, words)?;
    let mut line = String::new(alloc);
    match read_form(alloc, signs.as_slice()) {
        Ok(cells) => show_cells(alloc, &mut line, cells.as_slice())?,
        Err(FormFault::Memory) => line.push_str("memory")?,
        Err(FormFault::Stop(stop)) => {
            show_cells(alloc, &mut line, stop.cells.as_slice())?;
            let at = stop.at;
            line.push_str(&format!(in alloc; "stops {at}")?)?;
            if let Some(inside) = stop.inside {
                line.push_str(&format!(in alloc; " in {inside}")?)?;
            }
            if stop.takes_cell {
                line.push_str(" takes")?;
            }
        }
    }
    Ok(line)
}

/// Words, and what is read of them.
type Case = (&'static str, &'static str);

const FORMS: [Case; 24] = [
    ("<k x /k", "k@0[1,2) "),
    ("<k x x x /k", "k@0[1,4) "),
    ("<T <k x /k <s x x /s /T", "T@0 k@1^0[2,3) s@4^0[5,7) "),
    (
        "<T <ts <t* <k x /k <e x /e /t /ts <m x /m /T",
        "T@0 ts@1^0 t*@2^1 k@3^2[4,5) e@6^2[7,8) m@11^0[12,13) ",
    ),
    // A name may stand twice, also within itself: whether names differ is asked elsewhere.
    ("<a <a x /a /a", "a@0 a@1^0[2,3) "),
    ("", "stops 0 takes"),
    ("x", "stops 0 takes"),
    ("/a", "stops 0 takes"),
    // The root occurs once.
    ("<a* x /a", "stops 0 takes"),
    // A cell without cells and without a content.
    ("<a /a", "a@0 stops 1 in 0 takes"),
    ("<T <a /a /T", "T@0 a@1^0 stops 2 in 1 takes"),
    // An unclosed tag.
    ("<a", "a@0 stops 1 in 0 takes"),
    ("<a x", "a@0 stops 2 in 0"),
    ("<T <a x /a", "T@0 a@1^0[2,3) stops 4 in 0 takes"),
    ("<T <a x", "T@0 a@1^0 stops 3 in 1"),
    // Tags that cross.
    ("<a <b x /a /b", "a@0 b@1^0 stops 3 in 1"),
    ("<a <b x /b /c", "a@0 b@1^0[2,3) stops 4 in 0 takes"),
    // A content beside cells.
    ("<a <b x /b x /a", "a@0 b@1^0[2,3) stops 4 in 0 takes"),
    ("<a x <b x /b /a", "a@0 stops 2 in 0"),
    // Nothing stands behind the root.
    ("<a x /a x", "a@0[1,2) stops 3"),
    ("<a x /a <b x /b", "a@0[1,2) stops 3"),
    ("<a x /a /a", "a@0[1,2) stops 3"),
    ("<a x /a", "a@0[1,2) "),
    ("<a <b* x /b <b* x /b /a", "a@0 b*@1^0[2,3) b*@4^0[5,6) "),
];

/// What is read otherwise than it should be, and nothing where all is right.
fn otherwise(alloc: Global, cases: &[Case]) -> Result<String, Memory> {
    let mut line = String::new(alloc);
    for (words, wanted) in cases {
        let found = form_shown(alloc, words)?;
        if found.as_str() != *wanted {
            line.push_str(&format!(in alloc; "{words}: {found} for {wanted}; ")?)?;
        }
    }
    Ok(line)
}

/// Words and the cells that they make, or where they stop.
#[test]
fn reads_forms(rt: HostRuntime) -> Result<(), Fail> {
    assert_eq!(rt; otherwise(rt.alloc(), &FORMS)?.as_str(), "");
    Ok(())
}
