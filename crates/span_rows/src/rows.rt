//! Rows of a span: what is there already of a key is kept, and a row is added where less than two are.
ghost use Rattle.std.specs.Prelude.{◌≡◌, ◌<◌, ◌++◌, [], ◌∷◌, Some, None, IfOk, IsTrue, length, true, false};
ghost use Rattle.grammar_terms.specs.Cuts.{Has};
ghost use Rattle.span_rows.specs.declared.sign.Sign.{Sign as SignOf};
ghost use Rattle.span_rows.specs.Rows.{Kept, Adds, HasApart};

use crate::row::{Key, Row, same_key};
use crate::sign::{Sign, same_code};
use k_terms::Memory;

/// Whether a row of a key has another code than this.
fn has_apart(rows: &[Row], key: &Key, code: &[Sign]) -> bool
    ensures { IsTrue result → HasApart rows.now key.now code.now }
{
    for row in rows {
        if same_key(&row.key, key) && !same_code(row.code.as_slice(), code) {
            return true;
        }
    }
    false
}

/// Whether the row is there, or two of its key are.
fn is_kept(rows: &[Row], made: &Row) -> bool
    ensures { IsTrue result → Kept rows.now made.now }
{
    for row in rows {
        if same_key(&row.key, &made.key) {
            if same_code(row.code.as_slice(), made.code.as_slice()) {
                return true;
            }
            return has_apart(rows, &made.key, row.code.as_slice());
        }
    }
    false
}

/// Adds a row, unless it is there or two of its key are, and says whether it did.
pub fn add(rows: &mut Vec<Row>, made: Row) -> Result<bool, Memory>
    ensures ok { IfOk result (λ _. Adds (λ row. row ≡ made) rows.old.items rows.new.items) }
    ensures more { IfOk result (λ is_new. is_new ≡ true → length rows.old.items < length rows.new.items) }
    ensures same { IfOk result (λ is_new. is_new ≡ false → rows.new.items ≡ rows.old.items) }
{
    if is_kept(rows.as_slice(), &made) {
        return Ok(false);
    }
    rows.push(made)?;
    Ok(true)
}

/// Adds rows, and says whether one was new.
pub fn add_all(rows: &mut Vec<Row>, made: Vec<Row>) -> Result<bool, Memory>
    ensures ok { IfOk result (λ _. Adds (Has made.items) rows.old.items rows.new.items) }
    ensures more { IfOk result (λ is_new. is_new ≡ true → length rows.old.items < length rows.new.items) }
    ensures same { IfOk result (λ is_new. is_new ≡ false → rows.new.items ≡ rows.old.items) }
{
    let mut is_more = false;
    for row in made {
        is_more |= add(rows, row)?;
    }
    Ok(is_more)
}
