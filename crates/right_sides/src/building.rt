//! Values that are built of their parts.
ghost use Rattle.std.specs.Prelude.{◌≡◌, IfOk};
ghost use Rattle.k_terms.specs.Operators.{bounded as bounded_value};
ghost use Rattle.rule_terms.specs.Options.{joined as joined_lists};
ghost use Rattle.leaf_match.specs.Bindings.{node_at, items_at, sequence_at, freezer_at};

use k_terms::{Memory, Value, Values, depth};

/// The greatest depth of a value that is built.
const DEPTH_LIMIT: u32 = 400;

/// A built value. `None` where it is too deep.
fn bounded(value: Value) -> Option<Value>
    ensures { result ≡ bounded_value value }
{
    if depth(&value) > DEPTH_LIMIT {
        return None;
    }
    Some(value)
}

/// A node of a production.
pub(crate) fn node(production: u32, parts: Option<Values>) -> Option<Value>
    ensures { result ≡ node_at production parts }
{
    bounded(Value::Node(production, parts?))
}

/// A list of a production.
pub(crate) fn production_list(production: u32, items: Option<Values>) -> Option<Value>
    ensures { result ≡ items_at production items }
{
    bounded(Value::Items(production, items?))
}

/// A whole sequence.
pub(crate) fn sequence(items: Option<Values>) -> Option<Value>
    ensures { result ≡ sequence_at items }
{
    bounded(Value::Seq(items?))
}

/// A production with a hole at one of its arguments.
pub(crate) fn freezer(production: u32, place: u32, parts: Option<Values>) -> Option<Value>
    ensures { result ≡ freezer_at production place parts }
{
    bounded(Value::Freezer(production, place, parts?))
}

/// Two lists one after the other.
pub(crate) fn joined(front: Option<Values>, back: Option<Values>) -> Result<Option<Values>, Memory>
    ensures { IfOk result (λ list. list ≡ joined_lists front back) }
{
    let Some(front) = front else {
        return Ok(None);
    };
    let Some(back) = back else {
        return Ok(None);
    };
    let mut list = front.into_vec();
    list.append(&mut back.into_vec())?;
    Ok(Some(Values::from_vec(list)))
}
