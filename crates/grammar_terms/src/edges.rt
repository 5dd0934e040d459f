//! Which production may stand at which place of another.
ghost use Rattle.std.specs.Prelude.{◌≡◌, ◌<◌, ◌^◌, length};
ghost use Rattle.grammar_terms.specs.Edges.{is_last as last, is_kept_out as kept_out, binds_weaker as weaker, permits as may_stand};

use crate::production::Production;

fn is_last(parent: &Production, place: u32) -> bool
    ensures { result ≡ last parent.now place }
{
    place as usize + 1 == parent.items.len()
}

/// The child is of a later group of the parent's own sentence.
fn binds_weaker(parent: &Production, child: &Production) -> bool
    ensures { result ≡ weaker parent.now child.now }
{
    child.sentence == parent.sentence && parent.group < child.group
}

/// Both are of one group, which the parent's attributes keep from this place.
fn is_kept_out(parent: &Production, place: u32, child: &Production) -> bool
    ensures { result ≡ kept_out parent.now place child.now }
{
    child.group == parent.group
        && (parent.attrs.left && is_last(parent, place)
            || parent.attrs.right && place == 0
            || parent.attrs.non_assoc)
}

/// Whether a child may stand at a place of its parent.
pub(crate) fn permits(parent: &Production, place: u32, child: &Production) -> bool
    ensures { result ≡ may_stand parent.now place child.now }
{
    child.attrs.bracket
        || !((place == 0 || is_last(parent, place))
            && (binds_weaker(parent, child) || is_kept_out(parent, place, child)))
}
