//! What a content is made of, in the order of the text.
ghost use Rattle.std.specs.Prelude.{◌≡◌, ◌++◌, ◌-◌, IfOk};
ghost use Rattle.std.specs.List.{flat_map};
ghost use Rattle.rule_parts.specs.Parts.{left_of, right_of, roles as roles_of, role_of, role_among as role_in_list, seen_parts, seen_what, part as one_part, nested as nested_parts, leaf_what, leaf_place as place_in, value_parts, entry_parts, lone_parts, leaf_part, parts_in, parts_by, inner_by, change_by, made_by, form_parts};

use grammar_terms::Shape;
use k_terms::Memory;
use rule_contents::Form;
use rule_terms::Kind;

/// On which side something stands.
#[derive(Clone, Copy, Debug)]
pub enum Side {
    Both,
    Left,
    Right,
}

impl Side {
    /// Where the left part of a change stands.
    pub fn left(self) -> Side
        ensures { result ≡ left_of self }
    {
        match self {
            Side::Both => Side::Left,
            side => side,
        }
    }

    /// Where the right part of a change stands.
    pub fn right(self) -> Side
        ensures { result ≡ right_of self }
    {
        match self {
            Side::Both => Side::Right,
            side => side,
        }
    }
}

/// What a production of contents says.
#[derive(Clone, Copy, Debug)]
pub enum Role {
    /// One term.
    Item,
    /// A variable of sort K.
    Tail,
    /// A key and an entry's value.
    Entry,
    /// A variable that is a rest.
    Rest,
    /// Nothing.
    Nothing,
    /// A change in parentheses.
    Inner,
    /// All that its parts are.
    Splice,
    /// A change of the whole content.
    Whole,
    /// A change of the whole content to an expression.
    Made,
    /// A value.
    Value,
    /// A value that changes.
    Changed,
    /// A term that changes.
    Becomes,
}

/// A part of a content. Variables are told by the places of their leaves.
#[derive(Debug, Drop)]
pub enum What<T> {
    Item(T),
    Tail(usize),
    Entry(T, T),
    Rest(usize),
    Made(T),
    /// A change in parentheses stands within another change: the place of its opening parenthesis.
    Inner(usize),
    /// A change of the whole content stands within another change.
    Whole,
}

/// A part of a content, and where it stands.
#[derive(Debug, Drop)]
pub struct Part<T> {
    pub side: Side,
    pub what: What<T>,
}

/// The role of a place among these.
fn role_among(roles: &[Role], place: usize) -> Role
    ensures { result ≡ role_in_list roles.now place }
{
    match roles.get(place) {
        Some(role) => *role,
        None => Role::Nothing,
    }
}

/// The role of a production of contents of a kind, by its place among them.
fn role_at(kind: Kind, place: usize) -> Role
    ensures { result ≡ role_in_list (roles_of kind) place }
{
    match kind {
        Kind::Cells => Role::Nothing,
        Kind::Seq => role_among(
            &[
                Role::Item,
                Role::Tail,
                Role::Nothing,
                Role::Nothing,
                Role::Inner,
                Role::Splice,
                Role::Splice,
                Role::Splice,
                Role::Whole,
                Role::Made,
            ],
            place,
        ),
        Kind::Map => role_among(
            &[
                Role::Entry,
                Role::Rest,
                Role::Rest,
                Role::Nothing,
                Role::Nothing,
                Role::Inner,
                Role::Value,
                Role::Changed,
                Role::Nothing,
                Role::Splice,
                Role::Whole,
                Role::Made,
            ],
            place,
        ),
        Kind::List => role_among(
            &[
                Role::Item,
                Role::Rest,
                Role::Rest,
                Role::Nothing,
                Role::Nothing,
                Role::Inner,
                Role::Nothing,
                Role::Splice,
                Role::Whole,
                Role::Made,
            ],
            place,
        ),
        Kind::One(_) => role_among(&[Role::Item, Role::Becomes], place),
    }
}

/// The role of a production, where `count` productions stand before those of contents.
fn role_by(kind: Kind, count: usize, prod: u32) -> Role
    ensures { result ≡ role_of kind count prod }
{
    let prod = prod as usize;
    if count < prod {
        role_at(kind, prod - count - 1)
    } else {
        Role::Nothing
    }
}

/// Adds a part.
fn add<'a>(
    side: Side,
    what: What<&'a Shape>,
    parts: &mut Vec<Part<&'a Shape>>,
) -> Result<(), Memory>
    ensures { IfOk result (λ _. seen_parts parts.new.items ≡ seen_parts parts.old.items ++ one_part side (seen_what what.entry)) }
{
    parts.push(Part { side, what })?;
    Ok(())
}

/// Adds that a change stands within another, where it does.
fn add_nested<'a>(
    side: Side,
    what: What<&'a Shape>,
    parts: &mut Vec<Part<&'a Shape>>,
) -> Result<(), Memory>
    ensures { IfOk result (λ _. seen_parts parts.new.items ≡ seen_parts parts.old.items ++ nested_parts (seen_what what.entry) side) }
{
    match side {
        Side::Both => Ok(()),
        Side::Left | Side::Right => add(side, what, parts),
    }
}

/// The place of a leaf.
fn leaf_place(shape: &Shape) -> usize
    ensures { result ≡ place_in shape.now }
{
    match shape {
        Shape::Leaf(at) => *at,
        Shape::Node(_, _) | Shape::Items(_, _, _) => 0,
    }
}

/// Adds a variable.
fn add_leaf<'a>(
    is_tail: bool,
    side: Side,
    shape: &Shape,
    parts: &mut Vec<Part<&'a Shape>>,
) -> Result<(), Memory>
    ensures { IfOk result (λ _. seen_parts parts.new.items ≡ seen_parts parts.old.items ++ leaf_part (leaf_what is_tail) side shape.now) }
{
    match shape {
        Shape::Leaf(at) => {
            let what = if is_tail {
                What::Tail(*at)
            } else {
                What::Rest(*at)
            };
            add(side, what, parts)
        }
        Shape::Node(_, _) | Shape::Items(_, _, _) => Ok(()),
    }
}

/// Adds an entry of a map.
fn add_value<'a>(
    role: Role,
    side: Side,
    key: &'a Shape,
    shapes: &'a [Shape],
    parts: &mut Vec<Part<&'a Shape>>,
) -> Result<(), Memory>
    ensures { IfOk result (λ _. seen_parts parts.new.items ≡ seen_parts parts.old.items ++ value_parts role side key.now shapes.now) }
{
    match (role, shapes) {
        (Role::Value, [value]) => add(side, What::Entry(key, value), parts),
        (Role::Changed, [bracket, before, _, after, _]) => {
            add_nested(side, What::Inner(leaf_place(bracket)), parts)?;
            add(side.left(), What::Entry(key, before), parts)?;
            add(side.right(), What::Entry(key, after), parts)
        }
        _ => Ok(()),
    }
}

/// Adds an entry of a map by its value.
fn add_entry<'a>(
    kind: Kind,
    count: usize,
    side: Side,
    key: &'a Shape,
    entry: &'a Shape,
    parts: &mut Vec<Part<&'a Shape>>,
) -> Result<(), Memory>
    ensures { IfOk result (λ _. seen_parts parts.new.items ≡ seen_parts parts.old.items ++ entry_parts kind count side key.now entry.now) }
{
    match entry {
        Shape::Node(prod, shapes) => {
            add_value(
                role_by(kind, count, *prod),
                side,
                key,
                shapes.as_slice(),
                parts,
            )
        }
        Shape::Leaf(_) | Shape::Items(_, _, _) => Ok(()),
    }
}

/// Adds what a production is that has no sides in it.
fn add_lone<'a>(
    kind: Kind,
    count: usize,
    role: Role,
    side: Side,
    shapes: &'a [Shape],
    parts: &mut Vec<Part<&'a Shape>>,
) -> Result<(), Memory>
    ensures { IfOk result (λ _. seen_parts parts.new.items ≡ seen_parts parts.old.items ++ lone_parts kind count role side shapes.now) }
{
    match (role, shapes) {
        (Role::Item, [item]) => add(side, What::Item(item), parts),
        (Role::Tail, [leaf]) => add_leaf(true, side, leaf, parts),
        (Role::Rest, [leaf]) => add_leaf(false, side, leaf, parts),
        (Role::Entry, [key, entry]) => add_entry(kind, count, side, key, entry, parts),
        (Role::Becomes, [before, _, after]) => {
            add_nested(side, What::Whole, parts)?;
            add(side.left(), What::Item(before), parts)?;
            add(side.right(), What::Item(after), parts)
        }
        _ => Ok(()),
    }
}

/// Adds the parts of a content, or of a part of one.
#[cycle(parting)]
pub fn add_parts<'a>(
    shape: &'a Shape,
    kind: Kind,
    count: usize,
    side: Side,
    parts: &mut Vec<Part<&'a Shape>>,
) -> Result<(), Memory>
    ensures { IfOk result (λ _. seen_parts parts.new.items ≡ seen_parts parts.old.items ++ parts_in kind count side shape.now) }
{
    match shape {
        Shape::Leaf(_) => Ok(()),
        Shape::Node(prod, shapes) => {
            add_role(
                shapes.as_slice(),
                kind,
                count,
                role_by(kind, count, *prod),
                side,
                parts,
            )
        }
        Shape::Items(_, shapes, _) => add_all(shapes.as_slice(), kind, count, side, parts),
    }
}

/// Adds the parts of several sides.
#[cycle(parting)]
pub fn add_all<'a>(
    shapes: &'a [Shape],
    kind: Kind,
    count: usize,
    side: Side,
    parts: &mut Vec<Part<&'a Shape>>,
) -> Result<(), Memory>
    ensures { IfOk result (λ _. seen_parts parts.new.items ≡ seen_parts parts.old.items ++ flat_map (parts_in kind count side) shapes.now) }
{
    for shape in shapes {
        add_parts(shape, kind, count, side, parts)?;
    }
    Ok(())
}

/// Adds the parts of a change in parentheses.
#[cycle(parting)]
pub fn add_inner<'a>(
    shapes: &'a [Shape],
    kind: Kind,
    count: usize,
    side: Side,
    parts: &mut Vec<Part<&'a Shape>>,
) -> Result<(), Memory>
    ensures { IfOk result (λ _. seen_parts parts.new.items ≡ seen_parts parts.old.items ++ inner_by kind count side shapes.now) }
{
    let [bracket, before, _, after, _] = shapes else {
        return Ok(());
    };
    add_nested(side, What::Inner(leaf_place(bracket)), parts)?;
    add_parts(before, kind, count, side.left(), parts)?;
    add_parts(after, kind, count, side.right(), parts)
}

/// Adds the parts of a change of the whole content.
#[cycle(parting)]
pub fn add_change<'a>(
    shapes: &'a [Shape],
    kind: Kind,
    count: usize,
    side: Side,
    parts: &mut Vec<Part<&'a Shape>>,
) -> Result<(), Memory>
    ensures { IfOk result (λ _. seen_parts parts.new.items ≡ seen_parts parts.old.items ++ change_by kind count side shapes.now) }
{
    let [before, _, after] = shapes else {
        return Ok(());
    };
    add_nested(side, What::Whole, parts)?;
    add_parts(before, kind, count, side.left(), parts)?;
    add_parts(after, kind, count, side.right(), parts)
}

/// Adds the parts of a change to an expression.
#[cycle(parting)]
pub fn add_made<'a>(
    shapes: &'a [Shape],
    kind: Kind,
    count: usize,
    side: Side,
    parts: &mut Vec<Part<&'a Shape>>,
) -> Result<(), Memory>
    ensures { IfOk result (λ _. seen_parts parts.new.items ≡ seen_parts parts.old.items ++ made_by kind count side shapes.now) }
{
    let [before, _, after] = shapes else {
        return Ok(());
    };
    add_nested(side, What::Whole, parts)?;
    add_parts(before, kind, count, side.left(), parts)?;
    add(side.right(), What::Made(after), parts)
}

/// Adds the parts of a production of contents.
#[cycle(parting)]
pub fn add_role<'a>(
    shapes: &'a [Shape],
    kind: Kind,
    count: usize,
    role: Role,
    side: Side,
    parts: &mut Vec<Part<&'a Shape>>,
) -> Result<(), Memory>
    ensures { IfOk result (λ _. seen_parts parts.new.items ≡ seen_parts parts.old.items ++ parts_by kind count role side shapes.now) }
{
    match role {
        Role::Splice => add_all(shapes, kind, count, side, parts),
        Role::Inner => add_inner(shapes, kind, count, side, parts),
        Role::Whole => add_change(shapes, kind, count, side, parts),
        Role::Made => add_made(shapes, kind, count, side, parts),
        role => add_lone(kind, count, role, side, shapes, parts),
    }
}

/// Adds the parts of a content that was read as a form.
pub fn add_form<'a>(
    kind: Kind,
    count: usize,
    side: Side,
    form: Form,
    shape: &'a Shape,
    parts: &mut Vec<Part<&'a Shape>>,
) -> Result<(), Memory>
    ensures { IfOk result (λ _. seen_parts parts.new.items ≡ seen_parts parts.old.items ++ form_parts kind count side form shape.now) }
{
    match form {
        Form::Sides | Form::Made => add_parts(shape, kind, count, side, parts),
        Form::Expression => add(side, What::Made(shape), parts),
    }
}
