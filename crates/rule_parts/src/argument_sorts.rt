use k_terms::Many;

/// The productions of the grammar for rules, production 1 first, by the sorts of their items that are sorts; a list
/// production has the sort of its elements. Behind the declared ones stand the builtin operators in their order, and then
/// the brackets. Behind all of them the productions of contents are numbered.
#[derive(Debug, Drop)]
pub struct Productions {
    pub declared: usize,
    pub arguments: Many<Many<u32>>,
}
