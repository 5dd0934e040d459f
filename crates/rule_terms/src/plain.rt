use k_terms::{Content, Many};

/// A configuration without the numbers of its cells: a tree of declared cells, whose children stand for a multiset.
#[derive(Debug, Drop)]
pub struct Plain {
    pub cell: u32,
    pub content: Content,
    pub children: Many<Plain>,
}
