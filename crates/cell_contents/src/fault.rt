/// Why tokens are no content.
#[derive(Clone, Copy, Debug, PartialEq, Eq)]
pub enum ContentFault {
    /// They have none of its forms.
    NoContent,
    /// Memory was wanting.
    Memory,
}
