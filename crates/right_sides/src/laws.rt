//! Laws of the definitions that contracts cite. Each function does nothing: its contract is the law.
ghost use Rattle.right_sides.specs.Laws.{SideIsDefined};

/// A side is defined where the contents of its cells are, and each rest of cells in it stands for cells.
pub fn right_side_is_defined()
    ensures { SideIsDefined }
{}
