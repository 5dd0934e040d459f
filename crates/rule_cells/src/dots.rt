//! The `...` of a cell while it is read.
ghost use Rattle.std.specs.Prelude.{◌≡◌};
ghost use Rattle.rule_cells.specs.Steps.{begun as dots_begun, dotted as dots_dotted, left_of as left_of_dots, right_of as right_of_dots};

/// What was read of the `...` of a cell.
#[derive(Clone, Copy, Debug, PartialEq, Eq)]
pub(crate) enum Dots {
    /// Nothing stands behind the opening tag yet.
    Fresh,
    /// A `...` alone stands there.
    Alone,
    /// Something else stands there, behind a `...` or not.
    Inside { left: bool },
    /// And a `...` behind it.
    After { left: bool },
}

/// Where something else than `...` follows, if it can.
pub(crate) fn begun(dots: Dots) -> Option<Dots>
    ensures { result ≡ dots_begun dots }
{
    match dots {
        Dots::Fresh => Some(Dots::Inside { left: false }),
        Dots::Alone => Some(Dots::Inside { left: true }),
        Dots::Inside { left } => Some(Dots::Inside { left }),
        Dots::After { .. } => None,
    }
}

/// Where a `...` follows, if it can.
pub(crate) fn dotted(dots: Dots) -> Option<Dots>
    ensures { result ≡ dots_dotted dots }
{
    match dots {
        Dots::Fresh => Some(Dots::Alone),
        Dots::Alone => Some(Dots::After { left: true }),
        Dots::Inside { left } => Some(Dots::After { left }),
        Dots::After { .. } => None,
    }
}

/// Whether `...` stands at the left, where the cell ends here.
pub(crate) fn left_of(dots: Dots) -> bool
    ensures { result ≡ left_of_dots dots }
{
    match dots {
        Dots::Fresh => false,
        Dots::Alone => false,
        Dots::Inside { left } => left,
        Dots::After { left } => left,
    }
}

/// Whether `...` stands at the right, where the cell ends here.
pub(crate) fn right_of(dots: Dots) -> bool
    ensures { result ≡ right_of_dots dots }
{
    match dots {
        Dots::Fresh => false,
        Dots::Alone => true,
        Dots::Inside { .. } => false,
        Dots::After { .. } => true,
    }
}
