use k_terms::{Content, Memory, Values};
use live_config::{Cell, CellNo, Live, equal_live};
use std::alloc::Global;
use std::test::Fail;

/// A root at number 7 and its two children, at 9 and 3.
fn family(alloc: Global) -> Result<Live, Memory> {
    let mut live = Live::new(alloc);
    for (number, kind, parent) in [
        (7, 0, None),
        (9, 1, Some(CellNo(7))),
        (3, 2, Some(CellNo(7))),
    ] {
        live.room(1)?;
        live.put(
            CellNo(number),
            Cell {
                kind,
                parent,
                content: Content::Seq(Values::new(alloc)),
            },
        );
    }
    Ok(live)
}

#[test]
fn keeps_cells_by_number(rt: HostRuntime) -> Result<(), Fail> {
    let mut live = family(rt.alloc())?;
    let other = family(rt.alloc())?;
    assert_eq!(rt; live.size(), 3);
    assert_eq!(rt; live.next_cell(None), Some(CellNo(3)));
    assert_eq!(rt; live.next_cell(Some(CellNo(7))), Some(CellNo(9)));
    assert_eq!(rt; live.next_child(None, None), Some(CellNo(7)));
    assert_eq!(rt;
        live.next_child(Some(CellNo(7)), Some(CellNo(3))),
        Some(CellNo(9))
    );
    assert!(rt; equal_live(&live, &other));
    let view = live.view(rt.alloc())?;
    assert!(rt; equal_live(&live, &view));
    let tree = live.plain(rt.alloc())?;
    assert_eq!(rt; tree.children.len(), 2);
    let taken = live.take(CellNo(9));
    assert_eq!(rt; taken.map(|cell| cell.kind), Some(1));
    assert!(rt; !equal_live(&live, &other));
    Ok(())
}
