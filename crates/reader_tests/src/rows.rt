use k_terms::{Many, Memory};
use span_rows::{Key, Row, Sign, add};
use std::alloc::Global;
use std::test::Fail;

fn row(alloc: Global, at: usize) -> Result<Row, Memory> {
    Ok(Row {
        key: Key::Wild,
        code: Many::from_vec(Vec::from_slice(alloc, &[Sign::Leaf(at)])?),
    })
}

#[test]
fn keeps_two_of_a_key(rt: HostRuntime) -> Result<(), Fail> {
    let alloc = rt.alloc();
    let mut rows = Vec::new(alloc);
    let cases: [(usize, bool); 4] = [(0, true), (0, false), (1, true), (2, false)];
    for (at, want) in cases {
        assert_eq!(rt; add(&mut rows, row(alloc, at)?)?, want);
    }
    assert_eq!(rt; rows.len(), 2);
    Ok(())
}
