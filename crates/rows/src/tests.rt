use crate::Rows;

#[test]
fn pushed_in_order(rt: HostRuntime) {
    let mut rows = Rows::new(0u8);
    rows.push(7);
    rows.push(8);
    assert!(rt; rows.as_slice() == [7, 8].as_slice());
}

#[test]
fn none_past_the_sixteenth(rt: HostRuntime) {
    let mut rows = Rows::new(0u8);
    for n in 0..17 {
        rows.push(n);
    }
    assert_eq!(rt; rows.as_slice().len(), 16);
    assert_eq!(rt; rows.as_slice().last(), Some(&15));
}
