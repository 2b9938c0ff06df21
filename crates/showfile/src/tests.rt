use crate::block::write_block;

#[test]
fn the_sum_of_a_slot_block_with_empty_slots(rt: HostRuntime) {
    let mut block = [9u8; 512];
    write_block(&mut block, b'S', 1, &[0; 504]);
    assert!(rt; &block[..4] == &[83, 0, 0, 1][..]);
    assert!(rt; block[4..508].iter().all(|byte| *byte == 0));
    // 83 at place 0 and 1 at place 3
    assert!(rt; &block[508..] == &[0, 0, 0, 87][..]);
}
