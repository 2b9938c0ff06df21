use crate::lists::list_x;
use crate::strips::closed;
use readings::Refusal;
use showfile::{file_length, read, store};
use std::test::Fail;

// The show file of list X on 89 slots.
fn show_of_x() -> Result<[u8; 1024], Refusal> {
    let mut memory = [0u8; 89];
    let strip = closed(&list_x()?, &mut memory, 89)?;
    let mut file = [9u8; 1024];
    store(&strip, &mut file)?;
    Ok(file)
}

// The refusal of a file that is read into room for 89 slots.
fn refusal_of(file: &[u8]) -> Option<Refusal> {
    let mut memory = [0u8; 89];
    match read(file, &mut memory) {
        Ok(_) => None,
        Err((_, refusal)) => Some(refusal),
    }
}

// Tells the sum of a block in its last four bytes, as it should be.
fn mend_sum(block: &mut [u8; 512]) {
    let mut sum = 0u32;
    for (k, byte) in block[..508].iter().enumerate() {
        let place = (k as u32).wrapping_add(1);
        sum = sum.wrapping_add(u32::from(*byte).wrapping_mul(place));
    }
    block[508..].copy_from_slice(&sum.to_be_bytes());
}

// A file of two blocks with the byte at a place changed, and the sum of its block as it should be.
fn with_byte(file: &[u8; 1024], place: usize, byte: u8) -> [u8; 1024] {
    let mut head = [0u8; 512];
    let mut slots = [0u8; 512];
    head.copy_from_slice(&file[..512]);
    slots.copy_from_slice(&file[512..]);
    if place < 512 {
        head[place] = byte;
        mend_sum(&mut head);
    } else if place < 1024 {
        slots[place - 512] = byte;
        mend_sum(&mut slots);
    }
    let mut changed = [0u8; 1024];
    changed[..512].copy_from_slice(&head);
    changed[512..].copy_from_slice(&slots);
    changed
}

#[test]
fn a_strip_is_stored_and_read_back(rt: HostRuntime) -> Result<(), Fail> {
    let mut memory = [0u8; 89];
    let x = list_x()?;
    let strip = closed(&x, &mut memory, 89)?;
    assert_eq!(rt; file_length(&strip), 1024);
    let file = show_of_x()?;
    let mut room = [9u8; 100];
    let Ok(again) = read(&file, &mut room) else {
        assert!(rt; false);
        return Ok(());
    };
    assert!(rt; again.rows() == x.rows());
    assert!(rt; again.slots() == strip.slots());
    assert_eq!(rt; (again.first(), again.last()), (63, 78));
    let mut second = [0u8; 1024];
    store(&again, &mut second)?;
    assert!(rt; second == file);
    // the memory past the strip's slots is as it was
    let room = again.take_apart();
    assert!(rt; room[89..].iter().all(|byte| *byte == 9));
    Ok(())
}

#[test]
fn a_file_of_another_length_is_not_stored_in(rt: HostRuntime) -> Result<(), Fail> {
    let mut memory = [0u8; 89];
    let strip = closed(&list_x()?, &mut memory, 89)?;
    let mut short = [9u8; 512];
    assert_eq!(rt; store(&strip, &mut short), Err(Refusal::FileLength));
    assert!(rt; short.iter().all(|byte| *byte == 9));
    let mut long = [9u8; 1536];
    assert_eq!(rt; store(&strip, &mut long), Err(Refusal::FileLength));
    Ok(())
}

#[test]
fn every_change_of_one_byte_is_refused(rt: HostRuntime) -> Result<(), Fail> {
    let mut file = show_of_x()?;
    for place in 0..1024 {
        let byte = file[place];
        let met = Some(Refusal::BlockSum {
            block: u8::from(place >= 512),
        });
        for change in 1..=255 {
            file[place] = byte ^ change;
            assert_eq!(rt; refusal_of(&file), met);
        }
        file[place] = byte;
    }
    assert_eq!(rt; refusal_of(&file), None);
    Ok(())
}

#[test]
fn changes_with_the_sum_mended(rt: HostRuntime) -> Result<(), Fail> {
    let file = show_of_x()?;
    for (place, byte, refusal) in [
        // kinds and numbers
        (0, b'S', Refusal::BlockHead { block: 0 }),
        (3, 1, Refusal::BlockHead { block: 0 }),
        (512, b'T', Refusal::BlockHead { block: 1 }),
        (515, 2, Refusal::BlockHead { block: 1 }),
        // the list
        (4, 0, Refusal::Count),
        (4, 17, Refusal::Count),
        (7, 0, Refusal::Range { row: 1 }),
        (11, 7, Refusal::Id { row: 2 }),
        (14, 4, Refusal::Order { row: 2 }),
        // no slots; more than there is room for; loops from slot 0, turned round, past the last slot
        (86, 0, Refusal::Outside),
        (86, 90, Refusal::Outside),
        (88, 0, Refusal::Outside),
        (90, 62, Refusal::Outside),
        (90, 89, Refusal::Outside),
        // bytes in which nothing is told
        (1, 1, Refusal::FileRest),
        (20, 1, Refusal::FileRest),
        (84, 1, Refusal::FileRest),
        (91, 1, Refusal::FileRest),
        (507, 1, Refusal::FileRest),
        (513, 1, Refusal::FileRest),
        (605, 1, Refusal::FileRest),
        (1019, 1, Refusal::FileRest),
        // a slot that names row 4 of 3
        (516, 4, Refusal::Outside),
    ] {
        let changed = with_byte(&file, place, byte);
        assert_eq!(rt; refusal_of(&changed), Some(refusal), "byte {place}");
    }
    Ok(())
}

#[test]
fn the_first_fault_is_told(rt: HostRuntime) -> Result<(), Fail> {
    let file = show_of_x()?;
    for bytes in [0, 1, 512, 1023] {
        assert_eq!(rt; refusal_of(&file[..bytes]), Some(Refusal::FileLength));
    }
    // 68 blocks
    assert_eq!(rt; refusal_of(&[0; 34_816]), Some(Refusal::FileLength));
    // the sum before the kind
    let mut changed = file;
    changed[0] = b'S';
    assert_eq!(rt; refusal_of(&changed), Some(Refusal::BlockSum { block: 0 }));
    // the kind of a block before the sum of the next
    let mut changed = with_byte(&file, 0, b'S');
    changed[1000] = 1;
    assert_eq!(rt; refusal_of(&changed), Some(Refusal::BlockHead { block: 0 }));
    // an unused byte before a slot
    let changed = with_byte(&with_byte(&file, 516, 4), 1, 1);
    assert_eq!(rt; refusal_of(&changed), Some(Refusal::FileRest));
    Ok(())
}

// A file of two blocks with one block more behind it.
fn with_block(file: &[u8; 1024], block: &[u8; 512]) -> [u8; 1536] {
    let mut longer = [0u8; 1536];
    longer[..1024].copy_from_slice(file);
    longer[1024..].copy_from_slice(block);
    longer
}

#[test]
fn a_block_too_many(rt: HostRuntime) -> Result<(), Fail> {
    let file = show_of_x()?;
    let mut block = [0u8; 512];
    let met = refusal_of(&with_block(&file, &block));
    assert_eq!(rt; met, Some(Refusal::BlockHead { block: 2 }));
    block[0] = b'S';
    block[3] = 2;
    mend_sum(&mut block);
    let met = refusal_of(&with_block(&file, &block));
    assert_eq!(rt; met, Some(Refusal::FileRest));
    Ok(())
}
