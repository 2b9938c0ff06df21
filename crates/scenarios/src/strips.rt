use crate::lists::{list_of, list_x, proposal};
use policy::Policy;
use readings::{Readings, Refusal};
use std::test::Fail;
use strip::{ClosedStrip, LayingStrip, Player};
use walk::Accepted;

// Work 2 and 3, validities 6 and 13 slots.
fn list_z() -> Result<Readings, Refusal> {
    Readings::new(&[proposal(1, (2, 6)), proposal(2, (3, 13))])
}

// The closed strip of a list on so many slots.
pub(crate) fn closed<'a>(
    list: &Readings,
    memory: &'a mut [u8],
    slots: usize,
) -> Result<ClosedStrip<'a>, Refusal> {
    let mut strip = LayingStrip::new(memory);
    strip.lay(list, slots)?;
    match strip.close() {
        Ok(closed) => Ok(closed),
        Err((_, refusal)) => Err(refusal),
    }
}

#[test]
fn a_strip_closes_to_a_loop_with_both_ends_inside(rt: HostRuntime) -> Result<(), Fail> {
    let mut memory = [9u8; 100];
    let strip = closed(&list_x()?, &mut memory, 89)?;
    assert_eq!(rt; (strip.first(), strip.last()), (63, 78));
    let plan = Accepted::walk(&list_x()?, Player::new(&strip))?;
    assert_eq!(rt; (plan.mark(), plan.length()), (63, 16));
    // the memory past the strip's slots is as it was
    let memory = strip.take_apart();
    assert_eq!(rt; memory.len(), 100);
    assert!(rt; memory[89..].iter().all(|byte| *byte == 9));
    Ok(())
}

#[test]
fn after_the_last_slot_of_the_loop_comes_the_first(rt: HostRuntime) -> Result<(), Fail> {
    let mut memory = [0u8; 30];
    let strip = closed(&list_z()?, &mut memory, 30)?;
    assert_eq!(rt; (strip.first(), strip.last()), (15, 22));
    let mut player = Player::new(&strip);
    let mut runs = [0u8; 40];
    for run in runs.iter_mut() {
        *run = player.step().1;
    }
    let slots = strip.slots();
    assert!(rt; &runs[..23] == &slots[..23]);
    assert!(rt; &runs[23..31] == &slots[15..23]);
    assert!(rt; &runs[31..39] == &slots[15..23]);
    Ok(())
}

#[test]
fn a_refused_closing_hands_the_strip_back(rt: HostRuntime) -> Result<(), Fail> {
    let mut memory = [0u8; 30];
    let mut strip = LayingStrip::new(&mut memory);
    assert_eq!(rt; strip.lay(&list_z()?, 29)?, 20);
    let Err((mut strip, refusal)) = strip.close() else {
        assert!(rt; false);
        return Ok(());
    };
    assert_eq!(rt; refusal, Refusal::NoLoop);
    // it can be laid again, for any list
    assert_eq!(rt; strip.lay(&list_z()?, 30)?, 28);
    assert!(rt; strip.close().is_ok());
    Ok(())
}

#[test]
fn a_strip_never_laid_does_not_close(rt: HostRuntime) {
    let mut memory = [0u8; 8];
    let strip = LayingStrip::new(&mut memory);
    assert!(rt; matches!(strip.close(), Err((_, Refusal::NoLoop))));
}

#[test]
fn layings_that_are_refused(rt: HostRuntime) -> Result<(), Fail> {
    let mut memory = [7u8; 90];
    let mut strip = LayingStrip::new(&mut memory);
    let x = list_x()?;
    assert_eq!(rt; strip.lay(&x, 0), Err(Refusal::StripLength));
    assert_eq!(rt; strip.lay(&x, 91), Err(Refusal::StripLength));
    assert_eq!(rt; strip.lay(&x, 4), Err(Refusal::FirstJob { row: 2 }));
    let three = list_of([(1, 4), (1, 4), (1, 4)])?;
    assert_eq!(rt; strip.lay(&three, 88), Err(Refusal::NextJob { row: 3 }));
    assert!(rt; matches!(strip.close(), Err((_, Refusal::NoLoop))));
    Ok(())
}

#[test]
fn strips_from_outside(rt: HostRuntime) -> Result<(), Fail> {
    let one = Readings::new(&[proposal(1, (1, 2))])?;
    let mut memory = [1u8, 0, 0, 0];
    let Ok(strip) = ClosedStrip::from_outside(&one, &mut memory, 4, 1, 3) else {
        assert!(rt; false);
        return Ok(());
    };
    let walked = Accepted::walk(&one, Player::new(&strip)).err();
    assert_eq!(rt; walked, Some(Refusal::Stale { slot: 2, row: 1 }));
    // a slot past the rows, and a loop from slot 0
    let mut memory = [1u8, 2, 0, 0];
    assert!(rt; ClosedStrip::from_outside(&one, &mut memory, 4, 1, 3).is_err());
    let mut memory = [1u8, 0, 0, 0];
    assert!(rt; ClosedStrip::from_outside(&one, &mut memory, 4, 0, 3).is_err());
    Ok(())
}
