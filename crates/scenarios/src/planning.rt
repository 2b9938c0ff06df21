use crate::lists::{list_of, list_x, proposal};
use periodic::Periodic;
use planner::Timings;
use policy::{Bank, Policy, copies_agree, same_answers};
use readings::{Readings, Refusal};
use std::test::Fail;

// Whether these are the periods of the rows.
fn has_periods(timings: &Timings, expected: &[u16]) -> bool {
    timings
        .rows()
        .iter()
        .map(|row| row.period)
        .eq(expected.iter().copied())
}

#[test]
fn half_half_halves_the_validity(rt: HostRuntime) -> Result<(), Fail> {
    assert!(rt; has_periods(&Timings::half_half(&list_x()?), &[2, 5, 10]));
    Ok(())
}

// With V 5, 10, 20 these periods leave the response times 1, 3, 6.
#[test]
fn more_less_leaves_the_response_time(rt: HostRuntime) -> Result<(), Fail> {
    assert!(rt; has_periods(&Timings::more_less(&list_x()?)?, &[4, 7, 14]));
    let y = list_of([(2, 8), (2, 10), (2, 12)])?;
    assert!(rt; has_periods(&Timings::more_less(&y)?, &[6, 6, 6]));
    Ok(())
}

// The second row would need 7 of its 13 slots.
#[test]
fn more_less_refuses_a_late_response(rt: HostRuntime) -> Result<(), Fail> {
    let z = Readings::new(&[proposal(1, (2, 6)), proposal(2, (3, 13))])?;
    let refused = Timings::more_less(&z);
    assert!(rt; matches!(refused, Err(Refusal::Response { row: 2 })));
    Ok(())
}

// The row that is run in the first six slots, and the rows sampled.
#[test]
fn a_periodic_policy_runs_the_lowest_row(rt: HostRuntime) -> Result<(), Fail> {
    let mut policy = Periodic::new(&Timings::more_less(&list_x()?)?);
    assert_eq!(rt; policy.step(), (7, 1));
    assert_eq!(rt; policy.step(), (0, 2));
    assert_eq!(rt; policy.step(), (0, 2));
    assert_eq!(rt; policy.step(), (0, 3));
    assert_eq!(rt; policy.step(), (1, 1));
    assert_eq!(rt; policy.step(), (0, 3));
    Ok(())
}

#[test]
fn a_bank_plays_the_used_policy(rt: HostRuntime) -> Result<(), Fail> {
    let first = Periodic::new(&Timings::more_less(&list_x()?)?);
    let second = Periodic::new(&Timings::half_half(&list_x()?));
    let bank = Bank::new(first, second, 2);
    assert!(rt; same_answers(&bank, &second, 100));
    assert!(rt; !same_answers(&bank, &first, 100));
    assert!(rt; !bank.same(&Bank::new(first, second, 1)));
    Ok(())
}

// Any number but 1 uses the second.
#[test]
fn a_bank_with_number_0_plays_the_second(rt: HostRuntime) -> Result<(), Fail> {
    let first = Periodic::new(&Timings::more_less(&list_x()?)?);
    let second = Periodic::new(&Timings::half_half(&list_x()?));
    let bank = Bank::new(first, second, 0);
    assert!(rt; same_answers(&bank, &second, 100));
    assert!(rt; !same_answers(&bank, &first, 100));
    Ok(())
}

// The policy has taken its samples, and row 2 is to run.
#[test]
fn copies_of_a_stepped_policy_step_alike(rt: HostRuntime) -> Result<(), Fail> {
    let mut policy = Periodic::new(&Timings::more_less(&list_x()?)?);
    assert_eq!(rt; policy.step(), (7, 1));
    let (mut left, mut right) = copies_agree(&policy);
    for answer in [(0, 2), (0, 2), (0, 3), (1, 1)] {
        assert_eq!(rt; left.step(), answer);
        assert_eq!(rt; right.step(), answer);
    }
    Ok(())
}
