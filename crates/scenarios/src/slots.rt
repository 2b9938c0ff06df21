use crate::lists::list_x;
use books::{Books, Fault};
use std::test::Fail;

// The first in the order of the steps, lowest row first. In `opened` row 2 has an open job.
#[test]
fn the_first_fault_of_a_slot(rt: HostRuntime) -> Result<(), Fail> {
    let new = Books::new(&list_x()?);
    let mut opened = new;
    assert_eq!(rt; opened.take((2, 2)), Ok(None));
    let faults = [
        (new, (0, 1), 1),
        (new, (0, 4), 4),
        (new, (8, 0), 4),
        (opened, (2, 1), 2),
        (opened, (10, 0), 2),
        (opened, (1, 3), 3),
    ];
    for (books, answer, row) in faults {
        let mut books = books;
        assert_eq!(rt; books.take(answer), Err(Fault::JobRule { row }));
    }
    Ok(())
}

// Row 1 is valid to age 5, and a value that would go on show in the slot after that comes too late.
#[test]
fn an_age_up_to_the_validity_is_fresh(rt: HostRuntime) -> Result<(), Fail> {
    let mut books = Books::new(&list_x()?);
    for _ in 0..5u8 {
        assert_eq!(rt; books.take((0, 0)), Ok(None));
    }
    assert_eq!(rt; books.take((0, 0)), Err(Fault::Stale { row: 1 }));
    assert_eq!(rt; books.take((1, 1)), Err(Fault::Stale { row: 1 }));
    Ok(())
}

// Row 2, the reading 8, is sampled in slot 0 and finished in slot 3.
#[test]
fn an_age_counts_from_the_sample(rt: HostRuntime) -> Result<(), Fail> {
    let mut books = Books::new(&list_x()?);
    assert_eq!(rt; books.take((2, 0)), Ok(None));
    assert_eq!(rt; books.take((0, 2)), Ok(None));
    assert_eq!(rt; books.take((0, 0)), Ok(None));
    assert!(rt; !books.is_idle());
    assert_eq!(rt; books.take((0, 2)), Ok(Some(2)));
    assert!(rt; books.is_idle());
    assert!(rt; books.find(8).is_some_and(|row| row.shown && row.age == 4));
    assert!(rt; books.find(7).is_some_and(|row| !row.shown && row.age == 4));
    assert!(rt; books.find(1).is_none());
    Ok(())
}
