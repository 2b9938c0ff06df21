use crate::number::number;
use crate::{CallLine, Command, Pieces, PlanLine, Token};
use std::test::Fail;

#[test]
fn numbers(rt: HostRuntime) {
    for (digits, value) in [
        (b"65535".as_slice(), Some(65_535)),
        (b"00007".as_slice(), Some(7)),
        (b"65536".as_slice(), None),
        (b"123456".as_slice(), None),
        (b"7x".as_slice(), None),
        (b"".as_slice(), None),
    ] {
        assert_eq!(rt; number(digits), value);
    }
}

#[test]
fn tokens(rt: HostRuntime) {
    assert_eq!(rt; Token::from(b"plan".as_slice()).number(), None);
    assert_eq!(rt; Token::from(b"40".as_slice()).number(), Some(40));
    assert!(rt; Token::from(b"plan".as_slice()).is(b"plan"));
    assert!(rt; !Token::from(b"planned".as_slice()).is(b"plan"));
}

#[test]
fn commands(rt: HostRuntime) {
    let reading = PlanLine::Reading {
        id: 7,
        work: 1,
        validity: 5,
    };
    let switch = CallLine::Switch {
        plan: 2,
        latency: 30,
    };
    for (line, command) in [
        (b"plan".as_slice(), Command::Plan(PlanLine::Begin)),
        (b"reading 7 1 5".as_slice(), Command::Plan(reading)),
        (b"half".as_slice(), Command::Plan(PlanLine::HalfHalf)),
        (b"more".as_slice(), Command::Plan(PlanLine::MoreLess)),
        (
            b"defer 120".as_slice(),
            Command::Plan(PlanLine::Defer { slots: 120 }),
        ),
        (
            b"start 1".as_slice(),
            Command::Call(CallLine::Start { plan: 1 }),
        ),
        (
            b"tick 40".as_slice(),
            Command::Call(CallLine::Tick { ticks: 40 }),
        ),
        (b"switch 2 30".as_slice(), Command::Call(switch)),
        (
            b"show 7".as_slice(),
            Command::Call(CallLine::Show { id: 7 }),
        ),
        (b"stop".as_slice(), Command::Call(CallLine::Stop)),
    ] {
        assert_eq!(rt; Command::of(line), Some(command));
    }
}

#[test]
fn malformed_lines(rt: HostRuntime) {
    for (line, fault) in [
        (b"".as_slice(), "no word"),
        (b"plans".as_slice(), "no such word"),
        (b"7".as_slice(), "a number for the word"),
        (b"reading 7  1 5".as_slice(), "two spaces"),
        (b"plan ".as_slice(), "a space behind"),
        (b"defer".as_slice(), "no slots"),
        (b"defer 4 5".as_slice(), "a number behind the slots"),
        (b"start".as_slice(), "no number"),
        (b"start 1 2".as_slice(), "a number too many"),
        (b"tick x".as_slice(), "no digit"),
        (b"switch 1".as_slice(), "one number of two"),
        (b"stop 1".as_slice(), "a number behind"),
        (b"show 65536".as_slice(), "past 16 bits"),
        ([b' '; 81].as_slice(), "81 bytes"),
    ] {
        assert_eq!(rt; Command::of(line), None, "{fault}");
    }
}

#[test]
fn lines_of_a_text(rt: HostRuntime) -> Result<(), Fail> {
    let mut lines = Pieces::new(b"half\n", b'\n');
    let line = lines.next().ok_or("no line")?;
    assert_eq!(rt; Command::of(line), Some(Command::Plan(PlanLine::HalfHalf)));
    assert!(rt; !lines.is_done());
    let last = lines.next().ok_or("no piece behind the line")?;
    assert!(rt; last.is_empty() && lines.is_done());
    Ok(())
}
