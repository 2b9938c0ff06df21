use script::replies_to;
use std::alloc::{AllocError, Global};
use std::fmt::Write;
use std::test::Fail;

// What is written for a script.
fn rehearsed(heap: Global, text: &[u8]) -> Result<String, AllocError> {
    let replies = replies_to(heap, text)?;
    let mut written = String::new(heap);
    for reply in &replies {
        write!(written, "{reply}")?;
    }
    Ok(written)
}

// Whether this is what is written for the script.
fn writes(rt: &HostRuntime, text: &[u8], expected: &str) -> Result<bool, AllocError> {
    let written = rehearsed(rt.alloc(), text)?;
    Ok(written.as_str() == expected)
}

// Whether a script of these lines is answered so, each line with what stands beside it: a line of
// output, a line for each tick, or nothing.
fn answers(rt: &HostRuntime, lines: &[(&str, &str)]) -> Result<bool, AllocError> {
    let mut text = String::new(rt.alloc());
    let mut expected = String::new(rt.alloc());
    for (line, replies) in lines {
        writeln!(text, "{line}")?;
        for reply in replies.lines() {
            writeln!(expected, "{reply}")?;
        }
    }
    writes(rt, text.as_bytes(), expected.as_str())
}

#[test]
fn plans(rt: HostRuntime) -> Result<(), Fail> {
    assert!(rt;
        answers(
            &rt,
            &[
                ("plan", "ok"),
                ("reading 7 1 5", "ok"),
                ("reading 8 2 10", "ok"),
                ("reading 9 2 20", "ok"),
                ("more", "ok"),
            ],
        )?
    );
    assert!(rt;
        answers(
            &rt,
            &[
                ("plan", "ok"),
                ("reading 1 2 6", "ok"),
                ("reading 2 3 13", "ok"),
                ("more", "no 5"),
            ],
        )?
    );
    assert!(rt;
        answers(
            &rt,
            &[
                ("plan", "ok"),
                ("reading 1 2 6", "ok"),
                ("reading 2 3 13", "ok"),
                ("half", "ok"),
            ],
        )?
    );
    Ok(())
}

// Whether a plan of this one reading is refused so at its end.
fn refuses(rt: &HostRuntime, reading: &str, refusal: &str) -> Result<bool, AllocError> {
    answers(rt, &[("plan", "ok"), (reading, "ok"), ("half", refusal)])
}

#[test]
fn lists_that_are_refused(rt: HostRuntime) -> Result<(), Fail> {
    assert!(rt; answers(&rt, &[("plan", "ok"), ("half", "no 1")])?);
    assert!(rt; refuses(&rt, "reading 1 1 1", "no 2")?);
    assert!(rt; refuses(&rt, "reading 1 256 300", "no 2")?);
    assert!(rt; refuses(&rt, "reading 1 1 4096", "no 2")?);
    assert!(rt; refuses(&rt, "reading 0 1 5", "no 3")?);
    assert!(rt;
        answers(
            &rt,
            &[
                ("plan", "ok"),
                ("reading 3 1 5", "ok"),
                ("reading 3 1 5", "ok"),
                ("half", "no 3"),
            ],
        )?
    );
    assert!(rt;
        answers(
            &rt,
            &[
                ("plan", "ok"),
                ("reading 1 1 9", "ok"),
                ("reading 2 1 8", "ok"),
                ("half", "no 4"),
            ],
        )?
    );
    Ok(())
}

#[test]
fn seventeen_readings(rt: HostRuntime) -> Result<(), Fail> {
    let heap = rt.alloc();
    let mut text = String::from_str(heap, "plan\n")?;
    let mut expected = String::from_str(heap, "ok\n")?;
    for id in 1..18 {
        writeln!(text, "reading {id} 1 9")?;
        expected.push_str("ok\n")?;
    }
    text.push_str("more\n")?;
    expected.push_str("no 1\n")?;
    assert!(rt; writes(&rt, text.as_bytes(), expected.as_str())?);
    Ok(())
}

#[test]
fn lines_out_of_place(rt: HostRuntime) -> Result<(), Fail> {
    assert!(rt;
        answers(
            &rt,
            &[
                ("reading 1 1 2", "no 24"),
                ("half", "no 24"),
                ("more", "no 24"),
                ("defer 5", "no 24"),
            ],
        )?,
        "before a plan"
    );
    assert!(rt;
        answers(
            &rt,
            &[
                ("plan", "ok"),
                ("plan", "no 24"),
                ("half", "no 1"),
                ("half", "no 24"),
            ],
        )?,
        "within a plan, and behind it"
    );
    assert!(rt;
        answers(
            &rt,
            &[
                ("plan", "ok"),
                ("half", "no 1"),
                ("plan", "ok"),
                ("half", "no 1"),
                ("plan", "no 24"),
            ],
        )?,
        "a third plan"
    );
    Ok(())
}

#[test]
fn lines_that_are_malformed(rt: HostRuntime) -> Result<(), Fail> {
    assert!(rt; writes(&rt, b"", "")?);
    assert!(rt; writes(&rt, b"plan", "no 24\n")?, "no byte 10 behind it");
    assert!(rt;
        writes(&rt, b"plan\nhalf", "ok\nno 24\n")?,
        "no byte 10 behind the last"
    );
    assert!(rt;
        answers(
            &rt,
            &[("", "no 24"), (" Plan", "no 24"), ("plan ", "no 24")]
        )?
    );
    assert!(rt;
        answers(
            &rt,
            &[
                ("plan", "ok"),
                ("reading 1  1 2", "no 24"),
                ("reading 65536 1 2", "no 24"),
            ],
        )?
    );
    assert!(rt;
        answers(
            &rt,
            &[("start", "no 24"), ("tick x", "no 24"), ("stop 1", "no 24")],
        )?
    );
    Ok(())
}

#[test]
fn a_script_of_the_greatest_length(rt: HostRuntime) -> Result<(), Fail> {
    let heap = rt.alloc();
    let longest = vec![in heap; b'\n'; 16_384]?;
    let written = rehearsed(heap, longest.as_slice())?;
    assert_eq!(rt; written.len(), 16_384 * 6);
    let longer = vec![in heap; b'\n'; 16_385]?;
    assert!(rt; writes(&rt, longer.as_slice(), "no 24\n")?);
    Ok(())
}

#[test]
fn a_day_of_the_board(rt: HostRuntime) -> Result<(), Fail> {
    assert!(rt;
        answers(
            &rt,
            &[
                ("plan", "ok"),
                ("reading 7 1 5", "ok"),
                ("reading 8 2 10", "ok"),
                ("reading 9 2 20", "ok"),
                ("more", "ok"),
                ("start 1", "start 31 28"),
                ("show 9", "show none"),
                ("tick 0", ""),
                ("tick 1", "7 1 1 0"),
                ("tick 5", "0 2 0 0\n0 2 2 0\n0 3 0 0\n1 1 1 0\n0 3 3 0"),
                ("show 9", "show 6 20"),
                ("stop", "ok"),
                ("tick 2", "no 14"),
                ("stop", "no 14"),
            ],
        )?
    );
    Ok(())
}

#[test]
fn calls_that_are_refused(rt: HostRuntime) -> Result<(), Fail> {
    assert!(rt;
        answers(
            &rt,
            &[
                ("tick 3", "no 14"),
                ("tick 0", ""),
                ("show 1", "no 14"),
                ("stop", "no 14"),
                ("plan", "no 24"),
                ("start 1", "no 25"),
                ("plans", "no 24"),
            ],
        )?,
        "a board that rests, no ticks, and a plan after a call"
    );
    assert!(rt;
        answers(
            &rt,
            &[
                ("start 1", "no 25"),
                ("switch 3 5", "no 25"),
                ("plan", "ok"),
                ("reading 7 1 2", "ok"),
                ("start 1", "no 24"),
                ("half", "ok"),
                ("start 2", "no 25"),
                ("start 1", "start 1 1"),
                ("start 1", "no 15"),
                ("show 8", "no 19"),
            ],
        )?,
        "plans that are not there, and a call inside a plan"
    );
    Ok(())
}

#[test]
fn no_ticks_end_the_plans(rt: HostRuntime) -> Result<(), Fail> {
    assert!(rt; answers(&rt, &[("tick 0", ""), ("plan", "no 24")])?);
    Ok(())
}

#[test]
fn switches(rt: HostRuntime) -> Result<(), Fail> {
    assert!(rt;
        answers(
            &rt,
            &[
                ("plan", "ok"),
                ("reading 7 1 5", "ok"),
                ("reading 8 2 10", "ok"),
                ("reading 9 2 20", "ok"),
                ("more", "ok"),
                ("plan", "ok"),
                ("reading 7 2 8", "ok"),
                ("reading 8 2 10", "ok"),
                ("reading 9 2 12", "ok"),
                ("more", "ok"),
                ("switch 2 9", "no 14"),
                ("start 1", "start 31 28"),
                ("tick 1", "7 1 1 0"),
                ("switch 2 4096", "no 17"),
                ("switch 2 4", "no 18"),
                ("switch 2 5", "switch 5"),
                ("switch 2 5", "no 16"),
                ("tick 5", "0 2 0 0\n0 2 2 0\n0 3 0 0\n1 1 1 0\n0 3 3 1"),
                ("show 7", "show 2 8"),
            ],
        )?
    );
    Ok(())
}

#[test]
fn plans_by_strips(rt: HostRuntime) -> Result<(), Fail> {
    assert!(rt;
        answers(
            &rt,
            &[
                ("plan", "ok"),
                ("reading 1 2 6", "ok"),
                ("reading 2 3 13", "ok"),
                ("defer 30", "ok"),
                ("start 1", "start 15 8"),
                ("tick 5", "3 1 0 0\n0 1 1 0\n0 2 0 0\n0 2 0 0\n1 1 0 0"),
                ("show 1", "show 5 6"),
            ],
        )?,
        "a list that More-Less refuses"
    );
    assert!(rt;
        answers(
            &rt,
            &[
                ("plan", "ok"),
                ("reading 1 2 6", "ok"),
                ("reading 2 3 13", "ok"),
                ("defer 29", "no 9"),
                ("start 1", "no 25"),
            ],
        )?,
        "a strip that does not close"
    );
    Ok(())
}

// Whether a plan of list X by this line is refused so at its end, and is then not ready.
fn refuses_x(rt: &HostRuntime, line: &str, refusal: &str) -> Result<bool, AllocError> {
    answers(
        rt,
        &[
            ("plan", "ok"),
            ("reading 7 1 5", "ok"),
            ("reading 8 2 10", "ok"),
            ("reading 9 2 20", "ok"),
            (line, refusal),
            ("start 1", "no 25"),
        ],
    )
}

#[test]
fn strips_that_are_refused(rt: HostRuntime) -> Result<(), Fail> {
    assert!(rt; refuses_x(&rt, "defer 0", "no 6")?);
    assert!(rt; refuses_x(&rt, "defer 32768", "no 6")?);
    assert!(rt; refuses_x(&rt, "defer 40000", "no 6")?);
    assert!(rt; refuses_x(&rt, "defer 4", "no 7")?);
    assert!(rt; refuses_x(&rt, "defer 88", "no 9")?);
    assert!(rt;
        answers(
            &rt,
            &[
                ("plan", "ok"),
                ("reading 1 1 4", "ok"),
                ("reading 2 1 4", "ok"),
                ("reading 3 1 4", "ok"),
                ("defer 88", "no 8"),
            ],
        )?
    );
    assert!(rt;
        answers(
            &rt,
            &[("plan", "ok"), ("reading 1 1 1", "ok"), ("defer 0", "no 2")],
        )?,
        "the list is judged first"
    );
    Ok(())
}

#[test]
fn a_switch_from_a_strip_to_periods(rt: HostRuntime) -> Result<(), Fail> {
    let day = "7 1 1 0\n0 2 0 0\n0 2 2 0\n0 3 0 0\n1 1 1 0\n0 3 3 0\n0 0 0 0\n2 2 0 0\n1 1 1 0\n\
        0 2 2 0\n0 0 0 0\n0 0 0 0\n1 1 1 0\n0 0 0 0\n2 2 0 0\n0 2 2 0\n1 1 1 0\n0 0 0 0\n\
        4 3 0 0\n0 3 3 0\n1 1 1 0\n0 0 0 0\n2 2 0 0\n0 2 2 0\n1 1 1 0\n0 0 0 0\n0 0 0 0\n\
        0 0 0 0\n1 1 1 0\n0 0 0 0\n2 2 0 0\n0 2 2 0\n1 1 1 0";
    assert!(rt;
        answers(
            &rt,
            &[
                ("plan", "ok"),
                ("reading 7 1 5", "ok"),
                ("reading 8 2 10", "ok"),
                ("reading 9 2 20", "ok"),
                ("defer 89", "ok"),
                ("plan", "ok"),
                ("reading 7 1 5", "ok"),
                ("reading 8 2 10", "ok"),
                ("reading 9 2 20", "ok"),
                ("more", "ok"),
                ("start 1", "start 63 16"),
                ("tick 33", day),
                ("switch 2 6", "no 18"),
                ("switch 2 7", "switch 7"),
                (
                    "tick 7",
                    "0 0 0 0\n0 0 0 0\n4 3 0 0\n1 1 1 0\n0 3 3 0\n2 2 0 0\n0 2 2 1",
                ),
                ("show 8", "show 2 10"),
                ("tick 4", "7 1 1 0\n0 2 0 0\n0 2 2 0\n0 3 0 0"),
                ("stop", "ok"),
                ("start 2", "start 31 28"),
                ("tick 1", "7 1 1 0"),
                ("switch 1 4095", "switch 5"),
                ("tick 5", "0 2 0 0\n0 2 2 0\n0 3 0 0\n1 1 1 0\n0 3 3 1"),
                ("tick 3", "7 1 1 0\n0 2 0 0\n0 2 2 0"),
            ],
        )?
    );
    Ok(())
}
