use crate::{stored, told};
use std::alloc::Global;
use std::test::Fail;

// The plan script of a list of three readings, up to its end.
const ROWS: &str = "plan\nreading 7 1 5\nreading 8 2 10\nreading 9 2 20\n";

// What is told of the strip of a script, or its refusal.
fn answer(heap: Global, script: &str) -> Result<String, Fail> {
    Ok(match stored(heap, script.as_bytes())? {
        Ok(it) => it.told,
        Err(refusal) => refusal.to_string(heap)?,
    })
}

#[test]
fn stores_and_tells(rt: HostRuntime) -> Result<(), Fail> {
    let script = format!(in rt.alloc(); "{ROWS}defer 89\n")?;
    let it = stored(rt.alloc(), script.as_bytes())?
        .ok()
        .ok_or("refused")?;
    let rows = "reading 7 1 5\nreading 8 2 10\nreading 9 2 20\nslots 89\nloop 63 78\n";
    assert_eq!(rt; it.told, format!(in rt.alloc(); "{rows}blocks 2\n")?);
    assert_eq!(rt; it.file.len(), 1024);
    let text = told(rt.alloc(), it.file.as_slice())?;
    assert_eq!(rt; text, format!(in rt.alloc(); "{rows}walk 63 16\n")?);
    assert_eq!(rt; told(rt.alloc(), b"")?.as_str(), "no 20\n");
    Ok(())
}

#[test]
fn first_refusal_is_told(rt: HostRuntime) -> Result<(), Fail> {
    for (behind, says) in [
        ("", "no 25"),
        ("defer 89", "no 24"),
        ("half\n", "no 24"),
        ("plan\ndefer 89\n", "no 24"),
        ("reading 8 1 20\ndefer 89\nstart 1\n", "no 3"),
        ("reading 1 1 19\nstart 1\ndefer 89\n", "no 24"),
        ("defer 0\nhalf\n", "no 6"),
        ("defer 88\n", "no 9"),
        ("defer 89\nhalf\n", "no 24"),
        ("defer 89\n\n", "no 24"),
    ] {
        let script = format!(in rt.alloc(); "{ROWS}{behind}")?;
        assert_eq!(rt;
            answer(rt.alloc(), script.as_str())?.as_str(),
            says,
            "at {behind}"
        );
    }
    for (script, says) in [
        ("", "no 25"),
        ("more\n", "no 24"),
        ("plan\ndefer 89\n", "no 1"),
    ] {
        assert_eq!(rt; answer(rt.alloc(), script)?.as_str(), says, "at {script}");
    }
    Ok(())
}
