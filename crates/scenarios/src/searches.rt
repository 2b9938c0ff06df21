ghost use Rattle.std.specs.Prelude.{ℕ, ◌-◌, ◌==◌, ◌&&◌, if◌then◌else◌, None, refl};

use repeat::{NoRepeat, Repeat, Stepper, first_repeat};
use std::test::Fail;

// A number that falls by one to 0, and then starts again from another one.
#[derive(Clone, Copy)]
struct Falling {
    at: u16,
    again: u16,
}

impl Stepper for Falling {
    type Fault = ();

    ghost State = { ℕ × ℕ };

    ghost state = { λ f. (f.at, f.again) };

    ghost meaning = { record {
      fault = λ _. None;
      next = λ s. (if s.0 == 0 then s.1 else s.0 - 1, s.1);
      stopped = λ s. s;
      alike = λ s t. s.0 == t.0 && s.1 == t.1;
    } };

    fn step(&mut self) -> Result<(), ()> {
        self.at = if self.at == 0 {
            self.again
        } else {
            self.at - 1
        };
        Ok(())
    }

    fn same(&self, other: &Self) -> bool {
        self.at == other.at && self.again == other.again
    }

    fn copy(&self) -> Self {
        *self
    }
}

// Where the numbers come again, with the mark: at once with every number 0, from the start every 3
// steps, and after 4 others every 2 steps.
#[test]
fn the_first_repeat(rt: HostRuntime) -> Result<(), Fail> {
    let repeats = [(0, 0, 0, 1), (2, 2, 3, 6), (5, 1, 7, 9)];
    for (at, again, mark, instant) in repeats {
        let start = Falling { at, again };
        assert_eq!(rt; first_repeat(&start, instant), Ok(Repeat { mark, instant }));
        assert_eq!(rt; first_repeat(&start, instant - 1), Err(NoRepeat::Nowhere));
    }
    Ok(())
}
