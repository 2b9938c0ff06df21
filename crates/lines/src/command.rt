ghost use Rattle.std.specs.Prelude.{◌≡◌, drop};
ghost use Rattle.lines.specs.Left.{first_number, left};
ghost use Rattle.lines.specs.Words.{call_line, command_of, line_alone, line_of_one, line_of_three, line_of_two, plan_line};

use crate::pieces::Pieces;
use crate::token::Token;

/// A line of a plan.
#[derive(Clone, Copy, PartialEq, Eq, Debug)]
pub enum PlanLine {
    /// A plan begins.
    Begin,
    /// One more reading of the plan, with the numbers of the line, which nothing has judged yet.
    Reading {
        /// The id that the reading goes by.
        id: u16,
        /// The work length of a job that refreshes the reading, in slots.
        work: u16,
        /// The number of slots for which a sample may be trusted.
        validity: u16,
    },
    /// The plan ends, and Half-Half is to give its policy.
    HalfHalf,
    /// The plan ends, and More-Less is to give its policy.
    MoreLess,
    /// The plan ends, and deferrable scheduling is to give its policy, laid on a strip.
    Defer {
        /// The number of slots that the strip is to have.
        slots: u16,
    },
}

/// A call of the board.
#[derive(Clone, Copy, PartialEq, Eq, Debug)]
pub enum CallLine {
    /// The board is to run a plan.
    Start {
        /// The number of the plan, whether or not there is one.
        plan: u16,
    },
    /// Slots of the board pass.
    Tick {
        /// The number of slots.
        ticks: u16,
    },
    /// Another plan is to cross in at a safe instant.
    Switch {
        /// The number of the plan, whether or not there is one.
        plan: u16,
        /// The most ticks from now until that instant.
        latency: u16,
    },
    /// How old is the value of a reading?
    Show {
        /// The id of the reading, whether or not there is one.
        id: u16,
    },
    /// The board is to rest.
    Stop,
}

/// What a line of a script asks for.
#[derive(Clone, Copy, PartialEq, Eq, Debug)]
pub enum Command {
    /// A line of a plan.
    Plan(PlanLine),
    /// A call of the board.
    Call(CallLine),
}

// The most bytes that a line may have.
const LONGEST: usize = 80;

impl Command {
    /// The command of a line, given without the byte that ends it; none where the line is malformed
    /// or has more than 80 bytes.
    pub fn of(line: &[u8]) -> Option<Command>
        ensures { result ≡ command_of line.now }
    {
        if line.len() > LONGEST {
            return None;
        }
        let mut pieces = Pieces::new(line, b' ');
        let Token::Word(word) = Token::from(pieces.next()?) else {
            return None;
        };
        match plan_line(word, pieces) {
            Some(line) => Some(Command::Plan(line)),
            None => call_line(word, pieces).map(Command::Call),
        }
    }
}

// The line of a plan that a word and the pieces behind it make.
fn plan_line(word: &[u8], pieces: Pieces) -> Option<PlanLine>
    ensures { result ≡ plan_line word.now (left pieces.entry) }
{
    match word {
        b"plan" => line_alone(PlanLine::Begin, pieces),
        b"reading" => reading_line(pieces),
        b"half" => line_alone(PlanLine::HalfHalf, pieces),
        b"more" => line_alone(PlanLine::MoreLess, pieces),
        b"defer" => defer_line(pieces),
        _ => None,
    }
}

// The call of the board that a word and the pieces behind it make.
fn call_line(word: &[u8], pieces: Pieces) -> Option<CallLine>
    ensures { result ≡ call_line word.now (left pieces.entry) }
{
    match word {
        b"start" => start_line(pieces),
        b"tick" => tick_line(pieces),
        b"switch" => switch_line(pieces),
        b"show" => show_line(pieces),
        b"stop" => line_alone(CallLine::Stop, pieces),
        _ => None,
    }
}

// A reading: its id, work length and validity, and nothing behind them.
fn reading_line(mut pieces: Pieces) -> Option<PlanLine>
    ensures { result ≡ line_of_three PlanLine.Reading (left pieces.entry) }
{
    let id = next_number(&mut pieces)?;
    let work = next_number(&mut pieces)?;
    let validity = next_number(&mut pieces)?;
    line_alone(PlanLine::Reading { id, work, validity }, pieces)
}

// An end of a plan by a strip: how many slots it has, and nothing behind it.
fn defer_line(mut pieces: Pieces) -> Option<PlanLine>
    ensures { result ≡ line_of_one PlanLine.Defer (left pieces.entry) }
{
    let slots = next_number(&mut pieces)?;
    line_alone(PlanLine::Defer { slots }, pieces)
}

// A start of the board: the number of a plan, and nothing behind it.
fn start_line(mut pieces: Pieces) -> Option<CallLine>
    ensures { result ≡ line_of_one CallLine.Start (left pieces.entry) }
{
    let plan = next_number(&mut pieces)?;
    line_alone(CallLine::Start { plan }, pieces)
}

// Slots that pass: how many ticks, and nothing behind them.
fn tick_line(mut pieces: Pieces) -> Option<CallLine>
    ensures { result ≡ line_of_one CallLine.Tick (left pieces.entry) }
{
    let ticks = next_number(&mut pieces)?;
    line_alone(CallLine::Tick { ticks }, pieces)
}

// A switch of the board: the number of a plan, the latency, and nothing behind them.
fn switch_line(mut pieces: Pieces) -> Option<CallLine>
    ensures { result ≡ line_of_two CallLine.Switch (left pieces.entry) }
{
    let plan = next_number(&mut pieces)?;
    let latency = next_number(&mut pieces)?;
    line_alone(CallLine::Switch { plan, latency }, pieces)
}

// A question for an age: the id of a reading, and nothing behind it.
fn show_line(mut pieces: Pieces) -> Option<CallLine>
    ensures { result ≡ line_of_one CallLine.Show (left pieces.entry) }
{
    let id = next_number(&mut pieces)?;
    line_alone(CallLine::Show { id }, pieces)
}

// A line behind which no piece is left.
fn line_alone<L: Copy>(line: L, pieces: Pieces) -> Option<L>
    ensures { result ≡ line_alone line (left pieces.entry) }
{
    pieces.is_done().then_some(line)
}

// The next piece as a number; none where it is no number or no piece is left.
fn next_number(pieces: &mut Pieces) -> Option<u16>
    ensures value { result ≡ first_number (left pieces.old) }
    ensures rest { left pieces.new ≡ drop 1 (left pieces.old) }
{
    Token::from(pieces.next()?).number()
}
