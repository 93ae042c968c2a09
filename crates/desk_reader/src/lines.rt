// Whole lines, one after the other.
ghost use Rattle.std.specs.Prelude.{◌≡◌, ◌≤◌, ◌<◌, length};
ghost use Rattle.lent.specs.Refusals.{number_of};
ghost use Rattle.desk_rules.specs.Desk.{most_lines};
ghost use Rattle.desk_reader.specs.declared.lines.Phase.TheVariants.{Stopped};
ghost use Rattle.desk_reader.specs.Sketches.{new_of};
ghost use Rattle.desk_reader.specs.Reader.{started_desk, empty_desk, bad_line, log_desk, got_desk, take_line, taken_log, taken_got};

use crate::bytes::{Key, Line};
use lent::refusal::Refusal;
use modint::Code;
use power_sum::power_sum::PowerSumQuackU32;

// How many log lines an input may have, and how many got lines; and how many places the arrays lent for their codes have.
pub const MOST_LINES: usize = 8192;

// Which lines the input has had, or the number of the refusal by its first bad line.
#[derive(Clone, Copy, Debug, PartialEq, Eq)]
pub enum Phase {
    Unbegun,
    Logs,
    Gots,
    // A number, also one that is none of the table: `desk_text::answer::finish` answers for any reading, and writes the number that it finds.
    Stopped(u32),
}

// What the whole lines so far have given: `sent` is the sketch of the log lines, `arrived` that of the got lines. The log's entries stand in a lent
// array, from its front, and so do the got codes in another: there is no heap, so the caller lends the room for them, and the counts stand here.
// The counts and sketches stand in every phase, since the end of an input is refused for counts that claim too much in any of them.
#[derive(Clone, Copy)]
pub struct Desk {
    pub phase: Phase,
    pub entries: usize,
    pub gots: usize,
    pub sent: PowerSumQuackU32,
    pub arrived: PowerSumQuackU32,
}

impl Desk {
    // A desk without sketches: before the first line, or after a refusal.
    pub(crate) fn empty(phase: Phase) -> Desk
        ensures { result ≡ empty_desk phase }
    {
        let none = PowerSumQuackU32::blank();
        Desk {
            phase,
            entries: 0,
            gots: 0,
            sent: none,
            arrived: none,
        }
    }

    // After the line that is refused.
    fn stopped(refusal: Refusal) -> Desk
        ensures { result ≡ empty_desk (Stopped (number_of refusal)) }
    {
        Desk::empty(Phase::Stopped(refusal.number()))
    }

    // After the threshold line.
    fn started(threshold: u32) -> Desk
        ensures { result ≡ started_desk (new_of threshold) }
    {
        match PowerSumQuackU32::new(threshold as usize) {
            Ok(fresh) => Desk {
                phase: Phase::Logs,
                entries: 0,
                gots: 0,
                sent: fresh,
                arrived: fresh,
            },
            Err(refusal) => Desk::stopped(refusal),
        }
    }

    // With the code of a log line, as `with_got` is with that of a got line: each changes three fields that the other leaves.
    fn with_log(self, code: u32) -> Desk
        requires { self.entries < most_lines }
        ensures { result ≡ log_desk self code }
    {
        Desk {
            phase: Phase::Logs,
            entries: self.entries + 1,
            sent: self.sent.insert(Code(code)).unwrap_or(self.sent),
            ..self
        }
    }

    fn with_got(self, code: u32) -> Desk
        requires { self.gots < most_lines }
        ensures { result ≡ got_desk self code }
    {
        Desk {
            phase: Phase::Gots,
            gots: self.gots + 1,
            arrived: self.arrived.insert(Code(code)).unwrap_or(self.arrived),
            ..self
        }
    }

    // After a line that is not allowed where it stands. The first one has decided.
    fn after_bad_line(self) -> Desk
        ensures { result ≡ bad_line self }
    {
        match self.phase {
            Phase::Stopped(_) => self,
            _ => Desk::stopped(Refusal::BadLine),
        }
    }

    // After a whole line.
    #[tactic(auto, unfolding(crate::specs::Reader::take_line, crate::specs::Reader::taken_log, crate::specs::Reader::taken_got))]
    pub(crate) fn take_line(self, log: &mut [u32], got: &mut [u32], line: Line) -> Desk
        requires { (most_lines ≤ length log.old) × (most_lines ≤ length got.old) }
        ensures answer { result ≡ take_line self line }
        ensures log { log.new ≡ taken_log self line log.old }
        ensures got { got.new ≡ taken_got self line got.old }
    {
        let Line::Value { key, value } = line else {
            return self.after_bad_line();
        };
        match (self.phase, key) {
            (Phase::Unbegun, Key::Threshold) => Desk::started(value),
            (Phase::Logs, Key::Log) if self.entries < MOST_LINES => {
                log[self.entries] = value;
                self.with_log(value)
            }
            (Phase::Logs | Phase::Gots, Key::Got) if self.gots < MOST_LINES => {
                got[self.gots] = value;
                self.with_got(value)
            }
            (Phase::Logs, Key::Log) | (Phase::Logs | Phase::Gots, Key::Got) => {
                Desk::stopped(Refusal::TooManyLines)
            }
            _ => self.after_bad_line(),
        }
    }
}
