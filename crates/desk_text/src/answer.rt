// The end of the input: the log or the got codes are decoded, and the answer's text is written. Lists stand in arrays of a fixed size and go to lent ones,
// since there is no heap.
ghost use Rattle.std.specs.Prelude.{◌≡◌, length, IfOk, MatchOption, take, true, false};
ghost use Rattle.lent.specs.Refusals.{answered, listed};
ghost use Rattle.rules.specs.Kind.{kind32};
ghost use Rattle.rules.specs.Calls.{written, fitting};
ghost use Rattle.desk_reader.specs.Sketches.{built, signed_count_of};
ghost use Rattle.desk_rules.specs.Text.{printed, desk_answer};
ghost use Rattle.desk_text.specs.Writer.{numbered, Within};
ghost use Rattle.desk_text.specs.Answer.{difference_of, listed_of, told_by, ended_by, claims, in_bounds, finish_of};

use crate::writer;
use crate::writer::Report;
use desk_reader::{Desk, Line, MOST_LINES, Phase, Reading};
use lent::refusal::Refusal;
use power_sum::power_sum::PowerSumQuackU32;

// The log lines' sketch less that of the got lines.
#[tactic(auto, unfolding(crate::specs::Answer::difference_of, power_sum::specs::Answers::sub_assign_of))]
fn difference(desk: Desk) -> Result<PowerSumQuackU32, Refusal>
    ensures { result ≡ answered built (difference_of desk) }
{
    desk.sent.sub_assign(desk.arrived)
}

// The codes of so many lines, at the front of a lent list that has a place for each line that may come.
fn claimed(list: &[u32], lines: usize) -> Option<&[u32]>
    ensures { MatchOption result (claims lines list.now ≡ false)
        (λ codes. (claims lines list.now ≡ true) × (codes.now ≡ take lines list.now)) }
{
    if list.len() < MOST_LINES || lines > MOST_LINES {
        return None;
    }
    Some(&list[..lines])
}

// The codes of the log lines and of the got lines.
#[derive(Clone, Copy)]
struct Codes<'a> {
    log: &'a [u32],
    got: &'a [u32],
}

impl<'a> Codes<'a> {
    // Those that a desk claims of the lists that it was lent.
    fn of(desk: Desk, log: &'a [u32], got: &'a [u32]) -> Option<Codes<'a>>
        ensures { MatchOption result (in_bounds desk log.now got.now ≡ false)
            (λ codes. (in_bounds desk log.now got.now ≡ true)
            × ((codes.log.now ≡ take desk.entries log.now) × (codes.got.now ≡ take desk.gots got.now))) }
    {
        Some(Codes {
            log: claimed(log, desk.entries)?,
            got: claimed(got, desk.gots)?,
        })
    }

    // What is missing of the log, or where the count is below zero the surplus among the got codes, at the front of a lent list.
    fn list(self, sketch: PowerSumQuackU32, found: &mut [u32]) -> Result<usize, Refusal>
        ensures answer { result ≡ listed (listed_of (signed_count_of sketch) sketch
            self.entry.log.now self.entry.got.now (length found.old)) }
        ensures list { found.new ≡ written (listed_of (signed_count_of sketch) sketch
            self.entry.log.now self.entry.got.now (length found.old)) found.old }
    {
        if sketch.signed_count() < 0 {
            sketch.decode_surplus_with_log(self.got, found)
        } else {
            sketch.decode_with_log(self.log, found)
        }
    }
}

// What the sketches of good lines tell.
fn decide<'a>(
    desk: Desk,
    codes: Codes,
    found: &'a mut [u32; MOST_LINES],
) -> Result<Report<'a>, Refusal>
    ensures { numbered result ≡ told_by (difference_of desk) codes.entry.log.now codes.entry.got.now }
{
    let lacking = difference(desk)?;
    let many = codes.list(lacking, found)?;
    Ok(Report {
        threshold: lacking.threshold,
        count: lacking.signed_count(),
        found: &found[..many],
    })
}

// The text of what an input comes to: an earlier refusal stands, and an input without a line or with a line begun is refused. A list is made only where the
// sketches decide.
fn end(reading: Reading, codes: Codes, out: &mut [u8]) -> Result<usize, Refusal>
    ensures answer { result ≡ listed (fitting (printed (ended_by reading codes.entry.log.now codes.entry.got.now)) (length out.old)) }
    ensures text { out.new
        ≡ written (fitting (printed (ended_by reading codes.entry.log.now codes.entry.got.now)) (length out.old)) out.old }
{
    let Reading { desk, line } = reading;
    match (desk.phase, line) {
        (Phase::Stopped(number), _) => writer::write(out, Err(number)),
        (Phase::Logs | Phase::Gots, Line::Fresh) => {
            let mut found = [0; MOST_LINES];
            writer::write(
                out,
                decide(desk, codes, &mut found).map_err(Refusal::number),
            )
        }
        _ => writer::write(out, Err(Refusal::BadLine.number())),
    }
}

// The answer, once all bytes are fed: its text goes to the front of the lent buffer. The log and the got codes are those that the bytes were fed with.
#[tactic(auto, unfolding(crate::specs::Answer::finish_of, crate::specs::Answer::outcome_of))]
pub fn finish(reading: Reading, log: &[u32], got: &[u32], out: &mut [u8]) -> Result<usize, Refusal>
    ensures answer { result ≡ listed (finish_of reading log.now got.now (length out.old)) }
    ensures text { out.new ≡ written (finish_of reading log.now got.now (length out.old)) out.old }
    ensures within { IfOk result (λ n. Within n out.new) }
{
    let Some(codes) = Codes::of(reading.desk, log, got) else {
        return Err(Refusal::NoRoom);
    };
    end(reading, codes, out)
}

// The answer to a whole input.
pub fn answer(input: &[u8], out: &mut [u8]) -> Result<usize, Refusal>
    ensures answer { result ≡ listed (fitting (desk_answer kind32 input.now) (length out.old)) }
    ensures text { out.new ≡ written (fitting (desk_answer kind32 input.now) (length out.old)) out.old }
    ensures within { IfOk result (λ n. Within n out.new) }
{
    let mut log = [0; MOST_LINES];
    let mut got = [0; MOST_LINES];
    let reading = desk_reader::feed(desk_reader::start(), &mut log, &mut got, input)?;
    finish(reading, &log, &got, out)
}
