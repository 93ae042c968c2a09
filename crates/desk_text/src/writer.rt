// The answer's text, at the front of a lent buffer.
ghost use Rattle.std.specs.Prelude.{◌≡◌, length};
ghost use Rattle.lent.specs.Refusals.{listed};
ghost use Rattle.rules.specs.Calls.{given, written, fitting};
ghost use Rattle.desk_rules.specs.Text.{lines, printed};
ghost use Rattle.desk_text.specs.Writer.{Pushed, line_of, report_of, told};

use itoa::{Buffer, Integer};
use lent::refusal::Refusal;

// What is told of an input that is not refused: the threshold, the signed count, and the entries found, which are missing or, for a negative count,
// surplus.
#[derive(Clone, Copy)]
pub(crate) struct Report<'a> {
    pub(crate) threshold: usize,
    pub(crate) count: i32,
    pub(crate) found: &'a [u32],
}

// Where a text goes, piece by piece. Of one that is longer than the buffer all bytes are counted, so that an empty buffer measures it. An `impl Display` is
// no way here: of what `write!` writes nothing is known where it fails, and nothing says that it does not, while `finish` promises every byte.
#[derive(Drop)]
struct Writer<'a> {
    out: &'a mut [u8],
    at: usize,
}

impl<'a> Writer<'a> {
    fn push(&mut self, bytes: &[u8])
        ensures { Pushed self.old bytes.now self.new }
    {
        let end = self.at.saturating_add(bytes.len());
        if end <= self.out.len() {
            self.out[self.at..end].copy_from_slice(bytes);
        }
        self.at = end;
    }

    // A word, a number, and one LF.
    fn line<N: Integer>(&mut self, word: &[u8], number: N)
        ensures { Pushed self.old (line_of word.now (N.text number)) self.new }
    {
        self.push(word);
        self.push(Buffer::new().format(number).as_bytes());
        self.push(b"\n");
    }

    fn answer(&mut self, answer: Result<Report, u32>)
        ensures { Pushed self.old (printed (told answer.entry)) self.new }
    {
        match answer {
            Err(number) => self.line(b"refusal=", number),
            Ok(report) => self.report(report),
        }
    }

    fn lines(&mut self, word: &[u8], numbers: &[u32])
        ensures { Pushed self.old (lines word.now numbers.now) self.new }
    {
        for number in numbers {
            self.line(word, *number);
        }
    }

    fn report(&mut self, report: Report)
        ensures { Pushed self.old (printed (given (report_of report.entry))) self.new }
    {
        self.line(b"refusal=", 0u32);
        self.line(b"threshold=", report.threshold);
        self.line(b"count=", report.count);
        self.line(b"found=", report.found.len());
        if report.count < 0 {
            self.lines(b"surplus=", report.found);
        } else {
            self.lines(b"missing=", report.found);
        }
    }
}

// The text of an answer, at the front of a lent buffer that has room for it. There is no heap for the text, and a buffer that is too short stays as it was:
// so the text is measured first.
pub(crate) fn write(out: &mut [u8], answer: Result<Report, u32>) -> Result<usize, Refusal>
    ensures answer { result ≡ listed (fitting (printed (told answer.entry)) (length out.old)) }
    ensures text { out.new ≡ written (fitting (printed (told answer.entry)) (length out.old)) out.old }
{
    let mut measure = Writer {
        out: &mut [],
        at: 0,
    };
    measure.answer(answer);
    if measure.at > out.len() {
        return Err(Refusal::NoRoom);
    }
    let mut writer = Writer { out, at: 0 };
    writer.answer(answer);
    Ok(writer.at)
}
