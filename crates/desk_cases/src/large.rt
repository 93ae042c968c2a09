// Inputs near the limits. Each function is a case of its own, with its numbers and its answer in sight.
ghost use Rattle.std.specs.Iterator.{IsFinite};

use crate::tally::Tally;
use crate::text::{Text, put_lines};
use std::io;
use std::io::Write;
use std::iter::repeat_n;

// The texts of a case. They are made once and lent to each case: a text by value takes its room again wherever it is moved.
#[derive(Drop)]
struct Texts {
    input: Text,
    expected: Text,
}

// The threshold, a log line and a got line for each of these numbers, and then some other text, in place of what the text was.
fn input<'a, L, G>(
    text: &'a mut Text,
    threshold: u32,
    logs: L,
    gots: G,
    rest: &str,
) -> io::Result<&'a [u8]>
where
    L: Iterator<Item = u32> + Drop,
    G: Iterator<Item = u32> + Drop,
    requires logs_can { L.can_next logs }
    requires logs_end { IsFinite (L.remaining logs) }
    requires gots_can { G.can_next gots }
    requires gots_end { IsFinite (G.remaining gots) }
{
    text.clear();
    writeln!(text, "threshold={threshold}")?;
    put_lines(&mut *text, "log", logs)?;
    put_lines(&mut *text, "got", gots)?;
    text.write_all(rest.as_bytes())?;
    Ok(text.as_slice())
}

// The first lines of an answer, and then a line of a word for each of these numbers, in place of what the text was.
fn answer<'a, N>(text: &'a mut Text, head: &str, word: &str, numbers: N) -> io::Result<&'a [u8]>
where
    N: Iterator<Item = u32> + Drop,
    requires can { N.can_next numbers }
    requires ends { IsFinite (N.remaining numbers) }
{
    text.clear();
    text.write_all(head.as_bytes())?;
    put_lines(&mut *text, word, numbers)?;
    Ok(text.as_slice())
}

// As many log lines as there may be, all but one of them got.
fn all_but_one(texts: &mut Texts, tally: &mut Tally) -> io::Result<()> {
    let input = input(
        &mut texts.input,
        32,
        0..8192,
        (0..5000).chain(5001..8192),
        "",
    )?;
    let expected = b"refusal=0\nthreshold=32\ncount=1\nfound=1\nmissing=5000\n";
    tally.case(input, expected);
    Ok(())
}

// As many log lines as there may be, all of one code, and one of them lacking: every one is listed.
fn all_the_same(texts: &mut Texts, tally: &mut Tally) -> io::Result<()> {
    let code = u32::MAX;
    let input = input(
        &mut texts.input,
        1,
        repeat_n(code, 8192),
        repeat_n(code, 8191),
        "",
    )?;
    let head = "refusal=0\nthreshold=1\ncount=1\nfound=8192\n";
    let expected = answer(&mut texts.expected, head, "missing", repeat_n(code, 8192))?;
    tally.case(input, expected);
    Ok(())
}

// As many missing as the greatest threshold allows.
fn all_missing(texts: &mut Texts, tally: &mut Tally) -> io::Result<()> {
    let input = input(&mut texts.input, 32, 1..41, 1..9, "")?;
    let head = "refusal=0\nthreshold=32\ncount=32\nfound=32\n";
    let expected = answer(&mut texts.expected, head, "missing", 9..41)?;
    tally.case(input, expected);
    Ok(())
}

// One more than that.
fn one_too_many_missing(texts: &mut Texts, tally: &mut Tally) -> io::Result<()> {
    let input = input(&mut texts.input, 32, 1..34, 0..0, "")?;
    tally.case(input, b"refusal=4\n");
    Ok(())
}

// What may stand behind log line 8,192: no further log line, and on one line 9 comes before 10.
fn one_line_too_many(texts: &mut Texts, tally: &mut Tally) -> io::Result<()> {
    let cases = [
        ("", "refusal=4\n"),
        ("log=8192\n", "refusal=10\n"),
        ("log=08192\n", "refusal=9\n"),
        ("log=8192\nlog=x\n", "refusal=10\n"),
        ("log=8192", "refusal=9\n"),
        ("got=1\nlog=8192\n", "refusal=9\n"),
    ];
    for (rest, expected) in cases {
        let input = input(&mut texts.input, 32, 0..8192, 0..0, rest)?;
        tally.case(input, expected.as_bytes());
    }
    Ok(())
}

// As many got lines as there may be, and as many of them surplus as the greatest threshold allows.
fn all_surplus(texts: &mut Texts, tally: &mut Tally) -> io::Result<()> {
    let input = input(&mut texts.input, 32, 0..8160, 0..8192, "")?;
    let head = "refusal=0\nthreshold=32\ncount=-32\nfound=32\n";
    let expected = answer(&mut texts.expected, head, "surplus", 8160..8192)?;
    tally.case(input, expected);
    Ok(())
}

// The same with one code for all: every got code is listed, in the longest answer that there is.
fn all_surplus_the_same(texts: &mut Texts, tally: &mut Tally) -> io::Result<()> {
    let code = u32::MAX;
    let input = input(
        &mut texts.input,
        32,
        repeat_n(code, 8160),
        repeat_n(code, 8192),
        "",
    )?;
    let head = "refusal=0\nthreshold=32\ncount=-32\nfound=8192\n";
    let expected = answer(&mut texts.expected, head, "surplus", repeat_n(code, 8192))?;
    tally.case(input, expected);
    Ok(())
}

// One surplus more than the greatest threshold allows.
fn one_too_many_surplus(texts: &mut Texts, tally: &mut Tally) -> io::Result<()> {
    let input = input(&mut texts.input, 32, 0..8159, 0..8192, "")?;
    tally.case(input, b"refusal=4\n");
    Ok(())
}

// What may stand behind got line 8,192: no further got line, and the first bad line decides.
fn one_got_line_too_many(texts: &mut Texts, tally: &mut Tally) -> io::Result<()> {
    let cases = [
        ("", "refusal=0\nthreshold=32\ncount=0\nfound=0\n"),
        ("got=8192\n", "refusal=10\n"),
        ("got=08192\n", "refusal=9\n"),
        ("got=8192\ngot=x\n", "refusal=10\n"),
        ("got=x\ngot=8192\n", "refusal=9\n"),
        ("log=8192\n", "refusal=9\n"),
        ("got=8192", "refusal=9\n"),
    ];
    for (rest, expected) in cases {
        let input = input(&mut texts.input, 32, 0..8192, 0..8192, rest)?;
        tally.case(input, expected.as_bytes());
    }
    Ok(())
}

// A number of very many digits, and a word of very many bytes.
fn long_lines(tally: &mut Tally) {
    let mut number = [b'1'; 4000];
    number[..10].copy_from_slice(b"threshold=");
    number[3999] = b'\n';
    let mut word = [b't'; 4000];
    word[3999] = b'\n';
    tally.case(&number, b"refusal=9\n");
    tally.case(&word, b"refusal=9\n");
}

pub(crate) fn inputs(tally: &mut Tally) -> io::Result<()> {
    let mut texts = Texts {
        input: Text::new(),
        expected: Text::new(),
    };
    all_but_one(&mut texts, tally)?;
    all_the_same(&mut texts, tally)?;
    all_missing(&mut texts, tally)?;
    one_too_many_missing(&mut texts, tally)?;
    one_line_too_many(&mut texts, tally)?;
    all_surplus(&mut texts, tally)?;
    all_surplus_the_same(&mut texts, tally)?;
    one_too_many_surplus(&mut texts, tally)?;
    one_got_line_too_many(&mut texts, tally)?;
    long_lines(tally);
    Ok(())
}
