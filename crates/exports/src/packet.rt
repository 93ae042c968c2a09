// A sketch in words, written as bytes and read from them.
ghost use Rattle.std.specs.Prelude.{◌≡◌, length};
ghost use Rattle.rules.specs.Calls.{written};
ghost use Rattle.rules.specs.Words.{write_in, write_with_hint_in, read_in};
ghost use Rattle.lent.specs.Refusals.{listed, changed};

use crate::layout::Layout;
use crate::{layout, words};
use lent::refusal::Refusal;
use modint::{Code, PLACES, Residue};
use sums::packet;

pub fn serialize_with_hint<W: Layout>(
    s: &[W],
    buf: &mut [u8],
    hint: usize,
) -> Result<usize, Refusal>
    ensures answer { result ≡ listed (write_with_hint_in W.width.kind (W.width.nums s.now) hint (length buf.old)) }
    ensures buffer { buf.new ≡ written (write_with_hint_in W.width.kind (W.width.nums s.now) hint (length buf.old)) buf.old }
{
    let head = words::head_of(s)?;
    let last = head.last.ok_or(Refusal::NoLastCode)?;
    let end = W::HEAD + head.threshold.min(hint);
    packet::put_packet(
        buf,
        head.count,
        Residue::reduce(Code(last)),
        &s[W::HEAD..end],
    )
}

pub fn serialize<W: Layout>(s: &[W], buf: &mut [u8]) -> Result<usize, Refusal>
    ensures answer { result ≡ listed (write_in W.width.kind (W.width.nums s.now) (length buf.old)) }
    ensures buffer { buf.new ≡ written (write_in W.width.kind (W.width.nums s.now) (length buf.old)) buf.old }
{
    serialize_with_hint(s, buf, PLACES)
}

pub fn deserialize<W: Layout>(buf: &[u8], out: &mut [W]) -> Result<(), Refusal>
    ensures answer { result ≡ changed (read_in W.width.kind buf.now (length out.old)) }
    ensures words { W.width.nums out.new ≡ written (read_in W.width.kind buf.now (length out.old)) (W.width.nums out.old) }
{
    let at = out.len().min(W::HEAD);
    let head = packet::read(buf, &mut out[at..])?;
    layout::put_head(out, head.threshold, head.count, Some(head.last.value()));
    Ok(())
}
