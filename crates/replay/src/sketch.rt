// The operations on sketches in slots. A slot is given by its number. Each has a function that takes its arguments apart and names its call, which is all in
// which it differs. A function that takes a call asks that it can be called always: no bound says that.
use crate::answer::Expected;
use crate::operation::Operand;
use crate::slots::{Slot, Slots};
use crate::widths::{MOST, low_byte, low_word, narrowed};
use exports::{decoder, packet, power_sum, surplus};
use lent::refusal::Refusal;

pub(crate) fn put<W: Operand>(args: &[u32], expected: Expected<'_>, slots: &mut Slots<W>) -> bool {
    let [slot, words @ ..] = args else {
        return false;
    };
    let mut places = [W::zero(); MOST];
    let Some(words) = narrowed(words, &mut places) else {
        return false;
    };
    slots.slot_mut(*slot).put(words).is_some() && expected.are(&[])
}

pub(crate) fn well_formed<W: Operand>(
    args: &[u32],
    expected: Expected<'_>,
    slots: &Slots<W>,
) -> bool {
    let [slot] = args else {
        return false;
    };
    let words = slots.slot(*slot).words();
    expected.are(&[u32::from(power_sum::well_formed(words))])
}

// The answers are 1 for a negative count and 0 for any other, and its size.
pub(crate) fn signed_count<W: Operand>(
    args: &[u32],
    expected: Expected<'_>,
    slots: &Slots<W>,
) -> bool {
    let [slot] = args else {
        return false;
    };
    let count = surplus::signed_count(slots.slot(*slot).words());
    expected.are(&[u32::from(count < 0), count.unsigned_abs()])
}

// A call that changes a slot's words. The answers are its refusal and the words.
fn change<W, F>(slot: &mut Slot<W>, expected: Expected<'_>, call: F) -> bool
where
    W: Operand,
    F: FnOnce(&mut [W]) -> Result<(), Refusal>,
    requires { F.IsAlwaysCallable call }
{
    let done = call(slot.words_mut());
    expected.are_changed(done, slot.words())
}

pub(crate) fn new<W: Operand>(args: &[u32], expected: Expected<'_>, slots: &mut Slots<W>) -> bool {
    let [slot, threshold, ..] = args else {
        return false;
    };
    change(slots.slot_mut(*slot), expected, |words| {
        power_sum::new(*threshold as usize, words)
    })
}

pub(crate) fn insert<W: Operand>(
    args: &[u32],
    expected: Expected<'_>,
    slots: &mut Slots<W>,
) -> bool {
    let [slot, code, ..] = args else {
        return false;
    };
    change(slots.slot_mut(*slot), expected, |words| {
        power_sum::insert(words, low_word(*code))
    })
}

pub(crate) fn remove<W: Operand>(
    args: &[u32],
    expected: Expected<'_>,
    slots: &mut Slots<W>,
) -> bool {
    let [slot, code, ..] = args else {
        return false;
    };
    change(slots.slot_mut(*slot), expected, |words| {
        power_sum::remove(words, low_word(*code))
    })
}

pub(crate) fn sub_assign<W: Operand>(
    args: &[u32],
    expected: Expected<'_>,
    slots: &mut Slots<W>,
) -> bool {
    let [slot, right, ..] = args else {
        return false;
    };
    let right = *slots.slot(*right);
    change(slots.slot_mut(*slot), expected, |words| {
        power_sum::sub_assign(words, right.words())
    })
}

// The difference goes into the slot that stands last.
pub(crate) fn sub<W: Operand>(args: &[u32], expected: Expected<'_>, slots: &mut Slots<W>) -> bool {
    let [left, right, ..] = args else {
        return false;
    };
    let Some(into) = args.last() else {
        return false;
    };
    let left = *slots.slot(*left);
    let right = *slots.slot(*right);
    change(slots.slot_mut(*into), expected, |words| {
        power_sum::sub(left.words(), right.words(), words)
    })
}

// The negation goes into the slot that stands last.
pub(crate) fn negate<W: Operand>(
    args: &[u32],
    expected: Expected<'_>,
    slots: &mut Slots<W>,
) -> bool {
    let [slot, .., into] = args else {
        return false;
    };
    let sketch = *slots.slot(*slot);
    change(slots.slot_mut(*into), expected, |words| {
        surplus::negate(sketch.words(), words)
    })
}

// A call that writes a list into a buffer, given a sketch and a log. The arguments are the slot, the room in the buffer, what fills it
// before, and the log.
fn list<W, F>(args: &[u32], expected: Expected<'_>, slots: &Slots<W>, call: F) -> bool
where
    W: Operand,
    F: FnOnce(&[W], &[W], &mut [W]) -> Result<usize, Refusal>,
    requires { F.IsAlwaysCallable call }
{
    let [slot, room, fill, log @ ..] = args else {
        return false;
    };
    let mut entries = [W::zero(); MOST];
    let Some(log) = narrowed(log, &mut entries) else {
        return false;
    };
    let mut places = [low_word(*fill); MOST];
    let Some(buffer) = places.get_mut(..*room as usize) else {
        return false;
    };
    let listed = call(slots.slot(*slot).words(), log, &mut *buffer);
    expected.are_written(listed, buffer)
}

pub(crate) fn to_coeffs<W: Operand>(
    args: &[u32],
    expected: Expected<'_>,
    slots: &Slots<W>,
) -> bool {
    list(args, expected, slots, |words, _log, buffer| {
        decoder::to_coeffs(words, buffer)
    })
}

pub(crate) fn decode_with_log<W: Operand>(
    args: &[u32],
    expected: Expected<'_>,
    slots: &Slots<W>,
) -> bool {
    list(args, expected, slots, decoder::decode_with_log)
}

pub(crate) fn decode_surplus_with_log<W: Operand>(
    args: &[u32],
    expected: Expected<'_>,
    slots: &Slots<W>,
) -> bool {
    list(args, expected, slots, surplus::decode_surplus_with_log)
}

// A call that writes a packet into a buffer. The first argument is the slot, and the last two are the room in the buffer and what fills it
// before.
fn packet<W, F>(args: &[u32], expected: Expected<'_>, slots: &Slots<W>, call: F) -> bool
where
    W: Operand,
    F: FnOnce(&[W], &mut [u8]) -> Result<usize, Refusal>,
    requires { F.IsAlwaysCallable call }
{
    let [slot, .., room, fill] = args else {
        return false;
    };
    let mut places = [low_byte(*fill); MOST];
    let Some(buffer) = places.get_mut(..*room as usize) else {
        return false;
    };
    let listed = call(slots.slot(*slot).words(), &mut *buffer);
    expected.are_written(listed, buffer)
}

pub(crate) fn serialize<W: Operand>(
    args: &[u32],
    expected: Expected<'_>,
    slots: &Slots<W>,
) -> bool {
    packet(args, expected, slots, packet::serialize)
}

// The second argument is the hint.
pub(crate) fn serialize_with_hint<W: Operand>(
    args: &[u32],
    expected: Expected<'_>,
    slots: &Slots<W>,
) -> bool {
    let [_, hint, ..] = args else {
        return false;
    };
    packet(args, expected, slots, |words, buffer| {
        packet::serialize_with_hint(words, buffer, *hint as usize)
    })
}

pub(crate) fn deserialize<W: Operand>(
    args: &[u32],
    expected: Expected<'_>,
    slots: &mut Slots<W>,
) -> bool {
    let [slot, bytes @ ..] = args else {
        return false;
    };
    let mut places = [0u8; MOST];
    let Some(bytes) = narrowed(bytes, &mut places) else {
        return false;
    };
    change(slots.slot_mut(*slot), expected, |words| {
        packet::deserialize(bytes, words)
    })
}
