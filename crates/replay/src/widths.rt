// Numbers of the list taken to words and bytes.
use modint::word::Word;

// The most words or bytes that a line lends a call, in arrays: there is no heap.
pub(crate) const MOST: usize = 512;

// A word or a byte: numbers that are not too large are one.
pub(crate) trait Narrow: Copy + Default {
    fn narrow(number: u32) -> Option<Self>;
}

impl Narrow for u32 {
    fn narrow(number: u32) -> Option<u32> {
        Some(number)
    }
}

impl Narrow for u16 {
    fn narrow(number: u32) -> Option<u16> {
        u16::try_from(number).ok()
    }
}

impl Narrow for u8 {
    fn narrow(number: u32) -> Option<u8> {
        u8::try_from(number).ok()
    }
}

// Numbers as words or bytes, at the front of lent places. There are none where a number is too large to be one, or where the places are fewer. An array is
// lent, since an `ArrayVec` of any width's words would owe a proof of its size.
pub(crate) fn narrowed<'a, T: Narrow>(numbers: &[u32], places: &'a mut [T]) -> Option<&'a [T]> {
    let taken = places.get_mut(..numbers.len())?;
    for (place, number) in taken.iter_mut().zip(numbers) {
        *place = T::narrow(*number)?;
    }
    Some(taken)
}

// The word of a number's lowest bits.
pub(crate) fn low_word<W: Word>(number: u32) -> W {
    W::low(u64::from(number))
}

// The byte of a number's lowest bits. The further bits are cut off, which no `TryFrom` does.
pub(crate) fn low_byte(number: u32) -> u8 {
    (number & 0xff) as u8
}
