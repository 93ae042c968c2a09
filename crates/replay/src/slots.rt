// Three slots, each a slice of up to 40 words.
ghost use Rattle.std.specs.Prelude.{◌≤◌};

use crate::operation::Operand;
use std::alloc::AllocError;

// The most words of a slot.
const LONGEST: usize = 40;

// The first `length` of these words, or all of them where there are not so many: `run` takes any slots, so no length is ruled out. An array,
// and not an `ArrayVec`, since an operation works on copies of its slots.
#[derive(Copy)]
pub(crate) struct Slot<W: Operand> {
    length: usize,
    words: [W; LONGEST],
}

// By hand, here and of all slots: a derive clones the array, which asks for sizes that are not known of a type parameter.
impl<W: Operand> Clone for Slot<W> {
    fn clone(&self) -> Result<Slot<W>, AllocError> {
        Ok(*self)
    }
}

impl<W: Operand> Slot<W> {
    fn empty() -> Slot<W> {
        Slot {
            length: 0,
            words: [W::zero(); LONGEST],
        }
    }

    pub(crate) fn words(&self) -> &[W] {
        &self.words[..self.length.min(LONGEST)]
    }

    pub(crate) fn words_mut(&mut self) -> &mut [W] {
        let end = self.length.min(LONGEST);
        let places = &mut self.words;
        let all = &mut places[..];
        &mut all[..end]
    }

    // Makes the slot a slice of these words, where there is room for them.
    pub(crate) fn put(&mut self, words: &[W]) -> Option<()> {
        self.words.get_mut(..words.len())?.copy_from_slice(words);
        self.length = words.len();
        Some(())
    }
}

// The slots that the arguments of an operation name.
#[derive(Copy)]
pub(crate) struct Slots<W: Operand>([Slot<W>; 3]);

impl<W: Operand> Clone for Slots<W> {
    fn clone(&self) -> Result<Slots<W>, AllocError> {
        Ok(*self)
    }
}

impl<W: Operand> Default for Slots<W> {
    fn default() -> Slots<W> {
        Slots([Slot::empty(); 3])
    }
}

// Every number but 0 and 1 stands for the third slot.
fn index_of(slot: u32) -> usize
    ensures { result ≤ 2 }
{
    match slot {
        0 => 0,
        1 => 1,
        _ => 2,
    }
}

impl<W: Operand> Slots<W> {
    pub(crate) fn slot(&self, slot: u32) -> &Slot<W> {
        &self.0[index_of(slot)]
    }

    pub(crate) fn slot_mut(&mut self, slot: u32) -> &mut Slot<W> {
        &mut self.0[index_of(slot)]
    }
}
