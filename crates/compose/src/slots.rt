// Slots of a list: a number for each remainder of a division, which says where the values with that remainder stand.
ghost use Rattle.std.specs.Prelude.{◌≡◌, ◌<◌, length, replicate};
ghost use Rattle.lists.specs.Integers.{elem_z};
ghost use Rattle.compose.specs.Code.{marked, remainder_of, slot_after, slot_in, Slotted, slot_number};
ghost use Rattle.compose.specs.declared.slots.Slot.TheVariants.{Several};

use crate::finding::mark_all;
use spec::numbers::Value;

// A prime, so that the multiples of one number have all remainders.
pub(crate) const REMAINDERS: usize = 16381;

// Stands in the slot of several values, or of one too far behind for a number.
const FULL: u16 = 65535;

// Laid, a slot is a u16 and no `Slot`: all lie in fixed memory, 32 KiB on the stack, and an enum with a usize would take eight times that.
// Where the values with a remainder stand in the list.
#[derive(Clone, Copy)]
pub(crate) enum Slot {
    Free,
    Only(usize),
    Several,
}

fn remainder_of(w: Value) -> usize
    ensures { (result ≡ remainder_of w.0) × (result < 16381) }
{
    w.0.unsigned_abs() as usize % REMAINDERS
}

// The number in a slot after a value with its remainder, that at i.
fn after_value(slot: u16, i: usize) -> u16
    ensures { result ≡ slot_after slot i }
{
    if (slot == 0) & (i < 65534) {
        (i + 1) as u16
    } else {
        FULL
    }
}

// Whatever the values are, afterwards the slot of each says where it stands.
pub(crate) fn lay_slots(list: &[i64], slots: &mut [u16; REMAINDERS])
    requires { slots.old ≡ replicate 16381 0 }
    ensures { Slotted slots.new list.now }
{
    for (i, v) in list.iter().enumerate() {
        let k = remainder_of(Value(*v));
        slots[k] = after_value(slots[k], i);
    }
}

// A list with its slots.
#[derive(Clone, Copy)]
pub(crate) struct Slots<'a> {
    pub list: &'a [i64],
    pub numbers: &'a [u16; REMAINDERS],
    ghost slotted: { Slotted numbers.now list.now },
}

impl<'a> Slots<'a> {
    // What the slot of a value's remainder says.
    fn slot_of(self, w: Value) -> Slot
        ensures number { slot_number result ≡ slot_in self.entry.numbers.now w.0 }
        ensures full { slot_in self.entry.numbers.now w.0 ≡ 65535 → result ≡ Several }
    {
        let next = usize::from(self.numbers[remainder_of(w)]);
        if next == 0 {
            return Slot::Free;
        }
        if next == usize::from(FULL) {
            return Slot::Several;
        }
        Slot::Only(next - 1)
    }

    // The value is in the list.
    pub(crate) fn has(self, w: Value) -> bool
        ensures { result ≡ elem_z w.0 self.entry.list.now }
    {
        match self.slot_of(w) {
            Slot::Free => false,
            Slot::Only(i) => i < self.list.len() && self.list[i] == w.0,
            Slot::Several => self.list.contains(&w.0),
        }
    }

    // Marks the cells of the values that are w.
    pub(crate) fn mark(self, w: Value, row: &mut [u8])
        requires { length row.old ≡ length self.list.now }
        ensures { row.new ≡ marked w.0 self.entry.list.now row.old }
    {
        match self.slot_of(w) {
            Slot::Free => {}
            Slot::Only(i) => {
                if i < self.list.len() && self.list[i] == w.0 {
                    row[i] = 1;
                }
            }
            Slot::Several => mark_all(self.list, w, row),
        }
    }
}
