// Which number a name may have. A guess may be wrong, and nothing rests on it but speed.
ghost use Rattle.std.specs.Prelude.{◌<◌};

// A number for each of 256 groups of names: the name of the group that was noted last.
#[derive(Drop)]
pub(crate) struct Guesses {
    numbers: [u8; 256],
}

impl Guesses {
    pub(crate) fn new() -> Guesses {
        Guesses { numbers: [0; 256] }
    }

    // The number that a name may have.
    #[inline(always)]
    pub(crate) fn of(&self, name: &[u8]) -> usize {
        usize::from(self.numbers[group_of(name)])
    }

    // Notes the number of a name.
    pub(crate) fn note(&mut self, name: &[u8], number: u8) {
        self.numbers[group_of(name)] = number;
    }
}

// The group of a name, by its first two and last two bytes.
#[inline(always)]
fn group_of(name: &[u8]) -> usize
    ensures { result < 256 }
{
    let [first, second, ..] = name else {
        return 0;
    };
    let [.., before, last] = name else {
        return 0;
    };
    let bytes = u32::from_le_bytes([*first, *second, *before, *last]);
    (bytes.wrapping_mul(0x9e37_79b1) >> 24) as usize
}
