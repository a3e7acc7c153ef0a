// Values that stand in cells as words.
ghost use Rattle.std.specs.Prelude.{◌≡◌};
ghost use Rattle.all_gather.specs.declared.packed.Words.{Words};

/// A value as it stands in a cell.
#[derive(Clone, Copy)]
pub struct Words {
    pub first: u64,
    pub second: u64,
    pub third: u64,
}

/// A value that three words tell.
pub trait Packed: Copy {
    /// The words of a value.
    ghost packed: { Self → Words };

    /// The value that words tell, whatever they are.
    ghost unpacked: { Words → Self };

    /// The words of the value.
    fn pack(&self) -> Words
        ensures { result ≡ packed self.now };

    /// The value of the words. Any words have one.
    fn unpack(words: Words) -> Self
        ensures { result ≡ unpacked words };

    /// The words of a value tell that value.
    ghost told: { (v : Self) → unpacked (packed v) ≡ v };
}
