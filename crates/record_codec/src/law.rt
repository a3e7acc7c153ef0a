// Laws of spellings, over the definitions alone.
ghost use Rattle.record_codec.specs.Laws.{NoSharedSpelling, OneSpelling};

/// An entry has one spelling at a place.
pub fn one_spelling()
    ensures { OneSpelling }
{}

/// Two entries never share a spelling.
pub fn no_shared_spelling()
    ensures { NoSharedSpelling }
{}
