// Names by number.
ghost use Rattle.std.specs.Prelude.{◌≡◌, ◌<◌, ◌≤◌, [], ◌∷◌, ◌++◌, false, length, position, slice_index_or, IfOk, IfSome, IsTrue};
ghost use Rattle.std.specs.List.{list_any};
ghost use Rattle.std.specs.Str.{bytes_eq};
ghost use Rattle.toml.specs.View.{table_view};
ghost use Rattle.rules_file.specs.Faults.{Gives};
ghost use Rattle.rules_file.specs.Keys.{AreDistinct, AreNames, checked, name_at, names_at, stands_earlier};

use crate::RulesFault;
use crate::fault::twice;
use crate::guesses::Guesses;
use crate::keys::rows_at;
use crate::same::is_same;
use indexmap::IndexSet;
use mkt_base::Name;
use std::alloc::{AllocError, Global};
use std::marker::Model;
use toml::Table;

// Different names, at most 64, in the order in which they came. Contracts see the list of the names.
#[derive(Drop)]
pub(crate) struct Names {
    index: IndexSet<Vec<u8>>,
    texts: Vec<Name>,
    guesses: Guesses,
}

impl Model for Names {
    ghost use Rattle.std.specs.Prelude.{List, ℕ};

    ghost Value = { List (List ℕ) };

    ghost view = { λ names. names.texts.items };

    ghost use Rattle.rules_file.specs.Indexed.{IsIndexed};

    ghost invariant = { λ names. IsIndexed names.index.keys names.texts.items };
}

impl Names {
    // No names.
    pub(crate) fn new(alloc: Global) -> Names
        ensures { result ≡ [] }
    {
        Names {
            index: IndexSet::new(alloc),
            texts: Vec::new(alloc),
            guesses: Guesses::new(),
        }
    }

    // How many names there are.
    pub(crate) fn count(&self) -> u16
        ensures value { result ≡ length self.now }
        ensures few { result ≤ 64 }
    {
        self.texts.len() as u16
    }

    // The number of a name. Where the guess is wrong, the index is asked.
    #[inline(always)]
    pub(crate) fn number_of(&self, name: &[u8]) -> Option<u16>
        ensures exact { result ≡ position (bytes_eq name.now) self.now }
        ensures within { IfSome result (λ i. i < length self.now) }
    {
        let guess = self.guesses.of(name);
        if self.is_at(guess, name) {
            return Some(guess as u16);
        }
        self.place_of(name)
    }

    // Whether a name has this number.
    #[inline(always)]
    fn is_at(&self, i: usize, name: &[u8]) -> bool
        ensures { IsTrue result → (i < length self.now) × (slice_index_or self.now i [] ≡ name.now) }
    {
        i < self.texts.len() && is_same(self.texts[i].as_str().as_bytes(), name)
    }

    // The number of a name, by the index.
    #[inline(never)]
    fn place_of(&self, name: &[u8]) -> Option<u16>
        ensures exact { result ≡ position (bytes_eq name.now) self.now }
        ensures within { IfSome result (λ i. i < length self.now) }
    {
        match self.index.get_index_of(name) {
            Some(i) => Some(i as u16),
            None => None,
        }
    }

    // The name of a number.
    pub(crate) fn name(&self, i: u16) -> &str
        requires { i < length self.now }
        ensures { result.now ≡ slice_index_or self.now i [] }
    {
        self.texts[usize::from(i)].as_str()
    }

    // Whether a name is there.
    pub(crate) fn contains(&self, name: &[u8]) -> bool
        ensures { result ≡ list_any (bytes_eq name.now) self.now }
    {
        self.index.contains(name)
    }

    // The names with one more at the end.
    pub(crate) fn with(self, alloc: Global, name: &str) -> Result<Names, AllocError>
        requires few { length self < 64 }
        requires fresh { list_any (bytes_eq name.now) self ≡ false }
        ensures { IfOk result (λ names. names ≡ self ++ name.now ∷ []) }
    {
        let Names {
            mut index,
            mut texts,
            mut guesses,
        } = self;
        let key = Vec::from_slice(alloc, name.as_bytes())?;
        let text = String::from_str(alloc, name)?;
        index.insert(key)?;
        guesses.note(name.as_bytes(), texts.len() as u8);
        texts.push(Name::new(text))?;
        Ok(Names {
            index,
            texts,
            guesses,
        })
    }
}

// The names of a list by number, where none stands earlier in it.
#[tactic(auto, unfolding(crate::specs::Keys::checked, crate::specs::Keys::stands_earlier))]
fn distinct(alloc: Global, rows: &[Name]) -> Result<Names, RulesFault>
    requires { length rows.now ≤ 64 }
    ensures exact { let names = rows.now in
        Gives result (checked stands_earlier (λ i. RulesFault.Twice (name_at names i)) names) }
    ensures same { IfOk result (λ names. names ≡ rows.now) }
    ensures sound { IfOk result AreDistinct }
{
    let mut names = Names::new(alloc);
    for row in rows {
        if names.contains(row.as_str().as_bytes()) {
            return Err(twice(alloc, row.as_str()));
        }
        names = names
            .with(alloc, row.as_str())
            .map_err(|_| RulesFault::Memory)?;
    }
    Ok(names)
}

// The names of the list at a key.
#[tactic(auto, unfolding(crate::specs::Keys::names_at))]
pub(crate) fn names_at(
    alloc: Global,
    table: &Table,
    key: &str,
    limit: usize,
) -> Result<Names, RulesFault>
    requires { limit ≤ 64 }
    ensures exact { Gives result (names_at key.now limit (table_view table.now)) }
    ensures sound { IfOk result (AreNames limit) }
{
    let rows = rows_at::<Name>(alloc, table, key, limit)?;
    distinct(alloc, rows.as_slice())
}
