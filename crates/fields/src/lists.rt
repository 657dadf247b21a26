// Names that all lie in their text.
ghost use Rattle.std.specs.Prelude.{◌≡◌, true};
ghost use Rattle.fields.specs.Names.{is_within};

use crate::NameList;

// A list of names that all lie in its text, as `NameList::names` tests it.
#[derive(Clone, Copy)]
pub struct Names<'a> {
    pub list: NameList<'a>,
    ghost inside: { is_within list ≡ true },
}

impl<'a> Names<'a> {
    ghost use Rattle.std.specs.Prelude.{◌≤◌, ◌<◌, ◌+◌, length, drop, get_or, MatchOption};
    ghost use Rattle.fields.specs.Names.{part, names, number_in, Others, IsFirst};

    // How many names there are.
    pub fn count(self) -> usize
        ensures { result ≡ length self.entry.list.from.now }
    {
        self.list.from.len()
    }

    // The name with the number k.
    #[tactic(auto, using(crate::proofs::Naming::insides))]
    pub fn name(self, k: usize) -> &'a [u8]
        requires { k < length self.list.from.now }
        ensures { result.now ≡ part (get_or self.entry.list.from.now k 0) (get_or self.entry.list.to.now k 0) self.entry.list.text.now }
    {
        &self.list.text[self.list.from[k]..self.list.to[k]]
    }

    // The first number from `first` on under which a name stands.
    fn found_from(self, first: usize, name: &[u8]) -> Option<usize>
        requires { first ≤ length self.list.from.now }
        ensures { MatchOption result (Others self.entry.list name.now first (length self.entry.list.from.now)) (IsFirst self.entry.list name.now first) }
    {
        (first..self.count()).find(|k| self.name(*k) == name)
    }

    // The number of a name in list order among those from the number `first` on, or the number after the last.
    pub fn find_from(self, first: usize, name: &[u8]) -> usize
        requires { first ≤ length self.list.from.now }
        ensures { result ≡ first + number_in (names self.entry.list.text.now (drop first self.entry.list.from.now) (drop first self.entry.list.to.now)) name.now }
    {
        self.found_from(first, name).unwrap_or(self.count())
    }
}
