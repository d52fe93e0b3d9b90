ghost use Rattle.std.specs.Prelude.{◌≡◌, List, ℕ};
ghost use Rattle.un_conds.specs.Names.{place_of, IsNameList};

/// What tells the numbers of attributes and of categories: two lists of at most 32 names each, in which none stands twice.
pub trait Names {
    ghost attributes: { Self → List (List ℕ) };

    ghost categories: { Self → List (List ℕ) };

    /// The place of the name among the attributes, from 0.
    fn attribute(&self, name: &str) -> Option<u8>
        ensures place { result ≡ place_of name.now (attributes self.now) }
        ensures list { IsNameList (attributes self.now) };

    /// The place of the name among the categories, from 0.
    fn category(&self, name: &str) -> Option<u8>
        ensures place { result ≡ place_of name.now (categories self.now) }
        ensures list { IsNameList (categories self.now) };
}
