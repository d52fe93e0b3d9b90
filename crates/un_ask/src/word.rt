/// The word of an edit that may stand in a batch.
#[derive(Clone, Copy, Debug, PartialEq, Eq, PartialOrd, Ord, Hash)]
pub enum EditWord {
    Insert,
    Reshape,
    Attrs,
    Kind,
    Path,
    Flow,
    Ends,
    Note,
    Delete,
    Connect,
    Contain,
    Attach,
    Detach,
    Controller,
    Uncontroller,
}

impl EditWord {
    ghost use Rattle.std.specs.Prelude.{◌≡◌};
    ghost use Rattle.un_ask.specs.Words.{edit_text, edit_named};

    const ALL: [EditWord; 15] = [
        EditWord::Insert,
        EditWord::Reshape,
        EditWord::Attrs,
        EditWord::Kind,
        EditWord::Path,
        EditWord::Flow,
        EditWord::Ends,
        EditWord::Note,
        EditWord::Delete,
        EditWord::Connect,
        EditWord::Contain,
        EditWord::Attach,
        EditWord::Detach,
        EditWord::Controller,
        EditWord::Uncontroller,
    ];

    /// The word that is written so, if there is one.
    pub fn named(text: &str) -> Option<EditWord>
        ensures { result ≡ edit_named text.now }
    {
        Self::ALL.iter().find(|word| text == word.text()).copied()
    }

    /// The word as requests and replies write it.
    pub fn text(&self) -> &'static str
        ensures { result.now ≡ edit_text self.now }
    {
        match self {
            EditWord::Insert => "insert",
            EditWord::Reshape => "reshape",
            EditWord::Attrs => "attrs",
            EditWord::Kind => "kind",
            EditWord::Path => "path",
            EditWord::Flow => "flow",
            EditWord::Ends => "ends",
            EditWord::Note => "note",
            EditWord::Delete => "delete",
            EditWord::Connect => "connect",
            EditWord::Contain => "contain",
            EditWord::Attach => "attach",
            EditWord::Detach => "detach",
            EditWord::Controller => "controller",
            EditWord::Uncontroller => "uncontroller",
        }
    }
}
