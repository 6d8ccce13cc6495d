//! The keys of a policy file.

ghost use Rattle.std.specs.Prelude.{◌≡◌};
ghost use Rattle.policy.specs.Keys.{name_of_key};

use crate::fault::Section;

/// A key of a policy file: the version's, or one of a row.
#[derive(Clone, Copy, Debug, PartialEq, Eq)]
pub enum Key {
    /// The version of the file.
    Version,
    /// A row's own name.
    Name,
    /// Which dispatches an agent takes.
    Takes,
    /// A region's length.
    Length,
    /// The value with which a signal begins.
    Initial,
    /// The name of a kernel's entry.
    Entry,
    /// The text of a kernel's module.
    Text,
    /// Whom a row on rights covers.
    Client,
    /// The kind of the objects that a row on rights covers.
    Kind,
    /// What a row on rights covers.
    Object,
    /// Which rights a row on rights covers.
    Rights,
}

impl Key {
    /// The key's name in the file.
    pub fn name(self) -> &'static str
        ensures { result.now ≡ name_of_key self }
    {
        match self {
            Key::Version => "version",
            Key::Name => "name",
            Key::Takes => "takes",
            Key::Length => "length",
            Key::Initial => "initial",
            Key::Entry => "entry",
            Key::Text => "text",
            Key::Client => "client",
            Key::Kind => "kind",
            Key::Object => "object",
            Key::Rights => "rights",
        }
    }
}

impl Section {
    ghost use Rattle.policy.specs.Keys.{keys_of};

    /// The keys of the array's rows, in the order in which they are read.
    pub fn keys(self) -> &'static [Key]
        ensures { result.now ≡ keys_of self }
    {
        match self {
            Section::Client => &[Key::Name],
            Section::Agent => &[Key::Name, Key::Takes],
            Section::Region => &[Key::Name, Key::Length],
            Section::Signal => &[Key::Name, Key::Initial],
            Section::Kernel => &[Key::Name, Key::Entry, Key::Text],
            Section::Allow | Section::Deny => &[Key::Client, Key::Kind, Key::Object, Key::Rights],
        }
    }
}
