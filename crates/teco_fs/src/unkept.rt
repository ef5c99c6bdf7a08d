//! What a new file could not keep of the file whose place it takes.
ghost use Rattle.std.specs.Prelude.{◌≡◌};
ghost use Rattle.teco_fs.specs.Unkept.{is_text, unkept_words};

/// What a new file could not keep of the file whose place it takes: the first of these that it could not.
#[derive(Clone, Copy, PartialEq)]
pub enum Unkept {
    /// What was written to it between the last look at it and the moment in which it lost its name.
    Changes,
    /// Its owner. So nobody runs it as another.
    Owner,
    /// Its group. So another group may do no more than everyone may.
    Group,
    /// Its permissions. So its owner alone may read and write it.
    Permissions,
}

impl Unkept {
    /// Whether it is text, which is lost then.
    pub fn is_text(self) -> bool
        ensures { result ≡ is_text self }
    {
        matches!(self, Unkept::Changes)
    }

    /// It in words.
    pub fn words(self) -> &'static str
        ensures { result.now ≡ unkept_words self }
    {
        match self {
            Unkept::Changes => "changes made meanwhile not kept",
            Unkept::Owner => "owner not kept",
            Unkept::Group => "group not kept",
            Unkept::Permissions => "permissions not kept",
        }
    }
}
