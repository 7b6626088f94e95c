//! The kinds of counting network.

ghost use Rattle.std.specs.Prelude.{◌≡◌};
ghost use Rattle.cn_tables.specs.Kinds.{kind_word};

/// Which counting network it is.
#[derive(Clone, Copy, Debug, PartialEq, Eq)]
pub enum Kind {
    /// The bitonic network of Aspnes, Herlihy and Shavit (1994, section 3).
    Bitonic,
    /// The periodic network of Aspnes, Herlihy and Shavit (1994, section 4).
    Periodic,
    /// The counting tree of Shavit and Zemach (1996, section 2).
    Tree,
}

impl Kind {
    /// The word for it, on the command line and in texts.
    pub fn word(self) -> &'static str
        ensures { result.now ≡ kind_word self }
    {
        match self {
            Kind::Bitonic => "bitonic",
            Kind::Periodic => "periodic",
            Kind::Tree => "tree",
        }
    }
}
