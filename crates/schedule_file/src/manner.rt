ghost use Rattle.std.specs.Prelude.{◌≡◌};
ghost use Rattle.schedule_file.specs.Manner.{newest_of, sm_key_of};

/// How a manager is run.
#[derive(Clone, Copy, Debug, PartialEq, Eq)]
pub enum Manner {
    /// It is asked, and has the plain conduct.
    Plain,
    /// It is asked, and has the live conduct with this SM_Key.
    Live(u64),
    /// It decides by itself, and has the live conduct with the SM_Key 0. Its sweeps get generations above this one.
    Decides(u32),
}

impl Manner {
    /// Returns the SM_Key of a manager of the live conduct, or `None` for one of the plain conduct.
    pub fn sm_key(self) -> Option<u64>
        ensures { result ≡ sm_key_of self }
    {
        match self {
            Manner::Plain => None,
            Manner::Live(key) => Some(key),
            Manner::Decides(_) => Some(0),
        }
    }

    /// Returns the generation above which a manager that decides by itself begins, or `None` for one that is asked.
    pub fn newest(self) -> Option<u32>
        ensures { result ≡ newest_of self }
    {
        match self {
            Manner::Plain | Manner::Live(_) => None,
            Manner::Decides(newest) => Some(newest),
        }
    }
}
