ghost use Rattle.std.specs.Prelude.{◌≡◌};
ghost use Rattle.sm_state.specs.Conduct.{conduct_with, is_live, key_of};

/// How a manager deals with the other managers of its subnet.
#[derive(Clone, Copy, Debug, PartialEq, Eq)]
pub enum Conduct {
    /// Obeys only controls routed by LID. A master that hands over stays Master until the other manager sends
    /// ACKNOWLEDGE. The SM_Key is 0.
    Plain,
    /// Deals with the managers of a live subnet as OpenSM does. Also obeys controls that come along directed routes.
    /// Becomes Standby once its HANDOVER is answered with status 0. Hears only managers with the same SM_Key, unless
    /// its own SM_Key is 0. Represses traps, and keeps what its sweeps read. The number is its SM_Key.
    Live(u64),
}

impl Conduct {
    /// Returns the live conduct with the SM_Key `sm_key`, or the plain conduct if `sm_key` is `None`.
    pub fn with(sm_key: Option<u64>) -> Self
        ensures { result ≡ conduct_with sm_key }
    {
        match sm_key {
            None => Conduct::Plain,
            Some(key) => Conduct::Live(key),
        }
    }

    /// Returns the SM_Key, which is 0 for the plain conduct.
    pub fn sm_key(self) -> u64
        ensures { result ≡ key_of self }
    {
        match self {
            Conduct::Plain => 0,
            Conduct::Live(key) => key,
        }
    }

    /// Returns whether this is the live conduct.
    pub fn is_live(self) -> bool
        ensures { result ≡ is_live self }
    {
        match self {
            Conduct::Plain => false,
            Conduct::Live(_) => true,
        }
    }
}
