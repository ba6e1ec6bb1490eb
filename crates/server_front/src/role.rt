//! What the sessions of a listener may ask for.

ghost use Rattle.std.specs.Prelude.{◌≡◌};
ghost use Rattle.server_front.specs.Roles.{takes_commands, other_of};

/// What the sessions of a listener may ask for.
#[derive(Clone, Copy, Debug, PartialEq, Eq)]
pub enum Role {
    /// Commands, lookups and lists.
    All,
    /// Lookups and lists alone: each command is refused.
    Lookups,
}

impl Role {
    /// Whether commands are taken.
    pub fn takes_commands(self) -> bool
        ensures { result ≡ takes_commands self }
    {
        match self {
            Role::All => true,
            Role::Lookups => false,
        }
    }

    /// The other role.
    pub fn other(self) -> Role
        ensures { result ≡ other_of self }
    {
        match self {
            Role::All => Role::Lookups,
            Role::Lookups => Role::All,
        }
    }
}
