//! Claims.

ghost use Rattle.std.specs.Prelude.{◌≡◌};

use crate::name::LogName;
use crate::rule::LogPass;
use crate::unnamed::UnnamedClaim;
use std::marker::{Model, PhantomData};

/// The claim that a command was accepted, at its index in the log. A claim has no bytes.
#[derive(Drop)]
pub struct Accepted<B: LogName> {
    pub(crate) pass: LogPass,
    pub(crate) name: PhantomData<B>,
}

impl<B: LogName> Model for Accepted<B> {
    ghost use Rattle.std.specs.Prelude.{◌≡◌, [], false};
    ghost use Rattle.command_log.specs.declared.rule.Claim.{Claim};
    ghost use Rattle.command_log.specs.Passes.{claim_in, claim_view};

    ghost Value = { Claim };

    ghost view = { λ a. claim_in a.pass.me.0 };

    ghost invariant = { λ a. (a.pass.table_id ≡ B.table) × (a.pass.me ≡ (claim_view false (claim_in a.pass.me.0), [])) };
}

/// The claim that a command was accepted, at its index in the log, and is committed. A claim has no
/// bytes.
#[derive(Drop)]
pub struct Logged<B: LogName> {
    pub(crate) pass: LogPass,
    pub(crate) name: PhantomData<B>,
}

impl<B: LogName> Model for Logged<B> {
    ghost use Rattle.std.specs.Prelude.{◌≡◌, [], true};
    ghost use Rattle.command_log.specs.declared.rule.Claim.{Claim};
    ghost use Rattle.command_log.specs.Passes.{claim_in, claim_view};

    ghost Value = { Claim };

    ghost view = { λ a. claim_in a.pass.me.0 };

    ghost invariant = { λ a. (a.pass.table_id ≡ B.table) × (a.pass.me ≡ (claim_view true (claim_in a.pass.me.0), [])) };
}

impl<B: LogName> Logged<B> {
    /// Takes the name off the claim.
    pub fn unnamed(self) -> UnnamedClaim
        ensures { result ≡ record { table = B.table; claim = self } }
    {
        let Logged { pass, name: _ } = self;
        UnnamedClaim { pass }
    }
}
