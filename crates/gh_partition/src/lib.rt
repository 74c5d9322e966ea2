//! The units of a partition: how many its objects use, how many it gave away, how many are free.
#![tactic(auto)]

ghost use Rattle.std.specs.Prelude.{◌≡◌, ◌+◌, ◌-◌, ◌≤◌, OnOk, OnErr};

use std::marker::Model;

/// Fewer units are free than were wanted.
#[derive(Clone, Copy, Debug, PartialEq, Eq)]
pub struct Short {
    /// The units that are free.
    pub free: u16,
}

/// The account of a partition's units. Those that are neither used nor given away are free.
#[derive(Debug, Drop)]
pub struct Partition {
    quota: u16,
    used: u16,
    given: u16,
}

impl Model for Partition {
    ghost use Rattle.std.specs.Prelude.{◌+◌, ◌≤◌};
    ghost use Rattle.gh_partition.specs.Units.{Units};

    ghost Value = { Units };

    ghost view = { λ p. record { quota = p.quota; used = p.used; given = p.given } };

    ghost invariant = { λ p. p.used + p.given ≤ p.quota };
}

impl Partition {
    ghost use Rattle.gh_partition.specs.Units.{free_units, granted};

    /// A partition of so many units, all of them free.
    pub const fn new(quota: u16) -> Partition
        ensures { result ≡ record { quota = quota; used = 0; given = 0 } }
    {
        Partition {
            quota,
            used: 0,
            given: 0,
        }
    }

    /// All its units.
    pub fn quota(&self) -> u16
        ensures { result ≡ self.now.quota }
    {
        self.quota
    }

    /// The units that are free.
    pub fn free(&self) -> u16
        ensures value { result ≡ free_units self.now }
        ensures sum { self.now.used + result + self.now.given ≡ self.now.quota }
    {
        self.quota - self.used - self.given
    }

    /// The units that are used, that are free and that are given away.
    pub fn units(&self) -> (u16, u16, u16)
        ensures each { result ≡ (self.now.used, free_units self.now, self.now.given) }
        ensures sum { result.0 + result.1 + result.2 ≡ self.now.quota }
    {
        (self.used, self.free(), self.given)
    }

    /// Uses units for an object. It is refused exactly where fewer are free.
    pub fn take(&mut self, cost: u16) -> Result<(), Short>
        ensures answer { result ≡ granted self.old cost }
        ensures ok { OnOk result (self.new ≡ record self.old { used = self.old.used + cost }) }
        ensures err { OnErr result (self.new ≡ self.old) }
    {
        self.grant(cost)?;
        self.used += cost;
        Ok(())
    }

    /// Frees the units of an object.
    pub fn put_back(&mut self, cost: u16)
        requires { cost ≤ self.old.used }
        ensures { self.new ≡ record self.old { used = self.old.used - cost } }
    {
        self.used -= cost;
    }

    /// Gives units away as the quota of a partition below. It is refused exactly where fewer are
    /// free.
    pub fn give(&mut self, quota: u16) -> Result<(), Short>
        ensures answer { result ≡ granted self.old quota }
        ensures ok { OnOk result (self.new ≡ record self.old { given = self.old.given + quota }) }
        ensures err { OnErr result (self.new ≡ self.old) }
    {
        self.grant(quota)?;
        self.given += quota;
        Ok(())
    }

    /// Frees the quota of a partition below.
    pub fn take_back(&mut self, quota: u16)
        requires { quota ≤ self.old.given }
        ensures { self.new ≡ record self.old { given = self.old.given - quota } }
    {
        self.given -= quota;
    }

    /// Whether so many units are free.
    fn grant(&self, wanted: u16) -> Result<(), Short>
        ensures { result ≡ granted self.now wanted }
    {
        let free = self.free();
        if free < wanted {
            Err(Short { free })
        } else {
            Ok(())
        }
    }
}
