//! Changes of units.

ghost use Rattle.std.specs.Prelude.{◌≡◌, ◌<◌, IfSome, find, position};
ghost use Rattle.gh_model.specs.Changes.{give_quota, without};
ghost use Rattle.gh_model.specs.Rows.{change_row};
ghost use Rattle.gh_model.specs.declared.change.Change.TheVariants.{GiveQuota};
ghost use Rattle.gh_model.specs.declared.state.State.{State};
ghost use Rattle.gh_parts.specs.Accounts.{costing, costing_more, free_of, giver_in, giving, quoted};
ghost use Rattle.gh_parts.specs.Accounts.{partition_in, partition_of, units_in, using};
ghost use Rattle.gh_parts.specs.Accounts.{with_accounts};
ghost use Rattle.gh_parts.specs.Index.{AreIndexed};
ghost use Rattle.gh_parts.specs.Making.{CanMake};
ghost use Rattle.gh_parts.specs.Reclaims.{HasUnits, freed, freeing, quota_of};
ghost use Rattle.gh_parts.specs.Shares.{AreShares};
ghost use Rattle.gh_parts.specs.Stands.{Stands, is_account};

use crate::journal::Account;
use crate::parts::Parts;
use gh_base::{Sequence, Serial};
use gh_model::PartitionRow;
use gh_partition::Partition;

impl Account {
    /// The partition's row.
    fn row(&self) -> PartitionRow
        ensures { result ≡ partition_of self.now }
    {
        PartitionRow {
            serial: self.partition,
            parent: self.parent,
            quota: self.units.quota(),
        }
    }

    /// It has so many units now, all of them free.
    fn quote(&mut self, quota: u16)
        ensures { self.new ≡ quoted quota self.old }
    {
        self.units = Partition::new(quota);
    }

    /// It uses so many units more, if they are free.
    fn take(&mut self, cost: u16)
        ensures { self.new ≡ using cost self.old }
    {
        let _ = self.units.take(cost);
    }

    /// It gives so many units away, if they are free.
    fn give(&mut self, quota: u16)
        ensures { self.new ≡ giving quota self.old }
    {
        let _ = self.units.give(quota);
    }

    /// The units of an object, and those that it was given, are free again.
    fn free(&mut self, cost: u16, quota: u16)
        requires { HasUnits cost quota self.old }
        ensures { self.new ≡ freeing cost quota self.old }
    {
        self.units.put_back(cost);
        self.units.take_back(quota);
    }
}

/// The place of a partition's account.
fn account_place(accounts: &[Account], partition: Serial) -> Option<usize>
    ensures { result ≡ position (is_account partition.0) accounts.now }
{
    accounts
        .iter()
        .position(|account| account.partition == partition)
}

/// The partition that gave a partition its quota; serial 0 for one of the boot, and for none.
fn giver(accounts: &[Account], partition: Serial) -> Serial
    ensures { result ≡ giver_in (find (is_account partition.0) accounts.now) }
{
    match account_place(accounts, partition) {
        None => Serial(0),
        Some(at) => accounts[at].parent,
    }
}

/// The quota in a partition's account; 0 where it has none.
pub(crate) fn quota_in(accounts: &[Account], partition: Serial) -> u16
    ensures { result ≡ quota_of (find (is_account partition.0) accounts.now) }
{
    match account_place(accounts, partition) {
        None => 0,
        Some(at) => accounts[at].units.quota(),
    }
}

/// The units of an object, and those that it was given, are free again in its partition.
fn free(accounts: &mut Sequence<Account>, partition: Serial, cost: u16, quota: u16)
    requires { IfSome (find (is_account partition.0) accounts.old) (HasUnits cost quota) }
    ensures { accounts.new
        ≡ change_row (is_account partition.0) (freeing cost quota) accounts.old }
{
    if let Some(at) = account_place(accounts.as_slice(), partition) {
        accounts.as_mut_slice()[at].free(cost, quota);
    }
}

/// Closes the account of a partition.
pub(crate) fn close_account(accounts: &mut Sequence<Account>, partition: Serial)
    ensures { accounts.new ≡ without (is_account partition.0) accounts.old }
{
    while let Some(at) = account_place(accounts.as_slice(), partition) {
        let _ = accounts.remove(at);
    }
}

/// The units that a partition's account has left; 0 where it has no account.
pub(crate) fn free_in(accounts: &[Account], partition: Serial) -> u16
    ensures { result ≡ free_of (find (is_account partition.0) accounts.now) }
{
    match account_place(accounts, partition) {
        None => 0,
        Some(at) => accounts[at].units.free(),
    }
}

/// The used, free and given units in a partition's account; none where it has none.
pub(crate) fn units_in(accounts: &[Account], partition: Serial) -> Option<(u16, u16, u16)>
    ensures { result ≡ units_in (find (is_account partition.0) accounts.now) }
{
    match account_place(accounts, partition) {
        None => None,
        Some(at) => Some(accounts[at].units.units()),
    }
}

/// The row of a partition, as its account has it.
pub(crate) fn partition_row(accounts: &[Account], partition: Serial) -> Option<PartitionRow>
    ensures { result ≡ partition_in (find (is_account partition.0) accounts.now) }
{
    match account_place(accounts, partition) {
        None => None,
        Some(at) => Some(accounts[at].row()),
    }
}

/// A partition gets its quota, all of it free.
fn quote(accounts: &mut Sequence<Account>, partition: Serial, quota: u16)
    ensures { accounts.new ≡ change_row (is_account partition.0) (quoted quota) accounts.old }
{
    if let Some(at) = account_place(accounts.as_slice(), partition) {
        accounts.as_mut_slice()[at].quote(quota);
    }
}

/// A partition gives units away, if they are free.
fn give(accounts: &mut Sequence<Account>, partition: Serial, quota: u16)
    ensures { accounts.new ≡ change_row (is_account partition.0) (giving quota) accounts.old }
{
    if let Some(at) = account_place(accounts.as_slice(), partition) {
        accounts.as_mut_slice()[at].give(quota);
    }
}

/// A partition uses units more, if they are free.
fn take(accounts: &mut Sequence<Account>, partition: Serial, cost: u16)
    ensures { accounts.new ≡ change_row (is_account partition.0) (using cost) accounts.old }
{
    if let Some(at) = account_place(accounts.as_slice(), partition) {
        accounts.as_mut_slice()[at].take(cost);
    }
}

impl Parts {
    /// An object costs so many units from now on.
    fn set_cost(&mut self, object: Serial, cost: u16)
        requires indexed { AreIndexed self.old.table.headers }
        requires whole { AreShares self.old.shares }
        ensures { self.new ≡ costing object.0 cost self.old }
    {
        if let Some(index) = self.index(object) {
            self.shares.set_cost(index, cost);
        }
    }

    /// A partition uses units more, if they are free.
    pub(crate) fn take_units(&mut self, partition: Serial, cost: u16)
        ensures { self.new ≡ with_accounts
            (change_row (is_account partition.0) (using cost) self.old.journal.accounts) self.old }
    {
        take(&mut self.journal.accounts, partition, cost);
    }

    /// The units of an object, and those that it was given, come back to its partition.
    pub(crate) fn return_units(&mut self, partition: Serial, cost: u16, quota: u16)
        requires { IfSome (find (is_account partition.0) self.old.journal.accounts)
            (HasUnits cost quota) }
        ensures { self.new ≡ freed partition.0 cost quota self.old }
    {
        free(&mut self.journal.accounts, partition, cost, quota);
    }

    /// A configured object, which cost one unit so far, costs so many from now on.
    pub(crate) fn cost_more(&mut self, object: Serial, cost: u16)
        requires indexed { AreIndexed self.old.table.headers }
        requires whole { AreShares self.old.shares }
        requires some { 0 < cost }
        ensures { self.new ≡ costing_more object.0 cost self.old }
    {
        let home = self.home(object);
        self.set_cost(object, cost);
        self.take_units(home, cost - 1);
    }

    /// A partition gets its quota, which its parent gives.
    pub fn give_quota(&mut self, partition: Serial, quota: u16)
        ghost s: { State }
        requires { CanMake self.old s (GiveQuota partition quota) }
        ensures { Stands self.new (give_quota partition quota s) }
    {
        let parent = giver(self.journal.accounts.as_slice(), partition);
        quote(&mut self.journal.accounts, partition, quota);
        give(&mut self.journal.accounts, parent, quota);
    }
}
