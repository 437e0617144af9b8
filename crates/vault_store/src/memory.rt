ghost use Rattle.std.specs.Prelude.{◌≡◌, ◌≤◌, ◌+◌, [], length, take, drop, true, Some, IfOk, OnOk, OnErr, IsErrOf};
ghost use Rattle.fault_count.specs.Faults.{counted, is_listed};
ghost use Rattle.vault_store.specs.Memory.{next_keep};
ghost use Rattle.vault_store.specs.Vaults.{Rose, Held, AreAll, IsRefused, PowersOff, appended, all_of, all_synced, replaced, powered_off};

use crate::vault::{Vault, VaultFault};
use fault_count::{is_to_fail, one_more};
use raft_types::bytes::Bytes;
use std::alloc::{AllocError, Global};
use std::marker::Model;

/// A vault in memory. Of its calls just those fail whose numbers were listed, counted from 1 over all calls but
/// `power_off`. A `replace` that it refuses leaves both lists.
#[derive(Drop)]
pub struct MemVault {
    alloc: Global,
    // The synced items and behind them the pending ones, and how many are synced.
    items: Vec<Bytes>,
    synced: usize,
    calls: u64,
    faults: u64,
    fails: Vec<u64>,
    // How many pending items each stop keeps, and how many of these numbers are used up.
    keeps: Vec<u64>,
    stops: usize,
}

impl Model for MemVault {
    ghost use Rattle.std.specs.Prelude.{◌≤◌, ◌*◌, length, take, drop};
    ghost use Rattle.vault_store.specs.Memory.{VaultParts};
    ghost use Rattle.vault_store.specs.Vaults.{Held};

    ghost Value = { VaultParts };

    ghost view = { λ s. record { held = record { synced = take s.synced s.items.items; pending = drop s.synced s.items.items }; calls = s.calls; faults = s.faults; fails = s.fails.items; keeps = drop s.stops s.keeps.items } };

    ghost invariant = { λ s. (s.synced ≤ length s.items.items) × (s.stops ≤ length s.keeps.items) };
}

impl MemVault {
    /// A vault of these items, all of them synced. The calls with the numbers in `fails` fail. The i-th `power_off` keeps as
    /// many pending items as the i-th number of `keeps` says, at most all, and none once the numbers are used up.
    pub fn new(alloc: Global, items: Vec<Bytes>, fails: Vec<u64>, keeps: Vec<u64>) -> MemVault
        ensures held { result.held ≡ record { synced = items.items; pending = [] } }
        ensures calls { result.calls ≡ 0 }
        ensures faults { result.faults ≡ 0 }
        ensures fails { result.fails ≡ fails.items }
        ensures keeps { result.keeps ≡ keeps.items }
    {
        let synced = items.len();
        MemVault {
            alloc,
            items,
            synced,
            calls: 0,
            faults: 0,
            fails,
            keeps,
            stops: 0,
        }
    }

    /// The synced items.
    pub fn synced(&self) -> &[Bytes]
        ensures { result.now ≡ self.now.held.synced }
    {
        &self.items.as_slice()[..self.synced]
    }

    /// The pending items.
    pub fn pending(&self) -> &[Bytes]
        ensures { result.now ≡ self.now.held.pending }
    {
        &self.items.as_slice()[self.synced..]
    }

    // One call more, which fails where it is listed.
    fn count_call(&mut self) -> Result<(), VaultFault>
        ensures listed { is_listed self.old.fails (counted self.old.calls) ≡ true → IsErrOf result VaultFault.Failed }
        ensures unlisted { OnErr result (is_listed self.old.fails (counted self.old.calls) ≡ true) }
        ensures ok { OnOk result (self.new ≡ record self.old { calls = counted self.old.calls }) }
        ensures err { OnErr result (self.new ≡ record self.old { calls = counted self.old.calls; faults = counted self.old.faults }) }
        ensures later { self.old.faults ≤ self.new.faults }
    {
        self.calls = one_more(self.calls);
        if is_to_fail(self.fails.as_slice(), self.calls) {
            self.faults = one_more(self.faults);
            return Err(VaultFault::Failed);
        }
        Ok(())
    }

    // How many pending items this stop keeps, by the list of numbers.
    fn take_keep(&mut self) -> u64
        ensures keep { result ≡ next_keep self.old.keeps }
        ensures rest { self.new ≡ record self.old { keeps = drop 1 self.old.keeps } }
    {
        if self.stops < self.keeps.len() {
            let keep = self.keeps[self.stops];
            self.stops += 1;
            return keep;
        }
        0
    }

    fn push_pending(&mut self, item: &[u8]) -> Result<(), AllocError>
        ensures ok { OnOk result (self.new ≡ record self.old { held = appended item.now self.old.held }) }
        ensures err { OnErr result (self.new ≡ self.old) }
    {
        let copy = Bytes::from_slice(self.alloc, item)?;
        self.items.push(copy)?;
        Ok(())
    }

    fn sync_all(&mut self)
        ensures { self.new ≡ record self.old { held = all_synced self.old.held } }
    {
        self.synced = self.items.len();
    }

    fn put_in_place(&mut self, items: Vec<Bytes>)
        ensures { self.new ≡ record self.old { held = replaced items.items self.old.held } }
    {
        self.synced = items.len();
        self.items = items;
    }

    // Syncs the first so many pending items, at most all, and forgets the others.
    fn keep_pending(&mut self, keep: u64)
        ensures { self.new ≡ record self.old { held = powered_off keep self.old.held } }
    {
        keep_front(&mut self.items, self.synced, keep);
        self.synced = self.items.len();
    }
}

// Keeps the first n items, and so many more of the others.
fn keep_front(items: &mut Vec<Bytes>, n: usize, more: u64)
    requires { n ≤ length items.old.items }
    ensures { items.new.items ≡ take (n + more) items.old.items }
{
    let others = items.len() - n;
    if more < others as u64 {
        items.truncate(n + more as usize);
    }
}

// Copies of these items.
fn copy_items(alloc: Global, items: &[Bytes]) -> Result<Vec<Bytes>, AllocError>
    ensures { IfOk result (λ copies. copies.items ≡ items.now) }
{
    let mut copies = Vec::with_capacity(alloc, items.len())?;
    'copied: for item in items {
        copies.push_reserved(item.copy(alloc)?);
    }
    Ok(copies)
}

impl Vault for MemVault {
    ghost held = { λ s. Some s.held };

    ghost faults = { λ s. s.faults };

    fn append(&mut self, item: &[u8]) -> Result<(), VaultFault>
        ensures ok { OnOk result (Some self.new.held ≡ Some (appended item.now self.old.held)) }
        ensures err { OnErr result (Some self.new.held ≡ Some self.old.held) }
        ensures later { self.old.faults ≤ self.new.faults }
        ensures cause { IsErrOf result VaultFault.Failed → Rose self.old.faults self.new.faults }
        ensures listed { is_listed self.old.fails (counted self.old.calls) ≡ true → IsErrOf result VaultFault.Failed }
        ensures unlisted { IsErrOf result VaultFault.Failed → is_listed self.old.fails (counted self.old.calls) ≡ true }
        ensures done { OnOk result (self.new ≡ record self.old { held = appended item.now self.old.held; calls = counted self.old.calls }) }
        ensures failed { IsErrOf result VaultFault.Failed → self.new ≡ record self.old { calls = counted self.old.calls; faults = counted self.old.faults } }
        ensures no_memory { IsErrOf result VaultFault.NoMemory → self.new ≡ record self.old { calls = counted self.old.calls } }
    {
        self.count_call()?;
        self.push_pending(item)?;
        Ok(())
    }

    fn sync(&mut self) -> Result<(), VaultFault>
        ensures ok { OnOk result (Some self.new.held ≡ Some (all_synced self.old.held)) }
        ensures err { OnErr result (Some self.new.held ≡ Some self.old.held) }
        ensures later { self.old.faults ≤ self.new.faults }
        ensures cause { IsErrOf result VaultFault.Failed → Rose self.old.faults self.new.faults }
        ensures listed { is_listed self.old.fails (counted self.old.calls) ≡ true → IsErrOf result VaultFault.Failed }
        ensures unlisted { OnErr result (is_listed self.old.fails (counted self.old.calls) ≡ true) }
        ensures done { OnOk result (self.new ≡ record self.old { held = all_synced self.old.held; calls = counted self.old.calls }) }
        ensures failed { OnErr result (self.new ≡ record self.old { calls = counted self.old.calls; faults = counted self.old.faults }) }
    {
        self.count_call()?;
        self.sync_all();
        Ok(())
    }

    fn replace(&mut self, items: &[Bytes]) -> Result<(), VaultFault>
        ensures ok { OnOk result (Some self.new.held ≡ Some (replaced items.now self.old.held)) }
        ensures err { OnErr result (IsRefused items.now (Some self.old.held) (Some self.new.held)) }
        ensures later { self.old.faults ≤ self.new.faults }
        ensures cause { IsErrOf result VaultFault.Failed → Rose self.old.faults self.new.faults }
        ensures listed { is_listed self.old.fails (counted self.old.calls) ≡ true → IsErrOf result VaultFault.Failed }
        ensures unlisted { IsErrOf result VaultFault.Failed → is_listed self.old.fails (counted self.old.calls) ≡ true }
        ensures done { OnOk result (self.new ≡ record self.old { held = replaced items.now self.old.held; calls = counted self.old.calls }) }
        ensures failed { IsErrOf result VaultFault.Failed → self.new ≡ record self.old { calls = counted self.old.calls; faults = counted self.old.faults } }
        ensures no_memory { IsErrOf result VaultFault.NoMemory → self.new ≡ record self.old { calls = counted self.old.calls } }
    {
        self.count_call()?;
        let copies = copy_items(self.alloc, items)?;
        self.put_in_place(copies);
        Ok(())
    }

    fn read_all(&mut self) -> Result<Vec<Bytes>, VaultFault>
        ensures ok { IfOk result (λ items. AreAll (Some self.old.held) items.items) }
        ensures same { Some self.new.held ≡ Some self.old.held }
        ensures later { self.old.faults ≤ self.new.faults }
        ensures cause { IsErrOf result VaultFault.Failed → Rose self.old.faults self.new.faults }
        ensures listed { is_listed self.old.fails (counted self.old.calls) ≡ true → IsErrOf result VaultFault.Failed }
        ensures unlisted { IsErrOf result VaultFault.Failed → is_listed self.old.fails (counted self.old.calls) ≡ true }
        ensures done { OnOk result (self.new ≡ record self.old { calls = counted self.old.calls }) }
        ensures failed { IsErrOf result VaultFault.Failed → self.new ≡ record self.old { calls = counted self.old.calls; faults = counted self.old.faults } }
        ensures no_memory { IsErrOf result VaultFault.NoMemory → self.new ≡ record self.old { calls = counted self.old.calls } }
    {
        self.count_call()?;
        Ok(copy_items(self.alloc, self.items.as_slice())?)
    }

    fn power_off(&mut self)
        ensures kept { PowersOff (Some self.old.held) (Some self.new.held) }
        ensures later { self.old.faults ≤ self.new.faults }
        ensures done { self.new ≡ record self.old { held = powered_off (next_keep self.old.keeps) self.old.held; keeps = drop 1 self.old.keeps } }
    {
        let keep = self.take_keep();
        self.keep_pending(keep);
    }
}
