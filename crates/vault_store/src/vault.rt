ghost use Rattle.std.specs.Prelude.{◌≡◌, ◌≤◌, ℕ, List, Option, option_map, IfOk, OnOk, OnErr, IsErrOf};
ghost use Rattle.vault_store.specs.declared.vault.VaultFault.TheVariants.{NoMemory};
ghost use Rattle.vault_store.specs.Vaults.{Rose, Held, AreAll, IsRefused, PowersOff, appended, all_synced, replaced};

use raft_types::bytes::Bytes;
use std::alloc::{AllocError, AllocFailed};

/// Why a vault refused a call.
#[derive(Clone, Copy, Debug, PartialEq, Eq)]
pub enum VaultFault {
    /// The outside failed, and the vault's count of faults tells so.
    Failed,
    /// There was no memory.
    NoMemory,
}

impl From<AllocError> for VaultFault {
    ghost from_gives = { λ _ e. e ≡ NoMemory };

    fn from(_: AllocError) -> Self {
        VaultFault::NoMemory
    }
}

impl<T: Drop> From<AllocFailed<T>> for VaultFault {
    ghost from_gives = { λ _ e. e ≡ NoMemory };

    fn from(_: AllocFailed<T>) -> Self {
        VaultFault::NoMemory
    }
}

/// Where a node keeps its items. A vault that tells nothing of its content promises its count of faults alone.
pub trait Vault: Drop {
    /// The items that it holds, where it tells.
    ghost held: { Self → Option Held };

    /// How often it has failed. At the last value of a u64 the count stays.
    ghost faults: { Self → ℕ };

    /// Adds a pending item.
    fn append(&mut self, item: &[u8]) -> Result<(), VaultFault>
        ensures ok { OnOk result (held self.new ≡ option_map (appended item.now) (held self.old)) }
        ensures err { OnErr result (held self.new ≡ held self.old) }
        ensures later { faults self.old ≤ faults self.new }
        ensures cause { IsErrOf result VaultFault.Failed → Rose (faults self.old) (faults self.new) };

    /// Makes all pending items synced.
    fn sync(&mut self) -> Result<(), VaultFault>
        ensures ok { OnOk result (held self.new ≡ option_map all_synced (held self.old)) }
        ensures err { OnErr result (held self.new ≡ held self.old) }
        ensures later { faults self.old ≤ faults self.new }
        ensures cause { IsErrOf result VaultFault.Failed → Rose (faults self.old) (faults self.new) };

    /// Makes these the synced items and leaves nothing pending. A refused call leaves what there was, or what
    /// `power_off` would, or these items.
    fn replace(&mut self, items: &[Bytes]) -> Result<(), VaultFault>
        ensures ok { OnOk result (held self.new ≡ option_map (replaced items.now) (held self.old)) }
        ensures err { OnErr result (IsRefused items.now (held self.old) (held self.new)) }
        ensures later { faults self.old ≤ faults self.new }
        ensures cause { IsErrOf result VaultFault.Failed → Rose (faults self.old) (faults self.new) };

    /// All items, the synced ones first.
    fn read_all(&mut self) -> Result<Vec<Bytes>, VaultFault>
        ensures ok { IfOk result (λ items. AreAll (held self.old) items.items) }
        ensures same { held self.new ≡ held self.old }
        ensures later { faults self.old ≤ faults self.new }
        ensures cause { IsErrOf result VaultFault.Failed → Rose (faults self.old) (faults self.new) };

    /// What a stop of the node does: some front of the pending items is synced, the others are forgotten. It is called
    /// whenever the node stops, for whatever cause.
    fn power_off(&mut self)
        ensures kept { PowersOff (held self.old) (held self.new) }
        ensures later { faults self.old ≤ faults self.new };
}
