// What is read from a vault.
use crate::words::said;
use raft_durable::kept::{Kept, KeptFault};
use std::alloc::{AllocError, Global};
use vault_store::{Vault, VaultFault};

// Why a vault's items were not read, or not written anew.
#[derive(Clone, Copy, Debug, PartialEq, Eq)]
enum StoreFault {
    Bad,
    Failed,
    NoMemory,
}

impl From<KeptFault> for StoreFault {
    fn from(fault: KeptFault) -> Self {
        match fault {
            KeptFault::Bad => StoreFault::Bad,
            KeptFault::NoMemory => StoreFault::NoMemory,
        }
    }
}

impl From<VaultFault> for StoreFault {
    fn from(fault: VaultFault) -> Self {
        match fault {
            VaultFault::Failed => StoreFault::Failed,
            VaultFault::NoMemory => StoreFault::NoMemory,
        }
    }
}

impl From<AllocError> for StoreFault {
    fn from(_: AllocError) -> Self {
        StoreFault::NoMemory
    }
}

/// What the items of a vault say.
pub fn told<V: Vault>(alloc: Global, vault: &mut V) -> Result<String, AllocError> {
    match kept_in(alloc, vault) {
        Ok(kept) => said(alloc, &kept),
        Err(fault) => String::from_str(alloc, word_of(fault)),
    }
}

/// What the items of a vault say once the store is written anew and its node has stopped.
pub fn told_anew<V: Vault>(alloc: Global, vault: &mut V) -> Result<String, AllocError> {
    match write_anew(alloc, vault) {
        Ok(()) => told(alloc, vault),
        Err(fault) => String::from_str(alloc, word_of(fault)),
    }
}

fn kept_in<V: Vault>(alloc: Global, vault: &mut V) -> Result<Kept, StoreFault> {
    let items = vault.read_all()?;
    let kept = Kept::read(alloc, items.as_slice())?;
    Ok(kept)
}

fn write_anew<V: Vault>(alloc: Global, vault: &mut V) -> Result<(), StoreFault> {
    let items = kept_in(alloc, vault)?.items(alloc)?;
    vault.replace(items.as_slice())?;
    vault.power_off();
    Ok(())
}

fn word_of(fault: StoreFault) -> &'static str {
    match fault {
        StoreFault::Bad => "bad",
        StoreFault::Failed => "the vault failed",
        StoreFault::NoMemory => "no memory",
    }
}
