//! Vaults: where a node keeps what it must not lose. A vault holds a list of items that are synced and a list of items that are
//! pending; when its node stops, some of the pending ones may be lost, and none of the synced ones. The trait says what each call
//! does to the two lists, a refused one too; its form in memory fails and loses items where it is told to. The crate knows nothing
//! of what the items say.
#![tactic(auto)]

mod memory;
mod vault;

pub use memory::MemVault;
pub use vault::{Vault, VaultFault};
