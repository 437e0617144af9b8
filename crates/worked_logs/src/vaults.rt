// A vault in memory: what it holds after calls that fail, and after stops.
use crate::firsts::first_false;
use raft_types::bytes::Bytes;
use std::alloc::{AllocError, Global};
use vault_store::{MemVault, Vault, VaultFault};

// An empty vault whose second call fails. Its first stop keeps one pending item, and the others none.
fn empty(alloc: Global) -> Result<MemVault, AllocError> {
    let fails = vec![in alloc; 2]?;
    let keeps = vec![in alloc; 1]?;
    Ok(MemVault::new(alloc, Vec::new(alloc), fails, keeps))
}

fn are(items: &[Bytes], first: &[u8], second: &[u8]) -> bool {
    match items {
        [a, b] => a.as_slice() == first && b.as_slice() == second,
        _ => false,
    }
}

fn is_failed(answer: Result<(), VaultFault>) -> bool {
    match answer {
        Err(VaultFault::Failed) => true,
        _ => false,
    }
}

fn all_are<V: Vault>(vault: &mut V, first: &[u8], second: &[u8]) -> Result<bool, VaultFault> {
    Ok(are(vault.read_all()?.as_slice(), first, second))
}

// Of three appended items the second is refused.
fn appended<V: Vault>(vault: &mut V) -> Result<bool, VaultFault> {
    vault.append(b"a")?;
    let second = vault.append(b"b");
    vault.append(b"c")?;
    Ok(is_failed(second))
}

// A stop keeps the first of two pending items, and the next stop none.
fn stopped(vault: &mut MemVault) -> Result<bool, VaultFault> {
    vault.append(b"d")?;
    vault.append(b"e")?;
    vault.power_off();
    let kept = vault.synced().len();
    vault.append(b"f")?;
    vault.power_off();
    Ok(kept == 3 && vault.synced().len() == 3 && vault.pending().len() == 0)
}

fn replaced<V: Vault>(alloc: Global, vault: &mut V) -> Result<bool, VaultFault> {
    let items = vec![in alloc;
        Bytes::from_slice(alloc, b"g")?,
        Bytes::from_slice(alloc, b"h")?,
    ]?;
    vault.append(b"i")?;
    vault.replace(items.as_slice())?;
    vault.power_off();
    all_are(vault, b"g", b"h")
}

// The first of these steps that is not as it should be.
fn first_wrong(alloc: Global) -> Result<Option<usize>, VaultFault> {
    let mut vault = empty(alloc)?;
    let is_second_refused = appended(&mut vault)?;
    vault.sync()?;
    Ok(first_false(&[
        is_second_refused,
        vault.synced().len() == 2,
        all_are(&mut vault, b"a", b"c")?,
        stopped(&mut vault)?,
        replaced(alloc, &mut vault)?,
    ]))
}

#[test]
fn a_refused_append_leaves_the_items(rt: HostRuntime) -> Result<(), VaultFault> {
    assert_eq!(rt; first_wrong(rt.alloc())?, None);
    Ok(())
}
