//! The events of a world that open content.
ghost use Rattle.std.specs.Prelude.{◌≡◌, ◌≤◌, IfErr, IfOk, IsErrOf};
ghost use Rattle.hb_outside.specs.Causes.{Rose};
ghost use Rattle.hb_records.specs.declared.notes.Notes.{Notes};
ghost use Rattle.hb_store.specs.Calls.{Fetches, Unchanged};
ghost use Rattle.hb_desk.specs.Calls.{BlobOpened, ManifestOpened, Content, plain};
ghost use Rattle.hb_desk.specs.declared.refusals.Refusal.TheVariants.{Keeper as KeeperFailed, Storage, Spent};
ghost use Rattle.hb_desk.specs.StoreCalls.{OneCall};
ghost use Rattle.hb_world.specs.StoreStands.{Stands};
ghost use Rattle.hb_world.specs.Storing.{IsStoreFault, RowsReply};

use crate::looking::{find_artifact, find_pair, has_project};
use crate::refusing::store_refusal;
use hb_desk::{Opened, Refusal};
use hb_keeper::Keeper;
use hb_store::Store;
use hb_text::{Digest, Name, Reference};
use std::alloc::Global;

// A reader of what is held under the digest.
fn fetch<S: Store>(store: &mut S, digest: &Digest, moment: u64) -> Result<S::Reader, Refusal>
    ensures told { IfOk result (λ reader. Fetches (S.contents store.new) digest.now (S.Reader.bytes reader) (S.Reader.left reader)) }
    ensures called { OneCall (λ answer. Unchanged) (S.contents store.old) moment result (S.contents store.new) }
    ensures stands { Stands (S.contents store.old) (S.contents store.new) }
    ensures fault { IfErr result IsStoreFault }
    ensures later { S.faults store.old ≤ S.faults store.new }
    ensures storage { IsErrOf result Storage → Rose (S.faults store.old) (S.faults store.new) }
{
    match store.fetch(digest, moment) {
        Ok(reader) => Ok(reader),
        Err(fault) => Err(store_refusal(fault)),
    }
}

/// Opens a blob that the repository's project has.
pub(crate) fn open_blob<K: Keeper, S: Store>(
    alloc: Global,
    keeper: &mut K,
    store: &mut S,
    name: &Name,
    digest: &Digest,
    moment: u64,
) -> Result<Opened<S::Reader>, Refusal>
    ensures reply { (n : Notes) → RowsReply (K.rows keeper.old) n (BlobOpened name.now digest.now) (plain (λ o. Content o.digest o.size o.media) result) }
    ensures told { IfOk result (λ o. Fetches (S.contents store.new) o.digest (S.Reader.bytes o.reader) (S.Reader.left o.reader)) }
    ensures rows { K.rows keeper.new ≡ K.rows keeper.old }
    ensures called { OneCall (λ answer. Unchanged) (S.contents store.old) moment result (S.contents store.new) }
    ensures stands { Stands (S.contents store.old) (S.contents store.new) }
    ensures keeper_later { K.faults keeper.old ≤ K.faults keeper.new }
    ensures store_later { S.faults store.old ≤ S.faults store.new }
    ensures keeper { IsErrOf result KeeperFailed → Rose (K.faults keeper.old) (K.faults keeper.new) }
    ensures storage { IsErrOf result Storage → Rose (S.faults store.old) (S.faults store.new) }
    ensures spent { ¬ (IsErrOf result Spent) }
{
    if !has_project(alloc, keeper, name)? {
        return Err(Refusal::NoProject);
    }
    let Some(row) = find_pair(alloc, keeper, name, digest)? else {
        return Err(Refusal::BlobUnknown);
    };
    match fetch(store, &row.digest, moment) {
        Ok(reader) => Ok(Opened {
            reader,
            digest: row.digest,
            size: row.size,
            media: None,
        }),
        Err(refusal) => Err(refusal),
    }
}

/// Opens the manifest that the reference names in the repository.
pub(crate) fn open_manifest<K: Keeper, S: Store>(
    alloc: Global,
    keeper: &mut K,
    store: &mut S,
    name: &Name,
    reference: &Reference,
    moment: u64,
) -> Result<Opened<S::Reader>, Refusal>
    ensures reply { (n : Notes) → RowsReply (K.rows keeper.old) n (ManifestOpened name.now reference.now) (plain (λ o. Content o.digest o.size o.media) result) }
    ensures told { IfOk result (λ o. Fetches (S.contents store.new) o.digest (S.Reader.bytes o.reader) (S.Reader.left o.reader)) }
    ensures rows { K.rows keeper.new ≡ K.rows keeper.old }
    ensures called { OneCall (λ answer. Unchanged) (S.contents store.old) moment result (S.contents store.new) }
    ensures stands { Stands (S.contents store.old) (S.contents store.new) }
    ensures keeper_later { K.faults keeper.old ≤ K.faults keeper.new }
    ensures store_later { S.faults store.old ≤ S.faults store.new }
    ensures keeper { IsErrOf result KeeperFailed → Rose (K.faults keeper.old) (K.faults keeper.new) }
    ensures storage { IsErrOf result Storage → Rose (S.faults store.old) (S.faults store.new) }
    ensures spent { ¬ (IsErrOf result Spent) }
{
    if !has_project(alloc, keeper, name)? {
        return Err(Refusal::NoProject);
    }
    let Some(row) = find_artifact(keeper, name, reference)? else {
        return Err(Refusal::ManifestUnknown);
    };
    match fetch(store, &row.digest, moment) {
        Ok(reader) => Ok(Opened {
            reader,
            digest: row.digest,
            size: row.size,
            media: Some(row.media),
        }),
        Err(refusal) => Err(refusal),
    }
}
