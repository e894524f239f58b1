//! What the events of a world look up in the rows.
ghost use Rattle.std.specs.Prelude.{◌≡◌, ◌≤◌, is_some, IfErr, IfOk, IfSome, IsErrOf};
ghost use Rattle.hb_outside.specs.Causes.{Rose};
ghost use Rattle.hb_text.specs.Names.{project_of};
ghost use Rattle.hb_rows.specs.Tables.{pair_at, project_at};
ghost use Rattle.hb_desk.specs.declared.refusals.Refusal.TheVariants.{Keeper as KeeperFailed};
ghost use Rattle.hb_plan.specs.Plans.{IsPlanFault};
ghost use Rattle.hb_plan.specs.RowReplies.{row_named_by};

use crate::refusing::keep_refusal;
use hb_desk::Refusal;
use hb_keeper::Keeper;
use hb_model::names::project_name;
use hb_records::{Artifact, Assoc, Memory};
use hb_text::{Digest, Name, Reference};
use std::alloc::Global;

/// Whether the repository's project is there.
pub(crate) fn has_project<K: Keeper>(
    alloc: Global,
    keeper: &mut K,
    name: &Name,
) -> Result<bool, Refusal>
    ensures told { IfSome (K.rows keeper.old) (λ r. IfOk result (λ b. b ≡ is_some (project_at r (project_of name.now)))) }
    ensures fault { IfErr result IsPlanFault }
    ensures rows { K.rows keeper.new ≡ K.rows keeper.old }
    ensures later { K.faults keeper.old ≤ K.faults keeper.new }
    ensures keeper { IsErrOf result KeeperFailed → Rose (K.faults keeper.old) (K.faults keeper.new) }
{
    let project = match project_name(alloc, name) {
        Ok(project) => project,
        Err(Memory) => return Err(Refusal::Memory),
    };
    match keeper.project(&project) {
        Ok(row) => Ok(row.is_some()),
        Err(fault) => Err(keep_refusal(fault)),
    }
}

/// The row of the repository's project having the digest.
pub(crate) fn find_pair<K: Keeper>(
    alloc: Global,
    keeper: &mut K,
    name: &Name,
    digest: &Digest,
) -> Result<Option<Assoc>, Refusal>
    ensures told { IfSome (K.rows keeper.old) (λ r. IfOk result (λ row. row ≡ pair_at r (project_of name.now) digest.now)) }
    ensures fault { IfErr result IsPlanFault }
    ensures rows { K.rows keeper.new ≡ K.rows keeper.old }
    ensures later { K.faults keeper.old ≤ K.faults keeper.new }
    ensures keeper { IsErrOf result KeeperFailed → Rose (K.faults keeper.old) (K.faults keeper.new) }
{
    let project = match project_name(alloc, name) {
        Ok(project) => project,
        Err(Memory) => return Err(Refusal::Memory),
    };
    match keeper.pair(&project, digest) {
        Ok(row) => Ok(row),
        Err(fault) => Err(keep_refusal(fault)),
    }
}

/// The row of the artifact that the reference names in the repository.
pub(crate) fn find_artifact<K: Keeper>(
    keeper: &mut K,
    name: &Name,
    reference: &Reference,
) -> Result<Option<Artifact>, Refusal>
    ensures told { IfSome (K.rows keeper.old) (λ r. IfOk result (λ row. row ≡ row_named_by r name.now reference.now)) }
    ensures fault { IfErr result IsPlanFault }
    ensures rows { K.rows keeper.new ≡ K.rows keeper.old }
    ensures later { K.faults keeper.old ≤ K.faults keeper.new }
    ensures keeper { IsErrOf result KeeperFailed → Rose (K.faults keeper.old) (K.faults keeper.new) }
{
    match hb_plan::find_artifact(keeper, name, reference) {
        Ok(row) => Ok(row),
        Err(fault) => Err(keep_refusal(fault)),
    }
}
