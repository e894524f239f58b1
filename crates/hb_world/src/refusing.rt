//! The faults of devices, as a desk's refusals.
ghost use Rattle.std.specs.Prelude.{◌≡◌, ◌↔◌};
ghost use Rattle.hb_desk.specs.declared.refusals.Refusal.TheVariants.{Keeper, Storage};
ghost use Rattle.hb_plan.specs.Plans.{IsPlanFault};
ghost use Rattle.hb_world.specs.Storing.{IsStoreFault};

use hb_desk::Refusal;
use hb_keeper::KeepFault;
use hb_store::StoreFault;

pub(crate) fn keep_refusal(fault: KeepFault) -> Refusal
    ensures failed { result ≡ Keeper ↔ (fault ≡ KeepFault.Failed) }
    ensures fault { IsPlanFault result }
{
    match fault {
        KeepFault::Failed => Refusal::Keeper,
        KeepFault::Memory => Refusal::Memory,
    }
}

pub(crate) fn store_refusal(fault: StoreFault) -> Refusal
    ensures failed { result ≡ Storage ↔ (fault ≡ StoreFault.Failed) }
    ensures fault { IsStoreFault result }
{
    match fault {
        StoreFault::Failed => Refusal::Storage,
        StoreFault::Memory => Refusal::Memory,
    }
}
