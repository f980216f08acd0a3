// Slots that agree.
ghost use Rattle.std.specs.Prelude.{◌≡◌};
ghost use Rattle.std.specs.List.{list_all};
ghost use Rattle.rules.specs.Collecting.{agrees};
ghost use Rattle.tasks.specs.Parts.{slot_of};

use super::task::Task;
use rules::Status;

// A vacant slot agrees with everything.
pub(crate) fn all_agree_in(slots: &[Option<Task>], status: Status) -> bool
    ensures { result ≡ list_all (λ slot. agrees status (slot_of slot)) slots.now }
{
    slots.iter().all(|slot| slot.as_ref().is_none_or(|task| task.status == status))
}
