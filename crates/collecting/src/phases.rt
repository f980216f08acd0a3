// Turns that change the collector and nothing else.
ghost use Rattle.std.specs.Prelude.{◌≡◌, false, not, ◌&&◌};
ghost use Rattle.rules.specs.Collecting.{after_sync, agree_to, clearing, next_phase, rest, scan_from, sweep_from, sweep_to};
ghost use Rattle.rules.specs.Greying.{same_status};
ghost use Rattle.tasks.specs.Parts.{tasks_of};
ghost use Rattle.collecting.specs.Gathering.{alone};

use rules::{Collector, Stage, Status, Swept};
use tasks::Tasks;

// Rest: asks for Sync1.
pub(crate) fn rest(collector: &mut Collector)
    ensures { collector.new ≡ alone (λ s. (rest s).after) collector.old }
{
    collector.status = Status::Sync1;
    collector.stage = Stage::Clear;
}

// Clear: all agree, so it asks for Sync2 and begins to mark.
pub(crate) fn clear(collector: &mut Collector)
    ensures { collector.new ≡ alone (λ s. (clearing s).after) collector.old }
{
    collector.status = Status::Sync2;
    collector.phase = Status::Sync1;
    collector.swept = Swept::Before;
    collector.stage = Stage::Mark;
    collector.next = 0;
}

// Mark: all tasks have come to the status asked for, and the phase is still the one before.
pub(crate) fn phase_is_over(phase: Status, asked: Status, tasks: &Tasks) -> bool
    ensures { result ≡ (not (same_status phase asked) && agree_to 8 asked (tasks_of tasks.now)) }
{
    phase != asked && tasks.all_agree(asked)
}

// What to ask for once all have this status; after Sync2 that is Async again.
fn after_sync(status: Status) -> Status
    ensures { result ≡ after_sync status }
{
    match status {
        Status::Sync2 => Status::Async,
        other => other,
    }
}

// Mark: the status asked for is the new phase.
pub(crate) fn next_phase(collector: &mut Collector)
    ensures { collector.new ≡ alone next_phase collector.old }
{
    collector.phase = collector.status;
    collector.status = after_sync(collector.status);
}

// Every cell is still to be looked at: Mark is done, or the scan ends dirty.
pub(crate) fn begin_scan(collector: &mut Collector)
    ensures { collector.new ≡ alone (λ s. scan_from s false 0) collector.old }
{
    scan_from(collector, false, 0);
}

// The scan goes on from cell k, which is not looked at yet.
pub(crate) fn scan_from(collector: &mut Collector, dirty: bool, k: u16)
    ensures { collector.new ≡ alone (λ s. scan_from s dirty k) collector.old }
{
    collector.stage = Stage::Scan;
    collector.scanned = Some(k);
    collector.looked = false;
    collector.dirty = dirty;
}

// The sweep begins, with cell 0.
pub(crate) fn sweep_from(collector: &mut Collector)
    ensures { collector.new ≡ alone sweep_from collector.old }
{
    collector.stage = Stage::Sweep;
    collector.scanned = None;
    collector.swept = Swept::At(0);
    collector.looked = false;
}

// The sweep goes on to this place, or is over.
pub(crate) fn sweep_to(collector: &mut Collector, place: Swept, stage: Stage)
    ensures { collector.new ≡ alone (λ s. sweep_to s place stage) collector.old }
{
    collector.stage = stage;
    collector.swept = place;
    collector.looked = false;
}
