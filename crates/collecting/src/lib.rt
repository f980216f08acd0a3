// The collector's turn over any cell memory and any two bags.
#![tactic(auto)]

ghost use Rattle.std.specs.Prelude.{◌≡◌};
ghost use Rattle.rules.specs.Collecting.{collect};
ghost use Rattle.rules.specs.State.{accepted};
ghost use Rattle.rules.specs.TurnNumbers.{turn_number};
ghost use Rattle.tasks.specs.Parts.{tasks_of};
ghost use Rattle.collecting.specs.Gathering.{gathered, Kept};

use bags::Bag;
use cells::CellMemory;
use marking::{Marker, take};
use phases::{begin_scan, clear, next_phase, phase_is_over, rest};
use rules::{Collector, Stage, Status, Turn};
use sweeping::sweep;
use tasks::Tasks;

mod marking;
mod phases;
mod scanning;
mod sweeping;

// One turn, which touches at most one cell. Before the set up, when there is no directory, the collector waits. Stage, hand and status are kept
// from turn to turn, so the turn is a match on them and no closure.
pub fn collect<M: CellMemory, F: Bag, C: Bag>(
    memory: &mut M,
    free: &mut F,
    cache: &mut C,
    directory: u16,
    tasks: &Tasks,
    collector: &mut Collector,
) -> Turn
    ensures turn { accepted (turn_number result) (gathered M.CellMemory F.Bag C.Bag memory.new free.new cache.new directory (tasks_of tasks.now) collector.new) ≡ collect (gathered M.CellMemory F.Bag C.Bag memory.old free.old cache.old directory (tasks_of tasks.now) collector.old) }
    ensures memory { Kept M.CellMemory.spare memory.entry memory.exit }
    ensures free { Kept F.Bag.spare free.entry free.exit }
    ensures cache { Kept C.Bag.spare cache.entry cache.exit }
{
    if directory == 0 {
        return Turn::Waited;
    }
    match (collector.stage, collector.hand, collector.status) {
        (Stage::Rest, _, _) => rest(collector),
        (Stage::Clear, _, asked) if tasks.all_agree(asked) => clear(collector),
        (Stage::Clear, _, _) => return Turn::Waited,
        (Stage::Mark, _, asked) if phase_is_over(collector.phase, asked, tasks) => {
            next_phase(collector)
        }
        (Stage::Mark, Some(hand), _) => Marker::new(memory, cache, collector).follow(hand),
        (Stage::Mark, None, _) if cache.count() > 0 => take(cache, collector),
        (Stage::Mark, None, _) if collector.next < directory => {
            Marker::new(memory, cache, collector).next_cell()
        }
        (Stage::Mark, None, _) if collector.phase == Status::Async => begin_scan(collector),
        (Stage::Mark, None, _) => return Turn::Waited,
        (Stage::Scan, _, _) if collector.scanned.is_none() => return Turn::Waited,
        (Stage::Scan, Some(hand), _) => Marker::new(memory, cache, collector).follow(hand),
        (Stage::Scan, None, _) if cache.count() > 0 => take(cache, collector),
        (Stage::Scan, None, _) => return Marker::new(memory, cache, collector).scan(),
        (Stage::Sweep, _, _) => return sweep(memory, free, collector),
    }
    Turn::Worked
}
