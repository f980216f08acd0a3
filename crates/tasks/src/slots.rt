// The slots of the tasks.
ghost use Rattle.std.specs.Prelude.{◌≡◌, ◌<◌, length, get_or, None};
ghost use Rattle.std.specs.List.{list_all};
ghost use Rattle.rules.specs.Handshake.{bit};
ghost use Rattle.tasks.specs.Masks.{choice};

use super::agreement::all_agree_in;
use super::eighth::Eighth;
use super::pool::Pool;
use super::task::Task;
use rules::{Refusal, Status, Work};
use std::array;

#[derive(Drop)]
pub struct Tasks {
    slots: [Option<Task>; 8],
    ghost eight: { length slots ≡ 8 },
}

// Each change looks its slot up itself. One function that lends the task, and one that calls a closure with it, were tried: of what the
// loan or the call leaves, the proofs of these did not close.
impl Tasks {
    ghost use Rattle.std.specs.Prelude.{◌≡◌, get_or, slice_index_or, Some, None, Ok, IfOk};
    ghost use Rattle.cells.specs.Memory.{at};
    ghost use Rattle.rules.specs.Changes.{status_in};
    ghost use Rattle.rules.specs.Collecting.{agree_to};
    ghost use Rattle.rules.specs.Handshake.{launched, registers_in};
    ghost use Rattle.rules.specs.Makings.{begin_making};
    ghost use Rattle.rules.specs.Questions.{tells};
    ghost use Rattle.rules.specs.State.{in_slot, of_idle_task};
    ghost use Rattle.rules.specs.Tasks.{with_held};
    ghost use Rattle.tasks.specs.Masks.{choice};
    ghost use Rattle.tasks.specs.Parts.{borrowed_slot, found, lent_slot, making_found, making_of, newest_in, slot_of, tasks_of};
    ghost use Rattle.tasks.specs.Parts.{with_finished, with_grown, with_older, with_scrapped, with_status_of, with_work_of};

    // All slots vacant.
    pub fn new() -> Tasks
        ensures { tasks_of result ≡ (λ _. None) }
    {
        Tasks {
            slots: array::from_fn(|_| None),
        }
    }

    // What stands in slot m.
    pub fn get(&self, m: Eighth) -> Option<&Task>
        ensures value { borrowed_slot result ≡ tasks_of self.now m }
        ensures stored { lent_slot result ≡ slice_index_or self.now.slots m None }
    {
        self.slots[m.index()].as_ref()
    }

    // The task in slot m, which is to be there.
    pub fn present(&self, m: Eighth) -> Result<&Task, Refusal>
        ensures value { found result ≡ tells (λ t. t) (tasks_of self.now m) }
        ensures stored { IfOk result (λ t. slice_index_or self.now.slots m None ≡ Some t.now) }
    {
        self.get(m).ok_or(Refusal::NoTask)
    }

    // The task in slot m, where it has no unfinished work.
    pub fn idle(&self, m: Eighth) -> Result<&Task, Refusal>
        ensures value { found result ≡ of_idle_task (tasks_of self.now m) Ok }
        ensures stored { IfOk result (λ t. slice_index_or self.now.slots m None ≡ Some t.now) }
    {
        let task = self.present(m)?;
        if task.work.is_some() {
            return Err(Refusal::WorkUnfinished);
        }
        Ok(task)
    }

    // The task in slot m that is making a cell, the cell, and whether it is settled.
    pub fn making(&self, m: Eighth) -> Result<(&Task, u16, bool), Refusal>
        ensures value { making_found result ≡ making_of (tasks_of self.now m) }
        ensures stored { IfOk result (λ f. slice_index_or self.now.slots m None ≡ Some f.0.now) }
    {
        let task = self.present(m)?;
        match task.work {
            Some(Work::Making { cell, settled }) => Ok((task, cell, settled)),
            Some(Work::Change { .. }) => Err(Refusal::WorkUnfinished),
            None => Err(Refusal::NoSuchMaking),
        }
    }

    pub fn put(&mut self, m: Eighth, task: Option<Task>)
        ensures { tasks_of self.new ≡ at m (slot_of task) (tasks_of self.old) }
    {
        self.slots[m.index()] = task;
    }

    // Register b of the task in slot m, if there is one, holds v.
    pub fn hold(&mut self, m: Eighth, b: Eighth, v: Option<u16>)
        ensures { tasks_of self.new ≡ at m (with_held (tasks_of self.old m) b v) (tasks_of self.old) }
    {
        if let Some(holder) = &mut self.slots[m.index()] {
            holder.registers[b.index()] = v;
        }
    }

    // The status of the task in slot m; Async where there is no task.
    pub fn status_of(&self, m: Eighth) -> Status
        ensures { result ≡ status_in (tasks_of self.now m) }
    {
        self.get(m).map_or(Status::Async, |task| task.status)
    }

    // What the registers of the task in slot m hold; nothing where there is no task.
    pub fn registers(&self, m: Eighth) -> [Option<u16>; 8]
        ensures { (λ j. get_or result j None) ≡ registers_in (tasks_of self.now m) }
    {
        // A match, since of what `map_or` gives here the proof does not close.
        match self.get(m) {
            Some(task) => task.registers,
            None => [None; 8],
        }
    }

    // The task in slot m, if there is one, is at this work, or at none.
    pub fn set_work(&mut self, m: Eighth, work: Option<Work>)
        ensures { tasks_of self.new ≡ at m (with_work_of (tasks_of self.old m) work) (tasks_of self.old) }
    {
        if let Some(worker) = &mut self.slots[m.index()] {
            worker.work = work;
        }
    }

    pub fn set_status(&mut self, m: Eighth, status: Status)
        ensures { tasks_of self.new ≡ at m (with_status_of (tasks_of self.old m) status) (tasks_of self.old) }
    {
        if let Some(task) = &mut self.slots[m.index()] {
            task.status = status;
        }
    }

    // The making of cell x by the task in slot m begins: the pool loses its last added cell.
    pub fn begin_making(&mut self, m: Eighth, x: u16)
        ensures { tasks_of self.new ≡ at m (in_slot (begin_making x) (tasks_of self.old m)) (tasks_of self.old) }
    {
        if let Some(maker) = &mut self.slots[m.index()] {
            let _ = maker.pool.take();
            maker.work = Some(Work::Making {
                cell: x,
                settled: false,
            });
        }
    }

    // The making of cell x by the task in slot m is over, and register b holds it.
    pub fn finish(&mut self, m: Eighth, x: u16, b: Eighth)
        ensures { tasks_of self.new ≡ at m (with_finished (tasks_of self.old m) x b) (tasks_of self.old) }
    {
        if let Some(maker) = &mut self.slots[m.index()] {
            maker.registers[b.index()] = Some(x);
            maker.work = None;
        }
    }

    // The making of cell x by the task in slot m is over, and its pool has it again.
    pub fn scrap(&mut self, m: Eighth, x: u16)
        ensures { tasks_of self.new ≡ at m (with_scrapped (tasks_of self.old m) x) (tasks_of self.old) }
    {
        if let Some(maker) = &mut self.slots[m.index()] {
            maker.pool.add(x);
            maker.work = None;
        }
    }

    // Cell x goes to the pool of the task in slot m, if there is one and it has a place.
    pub fn add(&mut self, m: Eighth, x: u16)
        ensures { tasks_of self.new ≡ at m (with_grown (tasks_of self.old m) x) (tasks_of self.old) }
    {
        if let Some(owner) = &mut self.slots[m.index()] {
            owner.pool.add(x);
        }
    }

    // The last added cell of the pool of the task in slot m, which the pool loses.
    pub fn take(&mut self, m: Eighth) -> Option<u16>
        ensures answer { result ≡ newest_in (tasks_of self.old m) }
        ensures after { tasks_of self.new ≡ at m (with_older (tasks_of self.old m)) (tasks_of self.old) }
    {
        // A match, since `as_mut` of an item of the array is not covered by the borrow check.
        match &mut self.slots[m.index()] {
            Some(task) => task.pool.take(),
            None => None,
        }
    }

    // Every task has this status; so too where there is no task.
    pub fn all_agree(&self, status: Status) -> bool
        ensures { result ≡ agree_to 8 status (tasks_of self.now) }
    {
        all_agree_in(&self.slots, status)
    }

    // A task of this status begins in slot p, with those registers of the task in slot m whose bit of the mask is one.
    pub fn launch(&mut self, m: Eighth, p: Eighth, mask: u8, status: Status)
        ensures { tasks_of self.new ≡ at p (Some (launched status mask (tasks_of self.old m))) (tasks_of self.old) }
    {
        let task = Task {
            status,
            registers: chosen(self.registers(m), mask),
            pool: Pool::new(),
            work: None,
        };
        self.put(p, Some(task));
    }
}

// The registers whose bit of the mask is one.
fn chosen(registers: [Option<u16>; 8], mask: u8) -> [Option<u16>; 8]
    ensures { (λ j. get_or result j None) ≡ choice mask (λ j. get_or registers j None) }
{
    array::from_fn(|j| if bit(mask, j) { registers[j] } else { None })
}

fn bit(mask: u8, j: usize) -> bool
    requires { j < 8 }
    ensures { result ≡ bit mask j }
{
    (mask >> j) % 2 == 1
}
