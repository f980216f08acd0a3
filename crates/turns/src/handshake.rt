// Tasks that begin as another left off, and tasks that reply to the collector.
ghost use Rattle.std.specs.Prelude.{◌≡◌, Ok};
ghost use Rattle.rules.specs.Handshake.{launch, cooperate, replying};
ghost use Rattle.rules.specs.State.{accepted};
ghost use Rattle.turns.specs.Parts.{OnControl, OnCells};
ghost use Rattle.turns.specs.YesOrNo.{yes_or_no};

use super::parts::Control;
use cells::CellMemory;
use cellwork::grey_reply;
use rules::{Refusal, Status};
use tasks::Eighth;

impl Control {
    // Begins a task in slot p with those registers of task m whose bit of the mask is one; answers how many bits are.
    pub fn launch(&mut self, m: usize, p: usize, mask: u8) -> Result<u16, Refusal>
        ensures { OnControl (launch m p mask) self.old self.new result }
    {
        let (m, p) = (self.slot(m)?, self.slot(p)?);
        let task = self.tasks.present(m)?;
        if self.tasks.get(p).is_some() {
            return Err(Refusal::SlotTaken);
        }
        if task.work.is_some() {
            return Err(Refusal::WorkUnfinished);
        }
        let asked = self.collector.status;
        if task.status != asked {
            return Err(Refusal::StatusBehind);
        }
        self.tasks.launch(m, p, mask, asked);
        Ok(mask.count_ones() as u16)
    }

    // Task m takes the status that the collector asks for; at Sync2 what its registers hold is greyed. Answers whether it replied.
    pub fn cooperate<M: CellMemory>(&mut self, memory: &mut M, m: usize) -> Result<bool, Refusal>
        ensures { OnCells M.CellMemory (cooperate m) memory.old memory.new self.old self.new (yes_or_no result) }
    {
        let m = self.slot(m)?;
        let status = self.tasks.idle(m)?.status;
        if status == self.collector.status {
            return Ok(false);
        }
        self.reply(memory, m, status);
        Ok(true)
    }

    // Task m, of this status, takes the one that is asked for.
    fn reply<M: CellMemory>(&mut self, memory: &mut M, m: Eighth, status: Status)
        ensures { OnCells M.CellMemory (λ s. accepted 1 (replying s m status)) memory.old memory.new self.old self.new (Ok 1) }
    {
        grey_reply(memory, status, self.tasks.registers(m));
        self.tasks.set_status(m, self.collector.status);
    }
}
