// The parts of a symbol memory.
use bags::Bag;
use cells::CellMemory;
use turns::Control;

// A symbol memory over a cell memory and two bags that are lent to it. It has no model: its state holds functions, and the value of a
// model is data.
#[derive(Drop)]
pub struct Symbols<'a, 'b, 'c, M: CellMemory, F: Bag, C: Bag> {
    pub(crate) memory: &'a mut M,
    pub(crate) free: &'b mut F,
    pub(crate) cache: &'c mut C,
    pub(crate) control: Control,
}
