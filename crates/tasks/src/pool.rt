// Pools of reserved cells.
ghost use Rattle.std.specs.Prelude.{◌≡◌, ◌≤◌, [], length};
ghost use Rattle.rules.specs.Makings.{older_of};
ghost use Rattle.rules.specs.State.{grown};
ghost use Rattle.tasks.specs.Pools.{newest, pool_of};

// Cells that a task has reserved: the first `count` of them, the last added at the end. An array and a count, since a pool is copied with
// its task, which a vector, though it needs no heap, is not.
#[derive(Clone, Copy)]
pub struct Pool {
    cells: [u16; 4],
    count: usize,
}

impl Pool {
    pub fn new() -> Pool
        ensures { pool_of result ≡ [] }
    {
        Pool {
            cells: [0; 4],
            count: 0,
        }
    }

    pub fn len(self) -> usize
        ensures value { result ≡ length (pool_of self) }
        ensures few { result ≤ 4 }
    {
        self.count.min(4)
    }

    // One cell more, where there is a place.
    pub fn add(&mut self, x: u16)
        ensures { pool_of self.new ≡ grown (pool_of self.old) x }
    {
        let count = self.len();
        if count < 4 {
            self.cells[count] = x;
            self.count = count + 1;
        }
    }

    // The last added cell, which the pool loses.
    pub fn take(&mut self) -> Option<u16>
        ensures answer { result ≡ newest (pool_of self.old) }
        ensures after { pool_of self.new ≡ older_of (pool_of self.old) }
    {
        let count = self.len();
        if count == 0 {
            return None;
        }
        self.count = count - 1;
        Some(self.cells[count - 1])
    }

    // The last added cell.
    pub fn newest(self) -> Option<u16>
        ensures { result ≡ newest (pool_of self) }
    {
        let mut pool = self;
        pool.take()
    }
}
