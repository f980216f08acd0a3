// The parts of a symbol memory in the hands of a caller: tasks that are copied, and the collector's turn on tasks that are only lent.
use bags::{Pile, Ring};
use cells::{Board, CellRecord};
use collecting::collect;
use rules::{Stage, Status, Turn};
use tasks::{Eighth, Task, Tasks};
use turns::Control;

// A task in slot 0, whose status is the collector's.
fn one_task() -> Tasks {
    let mut tasks = Tasks::new();
    if let Some(slot) = Eighth::new(0) {
        tasks.put(slot, Some(Task::new(Status::Async)));
    }
    tasks
}

#[test]
fn a_task_is_copied_with_its_pool(rt: HostRuntime) {
    let task = Task::new(Status::Async);
    let mut copied = task;
    copied.pool.add(7);
    assert_eq!(rt; task.pool.len(), 0);
    assert_eq!(rt; copied.pool.newest(), Some(7));
    assert_eq!(rt; copied.pool.len(), 1);
}

#[test]
fn a_turn_beside_tasks_that_are_lent(rt: HostRuntime) {
    let mut records = [CellRecord {
        colour: 1,
        links: [65535; 4],
    }; 1];
    let mut memory = Board::new(&mut records);
    let mut free = Pile::new(&mut [0u16; 0]);
    let mut cache = Ring::new();
    let tasks = one_task();
    let mut collector = Control::new(1).collector;
    assert_eq!(rt;
        collect(
            &mut memory,
            &mut free,
            &mut cache,
            1,
            &tasks,
            &mut collector
        ),
        Turn::Worked
    );
    assert_eq!(rt; collector.stage, Stage::Clear);
    assert_eq!(rt;
        collect(
            &mut memory,
            &mut free,
            &mut cache,
            1,
            &tasks,
            &mut collector
        ),
        Turn::Waited,
        "the task has not replied"
    );
}
