// The layouts, and what old contents mean.
use cells::{Board, Bytes, CellMemory, CellRecord, Colour, MemoryRefusal};
use std::test::Fail;

#[test]
fn twelve_bytes_are_two_cells(rt: HostRuntime) {
    let mut bytes = [0u8; 12];
    let memory = Bytes::new(&mut bytes);
    assert_eq!(rt; memory.count(), 2);
}

#[test]
fn grey_with_links_one_and_empty(rt: HostRuntime) -> Result<(), Fail> {
    let mut bytes = [9u8; 12];
    {
        let mut memory = Bytes::new(&mut bytes);
        memory.set_colour(0, Colour::Grey)?;
        memory.set_link(0, 0, Some(1))?;
        memory.set_link(0, 1, None)?;
    }
    assert!(rt;
        bytes[0] == 2 && bytes[1] == 0 && bytes[2] == 1 && bytes[3] == 255 && bytes[4] == 255
    );
    assert!(rt;
        bytes[5] == 9 && bytes[9] == 9,
        "the second cell is as it was"
    );
    assert!(rt;
        bytes[10] == 9 && bytes[11] == 9,
        "leftover bytes are as they were"
    );
    Ok(())
}

#[test]
fn old_bytes_have_a_meaning(rt: HostRuntime) -> Result<(), Fail> {
    let mut bytes = [7, 0, 1, 0, 2, 254, 255, 255, 0, 0];
    let memory = Bytes::new(&mut bytes);
    assert_eq!(rt; memory.colour(0)?, Colour::Black);
    assert_eq!(rt; memory.link(0, 0)?, Some(1));
    assert_eq!(rt; memory.link(0, 1)?, None);
    assert_eq!(rt; memory.colour(1)?, Colour::Grey);
    assert_eq!(rt; memory.link(1, 0)?, None);
    assert_eq!(rt; memory.link(1, 1)?, Some(0));
    Ok(())
}

#[test]
fn outside_a_byte_memory(rt: HostRuntime) {
    let mut bytes = [0u8; 10];
    let mut memory = Bytes::new(&mut bytes);
    assert_eq!(rt; memory.colour(2), Err(MemoryRefusal::Outside));
    assert_eq!(rt; memory.link(0, 2), Err(MemoryRefusal::Outside));
    assert_eq!(rt; memory.set_link(0, 0, Some(2)), Err(MemoryRefusal::Outside));
    assert_eq!(rt; u16::from(MemoryRefusal::Outside), 9);
}

#[test]
fn old_records_have_a_meaning(rt: HostRuntime) -> Result<(), Fail> {
    let mut records = [CellRecord {
        colour: 6,
        links: [0, 2, 3, 65535],
    }; 3];
    let memory = Board::new(&mut records);
    assert_eq!(rt; memory.count(), 3);
    assert_eq!(rt; memory.colour(2)?, Colour::Grey);
    assert_eq!(rt; memory.link(2, 1)?, Some(2));
    assert_eq!(rt; memory.link(2, 2)?, None);
    assert_eq!(rt; memory.link(2, 3)?, None);
    assert_eq!(rt; memory.link(2, 4), Err(MemoryRefusal::Outside));
    Ok(())
}
