//! Records put in order by a key of theirs.
use deny_base_lists::{Keyed, List, NoMemory, put_records_in_order};

#[derive(Clone, Copy, PartialEq, Eq)]
struct Numbered {
    number: u32,
    text: u32,
}

impl Keyed for Numbered {
    type Key = u32;

    ghost key = { λ numbered. numbered.number };

    fn key(&self) -> &u32 {
        &self.number
    }
}

fn record_of(number: u32, text: u32) -> Numbered {
    Numbered { number, text }
}

/// Puts records in order, of which two pairs have the same key.
fn put_in_order(list: &mut List<Numbered>) -> Result<(), NoMemory> {
    for (number, text) in [(7, 1), (3, 2), (7, 3), (5, 4), (3, 5)] {
        list.push(record_of(number, text))?;
    }
    put_records_in_order(list)
}

fn are_first(records: &[Numbered]) -> bool {
    records == [record_of(3, 2), record_of(5, 4), record_of(7, 1)].as_slice()
}

#[test]
fn the_first_record_of_a_key_stays(rt: HostRuntime) -> Result<(), NoMemory> {
    let mut list = List::new(rt.alloc());
    put_in_order(&mut list)?;
    assert!(rt; are_first(list.as_slice()));
    Ok(())
}
