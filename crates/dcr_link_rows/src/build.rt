// Items and doors for the rows of the desk.
ghost use Rattle.std.specs.Prelude.{◌≡◌, ◌<◌, ◌+◌, [], map, IfOk};
ghost use Rattle.dcr_serve.specs.Left.{numbers_from};

use crate::links::{door_of, whole};
use dcr_base::Source;
use dcr_fakes::{MemDoor, MemLink};
use dcr_serve::Numbered;
use std::alloc::{AllocError, Global};

/// A number alone.
#[derive(Drop)]
pub(crate) struct Item(pub(crate) u32);

impl Numbered for Item {
    ghost number = { λ item. item.0 };

    fn number(&self) -> u32 {
        self.0
    }
}

/// So many items, numbered from 0.
pub(crate) fn items(alloc: Global, count: u32) -> Result<Vec<Item>, AllocError>
    ensures { IfOk result (λ items. map (λ item. item.0) items.items ≡ numbers_from 0 count) }
{
    let mut items = Vec::new(alloc);
    for number in 0..count {
        items.push(Item(number))?;
    }
    Ok(items)
}

/// A door with so many links, of which each asks its number, counted from 0, in four bytes. The calls of these numbers fail.
pub(crate) fn door(alloc: Global, count: u32, failing: &[u32]) -> Result<MemDoor, AllocError> {
    let mut numbers = Vec::new(alloc);
    for number in 0..count {
        numbers.push(number.to_le_bytes())?;
    }
    let mut askings = Vec::new(alloc);
    for number in &numbers {
        askings.push(whole(number))?;
    }
    door_of(alloc, &askings, failing)
}

/// The number that a link asks. None where it asks no four bytes.
pub(crate) fn asked(mut link: MemLink) -> Option<u32> {
    let mut bytes = [0; 4];
    match link.read(&mut bytes) {
        Ok(4) => Some(u32::from_le_bytes(bytes)),
        _ => None,
    }
}
