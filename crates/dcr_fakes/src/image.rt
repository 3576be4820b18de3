// What a crash may leave of a disk in memory.
ghost use Rattle.std.specs.Prelude.{◌≡◌, ◌≤◌, [], ◌∷◌, length, IfOk, OnOk};
ghost use Rattle.dcr_base.specs.Disk.{Torn};
ghost use Rattle.dcr_fakes.specs.DiskLog.{IsImage, LeftAfter, step, step_by};

use crate::disk_call::DiskCall;
use dcr_base::write_over;
use std::alloc::{AllocError, Global};

/// An image that a crash after these calls may leave of a disk that held `first` before them, all of it durable. Two
/// bits of `choice` for each write say what the crash makes of it, the lowest for the first write.
pub(crate) fn torn_image(
    alloc: Global,
    first: &[u8],
    calls: &[DiskCall],
    choice: u64,
) -> Result<Vec<u8>, AllocError>
    ensures { IfOk result (λ image. LeftAfter first.now calls.now image.items) }
{
    let mut content = first.to_vec(alloc)?;
    let mut image = first.to_vec(alloc)?;
    let mut choice = choice;
    for call in calls {
        pass(alloc, &mut content, &mut image, call, choice % 4)?;
        if let DiskCall::Write { .. } = call {
            choice = choice.rotate_right(2);
        }
    }
    Ok(image)
}

// What a call makes of the content, and one of the images that it may leave of an image from before it.
fn pass(
    alloc: Global,
    content: &mut Vec<u8>,
    image: &mut Vec<u8>,
    call: &DiskCall,
    way: u64,
) -> Result<(), AllocError>
    ensures content { OnOk result (content.new.items ≡ step content.old.items call.now) }
    ensures image { OnOk result (IsImage (λ was. was ≡ image.old.items) content.old.items
        (call.now ∷ []) image.new.items) }
{
    match call {
        DiskCall::Write { at, bytes, failed } => {
            tear(alloc, image, *at, bytes, way)?;
            follow(content, *at, bytes, *failed)?;
        }
        DiskCall::Sync { failed: false } => *image = content.to_vec(alloc)?,
        _ => {}
    }
    Ok(())
}

// Writes what a write that a crash tears may leave of a piece.
fn tear(
    alloc: Global,
    image: &mut Vec<u8>,
    at: u64,
    bytes: &[u8],
    way: u64,
) -> Result<(), AllocError>
    ensures { OnOk result (Torn at (length bytes.now) image.old.items image.new.items) }
{
    if at > image.len() as u64 {
        return Ok(());
    }
    let piece = left_of(alloc, bytes, way)?;
    write_over(image, at as usize, &piece)
}

// Of a piece all, nothing, as many bytes of 1, or its first half.
fn left_of(alloc: Global, bytes: &[u8], way: u64) -> Result<Vec<u8>, AllocError>
    ensures { IfOk result (λ left. length left.items ≤ length bytes.now) }
{
    match way {
        0 => bytes.to_vec(alloc),
        1 => Ok(Vec::new(alloc)),
        2 => vec![in alloc; 1; bytes.len()],
        _ => bytes[..bytes.len() / 2].to_vec(alloc),
    }
}

// Writes a piece over the content, where the write succeeded.
fn follow(content: &mut Vec<u8>, at: u64, bytes: &[u8], failed: bool) -> Result<(), AllocError>
    ensures { OnOk result (content.new.items ≡ step_by at bytes.now failed content.old.items) }
{
    if failed || at > content.len() as u64 {
        return Ok(());
    }
    write_over(content, at as usize, bytes)
}
