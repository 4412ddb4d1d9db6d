// Frames of 64 words, and the map that names the frames of each block.
ghost use Rattle.std.specs.Prelude.{◌≡◌, ℕ, ◌+◌, ◌*◌, ◌/◌, ◌%◌, ◌&&◌, length, IfOk, ◌==◌, nat_lt, slice_index, slice_set};
ghost use Rattle.paged.specs.Frames.{frames_of, slot_at, Judged};

use std::alloc::{AllocError, Global};
use stores::runs::put;

// The words of a frame.
pub const FRAME: usize = 64;

// The frames that a block of so many words has.
pub fn frames_of(width: u32) -> u32
    ensures { result ≡ frames_of width }
{
    ((width as usize + FRAME - 1) / FRAME) as u32
}

// Where the word at a place of the block in a slot stands. An entry past the end of the map reads as 0.
pub fn word_place(map: &[u32], width: u32, slot: u32, place: u32) -> usize
    ensures { result ≡ slot_at width map.now slot place }
{
    let place = place as usize;
    let at = slot as usize * frames_of(width) as usize + place / FRAME;
    let frame = map.get(at).copied().unwrap_or(0);
    frame as usize * FRAME + place % FRAME
}

// Notes a frame: whether there is such a frame, and it was not noted before.
fn note(seen: &mut [u8], frame: usize) -> bool
    ensures fresh { result ≡ (nat_lt frame (length seen.old) && slice_index seen.old frame == 0) }
    ensures noted { seen.new ≡ slice_set seen.old frame 1 }
{
    let fresh = frame < seen.len() && seen[frame] == 0;
    put(seen, frame, 1);
    fresh
}

// Whether each entry of a map names a frame that there is, and no two name the same. A loop and no `all`: of a closure
// that changes what it captures, a proof learns nothing from the chain.
fn once_each(map: &[u32], seen: &mut [u8]) -> bool
    requires { (k : ℕ) → slice_index seen.old k ≡ 0 }
    ensures { Judged map.now (length map.now) (length seen.old) result }
{
    for frame in map {
        if !note(seen, *frame as usize) {
            return false;
        }
    }
    true
}

// The same of so many frames, by a table with a byte for each, which is freed again.
pub fn apt(heap: Global, map: &[u32], frames: usize) -> Result<bool, AllocError>
    ensures { IfOk result (λ t. Judged map.now (length map.now) frames t) }
{
    let mut seen = vec![in heap; 0; frames]?;
    Ok(once_each(map, &mut seen))
}
