ghost use Rattle.std.specs.Prelude.{◌≡◌, ◌<◌, ◌≤◌, ◌%◌, [], length, map, vec_len, vec_capacity, slice_index_or, IfOk};
ghost use Rattle.std.specs.List.{All, Contains, range_with_len};
ghost use Rattle.dcr_turn.specs.PassValue.{PassValue, new_passes};
ghost use Rattle.dcr_work.specs.Dealing.{AreDealt, AreHands, Hand, IsEmptyHand, session_of};

use dcr_set::NoMemory;
use dcr_turn::{Pass, TurnName};
use std::alloc::Global;

/// An empty hand for each worker, with room for so many passes.
pub(crate) fn empty_hands<N: TurnName>(
    alloc: Global,
    workers: usize,
    room: usize,
) -> Result<Vec<Vec<Pass<N>>>, NoMemory>
    ensures as_many { IfOk result (λ hands. length hands.items ≡ workers) }
    ensures empty { IfOk result (λ hands. All (IsEmptyHand room) hands.items) }
{
    let mut hands = Vec::with_capacity(alloc, workers)?;
    for _ in 0..workers {
        hands.push_reserved(Vec::with_capacity(alloc, room)?);
    }
    Ok(hands)
}

/// Deals the new passes of all sessions out, each to its worker, from the last one on.
pub(crate) fn deal<N: TurnName>(passes: &mut Vec<Pass<N>>, hands: &mut [Vec<Pass<N>>])
    requires some { 0 < length hands.old }
    requires passes { passes.old.items ≡ new_passes (vec_len passes.old) }
    requires empty { All (IsEmptyHand (vec_len passes.old)) hands.old }
    ensures as_many { length hands.new ≡ length hands.old }
    ensures dealt { AreDealt (length hands.old) (vec_len passes.old) (vec_len passes.old) hands.new }
    ensures none_left { passes.new.items ≡ [] }
    ensures room { vec_capacity passes.new ≡ vec_capacity passes.old }
{
    let workers = hands.len();
    while let Some(pass) = passes.pop() {
        let worker = pass.session() as usize % workers;
        hands[worker].push_reserved(pass);
    }
}

/// Takes the passes of so many sessions back from their workers, in order of the sessions.
pub(crate) fn gather<N: TurnName>(
    passes: &mut Vec<Pass<N>>,
    hands: &mut [Vec<Pass<N>>],
    count: usize,
)
    requires some { 0 < length hands.old }
    requires none { passes.old.items ≡ [] }
    requires room { count ≤ vec_capacity passes.old }
    requires hands { AreHands (length hands.old) count count hands.old }
    ensures sessions { map session_of passes.new.items ≡ range_with_len 0 count }
    ensures from_hands { All (λ pass. (d : Hand) → Contains (slice_index_or hands.old (pass.session % length hands.old) d).items pass) passes.new.items }
{
    let workers = hands.len();
    for k in 0..count {
        let popped = hands[k % workers].pop();
        let Some(pass) = popped else { unreachable!() };
        passes.push_reserved(pass);
    }
}
