// Whole rooms and whole pieces, by as many takes and puts as they need.
ghost use Rattle.std.specs.Prelude.{◌≡◌, ◌<◌, ◌≤◌, ◌+◌, length, IfSome};
ghost use Rattle.p9_base.specs.Streams.{FillsPart, PartChanges};
ghost use Rattle.p9_base.specs.Streams.{Fills, FillCause, PutsAll, PutsCause, TakesRan, PutsRan, fill_failure, puts_failure};
ghost use Rattle.p9_base.specs.Pieces.{Brings, RoomIs, PartIs, WritesPiece};

use crate::outside::{Put, Sink, Source, Took};

/// Fills the room, unless the input ends before: how many bytes came, or none where a take failed.
pub fn fill<I: Source>(input: &mut I, room: &mut [u8]) -> Option<usize>
    ensures within { IfSome result (λ n. n ≤ length room.old) }
    ensures filled { Fills (I.left input.old) (I.left input.new) room.old room.new result }
    ensures cause { FillCause (I.faults input.old) (I.faults input.new) result }
    ensures calls { TakesRan I.did input.old input.new (fill_failure result) }
    ensures brings { Brings I.did input.old input.new (length room.old) result (RoomIs room.old room.new) }
{
    let mut done = 0;
    while done < room.len() {
        match input.take(&mut room[done..]) {
            Took::Got(count) => done += count,
            Took::End => return Some(done),
            Took::Failed => return None,
        }
    }
    Some(done)
}

/// Puts the whole piece. False where a put failed.
pub fn put_all<O: Sink>(out: &mut O, piece: &[u8]) -> bool
    ensures put { PutsAll (O.sofar out.old) (O.sofar out.new) piece.now result }
    ensures cause { PutsCause (O.faults out.old) (O.faults out.new) result }
    ensures calls { PutsRan O.did out.old out.new (puts_failure result) }
    ensures writes { WritesPiece O.did out.old out.new piece.now result }
{
    let mut done = 0;
    while done < piece.len() {
        match out.put(&piece[done..]) {
            Put::Wrote(count) => done += count,
            Put::Failed => return false,
        }
    }
    true
}

/// Fills the part of a list of bytes that has `count` bytes from `start` on.
pub fn fill_at<I: Source>(
    input: &mut I,
    bytes: &mut [u8],
    start: usize,
    count: usize,
) -> Option<usize>
    requires { start + count ≤ length bytes.old }
    ensures within { IfSome result (λ n. n ≤ count) }
    ensures fills { FillsPart (I.left input.old) (I.left input.new) bytes.old bytes.new start count result }
    ensures part { PartChanges bytes.old bytes.new start count }
    ensures cause { FillCause (I.faults input.old) (I.faults input.new) result }
    ensures calls { TakesRan I.did input.old input.new (fill_failure result) }
    ensures brings { Brings I.did input.old input.new count result (PartIs bytes.old bytes.new start) }
{
    fill(input, &mut bytes[start..start + count])
}
