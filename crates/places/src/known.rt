// Which positions are known. They are the same for each lane.
ghost use Rattle.std.specs.Prelude.{cond, ◌≡◌, ◌<◌, length};
ghost use Rattle.places.specs.Places.{known_flag};

// Whether the slot is below `end` and its row begins with 1, so was received.
pub(crate) fn is_known(rows: &[u8], end: usize, slot: usize, start: usize) -> bool
    requires { start < length rows.now }
    ensures { cond result 1 0 ≡ known_flag rows.now end slot start }
{
    slot < end && rows[start] == 1
}
