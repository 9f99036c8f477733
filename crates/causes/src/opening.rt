// The causes of an opening's refusal.
ghost use Rattle.std.specs.Prelude.{◌≡◌};
ghost use Rattle.protocol.specs.Causes.{open_cause, open_receiver_cause};

use buffers::receiver_len;
use code::Settings;
use protocol::{Cause, Slot};

// The first cause that holds for an opening whose rows are to have this size, if any.
pub fn open_cause(s: Settings, size: usize, rows: &[u8]) -> Result<(), Cause>
    ensures { result ≡ open_cause s size rows.now }
{
    if !s.accepted() {
        return Err(Cause::BadSettings);
    }
    if rows.len() != size {
        return Err(Cause::BadLength);
    }
    Ok(())
}

// The first cause that holds for the opening of a receiver at this slot, if any.
pub fn open_receiver_cause(s: Settings, slot: u32, rows: &[u8]) -> Result<(), Cause>
    ensures { result ≡ open_receiver_cause s slot rows.now }
{
    open_cause(s, receiver_len(s), rows)?;
    if Slot::LAST.0 < slot {
        return Err(Cause::LateOpening);
    }
    Ok(())
}
