// What both ends share in code: their states, made here alone, as protocol's specs/States.antt says. A state may have any slot due, and a
// call refuses it past the last one, so that a bound on it is a clause of what moves it on.
#![tactic(auto)]

ghost use Rattle.std.specs.Prelude.{◌≡◌, ◌≤◌};
ghost use Rattle.protocol.specs.Lengths.{last_slot};
ghost use Rattle.protocol.specs.States.{sender_at, opened_sender, sent_on, receiver_at, opened_receiver, reported_on};

use code::Settings;
use protocol::{Receiver, Sender};

// A sender with these settings and this slot due.
pub fn sender_at(s: Settings, due: u32) -> Sender
    ensures { result ≡ sender_at s due }
{
    Sender { settings: s, due }
}

// A sender as an accepted opening makes it.
pub fn opened_sender(s: Settings) -> Sender
    ensures { result ≡ opened_sender s }
{
    sender_at(s, 0)
}

// A sender as an accepted send leaves it.
pub fn next_sender(x: Sender) -> Sender
    requires { x.due ≤ last_slot }
    ensures { result ≡ sent_on x }
{
    sender_at(x.settings, x.due + 1)
}

// A receiver with these settings, this opening slot and this slot due.
pub fn receiver_at(s: Settings, opening: u32, due: u32) -> Receiver
    ensures { result ≡ receiver_at s opening due }
{
    Receiver {
        settings: s,
        opening,
        due,
    }
}

// A receiver as an accepted opening at this slot makes it.
pub fn opened_receiver(s: Settings, slot: u32) -> Receiver
    ensures { result ≡ opened_receiver s slot }
{
    receiver_at(s, slot, slot)
}

// A receiver as an accepted report leaves it.
pub fn next_receiver(x: Receiver) -> Receiver
    requires { x.due ≤ last_slot }
    ensures { result ≡ reported_on x }
{
    receiver_at(x.settings, x.opening, x.due + 1)
}
