// The length of each lent buffer, for any settings.
ghost use Rattle.std.specs.Prelude.{◌≡◌};
ghost use Rattle.protocol.specs.Lengths.{message_len, frame_len, sender_len, body_len, row_len, row_count, receiver_len};

use code::Settings;

// A message: k × L bytes.
#[tactic(auto, using(protocol::proofs::LengthBounds::message_small), unfolding(protocol::specs::Lengths::message_len))]
pub fn message_len(s: Settings) -> usize
    ensures { result ≡ message_len s }
{
    s.sources() * s.lanes as usize
}

// A frame's body: n × L bytes.
#[tactic(auto, using(protocol::proofs::LengthBounds::body_small), unfolding(protocol::specs::Lengths::body_len))]
pub fn body_len(s: Settings) -> usize
    ensures { result ≡ body_len s }
{
    s.symbols() * s.lanes as usize
}

// A frame: 14 bytes of header, and its body.
#[tactic(auto, using(protocol::proofs::LengthBounds::body_small), unfolding(protocol::specs::Lengths::frame_len))]
pub fn frame_len(s: Settings) -> usize
    ensures { result ≡ frame_len s }
{
    14 + body_len(s)
}

// The sender's rows: n - 1 messages.
#[tactic(auto, using(protocol::proofs::LengthBounds::sender_small), unfolding(protocol::specs::Lengths::sender_len))]
pub fn sender_len(s: Settings) -> usize
    ensures { result ≡ sender_len s }
{
    (s.symbols() - 1) * message_len(s)
}

// One of the receiver's rows: whether it was received, and the body.
#[tactic(auto, using(protocol::proofs::LengthBounds::body_small), unfolding(protocol::specs::Lengths::row_len))]
pub fn row_len(s: Settings) -> usize
    ensures { result ≡ row_len s }
{
    1 + body_len(s)
}

// How many rows the receiver has: k + T.
#[tactic(auto, unfolding(protocol::specs::Lengths::row_count, code::specs::Settings::k_of, code::specs::Settings::delay_of))]
pub fn row_count(s: Settings) -> usize
    ensures { result ≡ row_count s }
{
    s.sources() + s.effective_delay() as usize
}

// The receiver's rows.
#[tactic(auto, using(protocol::proofs::LengthBounds::receiver_small), unfolding(protocol::specs::Lengths::receiver_len))]
pub fn receiver_len(s: Settings) -> usize
    ensures { result ≡ receiver_len s }
{
    row_count(s) * row_len(s)
}
