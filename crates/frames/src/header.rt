// The settings as bytes, the header of a frame, and whether a frame has it.
ghost use Rattle.std.specs.Prelude.{◌≡◌, ◌+◌, ◌-◌, ◌≤◌, eqb, length, get_or};
ghost use Rattle.galois.specs.Bounded.{every};
ghost use Rattle.protocol.specs.Frame.{five, header};

use code::Settings;

// W, T, B, N and L.
#[tactic(auto, unfolding(protocol::specs::Frame::five))]
pub fn settings_bytes(s: Settings) -> [u8; 5]
    ensures { result ≡ five s }
{
    [s.window, s.delay, s.burst, s.scattered, s.lanes]
}

// The mark and the version, the settings, and the slot, high byte first.
pub fn header_bytes(version: u16, s: Settings, due: u32) -> [u8; 14]
    ensures { result ≡ header version s due }
{
    let mut bytes = [0; 14];
    bytes[..3].copy_from_slice(b"TOB");
    bytes[3..5].copy_from_slice(&version.to_be_bytes());
    bytes[5..10].copy_from_slice(&settings_bytes(s));
    bytes[10..].copy_from_slice(&due.to_be_bytes());
    bytes
}

// Whether the frame has the header's bytes at the places from `first` up to `end`. `==` of two parts as short as these is slower.
pub fn agrees(frame: &[u8], head: [u8; 14], first: usize, end: usize) -> bool
    requires { (first ≤ end) × (end ≤ 14) × (14 ≤ length frame.now) }
    ensures { result ≡ every (end - first) (λ i. eqb (get_or frame.now (first + i) 0) (get_or head (first + i) 0)) }
{
    (first..end).all(|i| frame[i] == head[i])
}
