// Numbers and strings at a place.
ghost use Rattle.std.specs.Prelude.{◌≡◌, ◌+◌, ◌≤◌, length};
ghost use Rattle.layout.specs.Layout.{number_at, span_at, optional_in};

use tcap::Span;

#[tactic(auto, using(crate::proofs::Places::number_octets))]
pub fn number_at(octets: &[u8], at: usize) -> u32
    requires { at + 4 ≤ length octets.now }
    ensures { result ≡ number_at octets.now at }
{
    u32::from_be_bytes([octets[at], octets[at + 1], octets[at + 2], octets[at + 3]])
}

#[tactic(auto, unfolding(layout::specs::Layout::span_at))]
pub fn span_at(octets: &[u8], at: usize) -> Span
    requires { at + 8 ≤ length octets.now }
    ensures { result ≡ span_at octets.now at }
{
    Span {
        place: number_at(octets, at),
        len: number_at(octets, at + 4),
    }
}

// A string that may be left out, by its flag.
#[tactic(auto, unfolding(layout::specs::Layout::optional_in))]
pub fn optional_at(octets: &[u8], flag: u8, at: usize) -> Option<Span>
    requires { at + 8 ≤ length octets.now }
    ensures { result ≡ optional_in flag (span_at octets.now at) }
{
    if flag == 0 {
        None
    } else {
        Some(span_at(octets, at))
    }
}
