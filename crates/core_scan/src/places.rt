// Places in a text.
ghost use Rattle.std.specs.Prelude.{◌≡◌, ◌+◌, ◌^◌, ◌<◌, length};
ghost use Rattle.core_scan.specs.Bytes.{start, past};

use type_kinds::Place;

/// The place just after the last byte of a text. Takes no memory.
pub fn end_place(text: &[u8]) -> Place
    requires { length text.now < 2 ^ 30 }
    ensures { result ≡ past start text.now }
{
    past(Place { byte: 0, line: 1 }, text)
}

// The place just after bytes that begin at a place.
pub fn past(place: Place, bytes: &[u8]) -> Place
    requires bytes_fit { place.byte + length bytes.now < 2 ^ 64 }
    requires lines_fit { place.line + length bytes.now < 2 ^ 32 }
    ensures { result ≡ past place bytes.now }
{
    let lines = bytes.iter().filter(|byte| **byte == b'\n').count();
    Place {
        byte: place.byte + bytes.len() as u64,
        line: place.line + lines as u32,
    }
}
