// The lines of a deck, which are input records.
ghost use Rattle.std.specs.Prelude.{◌≡◌, ◌<◌, ◌∷◌, length};
ghost use Rattle.ports.specs.Records.{input_records, without_return as without_return_at_end};

use memchr::memchr;

/// The first record of some bytes, and what follows its line.
pub fn first_record(bytes: &[u8]) -> (&[u8], &[u8])
    requires { 0 < length bytes.now }
    ensures record { input_records bytes.now ≡ result.0.now ∷ input_records result.1.now }
    ensures shorter { length result.1.now < length bytes.now }
{
    match memchr(10, bytes) {
        Some(end) => (without_return(&bytes[..end]), &bytes[end + 1..]),
        None => (bytes, &bytes[bytes.len()..]),
    }
}

fn without_return(line: &[u8]) -> &[u8]
    ensures { result.now ≡ without_return_at_end line.now }
{
    match line.strip_suffix(&[13]) {
        Some(front) => front,
        None => line,
    }
}
