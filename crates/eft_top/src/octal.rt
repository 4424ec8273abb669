// Octal digits.
ghost use Rattle.std.specs.Prelude.{◌≡◌, ◌≤◌, false, drop};
ghost use Rattle.std.specs.Fmt.{digits};

/// More digits than any number here has.
pub const ROOM: usize = 64;

/// The octal digits of a number at the end of a buffer. Where they begin.
pub fn octal_digits(number: u16, buffer: &mut [u8; ROOM]) -> usize
    ensures within { result ≤ 64 }
    ensures digits { drop result buffer.new ≡ digits 8 false number }
{
    let mut at = ROOM;
    let mut rest = number;
    while at > 0 {
        at -= 1;
        buffer[at] = b'0' + (rest % 8) as u8;
        rest /= 8;
        if rest == 0 {
            break;
        }
    }
    at
}
