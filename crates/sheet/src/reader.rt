// Reads digits, fields and line ends off a text, from one place to the next.
ghost use Rattle.std.specs.Prelude.{◌≡◌, ◌+◌, ◌≤◌, length};

use layout::fault::Place;

// `place` is where the next byte is judged. No line is shorter than a byte.
#[derive(Drop)]
pub(crate) struct Reader<'a> {
    pub text: &'a [u8],
    pub place: Place,
    ghost inside: { place.byte ≤ length text.now },
    ghost lined: { place.line ≤ place.byte + 1 },
}
