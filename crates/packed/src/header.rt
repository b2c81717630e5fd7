ghost use Rattle.std.specs.Prelude.{◌≡◌, ◌+◌, ◌*◌};
ghost use Rattle.packed.specs.Layout.{size};

/// What stands ahead of the events.
#[derive(Clone, Copy, PartialEq, Eq, Debug)]
pub struct Header {
    pub season: u16,
    pub count: u16,
}

/// The bits that the header and `count` events take.
pub(crate) fn bits_used(count: u16) -> usize
    ensures { result ≡ 25 * (count + 1) }
{
    25 * (count as usize + 1)
}

/// The bytes that the header and `count` events take, the last one filled.
pub(crate) fn bytes_used(count: u16) -> usize
    ensures { result ≡ size count }
{
    (bits_used(count) + 7) / 8
}
