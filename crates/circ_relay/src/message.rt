// A relay message for this relay.

ghost use Rattle.std.specs.Prelude.{◌≤◌, length};

// A recognised relay cell of a fitting Length.
#[derive(Clone, Copy)]
pub(crate) struct Message<'a> {
    pub(crate) command: u8,
    pub(crate) stream: u16,
    pub(crate) payload: &'a [u8],
    // The forward running digest after this cell.
    pub(crate) digest: [u8; 20],
    // Whether it came in a RELAY_EARLY cell.
    pub(crate) is_early: bool,
    ghost short: { length payload.now ≤ 498 },
}
