// A piece of a sheet.
ghost use Rattle.std.specs.Prelude.{◌+◌, ◌^◌, ◌<◌, length};

mod calls;

// A line without its line feed, or what is left of a line or of the sheet, and the place of its first byte in the sheet.
#[derive(Clone, Copy)]
pub(crate) struct Piece<'a> {
    pub(crate) place: usize,
    pub(crate) bytes: &'a [u8],
    ghost fits: { place + length bytes.now < 2 ^ 64 },
}
