//! A byte, as an element of a field. The struct stands alone, since files of specs name it.

ghost use Rattle.std.specs.Prelude.{◌<◌};

#[derive(Clone, Copy, Debug, PartialEq, Eq)]
pub struct Byte {
    pub(crate) value: u8,
    ghost ok: { value < 256 },
}
