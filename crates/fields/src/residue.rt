//! A number below P. The struct stands alone, since files of specs name it.

ghost use Rattle.std.specs.Prelude.{◌<◌};

#[derive(Clone, Copy, Debug, PartialEq, Eq)]
pub struct Residue<const P: u16> {
    pub(crate) value: u16,
    ghost ok: { value < P },
}
