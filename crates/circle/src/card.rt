//! What one holder shows: an id, an epoch, and a share for each place. The struct stands alone, since files of specs name it.

pub mod show;

#[derive(Drop)]
pub struct Card<'a, F> {
    pub id: u8,
    pub epoch: u16,
    pub shares: &'a [F],
}
