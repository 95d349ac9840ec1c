//! Showing a holder's card.

ghost use Rattle.std.specs.Prelude.{◌≡◌, ◌*◌, ◌≤◌, length};
ghost use Rattle.circle.specs.Card.{show_answer, show_shares, shares_of};
ghost use Rattle.circle.specs.State.{facts};

use crate::denial::Denial;
use crate::lagrange::has_point;
use crate::state::Circle;
use crate::table::entry_of;
use fields::field::Field;

// Writes the shares that the table holds for the id.
fn copy_shares<F: Field>(id: u8, table: &[F], shares: &mut [F])
    requires low { 1 ≤ id }
    requires high { id ≤ 32 }
    requires few { length shares.old ≤ 32 }
    requires table { length table.now ≡ 32 * length shares.old }
    ensures { shares.new ≡ shares_of F.ops table.now id (length shares.old) }
{
    for (p, share) in shares.iter_mut().enumerate() {
        *share = entry_of(table, p, id);
    }
}

/// Writes the shares of a holder into the buffer, place after place.
pub fn show<F: Field>(
    circle: &Circle<F>,
    id: u8,
    table: &[F],
    shares: &mut [F],
) -> Result<(), Denial>
    ensures answer { result ≡ show_answer F.points.largest (facts circle.now) id (length table.now) (length shares.old) }
    ensures shares { shares.new ≡ show_shares F.ops result (facts circle.now) id table.now shares.old }
{
    let places = circle.places as usize;
    if !has_point::<F>(id) {
        return Err(Denial::NoSuchId);
    }
    if table.len() != 32 * places || shares.len() != places {
        return Err(Denial::Length);
    }
    if !circle.roll.contains(id) {
        return Err(Denial::NotOnRoll);
    }
    copy_shares(id, table, shares);
    Ok(())
}
