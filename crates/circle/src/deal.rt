//! Dealing a key: a share to each id of the roll at each place.

ghost use Rattle.std.specs.Prelude.{◌≡◌, length};
ghost use Rattle.circle.specs.Deal.{deal_answer, deal_table};
ghost use Rattle.circle.specs.DealLaws.{Opens, Hides};
ghost use Rattle.circle.specs.State.{answered};

use crate::denial::Denial;
use crate::holders::Holders;
use crate::ids::IdSet;
use crate::state::Circle;
use crate::table::{piece_of, update};
use fields::field::Field;
use std::marker::PhantomData;

// The laws of dealing, shown once.
fn laws_shown<F: Field>()
    ensures opens { Opens F.ops F.points F.equality.same }
    ensures hides { Hides F.ops F.points }
{}

/// Deals the key: a share to each id of the roll at each place.
pub fn deal<F: Field>(
    roll: IdSet,
    threshold: u16,
    places: u16,
    key: &[F],
    numbers: &[F],
    table: &mut [F],
) -> Result<Circle<F>, Denial>
    ensures answer { answered result ≡ deal_answer F.points.largest roll threshold places (length key.now) (length numbers.now) (length table.old) }
    ensures table { table.new ≡ deal_table F.ops F.points.at (answered result) key.now numbers.now table.old }
    ensures opens { Opens F.ops F.points F.equality.same }
    ensures hides { Hides F.ops F.points }
{
    laws_shown::<F>();
    if !(1..=32).contains(&places) {
        return Err(Denial::Places);
    }
    let holders = Holders::<F>::of(roll).ok_or(Denial::NoSuchId)?;
    if threshold < 2 || threshold as u32 > roll.size() {
        return Err(Denial::Threshold);
    }
    let n = places as usize;
    let terms = threshold as usize - 1;
    if key.len() != n || numbers.len() != n * terms || table.len() != 32 * n {
        return Err(Denial::Length);
    }
    update(
        table,
        |p, h, _| holders.share(h, key[p], piece_of(numbers, terms, p)),
    );
    Ok(Circle {
        roll,
        threshold,
        epoch: 0,
        places,
        field: PhantomData,
    })
}
