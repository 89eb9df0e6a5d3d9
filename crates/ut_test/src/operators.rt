//! What the operators of `test` ask.

ghost use Rattle.std.specs.Prelude.{◌≡◌};
ghost use Rattle.ut_test.specs.Operators.{holds, stands};

use ps_world::Place;
use std::cmp::Ordering;
use ut_args::{Asked, Relation};

/// Whether numbers in this order stand in the relation.
pub(crate) fn holds(relation: Relation, order: Ordering) -> bool
    ensures { result ≡ holds relation order }
{
    match relation {
        Relation::Equal => order.is_eq(),
        Relation::NotEqual => order.is_ne(),
        Relation::Greater => order.is_gt(),
        Relation::GreaterOrEqual => order.is_ge(),
        Relation::Less => order.is_lt(),
        Relation::LessOrEqual => order.is_le(),
    }
}

/// Whether a place is what is asked. The null device is there, and is neither a file nor a directory.
pub(crate) fn stands(asked: Asked, place: &Place) -> bool
    ensures { result ≡ stands asked place.now }
{
    match place {
        Place::Missing | Place::Makeable(_) => false,
        Place::Dir(_) => matches!(asked, Asked::Exists | Asked::IsDir),
        Place::File(_) => matches!(asked, Asked::Exists | Asked::IsFile),
        Place::Null => matches!(asked, Asked::Exists),
    }
}
