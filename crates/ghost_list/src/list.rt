ghost use Rattle.std.specs.Prelude.{◌≡◌, List, []};
ghost use Rattle.std.specs.Coded.{coded_list};
ghost use base.Fml.{ftrue};

use std::marker::{Brand, Model, PhantomData};

/// Names a list, for contracts alone. At `Brand` the caller's proof picks it; where it picks none it is
/// the empty list.
pub trait Lists<E> {
    ghost list: { List E };
}

impl<E> Lists<E> for Brand {
    ghost list = { [] };
}

/// A list that only contracts see, as `items`. It has no bytes and owns nothing.
#[derive(Drop)]
pub struct GhostList<E> {
    marker: PhantomData<E>,
    pub ghost items: { List E } by { coded_list E.code },
}

impl<E> Model for GhostList<E> {
    ghost also_owns = { λ _. ftrue };
}

impl<E> GhostList<E> {
    /// The list that the parameter names.
    pub fn of<L: Lists<E>>() -> GhostList<E>
        ensures { result.items ≡ L.list }
    {
        GhostList {
            marker: PhantomData,
        }
    }
}
