//! Rows or columns in an order.
ghost use Rattle.std.specs.Prelude.{◌≡◌, ◌<◌, length, slice_index_or, IfOk};
ghost use Rattle.std.specs.List.{swap};

use std::alloc::AllocError;
use std::marker::Model;

/// Rows or columns in an order: which of the stored ones stands at each place, and the place of each.
/// Contracts see both lists.
#[derive(Debug, Drop)]
pub(super) struct Order<N> {
    order: Vec<N>,
    places: Vec<N>,
}

impl<N> Model for Order<N> {
    ghost use Rattle.rq_matrix.specs.Orders.{Placed, placed_code};

    ghost Value = { Placed N };

    ghost coded = { placed_code N.code };

    ghost view = { λ o. record { order = o.order.items; places = o.places.items } };
}

impl<N: Copy> Clone for Order<N> {
    ghost is_clone = { λ a b. b ≡ a };

    fn clone(&self) -> Result<Self, AllocError> {
        let alloc = *self.order.allocator();
        Ok(Order {
            order: Vec::from_slice(alloc, self.order.as_slice())?,
            places: Vec::from_slice(alloc, self.places.as_slice())?,
        })
    }
}

impl<N: Copy> Order<N> {
    /// The order of the first numbers, each at its own place.
    pub(super) fn new(numbers: Vec<N>) -> Result<Order<N>, AllocError>
        ensures { IfOk result (λ o. o ≡ record { order = numbers.items; places = numbers.items }) }
    {
        let places = Vec::from_slice(*numbers.allocator(), numbers.as_slice())?;
        Ok(Order {
            order: numbers,
            places,
        })
    }

    /// How many there are.
    pub(super) fn len(&self) -> usize
        ensures { result ≡ length self.now.order }
    {
        self.order.len()
    }

    /// The stored one at a place.
    pub(super) fn stored(&self, place: usize) -> N
        requires { place < length self.now.order }
        ensures { (other : N) → result ≡ slice_index_or self.now.order place other }
    {
        self.order[place]
    }

    /// The place of each stored one.
    pub(super) fn places(&self) -> &[N]
        ensures { result.now ≡ self.now.places }
    {
        self.places.as_slice()
    }

    /// Exchanges what stands at two places: `first` at place i, and `second` at place j.
    pub(super) fn swap(&mut self, i: usize, j: usize, first: usize, second: usize)
        requires i { i < length self.old.order }
        requires j { j < length self.old.order }
        requires first { first < length self.old.places }
        requires second { second < length self.old.places }
        ensures { self.new ≡ record { order = swap self.old.order i j; places = swap self.old.places first second } }
    {
        self.order.swap(i, j);
        self.places.swap(first, second);
    }
}
