use space::Shape;
use std::marker::PhantomData;

// A sheet's cells: a field, a shape, and a store that holds the codeword of a form of that shape. Any three make one.
#[derive(Drop)]
pub struct Plate<F, S> {
    pub(crate) shape: Shape,
    pub(crate) store: S,
    pub(crate) field: PhantomData<F>,
}
