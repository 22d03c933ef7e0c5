// Calls that read a plate: they change no cell.
// What a call leaves alone stands in each contract, since a type says what holds of a plate and not what a call leaves of it.
ghost use Rattle.std.specs.Prelude.{◌≡◌, true, if◌then◌else◌, Ok, Err, OnOk};
ghost use Rattle.plate.specs.declared.faults.PlateFault.TheVariants.{Unfit};
ghost use Rattle.plate.specs.Settings.{setting_of, fits as is_fit};
ghost use Rattle.plate.specs.Requests.{Acts, CanPut, Mends, told, corrected};
ghost use Rattle.plate.specs.Requests.Request.{Read as ReadRequest, Correct as CorrectRequest};

use crate::faults::PlateFault;
use crate::plates::Plate;
use cells::{Entry, Store};
use field::Field;
use line::{LineRequest, correct};
use readings::AnsweredLine;
use space::Shape;
use std::marker::PhantomData;

impl<F: Field, S: Store> Plate<F, S> {
    // Keeps the entries that it finds.
    pub fn new(shape: Shape, store: S) -> Plate<F, S>
        ensures shape { result.shape ≡ shape }
        ensures store { result.store ≡ store }
    {
        Plate {
            shape,
            store,
            field: PhantomData,
        }
    }

    pub fn into_store(self) -> S
        ensures { result ≡ self.store }
    {
        let Plate { store, .. } = self;
        store
    }

    // Whether the field, the shape and the store are made for each other.
    pub fn fits(&self) -> bool
        ensures { result ≡ is_fit (setting_of F.algebra self.now.shape (S.meaning self.now.store)) }
    {
        self.shape.q == F::Q
            && self.store.count() == self.shape.n
            && self.shape.q <= self.store.alphabet()
    }

    pub(crate) fn check_fit(&self) -> Result<(), PlateFault>
        ensures fit { OnOk result (is_fit (setting_of F.algebra self.now.shape (S.meaning self.now.store)) ≡ true) }
        ensures answer { result ≡ (if is_fit (setting_of F.algebra self.now.shape (S.meaning self.now.store)) then Ok tt else Err Unfit) }
    {
        if self.fits() {
            Ok(())
        } else {
            Err(PlateFault::Unfit)
        }
    }

    // Tells one entry.
    pub fn read(&mut self, place: usize) -> Result<Entry, PlateFault>
        ensures acts { Acts F.algebra self.old.shape (S.meaning self.old.store) (ReadRequest place) (told result) (S.meaning self.new.store) }
        ensures shape { self.new.shape ≡ self.old.shape }
        ensures kept { S.kept self.new.store ≡ S.kept self.old.store }
        ensures lent { S.lent self.new.store ≡ S.lent self.old.store }
    {
        self.check_fit()?;
        Ok(self.store.read(place)?)
    }

    // The answer of a line, and what a mend may make of it.
    pub(crate) fn answer(&mut self, request: &LineRequest) -> Result<AnsweredLine, PlateFault>
        ensures acts { Acts F.algebra self.old.shape (S.meaning self.old.store) (CorrectRequest request.now.place request.now.direction request.now.marks.now) (corrected result) (S.meaning self.new.store) }
        ensures same { S.meaning self.new.store ≡ S.meaning self.old.store }
        ensures fitting { CanPut (S.meaning self.old.store) request.now.place result }
        ensures mends { Mends F.algebra self.old.shape (S.meaning self.old.store) request.now.place request.now.direction request.now.marks.now result }
        ensures shape { self.new.shape ≡ self.old.shape }
        ensures kept { S.kept self.new.store ≡ S.kept self.old.store }
        ensures lent { S.lent self.new.store ≡ S.lent self.old.store }
    {
        self.check_fit()?;
        Ok(correct::<F, S>(self.shape, &mut self.store, request)?)
    }

    // Works out the symbol at the request's place from its line.
    pub fn correct(&mut self, request: &LineRequest) -> Result<AnsweredLine, PlateFault>
        ensures acts { Acts F.algebra self.old.shape (S.meaning self.old.store) (CorrectRequest request.now.place request.now.direction request.now.marks.now) (corrected result) (S.meaning self.new.store) }
        ensures shape { self.new.shape ≡ self.old.shape }
        ensures kept { S.kept self.new.store ≡ S.kept self.old.store }
        ensures lent { S.lent self.new.store ≡ S.lent self.old.store }
    {
        self.answer(request)
    }
}
