// Calls that write a plate.
ghost use Rattle.std.specs.Prelude.{◌≡◌, ℕ, ◌+◌, ◌-◌, ◌<◌, ◌≤◌, true, Ok, Err};
ghost use Rattle.form.specs.Sheets.{check_answer};
ghost use Rattle.plate.specs.Asked.{request as request_of};
ghost use Rattle.plate.specs.Settings.{setting_of, fits as is_fit};
ghost use Rattle.plate.specs.Requests.{Acts, done, corrected, codeword};
ghost use Rattle.plate.specs.Requests.Request.{Burn as BurnRequest, Spoil as SpoilRequest, Mend as MendRequest};

use crate::calls::{Call, Reply};
use crate::faults::PlateFault;
use crate::plates::Plate;
use cells::{Entry, Store, WritableStore};
use field::Field;
use form::{CheckedForm, Form};
use line::LineRequest;
use readings::AnsweredLine;

impl<F: Field, S: WritableStore> Plate<F, S> {
    // Puts or wipes one entry.
    pub fn spoil(&mut self, place: usize, entry: Entry) -> Result<(), PlateFault>
        ensures acts { Acts F.algebra self.old.shape (S.meaning self.old.store) (SpoilRequest place entry) (done result) (S.meaning self.new.store) }
        ensures shape { self.new.shape ≡ self.old.shape }
        ensures kept { S.kept self.new.store ≡ S.kept self.old.store }
        ensures lent { S.lent self.new.store ≡ S.lent self.old.store }
    {
        self.check_fit()?;
        // Two calls of the store and no closure: a symbol is put, and missing is wiped.
        match entry {
            Entry::Symbol(symbol) => self.store.put(place, symbol)?,
            Entry::Missing => self.store.wipe(place)?,
        }
        Ok(())
    }

    // Puts the form's symbols at all places.
    fn burn_places(&mut self, form: &CheckedForm<F>)
        requires fit { is_fit (setting_of F.algebra self.old.shape (S.meaning self.old.store)) ≡ true }
        requires form { form.now.form.shape ≡ self.old.shape }
        ensures cells { (S.meaning self.new.store).entries ≡ codeword (setting_of F.algebra self.old.shape (S.meaning self.old.store)) form.now.form.coefficients.now }
        ensures alphabet { (S.meaning self.new.store).alphabet ≡ (S.meaning self.old.store).alphabet }
        ensures shape { self.new.shape ≡ self.old.shape }
        ensures kept { S.kept self.new.store ≡ S.kept self.old.store }
        ensures lent { S.lent self.new.store ≡ S.lent self.old.store }
    {
        for place in 0..self.shape.n {
            let symbol = form.symbol(place).unwrap();
            self.store.put(place, symbol).unwrap();
        }
    }

    // Puts the form's value at the normal point of each place.
    pub fn burn(&mut self, coefficients: &[u8]) -> Result<(), PlateFault>
        ensures acts { Acts F.algebra self.old.shape (S.meaning self.old.store) (BurnRequest coefficients.now) (done result) (S.meaning self.new.store) }
        ensures shape { self.new.shape ≡ self.old.shape }
        ensures kept { S.kept self.new.store ≡ S.kept self.old.store }
        ensures lent { S.lent self.new.store ≡ S.lent self.old.store }
    {
        self.check_fit()?;
        let form = Form::new(self.shape, coefficients).check_for::<F>()?;
        self.burn_places(&form);
        Ok(())
    }

    // Corrects the request's place, and puts the symbol there.
    pub fn mend(&mut self, request: &LineRequest) -> Result<AnsweredLine, PlateFault>
        ensures acts { Acts F.algebra self.old.shape (S.meaning self.old.store) (MendRequest request.now.place request.now.direction request.now.marks.now) (corrected result) (S.meaning self.new.store) }
        ensures shape { self.new.shape ≡ self.old.shape }
        ensures kept { S.kept self.new.store ≡ S.kept self.old.store }
        ensures lent { S.lent self.new.store ≡ S.lent self.old.store }
    {
        let answered = self.answer(request)?;
        self.store.put(request.place, answered.symbol)?;
        Ok(answered)
    }

    // Makes one call. Calls are values and no closures: a run of them can be told, and its law speaks of each.
    pub fn call(&mut self, call: &Call) -> Result<Reply, PlateFault>
        ensures acts { Acts F.algebra self.old.shape (S.meaning self.old.store) (request_of call.now) result (S.meaning self.new.store) }
        ensures shape { self.new.shape ≡ self.old.shape }
        ensures kept { S.kept self.new.store ≡ S.kept self.old.store }
        ensures lent { S.lent self.new.store ≡ S.lent self.old.store }
    {
        match call {
            Call::Burn(coefficients) => self.burn(coefficients).map(|()| Reply::Done),
            Call::Spoil { place, entry } => self.spoil(*place, *entry).map(|()| Reply::Done),
            Call::Read { place } => self.read(*place).map(Reply::Told),
            Call::Correct(request) => self.correct(request).map(Reply::Corrected),
            Call::Mend(request) => self.mend(request).map(Reply::Corrected),
        }
    }
}
