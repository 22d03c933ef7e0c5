// A call of the store below at a place, for a layer's entry i: its refusal tells i, and without a place there is no entry i.
// Of use to a layer of any make; those of this crate go through them too.
ghost use Rattle.std.specs.Prelude.{◌≡◌};
ghost use Rattle.layer.specs.Places.{read_through, wipe_through, wiped_through, put_through, put_below};

use cells::{Entry, Store, StoreFault, WritableStore};

pub fn read_at<S: Store>(below: &mut S, place: Option<usize>, i: usize) -> Result<Entry, StoreFault>
    ensures answer { result ≡ read_through (S.meaning below.old) place i }
    ensures same { S.meaning below.new ≡ S.meaning below.old }
    ensures kept { S.kept below.new ≡ S.kept below.old }
    ensures lent { S.lent below.new ≡ S.lent below.old }
{
    let at = place.ok_or(StoreFault::NoEntry { position: i })?;
    below.read(at).map_err(|fault| fault.at(i))
}

pub fn put_at<S: WritableStore>(
    below: &mut S,
    place: Option<usize>,
    i: usize,
    symbol: u8,
) -> Result<(), StoreFault>
    ensures answer { result ≡ put_through (S.meaning below.old) place i symbol }
    ensures done { S.meaning below.new ≡ put_below (S.meaning below.old) place symbol }
    ensures kept { S.kept below.new ≡ S.kept below.old }
    ensures lent { S.lent below.new ≡ S.lent below.old }
{
    let at = place.ok_or(StoreFault::NoEntry { position: i })?;
    below.put(at, symbol).map_err(|fault| fault.at(i))
}

pub fn wipe_at<S: WritableStore>(
    below: &mut S,
    place: Option<usize>,
    i: usize,
) -> Result<(), StoreFault>
    ensures answer { result ≡ wipe_through (S.meaning below.old) place i }
    ensures done { S.meaning below.new ≡ wiped_through (S.meaning below.old) place }
    ensures kept { S.kept below.new ≡ S.kept below.old }
    ensures lent { S.lent below.new ≡ S.lent below.old }
{
    let at = place.ok_or(StoreFault::NoEntry { position: i })?;
    below.wipe(at).map_err(|fault| fault.at(i))
}
