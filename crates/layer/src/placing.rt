// Which entries of the store below a layer shows.
ghost use Rattle.std.specs.Prelude.{◌≡◌, ℕ};
ghost use Rattle.cells.specs.Stores.{Meaning, Sound};
ghost use Rattle.layer.specs.Places.{PassesAll, ShowsOf};

pub trait Placing {
    // What the layer means, by what the store below means.
    ghost view: { Self → Meaning → Meaning };

    // What no call changes of what the store below means: the placing itself and the entries that it does not show.
    ghost Hidden: { Type 0 };

    ghost hidden: { Self → Meaning → Hidden };

    // What is known of the places of so many entries as are shown.
    ghost Room: { Self → ℕ → Type 0 };

    // How many of `below` entries are shown.
    fn shown(&self, below: usize) -> usize
        ensures count { ShowsOf (view self.now) below result }
        ensures room { Room self.now result };

    // Where entry `i` lies among `below` entries, if it is shown: a call there is a call here.
    fn place(&self, below: usize, i: usize) -> Option<usize>
        ensures { PassesAll (view self.now) (hidden self.now) below i result };

    ghost alphabet: { (p : Self) (m : Meaning) → (view p m).alphabet ≡ m.alphabet };

    // A layer's symbols are below the alphabet where those of the store below are.
    ghost sound: { (p : Self) (m : Meaning) → Sound m → Sound (view p m) };
}
