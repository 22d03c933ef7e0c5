// A window on a store.
#![tactic(auto)]

ghost use Rattle.std.specs.Prelude.{◌+◌, ◌^◌, ◌<◌, refl};
ghost use Rattle.window.specs.Windows.{WindowHidden, WindowTold, window_meaning, window_hidden};
ghost use Rattle.window.specs.Shown.{window_sound};

mod span;

use cells::Store;
use layer::{Layer, Placing};
pub use span::Span;

// Shows the entries below of a span: shorter or empty past the end. Any numbers are a window.
pub type Window<S> = Layer<S, Span>;

impl Placing for Span {
    ghost view = { λ w m. window_meaning m w.start w.len };

    ghost Hidden = { WindowHidden };

    ghost hidden = { λ w m. window_hidden m w.start w.len };

    ghost Room = { λ w n. 0 < n → w.start + n < 2 ^ 64 };

    fn shown(&self, below: usize) -> usize {
        below.saturating_sub(self.start).min(self.len)
    }

    fn place(&self, below: usize, i: usize) -> Option<usize> {
        if i < self.shown(below) {
            Some(self.start + i)
        } else {
            None
        }
    }

    ghost alphabet = { λ w m. refl };

    ghost sound = { λ w m. window_sound m w.start w.len };
}

// What a window means and what no call changes tell what the store below means and keeps. This call says so, and does nothing.
pub fn below_window_is_told<S: Store>()
    ensures { WindowTold S.Kept }
{}
