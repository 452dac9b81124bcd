ghost use Rattle.std.specs.Prelude.{◌≡◌, List, length};
ghost use Rattle.std.specs.Option.{option_map};
ghost use Rattle.timing.specs.Visits.{Visit, at, span, asked};

use cost::kind::Cost;

// Stops in a given order, numbered here from 0. A number past the end is answered as a stop that is nowhere:
// leg 0, no window, no cost.
pub trait Line {
    type Exact;

    type Kind: Cost<Self::Exact>;

    // What the line stands for: all that the engine knows of it.
    ghost visits: { Self → List (Visit Self.Exact) };

    fn count(&self) -> usize
        ensures { result ≡ length (visits self.now) };

    // The minutes of travel from the stop before.
    fn leg(&self, i: usize) -> u16
        ensures { result ≡ (at Self.Kind.Cost.algebra (visits self.now) i).leg };

    // The first and last minute; absent where the stop can't be served.
    fn window(&self, i: usize) -> Option<(u16, u16)>
        ensures { span result ≡ ((at Self.Kind.Cost.algebra (visits self.now) i).first, (at Self.Kind.Cost.algebra (visits self.now) i).last) };

    // The cost at a minute; absent exactly outside the window.
    fn cost(&self, i: usize, minute: u16) -> Option<Self::Kind>
        ensures { option_map Self.Kind.Cost.exact result ≡ asked (at Self.Kind.Cost.algebra (visits self.now) i) minute };
}
