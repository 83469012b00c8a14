//! Who holds a world.
ghost use Rattle.std.specs.Prelude.{◌≡◌, ℕ};
ghost use Rattle.std.specs.Borrow.{sem, Lends};
ghost use Rattle.reg_world.specs.contracts.world.World.{the_row as world_row};
ghost use Rattle.reg_world.specs.declared.world.World.{World as WorldOf};
ghost use Rattle.reg_world.specs.Worlds.{Data, shown, keeper_of};

use depot_api::Depot;
use reg_world::World;

/// Who enters a world for each hold, and leaves it. `P` is what entering needs.
pub trait Holder<D: Depot, K, P> {
    /// The world as it was found or is left. Of one that is at home, what the holder knows of it: what it may find next
    /// is what may follow this.
    ghost at: { Self → Data };

    /// What others may do to a world between two holds.
    ghost between: { Data → Data → Type 0 };

    /// The world is not out.
    ghost may_enter: { Self → Type 0 };

    /// It is.
    ghost is_in: { Self → Type 0 };

    /// This holder, with that world out.
    ghost with_world: { Self → WorldOf D K → Self };

    /// The keeper of the world that is out.
    ghost keeper: { Self → K };

    /// It is the same holder, of the same world.
    ghost is_of: { Self → Self → Type 0 };

    /// The number by which its claims are known.
    ghost number: { Self → ℕ };

    /// The number by which its claims are known: 0 where nobody else enters. Takes no memory.
    fn who(&self) -> u32
        ensures { result ≡ number self.now };

    /// Takes the world out. Takes no memory.
    fn enter(&mut self, pass: &P)
        requires { may_enter self.old }
        ensures inside { is_in self.new }
        ensures same { (origin : Self) → is_of origin self.old → is_of origin self.new }
        ensures between { between (at self.old) (at self.new) };

    /// The world that is out.
    fn world(&mut self) -> &mut World<D, K>
        requires { is_in self.old }
        ensures* writes_back { sem 𝓛 (Lends Self.row (world_row D.row K.row) self.entry result
            (with_world self.old)) }
        ensures value { shown D.held D.faults result.now ≡ at self.old }
        ensures keeper { keeper_of result.now ≡ keeper self.old };

    /// Takes the world home. Takes no memory.
    fn leave(&mut self)
        requires { is_in self.old }
        ensures outside { may_enter self.new }
        ensures same { (origin : Self) → is_of origin self.old → is_of origin self.new }
        ensures kept { (next : Data) → between (at self.new) next → between (at self.old) next };

    ghost is_itself: { (s : Self) → is_of s s };

    ghost has_number: { (origin s : Self) → is_of origin s → number s ≡ number origin };

    ghost keeps: { (s : Self) (w : WorldOf D K) → at (with_world s w) ≡ shown D.held D.faults w };

    ghost stays: { (s : Self) (w : WorldOf D K) → is_in s → is_in (with_world s w) };

    ghost is_still: { (origin s : Self) (w : WorldOf D K) → keeper_of w ≡ keeper s → is_of origin s
        → is_of origin (with_world s w) };
}

/// Entering a world that nobody else enters needs nothing.
#[derive(Clone, Copy, Debug)]
pub struct Nothing;

/// A world that was lent, and that nobody else enters.
#[derive(Drop)]
pub struct Lent<'a, D, K> {
    pub world: &'a mut World<D, K>,
}

impl<'a, D: Depot, K> Holder<D, K, Nothing> for Lent<'a, D, K> {
    ghost use Rattle.std.specs.Prelude.{◌≡◌, refl};
    ghost use Rattle.std.proofs.Common.{◌∙◌};
    ghost use Rattle.reg_world.specs.Worlds.{shown, keeper_of};
    ghost use Rattle.reg_session.specs.Holders.{with_lent};

    ghost at = { λ s. shown D.held D.faults s.world.now };

    ghost between = { λ old new. new ≡ old };

    ghost may_enter = { λ _. Unit {0} };

    ghost is_in = { λ _. Unit {0} };

    ghost with_world = { with_lent };

    ghost keeper = { λ s. keeper_of s.world.now };

    ghost is_of = { λ origin s. (s.world.ghost_name ≡ origin.world.ghost_name)
        × (keeper_of s.world.now ≡ keeper_of origin.world.now) };

    ghost number = { λ _. 0 };

    fn who(&self) -> u32 {
        0
    }

    fn enter(&mut self, _: &Nothing) {}

    fn world(&mut self) -> &mut World<D, K> {
        self.world
    }

    fn leave(&mut self) {}

    ghost is_itself = { λ _. (refl, refl) };

    ghost has_number = { λ _ _ _. refl };

    ghost keeps = { λ _ _. refl };

    ghost stays = { λ _ _ h. h };

    ghost is_still = { λ origin s w kept is. (is.0, kept ∙ is.1) };
}
