ghost use Rattle.std.specs.Prelude.{◌≡◌, false, IfOk, OnOk};

use hc_base::NoMemory;

/// Passes over a state, each of which brings it nearer to what no pass changes.
pub trait Passes {
    type State;

    ghost is_sound: { Self → Self.State → Type 0 };

    ghost is_settled: { Self → Self.State → Type 0 };

    /// Tells whether a further pass may change the state.
    fn pass(&self, state: &mut Self::State) -> Result<bool, NoMemory>
        requires { is_sound self.now state.old }
        ensures sound { OnOk result (is_sound self.now state.new) }
        ensures settled { IfOk result (λ more. more ≡ false → is_settled self.now state.new) };
}

/// Goes over the state until a pass leaves it as it is.
pub fn settle<P: Passes>(passes: &P, state: &mut P::State) -> Result<(), NoMemory>
    requires { P.is_sound passes.now state.old }
    ensures { OnOk result (P.is_settled passes.now state.new) }
{
    for _pass in 0..u32::MAX {
        if !passes.pass(state)? {
            return Ok(());
        }
    }
    Err(NoMemory)
}
