//! The gate that workers pass at each call.
ghost use Rattle.std.specs.Prelude.{ℕ, ◌≡◌, false, true};

/// A worker.
#[derive(Clone, Copy, PartialEq, Eq, Debug)]
pub enum Who {
    /// The producer of the lane with this number.
    Producer(u32),
    /// The consumer with this number.
    Consumer(u32),
}

/// [`work`](crate::work) asks a gate before each put and poll of a worker ([`Gate::enter`]), and tells it afterwards
/// ([`Gate::leave`]). The calls of a worker have the numbers 1, 2, .. in order. So a gate that returns `call <= 3` lets
/// each worker make three. All workers share the gate. So one that waits in `enter` may wait for the others. `enter`
/// and `leave` have to return.
///
/// Two ghost members say whom `enter` may stop before which call (`may_stop`), and whom it may let pass (`may_pass`).
/// By default each names every worker before every call. Then clause `worked` of `work` does not say that each list
/// was put whole. Clause `called` uses `may_pass`. [`OpenGate`] stops nobody. That `leave` is called is only tested.
pub trait Gate: Sync {
    ghost use Rattle.mb_mailbox.specs.declared.gate.Who.{Who};

    // before which calls it may stop which worker
    ghost may_stop: { Self → Who → ℕ → Type 0 } = { λ _ _ _. Unit {0} };

    // before which calls it may let which worker pass
    ghost may_pass: { Self → Who → ℕ → Type 0 } = { λ _ _ _. Unit {0} };

    /// Whether the worker may make its call of this number. If not, the worker stops, and does not make it.
    fn enter(&self, who: Who, call: u64) -> bool
        ensures stop { result ≡ false → may_stop self.now who call }
        ensures pass { result ≡ true → may_pass self.now who call };

    /// The worker has made its call of this number.
    fn leave(&self, who: Who, call: u64);
}

/// The gate that lets each call through.
#[derive(Clone, Copy, PartialEq, Eq, Debug)]
pub struct OpenGate;

impl Gate for OpenGate {
    ghost may_stop = { λ _ _ _. ⊥ };

    fn enter(&self, _who: Who, _call: u64) -> bool {
        true
    }

    fn leave(&self, _who: Who, _call: u64) {}
}
