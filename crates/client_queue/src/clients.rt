//! Who comes to be served.

ghost use Rattle.std.specs.Prelude.{◌≡◌, ◌++◌, ◌∷◌, [], MatchOption, ⊤};
ghost use Rattle.client_queue.specs.Dealing.{SourceWords};

/// Clients, one after the other.
pub trait Clients<C> {
    // Those who came so far, whether there is no further one, and which facts hold. Once a fact holds, it holds after
    // each call of `next`.
    ghost words: { SourceWords Self C };

    /// The next client; it may be long in coming. None after the last.
    fn next(&mut self) -> Option<C>
        ensures came { MatchOption result (words.came self.new ≡ words.came self.old)
            (λ client. words.came self.new ≡ words.came self.old ++ client ∷ []) }
        ensures none_left { MatchOption result (words.none_left self.new) (λ _. ⊤) }
        ensures holds { (fact : words.Fact) → words.holds self.old fact → words.holds self.new fact };
}
