//! Laws over pairs and histories. A function here does nothing: its contract is the law.

ghost use Rattle.std.specs.Prelude.{◌≡◌, ◌≢◌, ℕ, max, List, [], ◌∷◌, ◌++◌};
ghost use Rattle.std.specs.List.{IsDistinct};
ghost use Rattle.munge_types.specs.History.{floor, accepted, verdict, verdict_among, with_accepted};
ghost use Rattle.munge_types.specs.Pair.{pair_cmp, pair_eq};
ghost use Rattle.munge_types.specs.StandsFor.{StandsFor};
ghost use Rattle.munge_types.specs.declared.history.Event.{Event};
ghost use Rattle.munge_types.specs.declared.history.Event.TheVariants.{Admit, Purge, Idle};
ghost use Rattle.munge_types.specs.declared.history.Verdict.TheVariants.{Accepted};
ghost use Rattle.munge_types.specs.declared.pair.Pair.{Pair};

use crate::Pair;

/// Pairs are ordered by expiry, and where these are the same by MAC.
pub fn pairs_go_by_expiry_then_mac()
    ensures { (a b : Pair) → ⟦<Pair as Ord>⟧.cmp a b ≡ pair_cmp a b }
{}

/// No pair is accepted twice, whatever the history: none stands twice among the accepted pairs, and
/// after a look-up that accepted a pair no later one accepts it.
pub fn no_pair_is_accepted_twice()
    ensures once { (history : List Event) → IsDistinct pair_eq (accepted history) }
    ensures spent { (history more : List Event) (pass : ℕ) (pair : Pair) (moment later : ℕ)
        → verdict history pair moment ≡ Accepted
        → verdict (history ++ Admit pass pair moment ∷ [] ++ more) pair later ≢ Accepted }
{}

/// What one more event makes of a history's floor and accepted pairs, and what there is before the
/// first.
pub fn one_more_event()
    ensures first_floor { floor [] ≡ 0 }
    ensures admit_floor { (history : List Event) (pass : ℕ) (pair : Pair) (moment : ℕ)
        → floor (history ++ Admit pass pair moment ∷ []) ≡ floor history }
    ensures purge_floor { (history : List Event) (pass moment : ℕ)
        → floor (history ++ Purge pass moment ∷ []) ≡ max moment (floor history) }
    ensures idle_floor { (history : List Event) (pass : ℕ)
        → floor (history ++ Idle pass ∷ []) ≡ floor history }

    ensures first_accepted { accepted [] ≡ [] }
    ensures admit_accepted { (history : List Event) (pass : ℕ) (pair : Pair) (moment : ℕ)
        → accepted (history ++ Admit pass pair moment ∷ [])
        ≡ with_accepted (verdict history pair moment) (accepted history) pair }
    ensures purge_accepted { (history : List Event) (pass moment : ℕ)
        → accepted (history ++ Purge pass moment ∷ []) ≡ accepted history }
    ensures idle_accepted { (history : List Event) (pass : ℕ)
        → accepted (history ++ Idle pass ∷ []) ≡ accepted history }
{}

/// A state that stands for a history may have forgotten most of the accepted pairs, and its floor and
/// kept pairs still give the history's verdict on every pair, at every moment.
pub fn kept_pairs_decide()
    ensures { (floor : ℕ) (kept : List Pair) (history : List Event) (pair : Pair) (moment : ℕ)
        → StandsFor floor kept history
        → verdict_among floor kept pair moment ≡ verdict history pair moment }
{}
