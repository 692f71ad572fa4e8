// Checks one after the other: each passes or is the refusal, and `?` makes the first that fails the answer.
ghost use Rattle.std.specs.Prelude.{◌≡◌, ◌<◌, ℕ, Bool};
ghost use Rattle.records.specs.CheckOrder.{need, each};
ghost use Rattle.records.specs.Places.{Gives};

use super::{Kind, Refusal};

// A condition, or its refusal.
pub fn need(ok: bool, refusal: Refusal) -> Result<(), Refusal>
    ensures { result ≡ need ok refusal }
{
    if ok { Ok(()) } else { Err(refusal) }
}

// Each of n places by a rule, or the refusal of a kind at the first that breaks it, counted from 1.
pub fn each<F: Fn(usize) -> bool>(kind: Kind, n: usize, rule: F) -> Result<(), Refusal>
    requires { (i : ℕ) → i < n → F.pre rule i }
    ensures { (ok : ℕ → Bool) → Gives (F.post rule) n ok → result ≡ each kind ok n }
{
    for i in 0..n {
        if !rule(i) {
            return Err(Refusal::new(kind, i + 1));
        }
    }
    Ok(())
}
