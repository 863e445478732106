ghost use Rattle.std.specs.Prelude.{◌≡◌, ℕ, List, Option, Some, None, IfOk, IfErr, OnErr, IfSome, is_some};
ghost use Rattle.gate_outside.specs.Helpers.{KeepsCounts};
ghost use Rattle.id_table.specs.Draws.{AreNext, AreThere, IsFirstAbsent};
ghost use Rattle.id_table.specs.Maps.{Changed, IsLent, Same, Shelved, Told, had, lent_as};
ghost use Rattle.id_table.specs.Refused.{IfConflict, value_of};

use crate::AddRefusal;
use gate_outside::Dice;
use std::sync::Wait;
use uuid::Uuid;

/// Values under IDs, each of which may be lent (this project's own). An ID whose value is lent is still there.
pub trait Shelf<V>: Drop {
    /// What is there, where the shelf tells.
    ghost told: { Self → Option (Shelved V) };

    /// Adds the value under the first ID that is absent of up to four that are drawn. Conflict comes with the
    /// four drawn IDs where all were there. Refused, it leaves the shelf as it was.
    fn add<R: Wait, X: Dice>(
        &mut self,
        rt: &R,
        dice: &mut X,
        value: V,
    ) -> Result<Uuid, AddRefusal<V>>
        ensures added { IfOk result (λ id. Told (told self.old) (told self.new) (λ m n. (m id ≡ None) × Changed id (Some (Some value)) m n)) }
        ensures first { IfOk result (λ id. IfSome (told self.old) (λ m. IfSome (X.helper dice.old).draws (λ draws. IsFirstAbsent m draws id))) }
        ensures same { OnErr result (Told (told self.old) (told self.new) Same) }
        ensures given_back { IfErr result (λ refusal. value_of refusal ≡ value) }
        ensures conflict { IfErr result (λ refusal. IfConflict refusal (λ ids. IfSome (told self.old) (λ m. AreThere m 4 ids))) }
        ensures drawn { IfErr result (λ refusal. IfConflict refusal (λ ids. IfSome (X.helper dice.old).draws (λ draws. AreNext draws 4 ids))) }
        ensures counts { KeepsCounts (X.helper dice.old) (X.helper dice.new) };

    /// Whether the ID is there.
    fn has<R: Wait>(&mut self, rt: &R, id: &Uuid) -> bool
        ensures { Told (told self.old) (told self.new) (λ m n. (result ≡ is_some (m id.now)) × Same m n) };

    /// Lends the value under the ID, if the ID is there; it stays there.
    fn lend<R: Wait>(&mut self, rt: &R, id: &Uuid) -> Option<V>
        requires { IfSome (told self.old) (λ m. ¬ (IsLent id.now m)) }
        ensures { Told (told self.old) (told self.new) (λ m n. (m id.now ≡ had result) × Changed id.now (lent_as result) m n) };

    /// Takes back a value that was lent.
    fn back<R: Wait>(&mut self, rt: &R, id: &Uuid, value: V)
        requires { IfSome (told self.old) (IsLent id.now) }
        ensures { Told (told self.old) (told self.new) (Changed id.now (Some (Some value))) };

    /// Takes out the value under the ID, and the ID, if it is there.
    fn remove<R: Wait>(&mut self, rt: &R, id: &Uuid) -> Option<V>
        requires { IfSome (told self.old) (λ m. ¬ (IsLent id.now m)) }
        ensures { Told (told self.old) (told self.new) (λ m n. (m id.now ≡ had result) × Changed id.now None m n) };
}
