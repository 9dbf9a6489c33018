ghost use Rattle.std.specs.Prelude.{◌≡◌, ◌+◌, ◌<◌, ◌^◌};
ghost use Rattle.turn_lock.specs.Passes.{IsNewPass, IsSamePass, lock_id, pass_lock, pass_number, pass_seen, pass_splits};

use turn_lock::{Listed, Pass, TurnLock};

// Splits the first pass after `before` earlier splits. Returns the new pass, whose number is the next one.
pub(crate) fn part<T: Listed>(lock: &TurnLock<T>, pass: &mut Pass<T>, before: u32) -> Pass<T>
    requires lock { (pass_lock pass.old ≡ lock_id lock.now) × (pass_number pass.old ≡ 0) }
    requires count { pass_splits pass.old ≡ before }
    ensures part { IsNewPass (pass_lock pass.old) (before + 1) (pass_seen pass.old) result }
    ensures kept { IsSamePass pass.old pass.new }
    ensures count { pass_splits pass.new ≡ before + 1 }
{
    let Ok(own) = lock.split(pass) else {
        unreachable!()
    };
    own
}
