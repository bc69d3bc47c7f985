//! Laws of Play: what holds after each moment of every script's play under the plain machine's
//! rules. Each of these functions does nothing; its contract is the law.

ghost use Rattle.play_laws.specs.Answered.Settled.{AnsweredAfterEach};

/// After each moment of every script's play each global timer that is queued on an online idle CPU
/// is answered for: a group of the CPU's path was told of it in time and leads to an active CPU, or
/// a wakeup that is kept comes in time.
pub fn law_each_answered()
    ensures { AnsweredAfterEach }
{}
