ghost use Rattle.std.specs.Prelude.{◌≡◌, Bool};
ghost use Rattle.proc_state.specs.Lives.{CoreLife, new_life, life_after_handover, life_after_boot, life_after_shutdown, life_after_detach, life_after_crash, life_after_recovery, IsReachable, Follows, KeepsAtErr};

/// Laws of lives: a life begins reachable, every call keeps it so, and no call lowers the
/// incarnation.
pub fn calls_keep_lives()
    ensures new { IsReachable new_life }
    ensures handover { (life : CoreLife) → IsReachable life → Follows life (life_after_handover life).life }
    ensures boot { (life : CoreLife) → IsReachable life → Follows life (life_after_boot life).life }
    ensures shutdown { (life : CoreLife) → IsReachable life → Follows life (life_after_shutdown life).life }
    ensures detach { (life : CoreLife) → IsReachable life → Follows life (life_after_detach life).life }
    ensures crash { (life : CoreLife) → IsReachable life → Follows life (life_after_crash life).life }
    ensures recover { (life : CoreLife) → IsReachable life → Follows life (life_after_recovery life).life }
    ensures set_recovery { (life : CoreLife) (on : Bool)
        → IsReachable life → Follows life (record life { recovery = on }) }
{}

/// Laws of lives: a call that is refused leaves the life as it was.
pub fn refusals_keep_lives()
    ensures handover { (life : CoreLife) → KeepsAtErr life (life_after_handover life) }
    ensures boot { (life : CoreLife) → KeepsAtErr life (life_after_boot life) }
    ensures shutdown { (life : CoreLife) → KeepsAtErr life (life_after_shutdown life) }
    ensures detach { (life : CoreLife) → KeepsAtErr life (life_after_detach life) }
    ensures crash { (life : CoreLife) → KeepsAtErr life (life_after_crash life) }
    ensures recover { (life : CoreLife) → KeepsAtErr life (life_after_recovery life) }
{}

/// Laws of lives: a crash and a recovery keep the users.
pub fn crashes_keep_users()
    ensures crash { (life : CoreLife) → (life_after_crash life).life.users ≡ life.users }
    ensures recover { (life : CoreLife) → (life_after_recovery life).life.users ≡ life.users }
{}
